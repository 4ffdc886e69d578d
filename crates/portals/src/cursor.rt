ghost use Rattle.std.specs.Prelude.{◌≡◌, ◌+◌, ◌-◌, ◌<◌, ◌≤◌, ◌^◌, max, not, ◌&&◌, ◌++◌, [], Some, None, IfOk, OnOk, IfSome, true, false};
ghost use Rattle.portals.specs.Courses as spec;
ghost use Rattle.portals.specs.Cursors.{failed, is_to_store, is_within, released, holds_back, IsSound};
ghost use Rattle.portals.specs.Walks.{Pulls, PullsTo, Walks, Fetches, Counts, Stores, last_known, goal_of, row_at, rows_up, rows_down, rows_at, forgetting};

use crate::course::{Course, course_of};
use holdable_store::RowBuffer;
use q_base::{Code, IdList, ListOf, NoMemory, ObjId, Stop, Work, refusal, refusal_naming};
use q_value::{Outcome, Row, RowFeed, Rows};
use sql_tree::Motion;
use std::alloc::Global;
use std::marker::Model;
use std::sync::ledger::Ledger;

/// One cursor: how far it is on its list, which is what it keeps followed by what its feed has left.
#[derive(Drop)]
pub struct Cursor<F, P> {
    // What was not pulled yet; nothing where all was, and where the cursor failed.
    pub(crate) feed: Option<F>,
    // What the caller wants back once the cursor has ended or was stored.
    pub(crate) pin: Option<P>,
    // The outcomes pulled, all of them rows; of a NO SCROLL cursor those that it can still reach.
    pub(crate) kept: RowBuffer,
    // The place stood on: 0 before the first row, and one more than the last row's behind it.
    pub(crate) position: u64,
    // How many outcomes were pulled, the end and a fault among them: the greatest place walked through.
    pub(crate) reach: u64,
    pub(crate) scroll: bool,
    // WITH HOLD was written.
    pub(crate) hold: bool,
    pub(crate) failed: bool,
    // How many savepoints there were at its declaration; nothing for one of an earlier transaction.
    pub(crate) level: Option<u32>,
    // The tables and views that its query reads.
    pub(crate) uses: IdList,
}

impl<F, P> Model for Cursor<F, P> {
    ghost use Rattle.portals.specs.Cursors.{Standing, IsSound};

    ghost Value = { Standing F P };

    ghost view = { λ c. record { feed = c.feed; pin = c.pin; kept = c.kept; position = c.position; reach = c.reach; scroll = c.scroll; hold = c.hold; failed = c.failed; level = c.level; uses = c.uses } };

    ghost invariant = { λ c. IsSound {F = F} {P = P} (record { feed = c.feed; pin = c.pin; kept = c.kept; position = c.position; reach = c.reach; scroll = c.scroll; hold = c.hold; failed = c.failed; level = c.level; uses = c.uses }) };
}

// What one pull gives.
pub(crate) enum Pulled {
    Row,
    End,
    Fault(Code),
}

/// A cursor as a session shows it.
#[derive(Clone, Copy)]
pub struct CursorView<'a> {
    pub name: &'a str,
    /// The place stood on: 0 before the first row, and one more than the last row's behind it.
    pub position: u64,
    /// WITH HOLD was written.
    pub held: bool,
    pub scroll: bool,
    pub failed: bool,
    /// The greatest place that was stood on or walked through: how many outcomes were pulled.
    pub reach: u64,
}

/// The rows of one motion: so many places from `start` on, upwards or downwards.
#[derive(Clone, Copy, Debug, PartialEq, Eq)]
pub(crate) struct Stretch {
    pub(crate) start: u64,
    pub(crate) count: u64,
    pub(crate) downwards: bool,
}

impl<F: RowFeed + Drop, P: Drop> Cursor<F, P> {
    /// A cursor before its first row, of which nothing is pulled.
    pub(crate) fn new(
        alloc: Global,
        feed: F,
        pin: P,
        scroll: bool,
        hold: bool,
        level: u32,
        uses: IdList,
    ) -> Cursor<F, P>
        ensures { result ≡ record { feed = Some feed; pin = Some pin; kept = record { first = 1; kept = [] }; position = 0; reach = 0; scroll = scroll; hold = hold; failed = false; level = Some level; uses = uses } }
    {
        Cursor {
            feed: Some(feed),
            pin: Some(pin),
            kept: RowBuffer::new(alloc, 1),
            position: 0,
            reach: 0,
            scroll,
            hold,
            failed: false,
            level: Some(level),
            uses,
        }
    }

    /// The rows of a motion, for FETCH. Refused as `walk` is.
    pub(crate) fn fetch<L: Ledger>(
        &mut self,
        alloc: Global,
        name: &str,
        motion: Motion,
        place: &F::Place,
        work: &mut Work<L>,
    ) -> Result<Rows, Stop>
        requires fits { IfSome self.old.feed (λ feed. F.fits feed place.now) }
        ensures fetches { Fetches (λ feed. F.rest feed place.now) name.now (spec.course_of motion) self.old result self.new }
        ensures counted { OnOk result (work.new ≡ record work.old { pulls = work.old.pulls + (self.new.reach - self.old.reach) }) }
    {
        let stretch = self.walk(alloc, name, course_of(motion), true, place, work)?;
        let rows = self.rows(alloc, stretch)?;
        self.forget();
        Ok(rows)
    }

    /// How many rows a motion has, for MOVE. Refused as `walk` is.
    pub(crate) fn shift<L: Ledger>(
        &mut self,
        alloc: Global,
        name: &str,
        motion: Motion,
        place: &F::Place,
        work: &mut Work<L>,
    ) -> Result<u64, Stop>
        requires fits { IfSome self.old.feed (λ feed. F.fits feed place.now) }
        ensures counts { Counts (λ feed. F.rest feed place.now) name.now (spec.course_of motion) self.old result self.new }
        ensures counted { OnOk result (work.new ≡ record work.old { pulls = work.old.pulls + (self.new.reach - self.old.reach) }) }
    {
        let stretch = self.walk(alloc, name, course_of(motion), false, place, work)?;
        self.forget();
        Ok(stretch.count)
    }

    /// Pulls all that is left, where the end of this transaction stores the cursor. Refused by the fault of its list.
    pub(crate) fn store<L: Ledger>(
        &mut self,
        alloc: Global,
        place: &F::Place,
        work: &mut Work<L>,
    ) -> Result<(), Stop>
        requires fits { IfSome self.old.feed (λ feed. F.fits feed place.now) }
        ensures fits { OnOk result (IfSome self.new.feed (λ feed. F.fits feed place.now)) }
        ensures stores { Stores (λ feed. F.rest feed place.now) self.old result self.new }
        ensures counted { OnOk result (work.new ≡ record work.old { pulls = work.old.pulls + (self.new.reach - self.old.reach) }) }
    {
        if !self.is_to_store() {
            return Ok(());
        }
        match self.pull_to(alloc, u64::MAX, place, work)? {
            Some(code) => Err(refusal(alloc, code)),
            None => Ok(()),
        }
    }

    // Drops the rows that a cursor that doesn't scroll can't reach again.
    fn forget(&mut self)
        ensures { self.new ≡ forgetting self.old }
    {
        if !self.scroll {
            self.kept.drop_before(self.position);
        }
    }

    /// Makes the cursor one of an earlier transaction.
    pub(crate) fn leave_transaction(&mut self)
        ensures { self.new ≡ record self.old { level = None } }
    {
        self.level = None;
    }

    /// Gives a cursor of a level, which is at least 1, or of a deeper one the level before it.
    pub(crate) fn release(&mut self, level: u32)
        ensures { self.new ≡ record self.old { level = released level self.old.level } }
    {
        if self.is_within(level) {
            self.level = Some(level.saturating_sub(1));
        }
    }

    /// Gives the pin up.
    pub(crate) fn take_pin(&mut self) -> Option<P>
        ensures given { result ≡ self.old.pin }
        ensures left { self.new ≡ record self.old { pin = None } }
    {
        self.pin.take()
    }

    /// The pin of a cursor that ends.
    pub(crate) fn into_pin(self) -> Option<P>
        ensures { result ≡ self.pin }
    {
        let Cursor { pin, .. } = self;
        pin
    }

    /// The cursor as a session shows it.
    pub(crate) fn shown<'a>(&self, name: &'a str) -> CursorView<'a> {
        CursorView {
            name,
            position: self.position,
            held: self.hold,
            scroll: self.scroll,
            failed: self.failed,
            reach: self.reach,
        }
    }

    /// Moves the cursor and gives the places of the motion's rows, all of which it keeps. Each refusal makes
    /// it failed: 55000 where it was, 55000 where it doesn't scroll and the motion goes back, and the fault of its
    /// list where the motion reaches that.
    fn walk<L: Ledger>(
        &mut self,
        alloc: Global,
        name: &str,
        course: Course,
        fetching: bool,
        place: &F::Place,
        work: &mut Work<L>,
    ) -> Result<Stretch, Stop>
        requires fits { IfSome self.old.feed (λ feed. F.fits feed place.now) }
        ensures walks { Walks (λ feed. F.rest feed place.now) name.now course fetching self.old result self.new }
        ensures counted { OnOk result (work.new ≡ record work.old { pulls = work.old.pulls + (self.new.reach - self.old.reach) }) }
        ensures bound { IfOk result (λ places. places.start + places.count ≤ 2 ^ 63) }
    {
        if self.failed {
            return Err(refusal_naming(alloc, Code::PortalCannotRun, name));
        }
        if self.refuses(course, fetching) {
            self.fail(alloc);
            return Err(refusal(alloc, Code::ForwardOnly));
        }
        if let Some(code) = self.pull_to(alloc, self.goal(course), place, work)? {
            return Err(refusal(alloc, code));
        }
        Ok(self.arrive(course))
    }

    // Moves the cursor where enough was pulled, and gives the places of the rows.
    fn arrive(&mut self, course: Course) -> Stretch
        requires early { self.old.kept.first ≤ max 1 (spec.arrival course self.old.position self.old.reach) }
        ensures places { result ≡ spec.stretch course self.old.position (spec.arrival course self.old.position self.old.reach) (last_known self.old.feed self.old.reach) }
        ensures sound { IsSound self.old }
        ensures position { self.new ≡ record self.old { position = spec.arrival course self.old.position self.old.reach } }
        ensures bound { result.start + result.count ≤ 2 ^ 63 }
    {
        let stretch = self.stretch(course);
        self.position = self.arrival(course);
        stretch
    }

    /// Pulls the outcomes up to a place, or up to the list's end or fault where that comes before. Gives the
    /// fault.
    pub(crate) fn pull_to<L: Ledger>(
        &mut self,
        alloc: Global,
        goal: u64,
        place: &F::Place,
        work: &mut Work<L>,
    ) -> Result<Option<Code>, NoMemory>
        requires alive { self.old.failed ≡ false }
        requires fits { IfSome self.old.feed (λ feed. F.fits feed place.now) }
        ensures pulled { IfOk result (λ fault. PullsTo (λ feed. F.rest feed place.now) goal self.old fault self.new) }
        ensures counted { OnOk result (work.new ≡ record work.old { pulls = work.old.pulls + (self.new.reach - self.old.reach) }) }
        ensures fits { OnOk result (IfSome self.new.feed (λ feed. F.fits feed place.now)) }
    {
        for _turn in self.reach..goal {
            match self.pull(alloc, place, work)? {
                Pulled::Row => {}
                Pulled::End => return Ok(None),
                Pulled::Fault(code) => return Ok(Some(code)),
            }
        }
        Ok(None)
    }

    // Pulls the next outcome and keeps it where it is a row.
    fn pull<L: Ledger>(
        &mut self,
        alloc: Global,
        place: &F::Place,
        work: &mut Work<L>,
    ) -> Result<Pulled, NoMemory>
        requires alive { self.old.failed ≡ false }
        requires fits { IfSome self.old.feed (λ feed. F.fits feed place.now) }
        ensures pulled { IfOk result (λ pulled. Pulls (λ feed. F.rest feed place.now) self.old pulled self.new) }
        ensures fits { OnOk result (IfSome self.new.feed (λ feed. F.fits feed place.now)) }
        ensures counted { OnOk result (work.new ≡ record work.old { pulls = work.old.pulls + (self.new.reach - self.old.reach) }) }
    {
        let Some(feed) = &mut self.feed else {
            return Ok(Pulled::End);
        };
        match feed.next(alloc, place, work)? {
            Some(Outcome::Row(row)) => {
                self.kept.push(Outcome::Row(row))?;
                self.reach += 1;
                Ok(Pulled::Row)
            }
            Some(Outcome::Fault(code)) => {
                self.fail(alloc);
                self.reach += 1;
                Ok(Pulled::Fault(code))
            }
            None => {
                self.feed = None;
                self.reach += 1;
                Ok(Pulled::End)
            }
        }
    }

    /// Leaves the cursor without rows; it answers nothing more.
    pub(crate) fn fail(&mut self, alloc: Global)
        ensures { self.new ≡ failed self.old }
    {
        self.failed = true;
        self.feed = None;
        self.kept = RowBuffer::new(alloc, 1);
    }

    // Whether the cursor doesn't scroll and the motion goes back.
    fn refuses(&self, course: Course, fetching: bool) -> bool
        ensures told { result ≡ (not self.now.scroll && spec.goes_back course fetching self.now.position (last_known self.now.feed self.now.reach)) }
        ensures sound { IsSound self.now }
    {
        !self.scroll && self.goes_back(course, fetching)
    }

    // Whether a cursor that doesn't scroll refuses the motion, as PostgreSQL's portal does (pquery.c,
    // DoPortalRunFetch): each that goes back, that begins again, or that gives the row stood on once more.
    fn goes_back(&self, course: Course, fetching: bool) -> bool
        ensures { result ≡ spec.goes_back course fetching self.now.position (last_known self.now.feed self.now.reach) }
    {
        match course {
            Course::Backward(_) | Course::FromEnd(_) | Course::Behind(_) => true,
            Course::To(n) => n <= self.position && 0 < self.position,
            Course::Stay => fetching && self.is_row(self.position),
            Course::Forward(_) | Course::Ahead(_) => false,
        }
    }

    // The farthest place that a motion needs.
    fn goal(&self, course: Course) -> u64
        ensures { result ≡ goal_of (spec.needs course self.now.position) }
    {
        match course {
            Course::Stay | Course::Backward(_) | Course::Behind(_) => self.position,
            Course::Forward(Some(n)) | Course::Ahead(n) => self.position.saturating_add(n),
            Course::To(n) => n,
            Course::Forward(None) | Course::FromEnd(_) => u64::MAX,
        }
    }

    // The place stood on after a motion for which enough was pulled.
    fn arrival(&self, course: Course) -> u64
        ensures arrival { result ≡ spec.arrival course self.now.position self.now.reach }
        ensures within { result ≤ self.now.reach }
    {
        match course {
            Course::Stay => self.position,
            Course::Forward(None) => self.reach,
            Course::Forward(Some(n)) | Course::Ahead(n) => {
                self.position.saturating_add(n).min(self.reach)
            }
            Course::Backward(None) => 0,
            Course::Backward(Some(n)) | Course::Behind(n) => self.position.saturating_sub(n),
            Course::To(n) => n.min(self.reach),
            Course::FromEnd(n) => self.reach.saturating_sub(n),
        }
    }

    // The rows of a motion for which enough was pulled.
    fn stretch(&self, course: Course) -> Stretch
        ensures places { result ≡ spec.stretch course self.now.position (spec.arrival course self.now.position self.now.reach) (last_known self.now.feed self.now.reach) }
        ensures bound { result.start + result.count ≤ 2 ^ 63 }
    {
        let arrival = self.arrival(course);
        match course {
            Course::Forward(_) => Stretch {
                start: self.position.saturating_add(1),
                count: arrival.min(self.last_row()).saturating_sub(self.position),
                downwards: false,
            },
            Course::Backward(_) => Stretch {
                start: self.position.saturating_sub(1),
                count: self.position.saturating_sub(arrival.max(1)),
                downwards: true,
            },
            Course::Stay
            | Course::To(_)
            | Course::FromEnd(_)
            | Course::Ahead(_)
            | Course::Behind(_) => self.single(arrival),
        }
    }

    // The row of one place, where it is a row's.
    fn single(&self, place: u64) -> Stretch
        ensures place { result ≡ spec.single place (last_known self.now.feed self.now.reach) }
        ensures small { result.start ≡ place }
        ensures one { result.count ≤ 1 }
    {
        Stretch {
            start: place,
            count: if self.is_row(place) { 1 } else { 0 },
            downwards: false,
        }
    }

    // Whether a place walked through is a row's.
    fn is_row(&self, place: u64) -> bool
        ensures { result ≡ spec.is_row place (last_known self.now.feed self.now.reach) }
    {
        1 <= place && place <= self.last_row()
    }

    // The last place known to be a row's: that of the last row where all is pulled.
    fn last_row(&self) -> u64
        ensures { result ≡ last_known self.now.feed self.now.reach }
    {
        match self.feed {
            Some(_) => self.reach,
            None => self.reach.saturating_sub(1),
        }
    }

    // The rows of a stretch.
    fn rows(&self, alloc: Global, places: Stretch) -> Result<Rows, NoMemory>
        requires { places.start + places.count ≤ 2 ^ 63 }
        ensures { IfOk result (λ rows. rows ≡ rows_at self.now.kept places) }
    {
        if places.downwards {
            self.rows_down(alloc, places.start, places.count)
        } else {
            self.rows_up(alloc, places.start, places.count)
        }
    }

    fn rows_up(&self, alloc: Global, start: u64, count: u64) -> Result<Rows, NoMemory>
        requires { start + count ≤ 2 ^ 63 }
        ensures { IfOk result (λ rows. rows ≡ rows_up self.now.kept start count) }
    {
        let mut rows = ListOf::new(alloc);
        for step in 0..count {
            self.push_row(alloc, start + step, &mut rows)?;
        }
        Ok(rows)
    }

    fn rows_down(&self, alloc: Global, start: u64, count: u64) -> Result<Rows, NoMemory>
        ensures { IfOk result (λ rows. rows ≡ rows_down self.now.kept start count) }
    {
        let mut rows = ListOf::new(alloc);
        for step in 0..count {
            self.push_row(alloc, start.saturating_sub(step), &mut rows)?;
        }
        Ok(rows)
    }

    fn push_row(&self, alloc: Global, place: u64, rows: &mut Rows) -> Result<(), NoMemory>
        ensures { OnOk result (rows.new ≡ rows.old ++ row_at self.now.kept place) }
    {
        match self.kept.get(place) {
            Some(Outcome::Row(row)) => {
                let row = copy_row(alloc, row)?;
                rows.push(row)
            }
            Some(Outcome::Fault(_)) | None => Ok(()),
        }
    }

    /// Whether the cursor belongs to this transaction, at this level of savepoints or a deeper one.
    pub(crate) fn is_within(&self, level: u32) -> bool
        ensures { result ≡ is_within level self.now.level }
    {
        match self.level {
            Some(own) => level <= own,
            None => false,
        }
    }

    /// Whether the end of this transaction stores the cursor.
    pub(crate) fn is_to_store(&self) -> bool
        ensures told { result ≡ is_to_store self.now }
        ensures alive { result ≡ true → self.now.failed ≡ false }
    {
        self.level.is_some() && self.hold && !self.failed
    }

    /// Whether the cursor keeps a change of the table's definition off.
    pub(crate) fn holds_back(&self, table: ObjId) -> bool
        ensures { result ≡ holds_back table self.now }
    {
        self.level.is_some() && !self.failed && self.uses.as_slice().contains(&table)
    }
}

// A second owner of the same values.
fn copy_row(alloc: Global, row: &Row) -> Result<Row, NoMemory>
    ensures { IfOk result (λ values. values ≡ row.now) }
{
    let mut values = ListOf::new(alloc);
    for value in row.as_slice() {
        values.push(value.copy(alloc)?)?;
    }
    Ok(values)
}
