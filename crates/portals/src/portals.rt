ghost use Rattle.std.specs.Prelude.{◌≡◌, OnOk, length};
ghost use Rattle.portals.specs.Courses.{course_of};
ghost use Rattle.portals.specs.Cursors.{AllFit};
ghost use Rattle.portals.specs.Sessions.{DoesOne};
ghost use Rattle.portals.specs.Walks.{Fetches, Counts};

use crate::cursor::{Cursor, CursorView};
use indexmap::IndexMap;
use q_base::{Code, IdList, NoMemory, ObjId, Stop, Str, Work, refusal, refusal_naming};
use q_value::{RowFeed, Rows};
use sql_tree::Motion;
use std::alloc::Global;
use std::marker::Model;
use std::sync::ledger::Ledger;

/// How many cursors there may be at once (this project's own limit).
const MAX_CURSORS: usize = 4_096;

/// The cursors of a session by name, in order of declaration. `F` gives a cursor's rows; `P` is what a caller gives
/// along at the declaration and gets back (`ended`) once the cursor has ended or was stored, such as the pin of its
/// snapshot.
#[derive(Drop)]
pub struct Portals<F, P> {
    alloc: Global,
    cursors: IndexMap<String, Cursor<F, P>>,
    // The pins of cursors that ended or were stored. Its room is taken when a cursor is declared.
    ended: Vec<P>,
}

impl<F, P> Model for Portals<F, P> {
    ghost use Rattle.std.specs.Prelude.{map};
    ghost use Rattle.std.specs.String.{string_bytes};
    ghost use Rattle.indexmap.specs.IndexMap.{keys, values};
    ghost use Rattle.portals.specs.Cursors.{Cursors};

    ghost Value = { Cursors F P };

    ghost view = { λ p. record { names = map string_bytes (keys p.cursors); cursors = values p.cursors; ended = p.ended.items } };
}

impl<F: RowFeed + Drop, P: Drop> Portals<F, P> {
    /// No cursors. It takes no memory.
    pub fn new(alloc: Global) -> Portals<F, P> {
        Portals {
            alloc,
            cursors: IndexMap::new(alloc),
            ended: Vec::new(alloc),
        }
    }

    /// How many cursors there are.
    pub fn len(&self) -> usize
        ensures { result ≡ length self.now.cursors }
    {
        self.cursors.len()
    }

    /// Whether there are no cursors.
    pub fn is_empty(&self) -> bool {
        self.cursors.len() == 0
    }

    /// Whether there is a cursor of the name.
    pub fn contains(&self, name: &str) -> bool {
        self.cursors.contains_key(name)
    }

    /// Whether the cursor of a name belongs to this transaction; `None` exactly where there is none.
    pub fn is_of_transaction(&self, name: &str) -> Option<bool> {
        let cursor = self.cursors.get(name)?;
        Some(cursor.is_within(0))
    }

    /// Opens a cursor before its first row, at a level that is the number of savepoints (PostgreSQL's manual,
    /// "DECLARE"). It pulls nothing. 42P03 where there is a cursor of the name, and then 54000 exactly where there are
    /// 4,096 cursors (this project's own limit).
    pub fn declare(
        &mut self,
        name: Str,
        feed: F,
        pin: P,
        scroll: bool,
        hold: bool,
        level: u32,
        uses: IdList,
    ) -> Result<(), Stop> {
        self.admit(name.as_str())?;
        self.take_room()?;
        let cursor = Cursor::new(self.alloc, feed, pin, scroll, hold, level, uses);
        self.cursors.insert(name.into_string(), cursor)?;
        Ok(())
    }

    // Refuses a name that is taken, and a cursor too many.
    fn admit(&self, name: &str) -> Result<(), Stop> {
        if self.contains(name) {
            return Err(refusal_naming(self.alloc, Code::DuplicateCursor, name));
        }
        if MAX_CURSORS <= self.len() {
            return Err(refusal(self.alloc, Code::LimitExceeded));
        }
        Ok(())
    }

    // Takes the room for the pins of all cursors and of one more.
    fn take_room(&mut self) -> Result<(), NoMemory> {
        self.ended.reserve(self.cursors.len() + 1)?;
        Ok(())
    }

    /// The rows of a motion of the cursor (PostgreSQL's manual, "FETCH"), which pulls no more than the motion needs.
    /// 34000 where there is no cursor of the name; 55000 where the cursor is failed; 55000 where it was declared
    /// NO SCROLL and the motion goes back; the fault of its list where the motion reaches that. Each refusal but 34000
    /// leaves the cursor failed, at its position.
    pub fn fetch<L: Ledger>(
        &mut self,
        name: &str,
        motion: Motion,
        place: &F::Place,
        work: &mut Work<L>,
    ) -> Result<Rows, Stop>
        requires fits { AllFit (λ feed. F.fits feed place.now) self.old.cursors }
        ensures moves { DoesOne (λ old outcome new. Fetches (λ feed. F.rest feed place.now) name.now (course_of motion) old outcome new) name.now self.old result self.new }
    {
        let Some(at) = self.cursors.get_index_of(name) else {
            return Err(refusal_naming(self.alloc, Code::UnknownCursor, name));
        };
        let alloc = self.alloc;
        let Some(cursor) = self.cursors.get_index_mut(at) else {
            unreachable!()
        };
        cursor.fetch(alloc, name, motion, place, work)
    }

    /// How many rows `fetch` would give, for MOVE (PostgreSQL's manual, "MOVE"): with the same refusals, but that a
    /// NO SCROLL cursor may stay on its row.
    pub fn shift<L: Ledger>(
        &mut self,
        name: &str,
        motion: Motion,
        place: &F::Place,
        work: &mut Work<L>,
    ) -> Result<u64, Stop>
        requires fits { AllFit (λ feed. F.fits feed place.now) self.old.cursors }
        ensures moves { DoesOne (λ old outcome new. Counts (λ feed. F.rest feed place.now) name.now (course_of motion) old outcome new) name.now self.old result self.new }
    {
        let Some(at) = self.cursors.get_index_of(name) else {
            return Err(refusal_naming(self.alloc, Code::UnknownCursor, name));
        };
        let alloc = self.alloc;
        let Some(cursor) = self.cursors.get_index_mut(at) else {
            unreachable!()
        };
        cursor.shift(alloc, name, motion, place, work)
    }

    /// Ends a transaction that is kept: the cursors of this transaction that were declared WITH HOLD and aren't
    /// failed are stored, in order of declaration, and belong to an earlier transaction from then on; the others of this
    /// transaction end. The fault of such a list refuses it, and then no cursor has ended or was stored.
    pub fn hold_all<L: Ledger>(&mut self, place: &F::Place, work: &mut Work<L>) -> Result<(), Stop>
        requires { AllFit (λ feed. F.fits feed place.now) self.old.cursors }
    {
        for at in 0..self.cursors.len() {
            self.store(at, place, work)?;
        }
        self.give_back(0);
        self.cursors
            .retain(|_, cursor| !cursor.is_within(0) || cursor.is_to_store());
        self.leave_transaction();
        Ok(())
    }

    // Pulls all that is left of the cursor at a place in order of declaration, where it is to be stored.
    fn store<L: Ledger>(
        &mut self,
        at: usize,
        place: &F::Place,
        work: &mut Work<L>,
    ) -> Result<(), Stop>
        requires fits { AllFit (λ feed. F.fits feed place.now) self.old.cursors }
        ensures fits { OnOk result (AllFit (λ feed. F.fits feed place.now) self.new.cursors) }
    {
        let alloc = self.alloc;
        let Some(cursor) = self.cursors.get_index_mut(at) else {
            return Ok(());
        };
        cursor.store(alloc, place, work)
    }

    // Makes all cursors those of an earlier transaction.
    fn leave_transaction(&mut self) {
        for at in 0..self.cursors.len() {
            if let Some(cursor) = self.cursors.get_index_mut(at) {
                cursor.leave_transaction();
            }
        }
    }

    /// Ends a transaction that is rolled back: its cursors end, and those of earlier ones stay.
    pub fn end_transaction(&mut self) {
        self.end_level(0);
    }

    /// Ends the cursors of this transaction of a level and deeper ones, as ROLLBACK TO SAVEPOINT does.
    pub fn end_level(&mut self, level: u32) {
        self.give_back(level);
        self.cursors.retain(|_, cursor| !cursor.is_within(level));
    }

    /// Gives the cursors of this transaction of a level, which is at least 1, and of deeper ones the level before it, as
    /// RELEASE SAVEPOINT does.
    pub fn release_level(&mut self, level: u32) {
        for at in 0..self.cursors.len() {
            if let Some(cursor) = self.cursors.get_index_mut(at) {
                cursor.release(level);
            }
        }
    }

    /// Ends the cursor of a name; false exactly where there is none.
    pub fn close(&mut self, name: &str) -> bool {
        match self.cursors.shift_remove(name) {
            Some(cursor) => {
                self.keep_pin(cursor.into_pin());
                true
            }
            None => false,
        }
    }

    /// Ends all cursors.
    pub fn close_all(&mut self) {
        for at in 0..self.cursors.len() {
            self.give_back_at(at);
        }
        self.cursors.clear();
    }

    /// Whether a cursor of this transaction that isn't failed uses the table.
    pub fn uses(&self, table: ObjId) -> bool {
        self.cursors.values().any(|cursor| cursor.holds_back(table))
    }

    /// The cursor of a place in order of declaration, counted from 0.
    pub fn show(&self, at: usize) -> Option<CursorView<'_>> {
        let (name, cursor) = self.cursors.get_index(at)?;
        Some(cursor.shown(name.as_str()))
    }

    /// A pin of a cursor that has ended or was stored, each once; `None` where all were given.
    pub fn ended(&mut self) -> Option<P> {
        self.ended.pop()
    }

    // Gives back the pins of the cursors of this transaction of a level and deeper ones.
    fn give_back(&mut self, level: u32) {
        for at in 0..self.cursors.len() {
            if let Some((_, cursor)) = self.cursors.get_index(at) {
                if cursor.is_within(level) {
                    self.give_back_at(at);
                }
            }
        }
    }

    // Gives back the pin of the cursor at a place in order of declaration.
    fn give_back_at(&mut self, at: usize) {
        if let Some(cursor) = self.cursors.get_index_mut(at) {
            let pin = cursor.take_pin();
            self.keep_pin(pin);
        }
    }

    // Keeps a pin for the caller, in the room that was taken when its cursor was declared.
    fn keep_pin(&mut self, pin: Option<P>) {
        if let Some(pin) = pin {
            let _ = self.ended.push(pin);
        }
    }
}
