//! The cursors of a session, each over a suspended run whose snapshot is pinned, with the types of their answers.

use crate::machine::cursor_row;
use executor::{Run, Stores};
use indexmap::IndexMap;
use portals::Portals;
use q_base::{IdList, NoMemory, ObjId, Stop, Str, Work};
use q_value::Rows;
use query_tree::ResultType;
use row_versions::Pin;
use sql_tree::Motion;
use std::alloc::Global;
use std::sync::ledger::Ledger;

/// The most cursors that a session may have at once, a limit of this project's own.
pub const MOST_CURSORS: usize = 4_096;

/// What a cursor is opened with.
#[derive(Drop)]
pub struct Opening {
    pub name: Str,
    pub scroll: bool,
    pub hold: bool,
    /// How many savepoints there are.
    pub level: u32,
    pub result: ResultType,
    /// The tables and views that its query reads.
    pub uses: IdList,
}

/// The cursors by name.
#[derive(Drop)]
pub struct Cursors {
    portals: Portals<Run, Pin>,
    results: IndexMap<String, ResultType>,
}

impl Cursors {
    pub fn new(alloc: Global) -> Cursors {
        Cursors {
            portals: Portals::new(alloc),
            results: IndexMap::new(alloc),
        }
    }

    pub fn len(&self) -> usize {
        self.portals.len()
    }

    pub fn contains(&self, name: &str) -> bool {
        self.portals.contains(name)
    }

    /// The type of a cursor's answer.
    pub fn result(&self, name: &str) -> Option<&ResultType> {
        self.results.get(name)
    }

    /// Opens a cursor over a run whose snapshot stays pinned until the cursor ends or is stored.
    pub fn declare(
        &mut self,
        alloc: Global,
        opening: Opening,
        run: Run,
        pin: Pin,
    ) -> Result<(), Stop> {
        let Opening {
            name,
            scroll,
            hold,
            level,
            result,
            uses,
        } = opening;
        let key = name.into_string();
        let shown = Str::from_text(alloc, key.as_str())?;
        self.results.insert(key, result)?;
        self.portals
            .declare(shown, run, pin, scroll, hold, level, uses)
    }

    /// The rows of a motion.
    pub fn fetch<L: Ledger>(
        &mut self,
        name: &str,
        motion: Motion,
        stores: &Stores,
        work: &mut Work<L>,
    ) -> Result<Rows, Stop> {
        self.portals.fetch(name, motion, stores, work)
    }

    /// How many rows a motion gives.
    pub fn shift<L: Ledger>(
        &mut self,
        name: &str,
        motion: Motion,
        stores: &Stores,
        work: &mut Work<L>,
    ) -> Result<u64, Stop> {
        self.portals.shift(name, motion, stores, work)
    }

    /// Stores the rows of the cursors WITH HOLD of this transaction, and ends its others.
    pub fn hold_all<L: Ledger>(
        &mut self,
        stores: &mut Stores,
        work: &mut Work<L>,
    ) -> Result<(), Stop> {
        self.portals.hold_all(stores, work)?;
        self.unpin(stores);
        Ok(())
    }

    /// Ends the cursors of this transaction.
    pub fn end_transaction(&mut self, stores: &mut Stores) {
        self.portals.end_transaction();
        self.unpin(stores);
    }

    /// Ends the cursors of this transaction that were declared at a level or a deeper one.
    pub fn end_level(&mut self, level: u32, stores: &mut Stores) {
        self.portals.end_level(level);
        self.unpin(stores);
    }

    /// Gives the cursors of a level and of deeper ones the level before it.
    pub fn release_level(&mut self, level: u32) {
        self.portals.release_level(level);
    }

    /// Ends a cursor; true exactly where it was there.
    pub fn close(&mut self, name: &str, stores: &mut Stores) -> bool {
        let closed = self.portals.close(name);
        self.unpin(stores);
        closed
    }

    /// Ends all cursors.
    pub fn close_all(&mut self, stores: &mut Stores) {
        self.portals.close_all();
        self.unpin(stores);
    }

    /// Whether a cursor of this transaction that isn't failed uses the table.
    pub fn uses(&self, table: ObjId) -> bool {
        self.portals.uses(table)
    }

    /// The rows of the line `\cursors`.
    pub fn shown(&self, alloc: Global) -> Result<Rows, NoMemory> {
        let mut rows = Rows::new(alloc);
        for place in 0..self.portals.len() {
            if let Some(view) = self.portals.show(place) {
                rows.push(cursor_row(alloc, &view)?)?;
            }
        }
        Ok(rows)
    }

    /// Hands back the pins of cursors that ended or were stored, and drops the types of those that ended.
    fn unpin(&mut self, stores: &mut Stores) {
        for _turn in 0..MOST_CURSORS {
            match self.portals.ended() {
                Some(pin) => unpinned(stores, pin),
                None => break,
            }
        }
        let portals = &self.portals;
        self.results
            .retain(|name, _| portals.contains(name.as_str()));
    }
}

fn unpinned(stores: &mut Stores, pin: Pin) {
    if stores.heaps.holds(&pin) {
        stores.heaps.unpin(pin);
    }
}
