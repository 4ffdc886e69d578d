ghost use Rattle.std.specs.Prelude.{◌≡◌, [], take};

use q_base::NoMemory;
use std::alloc::Global;
use std::marker::Model;

/// Rows of which some were taken out and can be put back. Each step has one that takes it back, and where the later
/// steps were taken back before, taking it back needs no memory and gives the very rows that were there.
#[derive(Drop)]
pub(crate) struct Shelf<T> {
    // The rows that are there, and behind them those that were taken out.
    rows: Vec<T>,
    // How many are there.
    live: usize,
}

impl<T> Model for Shelf<T> {
    ghost use Rattle.std.specs.Prelude.{List, take};
    ghost use Rattle.std.specs.Coded.{coded_list};

    ghost Value = { List T };

    ghost coded = { coded_list T.code };

    ghost view = { λ shelf. take shelf.live shelf.rows.items };
}

impl<T: Drop> Shelf<T> {
    pub(crate) fn new(alloc: Global) -> Shelf<T> {
        Shelf {
            rows: Vec::new(alloc),
            live: 0,
        }
    }

    /// The rows that are there.
    pub(crate) fn as_slice(&self) -> &[T]
        ensures { result.now ≡ self.now }
    {
        let rows = self.rows.as_slice();
        match rows.get(..self.live) {
            Some(live) => live,
            None => rows,
        }
    }

    /// Puts a row behind those that are there, or leaves all as it was.
    pub(crate) fn add(&mut self, row: T) -> Result<(), NoMemory> {
        self.rows.push(row)?;
        let last = self.rows.len() - 1;
        if self.live <= last {
            self.rows.swap(self.live, last);
            self.live += 1;
        }
        Ok(())
    }

    /// Takes back the last `add`.
    pub(crate) fn take_added(&mut self) {
        let count = self.rows.len();
        if 0 < self.live && self.live <= count {
            self.live -= 1;
            self.rows.swap(self.live, count - 1);
            let _added = self.rows.pop();
        }
    }

    /// Takes the row at a place out.
    pub(crate) fn take_out(&mut self, place: usize) {
        if place < self.live && self.live <= self.rows.len() {
            self.live -= 1;
            self.rows.swap(place, self.live);
        }
    }

    /// Takes back the last `take_out`, which was of this place.
    pub(crate) fn put_back(&mut self, place: usize) {
        if place <= self.live && self.live < self.rows.len() {
            self.rows.swap(place, self.live);
            self.live += 1;
        }
    }

    /// Puts a row in the place of another, which it answers.
    pub(crate) fn replace(&mut self, place: usize, row: T) -> Option<T> {
        match self.rows.get_mut(place) {
            Some(there) => Some(std::mem::replace(there, row)),
            None => None,
        }
    }

    /// Gives up the rows that were taken out.
    pub(crate) fn forget(&mut self) {
        self.rows.truncate(self.live);
    }
}
