ghost use Rattle.std.specs.Prelude.{◌≡◌, ℕ, filter, is_some, OnOk, OnErr, []};
ghost use Rattle.cat_core.specs.declared.stamps.StampRow.{StampRow as Row};
ghost use Rattle.cat_core.specs.Ages.{AreBetween, IsPlace};
ghost use Rattle.cat_core.specs.Stamps as spec;

use q_base::{NoMemory, ObjId, Stamp};
use std::alloc::Global;
use std::marker::Model;

/// When each object that is there, and the catalog as a whole, was made or changed last.
#[derive(Drop)]
pub struct Stamps {
    // By ascending ids. An object that is gone keeps its row, without a stamp, until `forget`.
    rows: Vec<StampRow>,
    all: Stamp,
    // Above all ids of rows that ever were.
    next_id: u64,
}

/// The stamp of an object, or `None` of one that is gone.
#[derive(Clone, Copy)]
pub struct StampRow {
    pub id: ObjId,
    pub stamp: Option<Stamp>,
}

impl Model for Stamps {
    ghost use Rattle.cat_core.specs.Ages.{AreBetween};
    ghost use Rattle.cat_core.specs.Stamps.{StampsState};
    ghost use Rattle.cat_core.specs.declared.stamps.StampRow.{StampRow};

    ghost Value = { StampsState };

    ghost view = { λ s. record { rows = s.rows.items; all = s.all; next_id = s.next_id } };

    ghost invariant = { λ s. AreBetween (λ (row : StampRow). row.id.0) 0 s.rows.items s.next_id };
}

impl Stamps {
    /// Those of the empty catalog, which was never changed.
    pub fn new(alloc: Global) -> Stamps
        ensures { result ≡ record { rows = []; all = record { 0 = 0 }; next_id = 0 } }
    {
        Stamps {
            rows: Vec::new(alloc),
            all: Stamp(0),
            next_id: 0,
        }
    }

    /// The stamp of an object, or `None` where it isn't there.
    pub fn of(&self, id: ObjId) -> Option<Stamp>
        ensures { result ≡ spec.stamp_in self.now.rows id }
    {
        let rows = self.rows.as_slice();
        stamp_at(rows, place_of(rows, id))
    }

    /// The stamp of the last change that concerned every object.
    pub fn all(&self) -> Stamp
        ensures { result ≡ self.now.all }
    {
        self.all
    }

    /// The rows of the objects that are there or were there since the last `forget`, by ascending ids.
    pub fn rows(&self) -> &[StampRow]
        ensures { result.now ≡ self.now.rows }
    {
        self.rows.as_slice()
    }

    /// Gives an object that is later than all others its first stamp, or leaves all as it was.
    pub fn add(&mut self, id: ObjId, stamp: Stamp) -> Result<(), NoMemory>
        ensures ok { OnOk result (self.new ≡ spec.with_first id stamp self.old) }
        ensures err { OnErr result (self.new ≡ self.old) }
    {
        let number = u64::from(id.0);
        if self.next_id <= number && id.0 < u32::MAX {
            self.rows.push(StampRow {
                id,
                stamp: Some(stamp),
            })?;
            self.next_id = number + 1;
        }
        Ok(())
    }

    /// Gives an object another stamp, or none. It does nothing where the object has no row.
    pub fn give(&mut self, id: ObjId, stamp: Option<Stamp>)
        ensures { self.new ≡ record self.old { rows = spec.with_stamp id stamp self.old.rows } }
    {
        match place_of(self.rows.as_slice(), id) {
            Some(place) => put_at(&mut self.rows, place, stamp),
            None => {}
        }
    }

    /// Gives the object of a row another stamp, or none.
    pub fn give_at(&mut self, place: usize, stamp: Option<Stamp>)
        ensures { self.new ≡ record self.old { rows = spec.stamped_at place stamp self.old.rows } }
    {
        put_at(&mut self.rows, place, stamp);
    }

    /// Gives the catalog as a whole another stamp.
    pub fn give_all(&mut self, stamp: Stamp)
        ensures { self.new ≡ record self.old { all = stamp } }
    {
        self.all = stamp;
    }

    /// Gives up the rows of objects that are gone.
    pub fn forget(&mut self)
        ensures { self.new ≡ record self.old { rows = filter (λ row. is_some row.stamp) self.old.rows } }
    {
        self.rows.retain(|row| row.stamp.is_some());
    }
}

fn stamp_at(rows: &[StampRow], place: Option<usize>) -> Option<Stamp>
    ensures { result ≡ spec.stamp_of_row rows.now place }
{
    match rows.get(place?) {
        Some(row) => row.stamp,
        None => None,
    }
}

fn put_at(rows: &mut Vec<StampRow>, place: usize, stamp: Option<Stamp>)
    ensures { rows.new.items ≡ spec.stamped_at place stamp rows.old.items }
{
    match rows.get_mut(place) {
        Some(row) => row.stamp = stamp,
        None => {}
    }
}

// The place of an id in rows of ascending ids.
fn place_of(rows: &[StampRow], id: ObjId) -> Option<usize>
    ensures { (high : ℕ) → AreBetween (λ (row : Row). row.id.0) 0 rows.now high → IsPlace (λ (row : Row). row.id.0) id.0 rows.now result }
{
    match rows.binary_search_by(|row| row.id.0.cmp(&id.0)) {
        Ok(place) => Some(place),
        Err(_) => None,
    }
}
