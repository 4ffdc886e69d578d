ghost use Rattle.std.specs.Prelude.{◌≡◌, ◌∷◌, [], ◌++◌, OnOk, OnErr, if◌then◌else◌, is_some, slice_get, slice_index_or, unwrap_or, length};
ghost use Rattle.std.specs.Option.{option_copied, option_map_or};
ghost use Rattle.row_versions.specs.Versions.{superseded, ended, taken_back, kept, is_settled};

use crate::heap::Heap;
use crate::slot::{Deed, Slot};
use q_base::{NoMemory, ObjId};
use q_value::Row;
use std::alloc::Global;
use std::collections::HashMap;
use std::marker::Model;

/// A slot, by the place of its table among the tables and its number in the table.
#[derive(Clone, Copy)]
pub struct Place {
    pub table: usize,
    pub slot: usize,
}

/// The heaps of the tables, in the order in which they were added.
#[derive(Drop)]
pub struct Tables {
    heaps: Vec<Heap>,
    /// The place of each table among the heaps.
    places: HashMap<u32, usize>,
}

impl Model for Tables {
    ghost use Rattle.std.specs.Prelude.{List, ℕ, ◌≡◌, nat_eq};
    ghost use Rattle.std.specs.HashMap.{get};
    ghost use Rattle.row_versions.specs.Stored.{Stored, position_of};

    ghost Value = { List Stored };

    ghost view = { λ tables. tables.heaps.items };

    ghost invariant = { λ tables. (id : ℕ) → get nat_eq tables.places id ≡ position_of id tables.heaps.items };
}

impl Tables {
    ghost use Rattle.row_versions.specs.Stored.{position_of, with_table, with_slot, in_place, versions_in, slots_at, slots_of};

    pub fn new(alloc: Global) -> Tables
        ensures { result ≡ [] }
    {
        Tables {
            heaps: Vec::new(alloc),
            places: HashMap::new(alloc),
        }
    }

    /// Adds a table without slots, unless it is there.
    pub fn add(&mut self, alloc: Global, id: ObjId) -> Result<(), NoMemory>
        ensures ok { OnOk result (self.new ≡ with_table id self.old) }
        ensures err { OnErr result (self.new ≡ self.old) }
    {
        if self.find(id).is_some() {
            return Ok(());
        }
        self.heaps.reserve(1)?;
        self.places.insert(id.0, self.heaps.len())?;
        self.heaps.push_reserved(Heap::new(alloc, id));
        Ok(())
    }

    /// The place of a table.
    pub fn find(&self, id: ObjId) -> Option<usize>
        ensures { result ≡ position_of id.0 self.now }
    {
        self.places.get(&id.0).copied()
    }

    pub fn get(&self, table: usize) -> Option<&Heap>
        ensures { option_copied result ≡ slice_get self.now table }
    {
        self.heaps.get(table)
    }

    /// The heap of a table.
    pub fn heap_of(&self, id: ObjId) -> Option<&Heap>
        ensures { slots_of id self.now ≡ option_map_or (λ heap. heap.slots) (option_copied result) [] }
    {
        let table = self.find(id)?;
        self.get(table)
    }

    /// A slot of a table.
    pub fn slot_of(&self, id: ObjId, at: usize) -> Option<&Slot>
        ensures { slice_index_or (slots_of id self.now) at [] ≡ unwrap_or (option_copied result) [] }
    {
        let heap = self.heap_of(id)?;
        heap.get(at)
    }

    /// How many slots of a table were given.
    pub fn len_of(&self, table: usize) -> usize
        ensures { result ≡ length (slots_at table self.now) }
    {
        match self.get(table) {
            Some(heap) => heap.len(),
            None => 0,
        }
    }

    /// Gives the next slot of a table.
    pub fn push(&mut self, table: usize, slot: Slot) -> Result<(), NoMemory>
        ensures ok { OnOk result (self.new ≡ with_slot table slot self.old) }
        ensures err { OnErr result (self.new ≡ self.old) }
    {
        if table < self.heaps.len() {
            let heap = &mut self.heaps[table];
            heap.push(slot)?;
        }
        Ok(())
    }

    /// Puts a newer version into a slot.
    pub fn supersede(
        &mut self,
        alloc: Global,
        place: Place,
        row: Row,
        moment: u64,
    ) -> Result<(), NoMemory>
        ensures ok { OnOk result (self.new ≡ in_place place (superseded row moment) self.old) }
        ensures err { OnErr result (self.new ≡ self.old) }
    {
        let mut slot = self.take(alloc, place);
        let result = slot.supersede(row, moment);
        self.put(place, slot);
        result
    }

    /// Ends the newest version of a slot.
    pub fn end(&mut self, alloc: Global, place: Place, moment: u64)
        ensures { self.new ≡ in_place place (ended moment) self.old }
    {
        let mut slot = self.take(alloc, place);
        slot.end(moment);
        self.put(place, slot);
    }

    /// Takes back the last change of a slot.
    pub fn take_back(&mut self, alloc: Global, place: Place, deed: Deed)
        ensures { self.new ≡ in_place place (taken_back deed) self.old }
    {
        let mut slot = self.take(alloc, place);
        slot.take_back(deed);
        self.put(place, slot);
    }

    /// Drops the versions of a slot that neither the newest snapshot nor one of `pins` shows, and
    /// says whether there is none left but a live one.
    pub fn prune(&mut self, alloc: Global, place: Place, newest: u64, pins: &[u64]) -> bool
        ensures state { self.new ≡ in_place place (kept (newest ∷ pins.now)) self.old }
        ensures settled { result ≡ is_settled (kept (newest ∷ pins.now) (versions_in place self.old)) }
    {
        let mut slot = self.take(alloc, place);
        slot.prune(newest, pins);
        let is_settled = slot.is_settled();
        self.put(place, slot);
        is_settled
    }

    /// Whether a slot has no version but a live one.
    pub fn is_settled(&self, place: Place) -> bool
        ensures { result ≡ is_settled (versions_in place self.now) }
    {
        match self.slot_at(place) {
            Some(slot) => slot.is_settled(),
            None => true,
        }
    }

    fn slot_at(&self, place: Place) -> Option<&Slot>
        ensures { versions_in place self.now ≡ unwrap_or (option_copied result) [] }
    {
        let heap = self.get(place.table)?;
        heap.get(place.slot)
    }

    /// Takes the versions of a slot out of it, to be changed and put back.
    fn take(&mut self, alloc: Global, place: Place) -> Slot
        ensures versions { result ≡ versions_in place self.old }
        ensures empty { self.new ≡ in_place place (λ _. []) self.old }
    {
        if place.table < self.heaps.len() {
            let heap = &mut self.heaps[place.table];
            heap.take(alloc, place.slot)
        } else {
            Slot::empty(alloc)
        }
    }

    /// Puts versions into a slot.
    fn put(&mut self, place: Place, slot: Slot)
        ensures { self.new ≡ in_place place (λ _. slot) self.old }
    {
        if place.table < self.heaps.len() {
            let heap = &mut self.heaps[place.table];
            heap.put(place.slot, slot);
        }
    }
}
