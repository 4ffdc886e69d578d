ghost use Rattle.std.specs.Prelude.{◌≡◌, ◌<◌, ◌≤◌, ◌^◌, ◌∷◌, [], ◌++◌, None, IfSome, OnOk, OnErr, length, drop, slice_get};
ghost use Rattle.std.specs.Option.{option_copied};

use crate::slot::Slot;
use q_base::{NoMemory, ObjId};
use std::alloc::Global;
use std::marker::Model;
use std::mem;

/// The slots of one table, in the order in which they were given.
#[derive(Drop)]
pub struct Heap {
    id: ObjId,
    slots: Vec<Slot>,
}

impl Model for Heap {
    ghost use Rattle.row_versions.specs.Stored.{Stored};

    ghost Value = { Stored };

    ghost view = { λ heap. record { id = heap.id; slots = heap.slots.items } };
}

impl Heap {
    ghost use Rattle.row_versions.specs.Stored.{in_slot, versions_at, first_of, rows_in};

    pub fn new(alloc: Global, id: ObjId) -> Heap
        ensures { result ≡ record { id = id; slots = [] } }
    {
        Heap {
            id,
            slots: Vec::new(alloc),
        }
    }

    pub fn id(&self) -> ObjId
        ensures { result ≡ self.now.id }
    {
        self.id
    }

    /// How many slots were given.
    pub fn len(&self) -> usize
        ensures { result ≡ length self.now.slots }
    {
        self.slots.len()
    }

    pub fn get(&self, at: usize) -> Option<&Slot>
        ensures { option_copied result ≡ slice_get self.now.slots at }
    {
        self.slots.get(at)
    }

    /// The least slot not below `from` that shows a row.
    pub fn next_shown(&self, from: usize, moment: u64) -> Option<usize>
        ensures within { IfSome result (λ slot. slot < 2 ^ 63) }
        ensures first { result ≡ first_of (rows_in from (drop from self.now.slots) moment) }
    {
        for at in from..self.slots.len() {
            if self.slots[at].shown(moment).is_some() {
                return Some(at);
            }
        }
        None
    }

    /// Gives the next slot.
    pub fn push(&mut self, slot: Slot) -> Result<(), NoMemory>
        ensures ok { OnOk result (self.new ≡ record self.old { slots = self.old.slots ++ slot ∷ [] }) }
        ensures err { OnErr result (self.new ≡ self.old) }
    {
        self.slots.push(slot)?;
        Ok(())
    }

    /// Takes the versions of a slot out of it, to be changed and put back.
    pub fn take(&mut self, alloc: Global, at: usize) -> Slot
        ensures versions { result ≡ versions_at at self.old }
        ensures empty { self.new ≡ in_slot at (λ _. []) self.old }
    {
        if at < self.slots.len() {
            mem::replace(&mut self.slots[at], Slot::empty(alloc))
        } else {
            Slot::empty(alloc)
        }
    }

    /// Puts versions into a slot.
    pub fn put(&mut self, at: usize, slot: Slot)
        ensures { self.new ≡ in_slot at (λ _. slot) self.old }
    {
        if at < self.slots.len() {
            self.slots[at] = slot;
        }
    }
}
