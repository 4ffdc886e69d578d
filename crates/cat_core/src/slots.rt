ghost use Rattle.std.specs.Prelude.{◌≡◌, ℕ, Some, None, filter, is_some, OnOk, OnErr, []};
ghost use Rattle.std.specs.Option.{option_copied};
ghost use Rattle.q_base.specs.declared.ids.ObjId.{ObjId as Id};
ghost use Rattle.cat_core.specs.declared.slots.Slot.{Slot as Place};
ghost use Rattle.cat_core.specs.Ages.{AreBetween, IsPlace};
ghost use Rattle.cat_core.specs.Objects as spec;

use crate::Entry;
use q_base::{NoMemory, ObjId};
use std::alloc::Global;
use std::marker::Model;
use std::rc::Rc;

/// The place of an object.
#[derive(Drop)]
pub struct Slot {
    pub(crate) id: ObjId,
    /// `None` of an object that is gone.
    pub(crate) entry: Option<Rc<Entry>>,
}

/// The objects, by ascending ids. One that is gone keeps its place until `forget`.
#[derive(Drop)]
pub(crate) struct Slots {
    slots: Vec<Slot>,
    // Above all ids of objects that ever were.
    next_id: u64,
}

impl Model for Slots {
    ghost use Rattle.cat_core.specs.Ages.{AreBetween};
    ghost use Rattle.cat_core.specs.Objects.{Objects};
    ghost use Rattle.cat_core.specs.contracts.slots.Slot as slot_contract;
    ghost use Rattle.cat_core.specs.declared.slots.Slot.{Slot};
    ghost use Rattle.std.specs.Coded.{codes};

    ghost Value = { Objects };

    ghost coded = { Prim.hlevel (codes, slot_contract.the_row.coded) };

    ghost view = { λ s. record { slots = s.slots.items; next_id = s.next_id } };

    ghost invariant = { λ s. AreBetween (λ (slot : Slot). slot.id.0) 0 s.slots.items s.next_id };
}

impl Slots {
    pub(crate) fn new(alloc: Global) -> Slots
        ensures { result ≡ record { slots = []; next_id = 0 } }
    {
        Slots {
            slots: Vec::new(alloc),
            next_id: 0,
        }
    }

    pub(crate) fn as_slice(&self) -> &[Slot]
        ensures { result.now ≡ self.now.slots }
    {
        self.slots.as_slice()
    }

    /// The object of an id.
    pub(crate) fn entry(&self, id: ObjId) -> Option<&Rc<Entry>>
        ensures { option_copied result ≡ spec.entry_in self.now.slots id }
    {
        let slots = self.slots.as_slice();
        entry_at(slots, place_of(slots, id))
    }

    /// Makes an object that is later than all others, or leaves all as it was.
    pub(crate) fn add(&mut self, id: ObjId, entry: Rc<Entry>) -> Result<(), NoMemory>
        ensures ok { OnOk result (self.new ≡ spec.with_made id entry self.old) }
        ensures err { OnErr result (self.new ≡ self.old) }
        ensures back { spec.entry_in self.old.slots id ≡ None → OnOk result ((other : Id) → spec.entry_in (spec.with_entry id None self.new.slots) other ≡ spec.entry_in self.old.slots other) }
    {
        let number = u64::from(id.0);
        if self.next_id <= number && id.0 < u32::MAX {
            self.slots.push(Slot {
                id,
                entry: Some(entry),
            })?;
            self.next_id = number + 1;
        }
        Ok(())
    }

    /// Puts an entry, or none, in place of that of an id, which it answers. It does nothing where the id has no place.
    pub(crate) fn give(&mut self, id: ObjId, entry: Option<Rc<Entry>>) -> Option<Rc<Entry>>
        ensures given { self.new ≡ record self.old { slots = spec.with_entry id entry self.old.slots } }
        ensures was { result ≡ spec.entry_in self.old.slots id }
    {
        match place_of(self.slots.as_slice(), id) {
            Some(place) => put_at(&mut self.slots, place, entry),
            None => None,
        }
    }

    /// Gives up the places of objects that are gone.
    pub(crate) fn forget(&mut self)
        ensures { self.new ≡ record self.old { slots = filter (λ slot. is_some slot.entry) self.old.slots } }
    {
        self.slots.retain(|slot| slot.entry.is_some());
    }
}

fn entry_at(slots: &[Slot], place: Option<usize>) -> Option<&Rc<Entry>>
    ensures { option_copied result ≡ spec.entry_of_slot slots.now place }
{
    match slots.get(place?) {
        Some(slot) => slot.entry.as_ref(),
        None => None,
    }
}

fn put_at(slots: &mut Vec<Slot>, place: usize, entry: Option<Rc<Entry>>) -> Option<Rc<Entry>>
    ensures given { slots.new.items ≡ spec.given_at place entry slots.old.items }
    ensures was { result ≡ spec.entry_of_slot slots.old.items (Some place) }
{
    match slots.get_mut(place) {
        Some(slot) => std::mem::replace(&mut slot.entry, entry),
        None => None,
    }
}

// The place of an id in slots of ascending ids.
fn place_of(slots: &[Slot], id: ObjId) -> Option<usize>
    ensures { (high : ℕ) → AreBetween (λ (slot : Place). slot.id.0) 0 slots.now high → IsPlace (λ (slot : Place). slot.id.0) id.0 slots.now result }
{
    match slots.binary_search_by(|slot| slot.id.0.cmp(&id.0)) {
        Ok(place) => Some(place),
        Err(_) => None,
    }
}
