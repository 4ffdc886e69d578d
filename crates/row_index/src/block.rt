ghost use Rattle.std.specs.Prelude.{◌≡◌, ◌≤◌, true, false, length, slice_get};
ghost use Rattle.std.specs.List.{prefix_len};
ghost use Rattle.std.specs.List.Sorted.{IsPartitionPoint};
ghost use Rattle.std.specs.Ordering.{is_lt};
ghost use Rattle.row_index.specs.Order.{entry_cmp};
ghost use Rattle.row_index.specs.Cuts.{is_before};
ghost use Rattle.row_index.specs.Entries.{is_at};

use crate::IndexPlace;
use crate::cut::Cut;
use crate::part::Part;
use crate::stored::{Sought, Stored, last_lead_of};
use q_base::NoMemory;
use q_value::laws;
use std::alloc::Global;
use std::marker::Model;

/// A block with more entries is halved, just before its vector, which grows by doubling, would grow again.
const MOST: usize = 63;

/// A part that holds entries themselves, few enough that one is found and put between them cheaply.
#[derive(Drop)]
pub(crate) struct Block {
    /// The lead of the last entry, so that a search among blocks seldom goes into one.
    last_lead: i64,
    entries: Vec<Stored>,
}

impl Model for Block {
    ghost use Rattle.std.specs.Prelude.{List, ◌≡◌};
    ghost use Rattle.row_index.specs.declared.entries.IndexPlace.{IndexPlace};
    ghost use Rattle.row_index.specs.Entries.{IsAscending};
    ghost use Rattle.row_index.specs.Leads.{lead_of_last};

    ghost Value = { List IndexPlace };

    ghost view = { λ block. block.entries.items };

    ghost invariant = { λ block. IsAscending block.entries.items × (block.last_lead ≡ lead_of_last block.entries.items) };
}

impl Block {
    /// How many entries lie before the cut.
    fn place_of(&self, cut: &Cut<'_>) -> usize
        ensures within { result ≤ length self.now }
        ensures parted { IsPartitionPoint (λ entry. is_before cut.now entry ≡ true) (λ entry. is_before cut.now entry ≡ false) self.now result }
    {
        laws::orders();
        self.entries
            .partition_point(|stored| cut.comes_after(stored.lead(), stored.entry()))
    }

    /// How many entries come before the one that is sought.
    fn place_for(&self, sought: &Sought<'_>) -> usize
        ensures within { result ≤ length self.now }
        ensures parted { IsPartitionPoint (λ entry. is_lt (entry_cmp entry sought.now) ≡ true) (λ entry. is_lt (entry_cmp entry sought.now) ≡ false) self.now result }
    {
        laws::orders();
        lesser_of(self.entries.as_slice(), sought)
    }

    /// Tells whether the entry stands at a place.
    fn has_at(&self, place: usize, sought: &Sought<'_>) -> bool
        ensures { result ≡ is_at sought.now (slice_get self.now place) }
    {
        match self.entries.get(place) {
            Some(stored) => sought.order_of(stored.lead(), stored.entry()).is_eq(),
            None => false,
        }
    }
}

impl Part for Block {
    ghost entries = { λ block. block };

    fn empty(alloc: Global) -> Block {
        Block {
            last_lead: i64::MIN,
            entries: Vec::new(alloc),
        }
    }

    fn is_empty(&self) -> bool {
        self.entries.is_empty()
    }

    fn is_long(&self) -> bool {
        self.entries.len() > MOST
    }

    #[inline(always)]
    fn lies_before(&self, cut: &Cut<'_>) -> bool {
        laws::orders();
        match self.entries.last() {
            Some(last) => cut.comes_after(self.last_lead, last.entry()),
            None => true,
        }
    }

    fn first_from(&self, cut: &Cut<'_>) -> Option<&IndexPlace> {
        match self.entries.get(self.place_of(cut)) {
            Some(stored) => Some(stored.entry()),
            None => None,
        }
    }

    fn add(&mut self, _alloc: Global, entry: Stored) -> Result<(), NoMemory> {
        laws::orders();
        let sought = entry.sought();
        let place = self.place_for(&sought);
        if !self.has_at(place, &sought) {
            self.entries.insert(place, entry)?;
            self.last_lead = last_lead_of(self.entries.as_slice());
        }
        Ok(())
    }

    fn remove(&mut self, sought: &Sought<'_>) {
        laws::orders();
        let place = self.place_for(sought);
        if self.has_at(place, sought) {
            let _ = self.entries.remove(place);
            self.last_lead = last_lead_of(self.entries.as_slice());
        }
    }

    fn halve(&mut self) -> Option<Block> {
        let half = self.entries.len() / 2;
        if half == 0 {
            return None;
        }
        let Ok(entries) = self.entries.split_off(half) else {
            return None;
        };
        self.last_lead = last_lead_of(self.entries.as_slice());
        Some(Block {
            last_lead: last_lead_of(entries.as_slice()),
            entries,
        })
    }
}

/// How many of the first entries come before the one that is sought.
///
/// They are looked at one after another, so that the processor fetches the next ones from memory while it
/// waits for one. A search by halves would wait for each.
fn lesser_of(entries: &[Stored], sought: &Sought<'_>) -> usize
    ensures { result ≡ prefix_len (λ entry. is_lt (entry_cmp entry sought.now)) entries.now }
{
    for (place, stored) in entries.iter().enumerate() {
        if !sought.order_of(stored.lead(), stored.entry()).is_lt() {
            return place;
        }
    }
    entries.len()
}
