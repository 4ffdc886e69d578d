ghost use Rattle.std.specs.Prelude.{◌≡◌, not, ◌&&◌, ◌||◌, [], ◌∷◌, find, OnOk, OnErr, MatchOption, Some};
ghost use Rattle.std.specs.Option.{option_copied};
ghost use Rattle.std.specs.Ordering.{is_eq};
ghost use Rattle.row_index.specs.declared.entries.IndexPlace.{IndexPlace};
ghost use Rattle.row_index.specs.Order.{entry_cmp, entry_of};
ghost use Rattle.row_index.specs.Ranges.{entries_past, is_next, next_of};
ghost use Rattle.row_index.specs.Cuts.{is_before};
ghost use Rattle.row_index.specs.Entries.{IsAscending, has_entry, with_entry, without_entry};

use crate::block::Block;
use crate::cut::{Cut, key_side_of};
use crate::part::Part;
use crate::parts::Parts;
use crate::stored::{Sought, Stored};
use crate::{IndexPlace, Key, KeyRange};
use q_base::{NoMemory, SlotId};
use q_value::laws;
use std::alloc::Global;
use std::marker::Model;

/// The entries of an index: each once, in the order of their keys and then of their slots.
///
/// They stand in blocks, and these in groups, both of limited length. A search finds the group and the
/// block by halves, mostly by leads alone, and a change moves few entries and few blocks.
#[derive(Drop)]
pub struct Index {
    alloc: Global,
    groups: Parts<Parts<Block>>,
}

impl Model for Index {
    ghost use Rattle.std.specs.Prelude.{List};
    ghost use Rattle.row_index.specs.declared.entries.IndexPlace.{IndexPlace};

    ghost Value = { List IndexPlace };

    ghost view = { λ index. index.groups };
}

impl Index {
    /// The index without entries; it takes no memory.
    pub fn new(alloc: Global) -> Index
        ensures { result ≡ [] }
    {
        Index {
            alloc,
            groups: Parts::empty(alloc),
        }
    }

    /// Puts an entry at its place, and changes nothing where it is there or where memory is refused.
    pub fn add(&mut self, key: Key, slot: SlotId) -> Result<(), NoMemory>
        ensures ok { OnOk result (self.new ≡ with_entry (entry_of key slot) self.old) }
        ensures members { OnOk result ((other : IndexPlace) → has_entry self.new other ≡ (is_eq (entry_cmp (entry_of key slot) other) || has_entry self.old other)) }
        ensures err { OnErr result (self.new ≡ self.old) }
    {
        laws::orders();
        self.groups
            .add(self.alloc, Stored::new(IndexPlace { key, slot }))
    }

    /// Takes an entry out, and changes nothing where it isn't there.
    pub fn remove(&mut self, key: &Key, slot: SlotId)
        ensures left { self.new ≡ without_entry (entry_of key.now slot) self.old }
        ensures members { (other : IndexPlace) → has_entry self.new other ≡ (not (is_eq (entry_cmp (entry_of key.now slot) other)) && has_entry self.old other) }
    {
        laws::orders();
        self.groups.remove(&Sought::new(key, slot));
    }

    /// The least entry of a range that comes after `last`, or of the whole range where there is no
    /// `last`; `None` exactly where there is no such entry.
    pub fn after(&self, range: &KeyRange, last: Option<&IndexPlace>) -> Option<&IndexPlace>
        ensures first { option_copied result ≡ find (is_next range.now (option_copied last.entry)) self.now }
        ensures rest { MatchOption (option_copied result) (entries_past range.now (option_copied last.entry) self.now ≡ []) (λ found. entries_past range.now (option_copied last.entry) self.now ≡ found ∷ entries_past range.now (Some found) self.now) }
        ensures ascending { IsAscending self.now }
    {
        laws::orders();
        match last {
            Some(last) if !key_side_of(range, &last.key).is_lt() => {
                self.first_of(range, &Cut::Past(&Sought::new(&last.key, last.slot)))
            }
            _ => self.first_of(range, &Cut::Range(range)),
        }
    }

    /// The first entry that doesn't lie before the cut, where it is one of the range.
    fn first_of(&self, range: &KeyRange, cut: &Cut<'_>) -> Option<&IndexPlace>
        ensures first { option_copied result ≡ next_of range.now (find (λ entry. not (is_before cut.now entry)) self.now) }
        ensures ascending { IsAscending self.now }
    {
        let next = self.groups.first_from(cut)?;
        if key_side_of(range, &next.key).is_eq() {
            Some(next)
        } else {
            None
        }
    }
}
