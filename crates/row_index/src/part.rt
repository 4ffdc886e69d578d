ghost use Rattle.std.specs.Prelude.{◌≡◌, ◌==◌, not, [], List, length, find, OnOk, OnErr, MatchOption};
ghost use Rattle.std.specs.List.{list_all};
ghost use Rattle.std.specs.Option.{option_copied};
ghost use Rattle.row_index.specs.declared.entries.IndexPlace.{IndexPlace};
ghost use Rattle.row_index.specs.Cuts.{is_before};
ghost use Rattle.row_index.specs.Entries.{IsAscending, IsHalved, with_entry, without_entry};

use crate::IndexPlace;
use crate::cut::Cut;
use crate::stored::{Sought, Stored};
use q_base::NoMemory;
use std::alloc::Global;

/// Consecutive entries of an index in their order, none twice: a block of them, or parts of the level below.
pub(crate) trait Part: Drop {
    /// Its entries.
    ghost entries: { Self → List IndexPlace };

    /// The part without entries; it takes no memory.
    fn empty(alloc: Global) -> Self
        ensures { entries result ≡ [] };

    fn is_empty(&self) -> bool
        ensures { result ≡ (length (entries self.now) == 0) };

    /// Tells whether it is to be halved, lest a change of it moves much. Only time hangs on this.
    fn is_long(&self) -> bool;

    /// Tells whether all its entries lie before the cut.
    fn lies_before(&self, cut: &Cut<'_>) -> bool
        ensures { result ≡ list_all (is_before cut.now) (entries self.now) };

    /// The first entry that doesn't lie before the cut.
    fn first_from(&self, cut: &Cut<'_>) -> Option<&IndexPlace>
        ensures first { option_copied result ≡ find (λ entry. not (is_before cut.now entry)) (entries self.now) }
        ensures ascending { IsAscending (entries self.now) };

    /// Puts the entry at its place, where it isn't there yet.
    fn add(&mut self, alloc: Global, entry: Stored) -> Result<(), NoMemory>
        ensures ok { OnOk result (entries self.new ≡ with_entry entry (entries self.old)) }
        ensures err { OnErr result (self.new ≡ self.old) };

    /// Takes the entry out, where it is there.
    fn remove(&mut self, sought: &Sought<'_>)
        ensures { entries self.new ≡ without_entry sought.now (entries self.old) };

    /// The back half of its entries, which it gives up; nothing where memory is refused, and where
    /// there is nothing to halve.
    fn halve(&mut self) -> Option<Self>
        ensures { MatchOption result (entries self.new ≡ entries self.old) (λ back. IsHalved (entries self.old) (entries self.new) (entries back)) };
}
