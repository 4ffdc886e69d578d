ghost use Rattle.std.specs.Prelude.{◌≡◌, ◌↔◌, ℕ, ◌<◌, ◌≤◌, ◌+◌, ◌∷◌, [], ◌++◌, ◌^◌, ◌⊎◌, true, ◌==◌, if◌then◌else◌, position, vec_len, vec_capacity, OnOk, IfOk, MatchResult, MatchOption, IsSome, IfSome, IsTrue, All, Contains, length, drop, reverse, slice_get, slice_index_or};
ghost use Rattle.std.specs.Option.{option_copied, option_map};
ghost use Rattle.q_base.specs.declared.ids.ObjId.{ObjId as Id};
ghost use Rattle.q_base.specs.declared.code.Code.TheVariants.{LimitExceeded};
ghost use Rattle.q_base.specs.declared.errors.Stop.TheVariants.{Sql};
ghost use Rattle.q_base.specs.Stops.{StopsBy};
ghost use Rattle.row_versions.specs.Stored.{with_table, first_of, slots_of, versions_in, pruned};
ghost use Rattle.row_versions.specs.Sound.{IsHistory};
ghost use Rattle.row_versions.specs.Versions.{is_settled};
ghost use Rattle.row_versions.specs.declared.tables.Place.{Place as Slots};

use crate::slot::{Deed, Slot};
use crate::snaps::{HeapMark, Pin, Snap};
use crate::tables::{Place, Tables};
use q_base::{Code, NoMemory, ObjId, SlotId, Stop, refusal};
use q_value::Row;
use std::alloc::Global;
use std::marker::Model;

/// The most rows that may be live at once, those of all tables together.
const MOST_LIVE_ROWS: u32 = 1_048_576;

/// The most snapshots that are given, and the most slots of a table: 2^62.
const MOST_GIVEN: u64 = 4_611_686_018_427_387_904;

/// A change that can be taken back.
#[derive(Clone, Copy)]
pub struct Change {
    pub place: Place,
    pub deed: Deed,
    pub moment: u64,
}

/// The rows of all tables, in versions.
#[derive(Drop)]
pub struct Heaps {
    alloc: Global,
    tables: Tables,
    /// The number of the newest snapshot, which shows every change up to now.
    moment: u64,
    live: u32,
    pins: Vec<u64>,
    /// The changes that can be taken back, in the order in which they were made.
    log: Vec<Change>,
    /// The slots that may have a version to prune.
    stale: Vec<Place>,
}

impl Model for Heaps {
    ghost use Rattle.std.specs.Prelude.{reverse};
    ghost use Rattle.row_versions.specs.Sound.{IsSound};
    ghost use Rattle.row_versions.specs.State.{State};

    ghost Value = { State };

    ghost view = { λ h. record { tables = h.tables; newest = h.moment; pins = h.pins.items; log = reverse h.log.items } };

    ghost invariant = { λ h. IsSound h.tables h.moment h.live h.pins.items (reverse h.log.items) h.stale.items };
}

impl Heaps {
    ghost use Rattle.row_versions.specs.State.{shown, rows, rows_from, live_rows, IsAdded, KeepsRows, KeepsPinned, KeepsMark, KeepsMarks, KeepsTables, Stands, at_mark, rows_at, Inserts, Supersedes, Ends, unpinned, kept_version, back, last_undone, IsLastRow, IsNextRow};

    /// No tables.
    pub fn new(alloc: Global) -> Result<Heaps, NoMemory>
        ensures { IfOk result (λ heaps. heaps ≡ record { tables = []; newest = 0; pins = []; log = [] }) }
    {
        Ok(Heaps {
            alloc,
            tables: Tables::new(alloc),
            moment: 0,
            live: 0,
            pins: Vec::new(alloc),
            log: Vec::new(alloc),
            stale: Vec::new(alloc),
        })
    }

    /// Adds a table without rows, unless it is there. A rollback leaves it there.
    pub fn add_table(&mut self, table: ObjId) -> Result<(), NoMemory>
        ensures state { OnOk result (self.new ≡ record self.old { tables = with_table table self.old.tables }) }
        ensures added { OnOk result (IsAdded self.new table) }
        ensures tables { OnOk result (KeepsTables 0 self.old self.new) }
        ensures rows { OnOk result ((snap : ℕ) → KeepsRows self.old self.new snap) }
        ensures marks { OnOk result (KeepsMarks self.old self.new) }
    {
        self.tables.add(self.alloc, table)?;
        Ok(())
    }

    /// The row that a slot shows at a snapshot; `None` exactly where it shows none, as where the table or
    /// the slot isn't there.
    pub fn visible(&self, table: ObjId, slot: SlotId, snap: Snap) -> Option<&Row>
        ensures { option_copied result ≡ shown self.now table slot.0 snap }
    {
        let slot = self.tables.slot_of(table, slot.0 as usize)?;
        slot.shown(snap.moment)
    }

    /// The row that a slot shows at the newest snapshot.
    pub fn newest_row(&self, table: ObjId, slot: SlotId) -> Option<&Row>
        ensures { option_copied result ≡ shown self.now table slot.0 self.now.newest }
    {
        let slot = self.tables.slot_of(table, slot.0 as usize)?;
        slot.shown(self.moment)
    }

    /// Whether a slot is live: the newest snapshot shows a row there, which `supersede` and `end` may change.
    pub fn is_live(&self, table: ObjId, slot: SlotId) -> bool
        ensures { IsTrue result ↔ IsSome (shown self.now table slot.0 self.now.newest) }
    {
        self.newest_row(table, slot).is_some()
    }

    /// The least slot not below `from` that shows a row at a snapshot; `None` exactly where none does.
    pub fn next_slot(&self, table: ObjId, from: SlotId, snap: Snap) -> Option<SlotId>
        ensures within { IfSome result (λ slot. slot.0 < 2 ^ 63) }
        ensures next { MatchOption result (IsLastRow self.now table from.0 snap) (λ slot. IsNextRow self.now table from.0 snap slot.0) }
    {
        let slot = self.first_from(table, from.0 as usize, snap.moment)?;
        Some(SlotId(slot as u64))
    }

    /// The least live slot not below `from`; `None` exactly where no slot from there on is live.
    pub fn next_live(&self, table: ObjId, from: SlotId) -> Option<SlotId>
        ensures within { IfSome result (λ slot. slot.0 < 2 ^ 63) }
        ensures next { MatchOption result (IsLastRow self.now table from.0 self.now.newest) (λ slot. IsNextRow self.now table from.0 self.now.newest slot.0) }
    {
        let slot = self.first_from(table, from.0 as usize, self.moment)?;
        Some(SlotId(slot as u64))
    }

    fn first_from(&self, table: ObjId, from: usize, moment: u64) -> Option<usize>
        ensures within { IfSome result (λ slot. slot < 2 ^ 63) }
        ensures first { result ≡ first_of (rows_from self.now table from moment) }
    {
        let heap = self.tables.heap_of(table)?;
        heap.next_shown(from, moment)
    }

    /// The row of a slot's kept version, counted from 0 at the oldest; `None` exactly where the slot keeps
    /// no version of that number.
    pub fn version(&self, table: ObjId, slot: SlotId, at: usize) -> Option<&Row>
        ensures { option_copied result ≡ kept_version self.now table slot.0 at }
    {
        let slot = self.tables.slot_of(table, slot.0 as usize)?;
        slot.version(at)
    }

    /// Whether fewer than 2^62 snapshots were given, so that `advance` may give one more.
    pub fn can_advance(&self) -> bool
        ensures { IsTrue result ↔ (self.now.newest < 2 ^ 62) }
    {
        self.moment < MOST_GIVEN
    }

    /// The newest snapshot. Later changes are not shown by it. Only where fewer than 2^62 were given.
    pub fn advance(&mut self) -> Snap
        requires { self.old.newest < 2 ^ 62 }
        ensures snap { result ≡ self.old.newest }
        ensures state { self.new ≡ record self.old { newest = self.old.newest + 1 } }
        ensures newest { (table : Id) → rows self.new table self.new.newest ≡ rows self.old table self.old.newest }
        ensures marks { KeepsMarks self.old self.new }
    {
        let snap = Snap {
            moment: self.moment,
        };
        self.moment += 1;
        snap
    }

    /// Whether a table was added and has fewer than 2^62 slots, so that `insert` may give it one more.
    pub fn has_room(&self, table: ObjId) -> bool
        ensures { IsTrue result ↔ (IsAdded self.now table × (length (slots_of table self.now.tables) < 2 ^ 62)) }
    {
        match self.tables.find(table) {
            Some(table) => (self.tables.len_of(table) as u64) < MOST_GIVEN,
            None => false,
        }
    }

    /// Inserts a row into a slot of its own, after all others of the table. Refused as 54000 exactly where
    /// 2^20 rows of all tables together are live, a limit of this project's own. Only for a table that was
    /// added and has fewer than 2^62 slots.
    pub fn insert(&mut self, table: ObjId, row: Row) -> Result<SlotId, Stop>
        requires added { IsAdded self.old table }
        requires few { length (slots_of table self.old.tables) < 2 ^ 62 }
        ensures cases { MatchResult result
            (λ slot. (live_rows self.old < 2 ^ 20) × Inserts table slot.0 row self.old self.new)
            (StopsBy (λ e. (e ≡ record { code = LimitExceeded; args = [] }) × (2 ^ 20 ≤ live_rows self.old) × (self.new ≡ self.old))) }
        ensures full { 2 ^ 20 ≤ live_rows self.old → result ≡ Err (Sql (record { code = LimitExceeded; args = [] })) }
    {
        if MOST_LIVE_ROWS <= self.live {
            return Err(refusal(self.alloc, Code::LimitExceeded));
        }
        let Some(table) = self.tables.find(table) else {
            unreachable!()
        };
        self.log.reserve(1)?;
        let slot = self.tables.len_of(table);
        self.tables
            .push(table, Slot::new(self.alloc, row, self.moment))?;
        self.log.push_reserved(Change {
            place: Place { table, slot },
            deed: Deed::Inserted,
            moment: self.moment,
        });
        self.live += 1;
        Ok(SlotId(slot as u64))
    }

    /// Puts a newer version of a row into its slot, which has to be live: the newest snapshot shows a row
    /// there.
    pub fn supersede(&mut self, table: ObjId, slot: SlotId, row: Row) -> Result<(), NoMemory>
        requires { IsSome (shown self.old table slot.0 self.old.newest) }
        ensures { OnOk result (Supersedes table slot.0 row self.old self.new) }
    {
        let Some(table) = self.tables.find(table) else {
            unreachable!()
        };
        let slot = slot.0 as usize;
        let place = Place { table, slot };
        self.log.reserve(1)?;
        self.stale.reserve(1)?;
        let was_settled = self.tables.is_settled(place);
        self.tables.supersede(self.alloc, place, row, self.moment)?;
        note(&mut self.stale, place, was_settled);
        self.log.push_reserved(Change {
            place,
            deed: Deed::Superseded,
            moment: self.moment,
        });
        Ok(())
    }

    /// Deletes the row of a slot, which has to be live: the newest snapshot shows a row there.
    pub fn end(&mut self, table: ObjId, slot: SlotId) -> Result<(), NoMemory>
        requires { IsSome (shown self.old table slot.0 self.old.newest) }
        ensures { OnOk result (Ends table slot.0 self.old self.new) }
    {
        let Some(table) = self.tables.find(table) else {
            unreachable!()
        };
        let slot = slot.0 as usize;
        let place = Place { table, slot };
        self.log.reserve(1)?;
        self.stale.reserve(1)?;
        let was_settled = self.tables.is_settled(place);
        self.tables.end(self.alloc, place, self.moment);
        note(&mut self.stale, place, was_settled);
        self.log.push_reserved(Change {
            place,
            deed: Deed::Ended,
            moment: self.moment,
        });
        self.live -= 1;
        Ok(())
    }

    /// Whether `advance` gave a snapshot, so that `pin` may hold it.
    pub fn was_given(&self, snap: Snap) -> bool
        ensures { IsTrue result ↔ (snap < self.now.newest) }
    {
        snap.moment < self.moment
    }

    /// Holds what a snapshot shows until the pin is handed back. Only for a snapshot that `advance` gave.
    pub fn pin(&mut self, snap: Snap) -> Result<Pin, NoMemory>
        requires { snap < self.old.newest }
        ensures { IfOk result (λ pin. (pin ≡ snap) × (self.new ≡ record self.old { pins = self.old.pins ++ snap ∷ [] })) }
    {
        self.pins.push(snap.moment)?;
        Ok(Pin {
            moment: snap.moment,
        })
    }

    /// Whether a pin is one that is held, so that `unpin` may end it.
    pub fn holds(&self, pin: &Pin) -> bool
        ensures { IsTrue result ↔ Contains self.now.pins pin.now }
    {
        self.pins.as_slice().contains(&pin.moment)
    }

    /// Ends a pin, which has to be one that is held. What it alone held is then for `prune` to drop.
    pub fn unpin(&mut self, pin: Pin)
        requires { Contains self.old.pins pin }
        ensures { self.new ≡ record self.old { pins = unpinned pin self.old.pins } }
    {
        if let Some(at) = place_of(self.pins.as_slice(), pin.moment) {
            let _ = self.pins.remove(at);
        }
    }

    /// Names the state of now. The mark stands, so that `rollback_to` may go back to it, at least until
    /// `forget` or a rollback to an earlier mark.
    pub fn mark(&self) -> HeapMark
        ensures mark { result ≡ record { changes = length self.now.log; moment = self.now.newest } }
        ensures stands { Stands self.now result }
        ensures names { (table : Id) → rows_at self.now result table ≡ rows self.now table self.now.newest }
    {
        HeapMark {
            changes: self.log.len(),
            moment: self.moment,
        }
    }

    /// Whether a mark stands: no more was taken back than it has, and none of its changes was made good by
    /// `forget` since.
    pub fn stands(&self, mark: HeapMark) -> bool
        ensures { IsTrue result ↔ Stands self.now mark }
    {
        if self.log.len() < mark.changes || self.moment < mark.moment {
            return false;
        }
        let log = self.log.as_slice();
        are_from(&log[mark.changes..], mark.moment)
    }

    /// Whether `rollback_to` may go back to a mark: it stands, and each pinned snapshot is older than it.
    pub fn can_return(&self, mark: HeapMark) -> bool
        ensures { IsTrue result ↔ (Stands self.now mark × All (λ pin. pin < mark.moment) self.now.pins) }
    {
        self.stands(mark) && are_before(self.pins.as_slice(), mark.moment)
    }

    /// Takes back the changes since the mark, which has to stand. Slots that were given since are not given
    /// again. Each pinned snapshot has to be older than the mark, and so shows what it showed.
    pub fn rollback_to(&mut self, mark: HeapMark)
        requires stands { Stands self.old mark }
        requires pins { All (λ pin. pin < mark.moment) self.old.pins }
        ensures state { self.new ≡ at_mark self.old mark }
        ensures newest { (table : Id) → rows self.new table self.new.newest ≡ rows_at self.old mark table }
        ensures slots { (table : Id) → length (slots_of table self.new.tables) ≡ length (slots_of table self.old.tables) }
        ensures tables { KeepsTables 0 self.old self.new }
        ensures older { (snap : ℕ) → snap < mark.moment → KeepsRows self.old self.new snap }
        ensures pinned { KeepsPinned self.old self.new }
        ensures marks { (earlier : HeapMark) → earlier.changes ≤ mark.changes → Stands self.old earlier → KeepsMark self.old self.new earlier }
    {
        let since = self.log.len() - mark.changes;
        self.undo(since);
    }

    /// Takes back the last changes.
    fn undo(&mut self, count: usize)
        ensures { self.new ≡ back count self.old }
    {
        for _turn in 0..count {
            self.undo_last();
        }
    }

    fn undo_last(&mut self)
        ensures { self.new ≡ last_undone self.old }
    {
        if let Some(change) = self.log.pop() {
            self.tables.take_back(self.alloc, change.place, change.deed);
            match change.deed {
                Deed::Inserted => self.live -= 1,
                Deed::Superseded => {}
                Deed::Ended => self.live += 1,
            }
        }
    }

    /// Keeps the changes for good, as COMMIT does: none of them can be taken back any more.
    pub fn forget(&mut self)
        ensures { self.new ≡ record self.old { log = [] } }
    {
        self.log.clear();
    }

    /// Whether no change is left to take back, so that `prune` may drop versions.
    pub fn is_settled(&self) -> bool
        ensures { IsTrue result ↔ (self.now.log ≡ []) }
    {
        self.log.is_empty()
    }

    /// How many slots may have a version for `prune` to drop.
    pub fn stale_len(&self) -> usize {
        self.stale.len()
    }

    /// One of these slots.
    pub fn stale_at(&self, at: usize) -> Option<(ObjId, SlotId)> {
        let place = self.stale.get(at)?;
        let heap = self.tables.get(place.table)?;
        Some((heap.id(), SlotId(place.slot as u64)))
    }

    /// Drops the versions that neither the newest snapshot nor a pinned one shows. No change may be left
    /// to take back, as directly after `forget`.
    pub fn prune(&mut self)
        requires { self.old.log ≡ [] }
        ensures state { self.new ≡ record self.old { tables = pruned (self.old.newest ∷ self.old.pins) self.old.tables } }
        ensures shows { (snap : ℕ) → Contains (self.old.newest ∷ self.old.pins) snap → KeepsRows self.old self.new snap }
        ensures tables { KeepsTables 0 self.old self.new }
        ensures marks { KeepsMarks self.old self.new }
    {
        prune_stale(
            self.alloc,
            &mut self.tables,
            &mut self.stale,
            self.moment,
            self.pins.as_slice(),
        );
    }
}

/// Whether no change was made before a moment.
fn are_from(changes: &[Change], moment: u64) -> bool
    ensures { IsTrue result ↔ All (λ change. moment ≤ change.moment) changes.now }
{
    changes.iter().all(|change| moment <= change.moment)
}

/// Whether each pin is of a snapshot before a moment.
fn are_before(pins: &[u64], moment: u64) -> bool
    ensures { IsTrue result ↔ All (λ pin. pin < moment) pins.now }
{
    pins.iter().all(|pin| *pin < moment)
}

/// Puts a slot on a list with room, if it is new there.
fn note(stale: &mut Vec<Place>, place: Place, is_new: bool)
    requires { vec_len stale.old < vec_capacity stale.old }
    ensures { stale.new.items ≡ (if is_new then stale.old.items ++ place ∷ [] else stale.old.items) }
{
    if is_new {
        stale.push_reserved(place);
    }
}

/// The first place of a snapshot among pins.
fn place_of(pins: &[u64], moment: u64) -> Option<usize>
    ensures { result ≡ position (λ pin. pin == moment) pins.now }
{
    pins.iter().position(|pin| *pin == moment)
}

/// Prunes the slots of a list, which has each slot that is not settled, and leaves it so.
fn prune_stale(
    alloc: Global,
    tables: &mut Tables,
    stale: &mut Vec<Place>,
    newest: u64,
    pins: &[u64],
)
    requires dated { (place : Slots) → IsHistory newest (versions_in place tables.old) }
    requires listed { (place : Slots) → (is_settled (versions_in place tables.old) ≡ true) ⊎ Contains stale.old.items place }
    ensures pruned { tables.new ≡ pruned (newest ∷ pins.now) tables.old }
    ensures dated { (place : Slots) → IsHistory newest (versions_in place tables.new) }
    ensures listed { (place : Slots) → (is_settled (versions_in place tables.new) ≡ true) ⊎ Contains stale.new.items place }
{
    let mut left = stale.len();
    while 0 < left {
        left -= 1;
        let place = stale[left];
        if tables.prune(alloc, place, newest, pins) {
            let _ = stale.swap_remove(left);
        }
    }
}

#[cfg(test)]
mod tests;
