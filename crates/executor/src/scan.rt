ghost use Rattle.std.specs.Prelude.{◌≡◌, ◌∷◌, [], ◌+◌, ◌<◌, ◌^◌, Some, Ok, MatchOption, IfSome};
ghost use Rattle.std.specs.Option.{option_copied};
ghost use Rattle.row_versions.specs.State.{shown};
ghost use Rattle.executor.specs.Lists.{passing, kept};
ghost use Rattle.executor.specs.Scans.{scan_of, found_at, seq_left, SeqAdvances};
ghost use Rattle.executor.specs.Yields.{Yields};

use crate::conds::all_true;
use crate::found::{Found, copy_row};
use crate::stores::Stores;
use q_base::{ObjId, SlotId};
use q_scalar::EvalStop;
use q_value::{Row, Value};
use query_tree::{Cond, CondList};
use row_versions::Snap;
use std::alloc::Global;

/// A scan of a table, in the order of insertion.
#[derive(Drop)]
pub(crate) struct SeqState {
    pub table: ObjId,
    pub conds: CondList,
    /// The first slot that wasn't looked at.
    pub from: u64,
}

/// The row that a slot shows, where the conditions are true on it.
pub(crate) fn row_where<'a>(
    stores: &'a Stores,
    table: ObjId,
    slot: SlotId,
    conds: &[Cond],
    params: &[Value],
    snap: Snap,
) -> Option<&'a Row>
    ensures { option_copied result ≡ passing conds.now params.now (shown stores.now.heaps table slot.0 snap) }
{
    let row = stores.heaps.visible(table, slot, snap)?;
    if all_true(conds, row.as_slice(), params) {
        Some(row)
    } else {
        None
    }
}

/// The first row of a table from a slot on that shows at the snapshot and on which the conditions are true.
fn search<'a>(
    stores: &'a Stores,
    table: ObjId,
    from: u64,
    conds: &[Cond],
    params: &[Value],
    snap: Snap,
) -> Option<(u64, &'a Row)>
    ensures first { MatchOption result (kept conds.now params.now (scan_of stores.now snap table from) ≡ []) (λ found. kept conds.now params.now (scan_of stores.now snap table from) ≡ Ok (found_at found.0 found.1.now) ∷ kept conds.now params.now (scan_of stores.now snap table (found.0 + 1))) }
    ensures within { IfSome result (λ found. found.0 < 2 ^ 63) }
{
    let mut at = SlotId(from);
    while let Some(slot) = stores.heaps.next_slot(table, at, snap) {
        match row_where(stores, table, slot, conds, params, snap) {
            Some(row) => return Some((slot.0, row)),
            None => {}
        }
        at = SlotId(slot.0 + 1);
    }
    None
}

impl SeqState {
    /// The next row, which stays in its table, with its slot.
    pub(crate) fn advance<'a>(
        &mut self,
        stores: &'a Stores,
        params: &[Value],
        snap: Snap,
    ) -> Option<(u64, &'a Row)>
        ensures given { MatchOption result ((seq_left stores.now snap params.now self.old ≡ []) × (seq_left stores.now snap params.now self.new ≡ [])) (λ found. seq_left stores.now snap params.now self.old ≡ Ok (found_at found.0 found.1.now) ∷ seq_left stores.now snap params.now self.new) }
        ensures kept { SeqAdvances self.old self.new }
    {
        let conds = self.conds.as_slice();
        let (slot, row) = search(stores, self.table, self.from, conds, params, snap)?;
        self.from = slot + 1;
        Some((slot, row))
    }

    /// The next row, copied.
    pub(crate) fn next(
        &mut self,
        alloc: Global,
        stores: &Stores,
        params: &[Value],
        snap: Snap,
    ) -> Result<Option<Found>, EvalStop>
        ensures given { Yields (seq_left stores.now snap params.now self.old) result (seq_left stores.now snap params.now self.new) }
        ensures kept { SeqAdvances self.old self.new }
    {
        match self.advance(stores, params, snap) {
            Some((slot, row)) => Ok(Some(Found {
                row: copy_row(alloc, row.as_slice())?,
                slot: Some(slot),
            })),
            None => Ok(None),
        }
    }
}
