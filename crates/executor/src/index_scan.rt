ghost use Rattle.std.specs.Prelude.{◌≡◌, ◌∷◌, [], Some, Ok, IfOk, MatchOption, if◌then◌else◌, None};
ghost use Rattle.std.specs.Option.{option_copied};
ghost use Rattle.row_versions.specs.State.{shown};
ghost use Rattle.executor.specs.Lists.{kept, passing};
ghost use Rattle.executor.specs.Scans.{found_at, entry_row, entries_left, index_left, IndexAdvances};
ghost use Rattle.executor.specs.Yields.{Yields};

use crate::conds::all_true;
use crate::found::{Found, copy_row};
use crate::stores::{IndexRow, Stores, has_key};
use q_base::{NoMemory, ObjId};
use q_scalar::EvalStop;
use q_value::{Row, Value};
use query_tree::CondList;
use row_index::{IndexPlace, KeyRange};
use row_versions::Snap;
use std::alloc::Global;

/// A scan of a table along an index, in the order of its entries.
#[derive(Drop)]
pub(crate) struct IndexState {
    pub table: ObjId,
    pub index: ObjId,
    pub range: KeyRange,
    /// All conditions of the scan, those that the range stands for among them.
    pub conds: CondList,
    /// The entry looked at last.
    pub last: Option<IndexPlace>,
}

/// The row that an entry's slot shows, where it has the entry's key. Another entry is one that a later change or a
/// rollback left over.
fn row_of_entry<'a>(
    stores: &'a Stores,
    index: &IndexRow,
    table: ObjId,
    entry: &IndexPlace,
    snap: Snap,
) -> Option<&'a Row>
    ensures { option_copied result ≡ entry_row index.now.columns entry.now.key (shown stores.now.heaps table entry.now.slot.0 snap) }
{
    let row = stores.heaps.visible(table, entry.slot, snap)?;
    if has_key(index.columns.as_slice(), row, entry.key.as_slice()) {
        Some(row)
    } else {
        None
    }
}

/// The row of an entry, where the conditions are true on it.
fn row_passing<'a>(
    stores: &'a Stores,
    index: &IndexRow,
    scan: &IndexState,
    entry: &IndexPlace,
    params: &[Value],
    snap: Snap,
) -> Option<&'a Row>
    ensures { option_copied result ≡ passing scan.now.conds params.now (entry_row index.now.columns entry.now.key (shown stores.now.heaps scan.now.table entry.now.slot.0 snap)) }
{
    let row = row_of_entry(stores, index, scan.table, entry, snap)?;
    if all_true(scan.conds.as_slice(), row.as_slice(), params) {
        Some(row)
    } else {
        None
    }
}

/// The first entry of the range behind the last one whose row counts, with the row.
fn search_along<'a>(
    stores: &'a Stores,
    index: &'a IndexRow,
    scan: &IndexState,
    params: &[Value],
    snap: Snap,
) -> Option<(&'a IndexPlace, &'a Row)>
    ensures { MatchOption result (entries_left stores.now snap params.now index.now scan.now scan.now.last ≡ []) (λ found. entries_left stores.now snap params.now index.now scan.now scan.now.last ≡ Ok (found_at found.0.now.slot.0 found.1.now) ∷ entries_left stores.now snap params.now index.now scan.now (Some found.0.now)) }
{
    let mut last = scan.last.as_ref();
    while let Some(entry) = index.index.after(&scan.range, last) {
        match row_passing(stores, index, scan, entry, params, snap) {
            Some(row) => return Some((entry, row)),
            None => {}
        }
        last = Some(entry);
    }
    None
}

/// A second owner of the same entry.
pub(crate) fn copy_place(alloc: Global, place: &IndexPlace) -> Result<IndexPlace, NoMemory>
    ensures { IfOk result (λ copy. copy ≡ place.now) }
{
    Ok(IndexPlace {
        key: copy_row(alloc, place.key.as_slice())?,
        slot: place.slot,
    })
}

impl IndexState {
    /// The next row that has its entry's key and on which the conditions are true. It stays in its table.
    pub(crate) fn advance<'a>(
        &mut self,
        alloc: Global,
        stores: &'a Stores,
        params: &[Value],
        snap: Snap,
    ) -> Result<Option<(u64, &'a Row)>, NoMemory>
        ensures given { IfOk result (λ found. MatchOption found ((index_left stores.now snap params.now self.old ≡ []) × (index_left stores.now snap params.now self.new ≡ [])) (λ row. index_left stores.now snap params.now self.old ≡ Ok (found_at row.0 row.1.now) ∷ index_left stores.now snap params.now self.new)) }
        ensures kept { IndexAdvances self.old self.new }
    {
        match stores.indexes.find(self.index) {
            Some(index) => self.advance_along(alloc, stores, index, params, snap),
            None => Ok(None),
        }
    }

    fn advance_along<'a>(
        &mut self,
        alloc: Global,
        stores: &'a Stores,
        index: &'a IndexRow,
        params: &[Value],
        snap: Snap,
    ) -> Result<Option<(u64, &'a Row)>, NoMemory>
        ensures given { IfOk result (λ found. MatchOption found ((entries_left stores.now snap params.now index.now self.old self.old.last ≡ []) × (self.new ≡ self.old)) (λ row. entries_left stores.now snap params.now index.now self.old self.old.last ≡ Ok (found_at row.0 row.1.now) ∷ entries_left stores.now snap params.now index.now self.new self.new.last)) }
        ensures kept { IndexAdvances self.old self.new }
    {
        match search_along(stores, index, self, params, snap) {
            Some((entry, row)) => {
                self.last = Some(copy_place(alloc, entry)?);
                Ok(Some((entry.slot.0, row)))
            }
            None => Ok(None),
        }
    }

    /// The next row, copied.
    pub(crate) fn next(
        &mut self,
        alloc: Global,
        stores: &Stores,
        params: &[Value],
        snap: Snap,
    ) -> Result<Option<Found>, EvalStop>
        ensures given { Yields (index_left stores.now snap params.now self.old) result (index_left stores.now snap params.now self.new) }
        ensures kept { IndexAdvances self.old self.new }
    {
        match self.advance(alloc, stores, params, snap)? {
            Some((slot, row)) => Ok(Some(Found {
                row: copy_row(alloc, row.as_slice())?,
                slot: Some(slot),
            })),
            None => Ok(None),
        }
    }
}
