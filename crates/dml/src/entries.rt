ghost use Rattle.std.specs.Prelude.{◌≡◌, OnOk};
ghost use Rattle.row_versions.specs.State.{replaced, without};
ghost use Rattle.dml.specs.Changes as spec;

use executor::{Stores, key_of};
use q_base::{NoMemory, ObjId, SlotId};
use q_value::Row;
use row_versions::Heaps;
use row_versions::laws::shown_by_rows;
use std::alloc::Global;

/// Gives the newest version of a slot its entry in each index that the table has.
pub(crate) fn add_entries(
    alloc: Global,
    stores: &mut Stores,
    table: ObjId,
    slot: SlotId,
) -> Result<(), NoMemory>
    ensures { stores.new.heaps ≡ stores.old.heaps }
{
    for at in 0..stores.indexes.as_slice().len() {
        add_entry(alloc, stores, at, table, slot)?;
    }
    Ok(())
}

/// Gives the newest version of a slot its entry in the index at a place of the list, where that is one of the table.
fn add_entry(
    alloc: Global,
    stores: &mut Stores,
    at: usize,
    table: ObjId,
    slot: SlotId,
) -> Result<(), NoMemory>
    ensures { stores.new.heaps ≡ stores.old.heaps }
{
    let Some(index) = stores.indexes.as_slice().get(at) else {
        return Ok(());
    };
    if index.table.0 != table.0 {
        return Ok(());
    }
    let Some(row) = stores.heaps.newest_row(table, slot) else {
        return Ok(());
    };
    match key_of(alloc, index.columns.as_slice(), row)? {
        Some(key) => stores.indexes.add_entry(at, key, slot),
        None => Ok(()),
    }
}

/// Puts a newer version into a live slot, and gives it its entries.
pub(crate) fn supersede(
    alloc: Global,
    stores: &mut Stores,
    table: ObjId,
    slot: SlotId,
    row: Row,
) -> Result<(), NoMemory>
    ensures { OnOk result (spec.Shows table (replaced slot.0 row (spec.now stores.old.heaps table)) stores.old.heaps stores.new.heaps) }
{
    replace_row(&mut stores.heaps, table, slot, row)?;
    add_entries(alloc, stores, table, slot)
}

fn replace_row(heaps: &mut Heaps, table: ObjId, slot: SlotId, row: Row) -> Result<(), NoMemory>
    ensures { OnOk result (spec.Shows table (replaced slot.0 row (spec.now heaps.old table)) heaps.old heaps.new) }
{
    shown_by_rows();
    if !heaps.is_live(table, slot) {
        return Ok(());
    }
    heaps.supersede(table, slot, row)
}

/// Deletes the row of a slot, where it is live.
pub(crate) fn end_row(heaps: &mut Heaps, table: ObjId, slot: SlotId) -> Result<(), NoMemory>
    ensures { OnOk result (spec.Shows table (without slot.0 (spec.now heaps.old table)) heaps.old heaps.new) }
{
    shown_by_rows();
    if !heaps.is_live(table, slot) {
        return Ok(());
    }
    heaps.end(table, slot)
}
