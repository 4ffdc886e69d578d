ghost use Rattle.std.specs.Prelude.{◌≡◌, OnOk, IfOk, length};
ghost use Rattle.dml.specs.Changes as spec;

use crate::changed::{Changed, count_of, returned_of};
use crate::entries::end_row;
use cat_core::Catalog;
use executor::{Stores, run_slots};
use plan_tree::Plan;
use q_base::{NoMemory, ObjId, SlotId, Stop};
use q_value::Value;
use query_tree::{Bound, Delete};
use row_versions::{Heaps, Snap};
use std::alloc::Global;

/// Deletes the rows that a DELETE finds at a snapshot (PostgreSQL's manual, DELETE). RETURNING gives the rows as they
/// were. Another plan changes nothing.
pub fn delete_slots(
    alloc: Global,
    stores: &mut Stores,
    _catalog: &Catalog,
    plan: &Plan,
    params: &[Value],
    snap: Snap,
) -> Result<Changed, Stop> {
    match plan.bound.as_ref() {
        Bound::Delete(delete) => {
            let slots = run_slots(alloc, plan, params, stores, snap)?;
            deleted(alloc, &mut stores.heaps, delete, slots.as_slice(), params)
        }
        _ => Ok(Changed::nothing(alloc)),
    }
}

fn deleted(
    alloc: Global,
    heaps: &mut Heaps,
    delete: &Delete,
    slots: &[SlotId],
    params: &[Value],
) -> Result<Changed, Stop>
    ensures { spec.Deleted delete.now params.now slots.now heaps.old result heaps.new }
{
    let id = delete.table.id;
    let returned = returned_of(alloc, heaps, id, slots, &delete.returning, params)?;
    end_rows(heaps, id, slots)?;
    Ok(Changed {
        count: count_of(slots),
        returned,
    })
}

/// Deletes the rows of slots.
#[tactic(auto, using(crate::proofs::Steps::unchanged))]
fn end_rows(heaps: &mut Heaps, table: ObjId, slots: &[SlotId]) -> Result<(), NoMemory>
    ensures { OnOk result (spec.Shows table (spec.without_all slots.now (spec.now heaps.old table)) heaps.old heaps.new) }
{
    for slot in slots {
        end_row(heaps, table, *slot)?;
    }
    Ok(())
}
