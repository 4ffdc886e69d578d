ghost use Rattle.std.specs.Prelude.{◌≡◌, [], IfOk, OnOk};
ghost use Rattle.std.specs.Option.{option_copied};
ghost use Rattle.q_value.specs.Answers.{Answers};
ghost use Rattle.dml.specs.Rows as making;
ghost use Rattle.dml.specs.Rows.{table_in};
ghost use Rattle.dml.specs.Changes as spec;

use crate::changed::{Changed, copy_of, count_of, returned_of};
use crate::entries::supersede;
use crate::tables::table_of;
use crate::unique::check_unique;
use crate::values::{assigned_values, check_row, put_at};
use cat_core::{Catalog, TableDef};
use executor::{Stores, run_slots};
use plan_tree::Plan;
use q_base::{NoMemory, ObjId, SlotId, Stop};
use q_value::{Row, Rows, Value};
use query_tree::{Assignment, Bound, Update};
use row_versions::{Heaps, Snap};
use std::alloc::Global;

/// Changes the rows that an UPDATE finds at a snapshot, each in its place (PostgreSQL's manual, UPDATE). Another plan
/// changes nothing.
///
/// For each row, in order of insertion, all expressions are evaluated in the order of the text, refused as 22003 or
/// 22012; then their values are converted to the columns' types, refused as 22003; then columns that can't be null are
/// looked at in order of making, refused as 23502. After all rows it is refused by each unique index in order of making
/// as 23505. After a refusal the caller takes the changes of rows back.
pub fn update_slots(
    alloc: Global,
    stores: &mut Stores,
    catalog: &Catalog,
    plan: &Plan,
    params: &[Value],
    snap: Snap,
) -> Result<Changed, Stop> {
    match plan.bound.as_ref() {
        Bound::Update(update) => {
            let slots = run_slots(alloc, plan, params, stores, snap)?;
            updated(alloc, stores, catalog, update, slots.as_slice(), params)
        }
        _ => Ok(Changed::nothing(alloc)),
    }
}

fn updated(
    alloc: Global,
    stores: &mut Stores,
    catalog: &Catalog,
    update: &Update,
    slots: &[SlotId],
    params: &[Value],
) -> Result<Changed, Stop>
    ensures { spec.Updated update.now params.now (table_in catalog.now.slots update.now.table.id) slots.now stores.old.heaps result stores.new.heaps }
{
    let id = update.table.id;
    let Some(table) = table_of(catalog, id) else {
        return Ok(Changed::nothing(alloc));
    };
    let rows = new_rows(alloc, &stores.heaps, update, table, slots, params)?;
    store_rows(alloc, stores, id, slots, rows)?;
    check_unique(alloc, stores, catalog, id, slots)?;
    let returned = returned_of(alloc, &stores.heaps, id, slots, &update.returning, params)?;
    Ok(Changed {
        count: count_of(slots),
        returned,
    })
}

/// The new rows of slots, or the first refusal among them.
fn new_rows(
    alloc: Global,
    heaps: &Heaps,
    update: &Update,
    table: &TableDef,
    slots: &[SlotId],
    params: &[Value],
) -> Result<Rows, Stop>
    ensures { Answers (making.updated_rows [] update.now table.now params.now heaps.now slots.now) result }
{
    let mut rows = Rows::new(alloc);
    for slot in slots {
        let old = heaps.newest_row(update.table.id, *slot);
        rows.push(row_at(alloc, update, table, old, params)?)?;
    }
    Ok(rows)
}

/// The new row in the place of an old one, or of none.
fn row_at(
    alloc: Global,
    update: &Update,
    table: &TableDef,
    old: Option<&Row>,
    params: &[Value],
) -> Result<Row, Stop>
    ensures { Answers (making.updated_row update.now table.now params.now (making.row_or_none (option_copied old.entry))) result }
{
    match old {
        Some(row) => new_row(alloc, update, table, row.as_slice(), params),
        None => new_row(alloc, update, table, &[], params),
    }
}

fn new_row(
    alloc: Global,
    update: &Update,
    table: &TableDef,
    old: &[Value],
    params: &[Value],
) -> Result<Row, Stop>
    ensures { Answers (making.updated_row update.now table.now params.now old.now) result }
{
    let assignments = update.assignments.as_slice();
    let values = assigned_values(alloc, assignments, old, params)?;
    let mut row = copy_of(alloc, old)?.into_vec();
    put_assigned(alloc, &mut row, assignments, values.as_slice())?;
    check_row(
        alloc,
        table.columns.as_slice(),
        row.as_slice(),
        &update.written,
    )?;
    Ok(Row::from_vec(row))
}

fn put_assigned(
    alloc: Global,
    row: &mut Vec<Value>,
    assignments: &[Assignment],
    values: &[Value],
) -> Result<(), Stop>
    ensures { making.Leaves (making.put_assigned_from 0 row.old.items assignments.now values.now) result row.new.items }
{
    for at in 0..assignments.len() {
        put_at(alloc, row, at, assignments[at].column, values)?;
    }
    Ok(())
}

/// Puts new rows into slots, the first into the first.
fn store_rows(
    alloc: Global,
    stores: &mut Stores,
    table: ObjId,
    slots: &[SlotId],
    rows: Rows,
) -> Result<(), NoMemory>
    ensures { OnOk result (spec.Shows table (spec.replaced_each rows slots.now (spec.now stores.old.heaps table)) stores.old.heaps stores.new.heaps) }
{
    let mut at = 0;
    for row in rows.into_vec() {
        if at == slots.len() {
            drop(row);
            return Ok(());
        }
        supersede(alloc, stores, table, slots[at], row)?;
        at += 1;
    }
    Ok(())
}
