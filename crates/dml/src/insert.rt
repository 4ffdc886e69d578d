ghost use Rattle.std.specs.Prelude.{◌≡◌, [], ◌∷◌, ◌++◌, MatchResult};
ghost use Rattle.q_base.specs.Stops.{StopsBy};
ghost use Rattle.q_value.specs.Answers.{Answers};
ghost use Rattle.dml.specs.Rows as making;
ghost use Rattle.dml.specs.Rows.{table_in};
ghost use Rattle.dml.specs.Changes as spec;

use crate::changed::{Changed, count_of, returned_of};
use crate::entries::add_entries;
use crate::tables::table_of;
use crate::unique::check_unique;
use crate::values::{check_row, nulls, put_at, put_value, values_of};
use cat_core::{Catalog, TableDef};
use executor::Stores;
use plan_tree::Plan;
use q_base::{Code, ObjId, SlotId, Stop, refusal};
use q_value::{Row, Rows, Value};
use query_tree::{AssignedColumn, Assignment, Bound, Insert, Target};
use row_versions::Snap;
use std::alloc::Global;

/// Inserts the rows of an INSERT, in their order (PostgreSQL's manual, INSERT). Another plan changes nothing.
///
/// For each row all expressions are evaluated in the order of the text, refused as 22003 or 22012; then their values
/// are converted to the columns' types, refused as 22003; then columns that can't be null are looked at in order of
/// making, refused as 23502. After all rows it is refused as 54000 where more rows would be live than the limit, and
/// then by each unique index in order of making as 23505. After a refusal the caller takes the changes of rows back.
pub fn insert_rows(
    alloc: Global,
    stores: &mut Stores,
    catalog: &Catalog,
    plan: &Plan,
    params: &[Value],
    _snap: Snap,
) -> Result<Changed, Stop>
    ensures { spec.InsertedBy plan.now.bound.value params.now catalog.now.slots stores.old.heaps result stores.new.heaps }
{
    match plan.bound.as_ref() {
        Bound::Insert(insert) => inserted(alloc, stores, catalog, insert, params),
        _ => Ok(Changed::nothing(alloc)),
    }
}

fn inserted(
    alloc: Global,
    stores: &mut Stores,
    catalog: &Catalog,
    insert: &Insert,
    params: &[Value],
) -> Result<Changed, Stop>
    ensures { spec.Inserted insert.now params.now (table_in catalog.now.slots insert.now.table.id) stores.old.heaps result stores.new.heaps }
{
    let id = insert.table.id;
    let Some(table) = table_of(catalog, id) else {
        return Ok(Changed::nothing(alloc));
    };
    let rows = new_rows(alloc, insert, table, params)?;
    let slots = store_rows(alloc, stores, id, rows)?;
    check_unique(alloc, stores, catalog, id, slots.as_slice())?;
    let returned = returned_of(
        alloc,
        &stores.heaps,
        id,
        slots.as_slice(),
        &insert.returning,
        params,
    )?;
    Ok(Changed {
        count: count_of(slots.as_slice()),
        returned,
    })
}

/// The rows that are inserted, or the first refusal among them.
fn new_rows(
    alloc: Global,
    insert: &Insert,
    table: &TableDef,
    params: &[Value],
) -> Result<Rows, Stop>
    ensures { Answers (making.inserted_rows [] insert.now table.now params.now insert.now.rows) result }
{
    let mut rows = Rows::new(alloc);
    for targets in insert.rows.as_slice() {
        rows.push(new_row(alloc, insert, table, targets.as_slice(), params)?)?;
    }
    Ok(rows)
}

fn new_row(
    alloc: Global,
    insert: &Insert,
    table: &TableDef,
    targets: &[Target],
    params: &[Value],
) -> Result<Row, Stop>
    ensures { Answers (making.inserted_row insert.now table.now params.now targets.now) result }
{
    let values = values_of(alloc, targets, &[], params)?;
    let mut row = nulls(alloc, table.next_column)?;
    put_defaults(alloc, &mut row, insert.defaults.as_slice(), params)?;
    put_values(
        alloc,
        &mut row,
        insert.columns.as_slice(),
        values.as_slice(),
    )?;
    check_row(
        alloc,
        table.columns.as_slice(),
        row.as_slice(),
        &insert.written,
    )?;
    Ok(Row::from_vec(row))
}

fn put_defaults(
    alloc: Global,
    row: &mut Vec<Value>,
    defaults: &[Assignment],
    params: &[Value],
) -> Result<(), Stop>
    ensures { making.Leaves (making.with_defaults row.old.items defaults.now params.now) result row.new.items }
{
    for given in defaults {
        let value = crate::values::value_of(alloc, &given.value, &[], params)?;
        put_value(alloc, row, given.column, &value)?;
    }
    Ok(())
}

/// Puts values, converted, into the places of columns: the first value into that of the first, and so on.
pub(crate) fn put_values(
    alloc: Global,
    row: &mut Vec<Value>,
    columns: &[AssignedColumn],
    values: &[Value],
) -> Result<(), Stop>
    ensures { making.Leaves (making.put_from 0 row.old.items columns.now values.now) result row.new.items }
{
    for at in 0..columns.len() {
        put_at(alloc, row, at, columns[at], values)?;
    }
    Ok(())
}

/// Stores rows behind those of the table, with their entries, and answers their slots: 54000 where the limit of
/// live rows is passed.
#[tactic(auto, using(crate::proofs::Steps::unchanged, crate::proofs::Steps::both_change, crate::proofs::Stored::numbered_more))]
fn store_rows(
    alloc: Global,
    stores: &mut Stores,
    table: ObjId,
    rows: Rows,
) -> Result<Vec<SlotId>, Stop>
    ensures { MatchResult result (λ slots. spec.Appends table slots.items rows stores.old.heaps stores.new.heaps) (StopsBy (λ e. (e ≡ spec.full) × spec.ChangesTable table stores.old.heaps stores.new.heaps)) }
{
    let mut slots = Vec::new(alloc);
    for row in rows.into_vec() {
        let slot = store_row(alloc, stores, table, row)?;
        slots.push(slot)?;
    }
    Ok(slots)
}

fn store_row(alloc: Global, stores: &mut Stores, table: ObjId, row: Row) -> Result<SlotId, Stop>
    ensures { MatchResult result (λ slot. spec.Shows table (spec.now stores.old.heaps table ++ (slot.0, row) ∷ []) stores.old.heaps stores.new.heaps) (StopsBy (λ e. (e ≡ spec.full) × (stores.new.heaps ≡ stores.old.heaps))) }
{
    if !stores.heaps.has_room(table) {
        return Err(refusal(alloc, Code::LimitExceeded));
    }
    let slot = stores.heaps.insert(table, row)?;
    add_entries(alloc, stores, table, slot)?;
    Ok(slot)
}
