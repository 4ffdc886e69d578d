use crate::changed::copy_of;
use crate::entries::supersede;
use crate::values::{in_type, is_null_at, place_value};
use executor::Stores;
use q_base::{Code, ColId, NoMemory, ObjId, SlotId, Stop};
use q_scalar::EvalStop;
use q_value::{Row, SqlType, Value};
use std::alloc::Global;

/// Appends a value to each live row of a table, which is that of a column that was just added. Refused as 23502, for
/// which the caller knows the names, where the column can't be null, the value is, and there is a row.
pub fn fill_column(
    alloc: Global,
    stores: &mut Stores,
    table: ObjId,
    _column: ColId,
    value: &Value,
    not_null: bool,
) -> Result<(), EvalStop> {
    if not_null && is_null(value) && stores.heaps.next_live(table, SlotId(0)).is_some() {
        return Err(EvalStop::Fault(Code::NullsStored));
    }
    let mut from = SlotId(0);
    for _turn in 0..u64::MAX {
        let Some(slot) = stores.heaps.next_live(table, from) else {
            return Ok(());
        };
        append_value(alloc, stores, table, slot, value)?;
        from = after(slot);
    }
    Ok(())
}

fn is_null(value: &Value) -> bool {
    matches!(value, Value::Null)
}

fn append_value(
    alloc: Global,
    stores: &mut Stores,
    table: ObjId,
    slot: SlotId,
    value: &Value,
) -> Result<(), NoMemory> {
    let Some(row) = stores.heaps.newest_row(table, slot) else {
        return Ok(());
    };
    let mut row = copy_of(alloc, row.as_slice())?;
    row.push(value.copy(alloc)?)?;
    supersede(alloc, stores, table, slot, row)
}

/// Converts the value of a column in each live row of a table to another type. Refused as 22003 where one is out of its
/// range.
pub fn convert_column(
    alloc: Global,
    stores: &mut Stores,
    table: ObjId,
    column: ColId,
    to: SqlType,
) -> Result<(), EvalStop> {
    let mut from = SlotId(0);
    for _turn in 0..u64::MAX {
        let Some(slot) = stores.heaps.next_live(table, from) else {
            return Ok(());
        };
        convert_value(alloc, stores, table, slot, column, to)?;
        from = after(slot);
    }
    Ok(())
}

fn convert_value(
    alloc: Global,
    stores: &mut Stores,
    table: ObjId,
    slot: SlotId,
    column: ColId,
    to: SqlType,
) -> Result<(), EvalStop> {
    let Some(row) = stores.heaps.newest_row(table, slot) else {
        return Ok(());
    };
    let row = converted_row(alloc, row.as_slice(), column, to)?;
    supersede(alloc, stores, table, slot, row)?;
    Ok(())
}

/// A row whose value of a column is converted.
fn converted_row(
    alloc: Global,
    row: &[Value],
    column: ColId,
    to: SqlType,
) -> Result<Row, EvalStop> {
    let place = column.0 as usize;
    let mut copy = copy_of(alloc, row)?.into_vec();
    if let Some(value) = row.get(place) {
        match in_type(alloc, value, to) {
            Ok(value) => place_value(&mut copy, place, value),
            Err(Stop::Sql(error)) => return Err(EvalStop::Fault(error.code)),
            Err(Stop::NoMemory) => return Err(EvalStop::NoMemory),
        }
    }
    Ok(Row::from_vec(copy))
}

/// Refuses a column that has null in a live row of a table, by 23502, for which the caller knows the names.
pub fn check_not_null(stores: &Stores, table: ObjId, column: ColId) -> Result<(), EvalStop> {
    let mut from = SlotId(0);
    for _turn in 0..u64::MAX {
        let Some(slot) = stores.heaps.next_live(table, from) else {
            return Ok(());
        };
        if has_null(stores, table, slot, column) {
            return Err(EvalStop::Fault(Code::NullsStored));
        }
        from = after(slot);
    }
    Ok(())
}

fn has_null(stores: &Stores, table: ObjId, slot: SlotId, column: ColId) -> bool {
    match stores.heaps.newest_row(table, slot) {
        Some(row) => is_null_at(row.as_slice(), column.0 as usize),
        None => false,
    }
}

/// The slot behind another.
pub(crate) fn after(slot: SlotId) -> SlotId {
    SlotId(slot.0.saturating_add(1))
}
