ghost use Rattle.std.specs.Prelude.{◌≡◌, [], ◌∷◌, IfOk, replicate, slice_get};
ghost use Rattle.q_value.specs.declared.value.Value.TheVariants.{Null};
ghost use Rattle.q_value.specs.Answers.{Answers};
ghost use Rattle.q_value.specs.Conversions.{converted};
ghost use Rattle.dml.specs.Rows as spec;

use cat_core::Column;
use q_base::{Code, NoMemory, Stop, Str, refusal, refusal_naming_two};
use q_scalar::{EvalStop, eval_target};
use q_value::{Row, SqlType, Value, convert};
use query_tree::{AssignedColumn, Assignment, Target};
use std::alloc::Global;

/// The refusal of a statement whose expression has no value.
pub(crate) fn refused(alloc: Global, stop: EvalStop) -> Stop
    ensures { result ≡ spec.stop_of stop }
{
    match stop {
        EvalStop::Fault(code) => refusal(alloc, code),
        EvalStop::NoMemory => Stop::NoMemory,
    }
}

/// The value of one expression: 22003 or 22012 where it has none.
pub(crate) fn value_of(
    alloc: Global,
    target: &Target,
    row: &[Value],
    params: &[Value],
) -> Result<Value, Stop>
    ensures { Answers (spec.given target.now row.now params.now) result }
{
    match eval_target(alloc, target, row, params) {
        Ok(value) => Ok(value),
        Err(stop) => Err(refused(alloc, stop)),
    }
}

/// The values of expressions, in their order.
pub(crate) fn values_of(
    alloc: Global,
    targets: &[Target],
    row: &[Value],
    params: &[Value],
) -> Result<Row, Stop>
    ensures { Answers (spec.values_from [] targets.now row.now params.now) result }
{
    let mut values = Row::new(alloc);
    for target in targets {
        values.push(value_of(alloc, target, row, params)?)?;
    }
    Ok(values)
}

/// The values of what columns are given, in the order of the text.
pub(crate) fn assigned_values(
    alloc: Global,
    assignments: &[Assignment],
    row: &[Value],
    params: &[Value],
) -> Result<Row, Stop>
    ensures { Answers (spec.assigned_from [] assignments.now row.now params.now) result }
{
    let mut values = Row::new(alloc);
    for assignment in assignments {
        values.push(value_of(alloc, &assignment.value, row, params)?)?;
    }
    Ok(values)
}

/// Puts a value, converted, into a column's place of a row: 22003 where it is out of the range of the column's type.
pub(crate) fn put_value(
    alloc: Global,
    row: &mut Vec<Value>,
    column: AssignedColumn,
    value: &Value,
) -> Result<(), Stop>
    ensures { spec.Leaves (spec.put row.old.items column value.now) result row.new.items }
{
    let value = convert(alloc, value.copy(alloc)?, column.kind)?;
    place_value(row, column.id.0 as usize, value);
    Ok(())
}

/// The same of the value at a place, where there is one.
#[tactic(auto, unfolding(crate::specs::Rows::put_at))]
pub(crate) fn put_at(
    alloc: Global,
    row: &mut Vec<Value>,
    at: usize,
    column: AssignedColumn,
    values: &[Value],
) -> Result<(), Stop>
    ensures { spec.Leaves (spec.put_at at row.old.items column values.now) result row.new.items }
{
    match values.get(at) {
        Some(value) => put_value(alloc, row, column, value),
        None => Ok(()),
    }
}

/// Puts a value into a place of a row, where the row has it.
pub(crate) fn place_value(row: &mut Vec<Value>, place: usize, value: Value)
    ensures { row.new.items ≡ spec.placed row.old.items place value }
{
    if place < row.len() {
        row[place] = value;
    }
}

/// A stored value in a column's new type: 22003 where it is out of its range.
pub(crate) fn in_type(alloc: Global, value: &Value, to: SqlType) -> Result<Value, Stop>
    ensures { Answers (converted to value.now) result }
{
    convert(alloc, value.copy(alloc)?, to)
}

/// Refuses a row that has null in a column that can't be null, by 23502 with the column and the table as written; the
/// first such column in order of making.
pub(crate) fn check_row(
    alloc: Global,
    columns: &[Column],
    row: &[Value],
    written: &Str,
) -> Result<(), Stop>
    ensures { Answers (spec.checked columns.now row.now written.now) result }
{
    for column in columns {
        if is_unfilled(column, row) {
            return Err(refusal_naming_two(
                alloc,
                Code::NullInColumn,
                column.name.as_str(),
                written.as_str(),
            ));
        }
    }
    Ok(())
}

/// Whether a column can't be null and has null in a row.
fn is_unfilled(column: &Column, row: &[Value]) -> bool
    ensures { result ≡ spec.is_unfilled column.now row.now }
{
    column.not_null && is_null_at(row, column.id.0 as usize)
}

/// Whether a row has null in a place, or nothing.
pub(crate) fn is_null_at(row: &[Value], place: usize) -> bool
    ensures { result ≡ spec.is_missing (slice_get row.now place) }
{
    match row.get(place) {
        Some(Value::Null) | None => true,
        Some(_) => false,
    }
}

/// As many nulls.
pub(crate) fn nulls(alloc: Global, count: u32) -> Result<Vec<Value>, NoMemory>
    ensures { IfOk result (λ row. row.items ≡ replicate count Null) }
{
    let mut row = Vec::new(alloc);
    for _turn in 0..count {
        row.push(Value::Null)?;
    }
    Ok(row)
}
