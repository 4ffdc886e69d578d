ghost use Rattle.std.specs.Prelude.{◌≡◌, IfOk};
ghost use Rattle.q_value.specs.Answers.{Answers};
ghost use Rattle.cat_commands.specs.Columns as spec;

use cat_core::{Column, ColumnList};
use q_base::{ColId, ListOf, NoMemory, Stop, Str};
use q_value::{SqlType, Value, convert};
use query_tree::Copies;
use std::alloc::Global;

/// A second owner of the column's default, null where it has none.
pub(crate) fn default_copied(alloc: Global, column: &Column) -> Result<Value, NoMemory>
    ensures { IfOk result (λ value. value ≡ spec.default_or_null column.now.default_value) }
{
    match &column.default_value {
        Some(value) => value.copy(alloc),
        None => Ok(Value::Null),
    }
}

/// The columns with one in place of that of its id.
pub(crate) fn columns_with(
    alloc: Global,
    columns: &[Column],
    new: &Column,
) -> Result<ColumnList, NoMemory>
    ensures { IfOk result (λ all. all ≡ spec.columns_with new.now columns.now) }
{
    let mut all = ListOf::new(alloc);
    for column in columns {
        all.push(one_of(alloc, column, new)?)?;
    }
    Ok(all)
}

fn one_of(alloc: Global, column: &Column, new: &Column) -> Result<Column, NoMemory>
    ensures { IfOk result (λ one. one ≡ spec.one_of new.now column.now) }
{
    if column.id.0 == new.id.0 {
        new.copy(alloc)
    } else {
        column.copy(alloc)
    }
}

/// The columns but for that of an id.
pub(crate) fn columns_without(
    alloc: Global,
    columns: &[Column],
    id: ColId,
) -> Result<ColumnList, NoMemory>
    ensures { IfOk result (λ kept. kept ≡ spec.columns_without id columns.now) }
{
    let mut kept = ListOf::new(alloc);
    for column in columns {
        if column.id.0 != id.0 {
            kept.push(column.copy(alloc)?)?;
        }
    }
    Ok(kept)
}

/// The column under another name.
pub(crate) fn with_name(alloc: Global, column: &Column, name: &Str) -> Result<Column, NoMemory>
    ensures { IfOk result (λ new. new ≡ spec.with_name column.now name.now) }
{
    let mut new = column.copy(alloc)?;
    new.name = name.copy(alloc)?;
    Ok(new)
}

/// The column with another default.
pub(crate) fn with_default(
    alloc: Global,
    column: &Column,
    value: Option<Value>,
) -> Result<Column, NoMemory>
    ensures { IfOk result (λ new. new ≡ spec.with_default column.now value) }
{
    let name = column.name.copy(alloc)?;
    Ok(Column {
        id: column.id,
        name,
        kind: column.kind,
        not_null: column.not_null,
        default_value: value,
    })
}

/// The column with NOT NULL or without it.
pub(crate) fn with_not_null(
    alloc: Global,
    column: &Column,
    not_null: bool,
) -> Result<Column, NoMemory>
    ensures { IfOk result (λ new. new ≡ spec.with_not_null column.now not_null) }
{
    let mut new = column.copy(alloc)?;
    new.not_null = not_null;
    Ok(new)
}

/// The column with another type, to which its default is converted (22003).
pub(crate) fn of_type(alloc: Global, column: &Column, kind: SqlType) -> Result<Column, Stop>
    ensures { Answers (spec.of_type kind column.now) result }
{
    let default_value = default_converted(alloc, &column.default_value, kind)?;
    let name = column.name.copy(alloc)?;
    Ok(Column {
        id: column.id,
        name,
        kind,
        not_null: column.not_null,
        default_value,
    })
}

fn default_converted(
    alloc: Global,
    value: &Option<Value>,
    kind: SqlType,
) -> Result<Option<Value>, Stop>
    ensures { Answers (spec.default_converted kind value.now) result }
{
    match value {
        Some(value) => converted_copy(alloc, value, kind),
        None => Ok(None),
    }
}

fn converted_copy(alloc: Global, value: &Value, kind: SqlType) -> Result<Option<Value>, Stop>
    ensures { Answers (spec.given (spec.converted kind value.now)) result }
{
    let copy = value.copy(alloc)?;
    Ok(Some(convert(alloc, copy, kind)?))
}
