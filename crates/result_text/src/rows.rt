ghost use Rattle.std.specs.Prelude.{◌≡◌, ◌++◌, length, OnOk};
ghost use Rattle.result_text.specs.Rows as spec;

use crate::append::{append, append_number};
use q_base::NoMemory;
use q_value::{Row, Rows, Value, value_text};
use query_tree::{ResultColumn, ResultType};
use std::alloc::Global;

/// Appends what is printed for rows: the names of the columns, each row, and the number of rows. Nothing
/// is printed for a statement that gives no rows.
#[tactic(auto, unfolding(crate::specs::Rows::rows_lines))]
pub fn rows_text(
    alloc: Global,
    shape: &ResultType,
    rows: &Rows,
    out: &mut Vec<u8>,
) -> Result<(), NoMemory>
    ensures { OnOk result (out.new.items ≡ out.old.items ++ spec.rows_lines shape.now rows.now) }
{
    let Some(columns) = &shape.columns else {
        return Ok(());
    };
    append_names(columns.as_slice(), out)?;
    append_rows(rows.as_slice(), out)?;
    count_text(alloc, rows.as_slice().len() as u64, out)
}

/// Appends the line of the columns' names.
fn append_names(columns: &[ResultColumn], out: &mut Vec<u8>) -> Result<(), NoMemory>
    ensures { OnOk result (out.new.items ≡ out.old.items ++ spec.names_line columns.now) }
{
    if let [first, more @ ..] = columns {
        append(first.name.as_str().as_bytes(), out)?;
        append_more_names(more, out)?;
    }
    append(b"\n", out)
}

fn append_more_names(columns: &[ResultColumn], out: &mut Vec<u8>) -> Result<(), NoMemory>
    ensures { OnOk result (out.new.items ≡ out.old.items ++ spec.more_names columns.now) }
{
    for column in columns {
        append(b"|", out)?;
        append(column.name.as_str().as_bytes(), out)?;
    }
    Ok(())
}

fn append_rows(rows: &[Row], out: &mut Vec<u8>) -> Result<(), NoMemory>
    ensures { OnOk result (out.new.items ≡ out.old.items ++ spec.row_lines rows.now) }
{
    for row in rows {
        append_values(row.as_slice(), out)?;
    }
    Ok(())
}

/// Appends the line of a row.
fn append_values(values: &[Value], out: &mut Vec<u8>) -> Result<(), NoMemory>
    ensures { OnOk result (out.new.items ≡ out.old.items ++ spec.row_line values.now) }
{
    if let [first, more @ ..] = values {
        value_text(first, out)?;
        append_more_values(more, out)?;
    }
    append(b"\n", out)
}

fn append_more_values(values: &[Value], out: &mut Vec<u8>) -> Result<(), NoMemory>
    ensures { OnOk result (out.new.items ≡ out.old.items ++ spec.more_values values.now) }
{
    for value in values {
        append(b"|", out)?;
        value_text(value, out)?;
    }
    Ok(())
}

/// Appends the line of the number of rows.
pub fn count_text(alloc: Global, count: u64, out: &mut Vec<u8>) -> Result<(), NoMemory>
    ensures { OnOk result (out.new.items ≡ out.old.items ++ spec.count_line count) }
{
    if count == 1 {
        return append(b"(1 row)\n", out);
    }
    append(b"(", out)?;
    append_number(alloc, count, out)?;
    append(b" rows)\n", out)
}
