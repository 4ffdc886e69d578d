//! What commands print besides the rows of queries: warnings, plans, settings, and tables of texts.

ghost use Rattle.std.specs.Prelude.{◌≡◌, ◌++◌, ◌∷◌, [], OnOk};
ghost use Rattle.result_text.specs.Messages.{warning_line};
ghost use Rattle.result_text.specs.Rows.{rows_lines};
ghost use Rattle.result_text.specs.Tags.{tag_line};
ghost use Rattle.session_core.specs.Settings.{shown_lines};
ghost use Rattle.session_core.specs.State.{Appends};

use plan_tree::{Plan, plan_text};
use q_base::{Code, ListOf, NoMemory, SqlError, Stop, Str, refusal, refusal_naming};
use q_value::{Row, Rows, SqlType, Value};
use query_tree::{ResultColumn, ResultColumnList, ResultType};
use result_text::{Tag, count_text, rows_text, tag_text, warning_text};
use std::alloc::Global;

/// Appends the line of a warning, and then a tag.
pub fn warned_tag(alloc: Global, code: Code, tag: Tag, out: &mut Vec<u8>) -> Result<(), NoMemory>
    ensures { OnOk result (out.new.items ≡ out.old.items ++ (warning_line (record { code = code; args = [] }) ++ tag_line tag 0)) }
{
    match refusal(alloc, code) {
        Stop::Sql(warning) => warning_and_tag(alloc, &warning, tag, out),
        Stop::NoMemory => Err(NoMemory),
    }
}

/// Appends the line of a warning that names something, and then a tag.
pub fn warned_naming_tag(
    alloc: Global,
    code: Code,
    name: &str,
    tag: Tag,
    out: &mut Vec<u8>,
) -> Result<(), NoMemory>
    ensures { OnOk result (out.new.items ≡ out.old.items ++ (warning_line (record { code = code; args = name.now ∷ [] }) ++ tag_line tag 0)) }
{
    match refusal_naming(alloc, code, name) {
        Stop::Sql(warning) => warning_and_tag(alloc, &warning, tag, out),
        Stop::NoMemory => Err(NoMemory),
    }
}

fn warning_and_tag(
    alloc: Global,
    warning: &SqlError,
    tag: Tag,
    out: &mut Vec<u8>,
) -> Result<(), NoMemory>
    ensures { OnOk result (out.new.items ≡ out.old.items ++ (warning_line warning.now ++ tag_line tag 0)) }
{
    warning_text(warning, out)?;
    tag_text(alloc, tag, 0, out)
}

/// Appends rows, and then a tag with their number.
pub fn rows_and_tag(
    alloc: Global,
    shape: &ResultType,
    rows: &Rows,
    tag: Tag,
    count: u64,
    out: &mut Vec<u8>,
) -> Result<(), NoMemory>
    ensures { OnOk result (out.new.items ≡ out.old.items ++ (rows_lines shape.now rows.now ++ tag_line tag count)) }
{
    rows_text(alloc, shape, rows, out)?;
    tag_text(alloc, tag, count, out)
}

fn append(bytes: &[u8], out: &mut Vec<u8>) -> Result<(), NoMemory>
    ensures { OnOk result (out.new.items ≡ out.old.items ++ bytes.now) }
{
    out.extend_from_slice(bytes)?;
    Ok(())
}

/// Appends the names of columns and one value, as SHOW prints it.
pub fn one_text(alloc: Global, name: &str, value: &[u8], out: &mut Vec<u8>) -> Result<(), NoMemory>
    ensures { OnOk result (out.new.items ≡ out.old.items ++ shown_lines name.now value.now) }
{
    append(name.as_bytes(), out)?;
    append(b"\n", out)?;
    append(value, out)?;
    append(b"\n", out)?;
    count_text(alloc, 1, out)
}

/// Appends a plan as EXPLAIN prints it.
pub fn plan_lines(alloc: Global, chosen: &Plan, out: &mut Vec<u8>) -> Result<(), NoMemory>
    ensures { OnOk result (Appends out.old.items out.new.items) }
{
    let mut text = Vec::new(alloc);
    plan_text(alloc, chosen, &mut text)?;
    let lines = lines_in(text.as_slice());
    let mut shown = Vec::new(alloc);
    append(b"QUERY PLAN\n", &mut shown)?;
    append(text.as_slice(), &mut shown)?;
    count_text(alloc, lines, &mut shown)?;
    append(shown.as_slice(), out)
}

fn lines_in(text: &[u8]) -> u64 {
    let mut count = 0_u64;
    for byte in text {
        if *byte == b'\n' {
            count = count.saturating_add(1);
        }
    }
    count
}

/// Appends a table of values under names.
pub fn text_table(
    alloc: Global,
    names: &[&str],
    rows: &Rows,
    out: &mut Vec<u8>,
) -> Result<(), NoMemory>
    ensures { OnOk result (Appends out.old.items out.new.items) }
{
    let shape = shape_of(alloc, names)?;
    rows_text(alloc, &shape, rows, out)
}

fn shape_of(alloc: Global, names: &[&str]) -> Result<ResultType, NoMemory> {
    let mut columns: ResultColumnList = ListOf::new(alloc);
    for name in names {
        columns.push(ResultColumn {
            name: Str::from_text(alloc, name)?,
            kind: SqlType::Text,
        })?;
    }
    Ok(ResultType {
        columns: Some(columns),
    })
}
