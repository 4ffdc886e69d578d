use q_base::{Args, Code, NoMemory, SqlError, Str};
use q_value::{Row, Rows, SqlType, Value};
use query_tree::{ResultColumn, ResultColumnList, ResultType};
use result_text::{Tag, TagKind, error_text, rows_text, tag_text, warning_text};
use std::alloc::Global;
use std::test::Fail;

fn shape(alloc: Global, names: &[&str]) -> Result<ResultType, NoMemory> {
    let mut columns = ResultColumnList::new(alloc);
    for name in names {
        columns.push(ResultColumn {
            name: Str::from_text(alloc, name)?,
            kind: SqlType::Text,
        })?;
    }
    Ok(ResultType {
        columns: Some(columns),
    })
}

fn pair(alloc: Global, left: Value, right: Value) -> Result<Row, NoMemory> {
    let mut row = Row::new(alloc);
    row.push(left)?;
    row.push(right)?;
    Ok(row)
}

fn show_no_rows(alloc: Global, out: &mut Vec<u8>) -> Result<(), NoMemory> {
    rows_text(
        alloc,
        &shape(alloc, &["a", "?column?"])?,
        &Rows::new(alloc),
        out,
    )
}

/// One row, then two.
fn show_rows(alloc: Global, out: &mut Vec<u8>) -> Result<(), NoMemory> {
    let shape = shape(alloc, &["a", "b"])?;
    let mut rows = Rows::new(alloc);
    rows.push(pair(alloc, Value::Null, Value::Bool(true))?)?;
    rows_text(alloc, &shape, &rows, out)?;
    let text = Value::Text(Str::from_text(alloc, "x|y")?);
    rows.push(pair(alloc, text, Value::Int4(-3))?)?;
    rows_text(alloc, &shape, &rows, out)
}

fn show_tags(alloc: Global, out: &mut Vec<u8>) -> Result<(), NoMemory> {
    tag_text(alloc, Tag::Insert, 12, out)?;
    tag_text(alloc, Tag::Drop(TagKind::View), 12, out)?;
    tag_text(alloc, Tag::CloseCursorAll, 0, out)
}

fn error(alloc: Global) -> Result<SqlError, NoMemory> {
    let mut args = Args::new(alloc);
    args.push(Str::from_text(alloc, "t")?)?;
    Ok(SqlError {
        code: Code::UnknownRelation,
        args,
    })
}

fn warning(alloc: Global) -> SqlError {
    SqlError {
        code: Code::NoTransaction,
        args: Args::new(alloc),
    }
}

/// Each line as PostgreSQL and psql print it.
#[test]
fn rows_are_printed(rt: HostRuntime) -> Result<(), Fail> {
    let mut out = Vec::new(rt.alloc());
    show_no_rows(rt.alloc(), &mut out)?;
    show_rows(rt.alloc(), &mut out)?;
    assert_eq!(rt;
        out.as_slice(),
        b"a|?column?\n(0 rows)\na|b\n|t\n(1 row)\na|b\n|t\nx|y|-3\n(2 rows)\n".as_slice()
    );
    Ok(())
}

#[test]
fn other_lines_are_printed(rt: HostRuntime) -> Result<(), Fail> {
    let mut out = Vec::new(rt.alloc());
    show_tags(rt.alloc(), &mut out)?;
    error_text(&error(rt.alloc())?, &mut out)?;
    warning_text(&warning(rt.alloc()), &mut out)?;
    assert_eq!(rt;
        out.as_slice(),
        b"INSERT 0 12\nDROP VIEW\nCLOSE CURSOR ALL\nERROR:  42P01: relation \"t\" does not exist\nWARNING:  25P01: there is no transaction in progress\n".as_slice()
    );
    Ok(())
}
