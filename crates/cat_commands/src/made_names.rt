ghost use Rattle.std.specs.Prelude.{◌≡◌, ◌++◌, IfOk, OnOk, []};
ghost use Rattle.std.specs.String.{string_bytes};
ghost use Rattle.std.specs.Fmt.{decimal};
ghost use Rattle.q_value.specs.Answers.{Answers};
ghost use Rattle.cat_commands.specs.MadeNames as spec;

use crate::names::is_named;
use cat_names::{NameRow, named_in};
use q_base::{Code, ListOf, NoMemory, SchemaId, Stop, Str, refusal, refusal_naming};
use sql_tree::{KeyConstraint, KeyKind, NameList};
use std::alloc::Global;

/// How many numbers are tried behind a made name: with one more object than there may be, a name is free.
const MOST_NUMBERS: u32 = 65_536;

/// How many bytes a name has at most.
const MOST_BYTES: usize = 63;

/// The names of a new table's indexes, one for each key (PostgreSQL's ChooseIndexName in indexcmds.c): `t_pkey`, or
/// `t_a_b_key` with the columns' names, and behind it the first of 1, 2, .. with which it isn't taken, if it is taken. The
/// first of over 63 bytes is 42622.
pub(crate) fn made_names(
    alloc: Global,
    names: &[NameRow],
    schema: SchemaId,
    table: &str,
    keys: &[KeyConstraint],
) -> Result<NameList, Stop> {
    let made = all_names(alloc, names, schema, table, keys)?;
    check_bytes(alloc, made.as_slice())?;
    Ok(made)
}

fn all_names(
    alloc: Global,
    names: &[NameRow],
    schema: SchemaId,
    table: &str,
    keys: &[KeyConstraint],
) -> Result<NameList, Stop> {
    let mut made: NameList = ListOf::new(alloc);
    for key in keys {
        let base = base_name(alloc, table, key)?;
        made.push(free_name(alloc, names, schema, made.as_slice(), base)?)?;
    }
    Ok(made)
}

fn base_name(alloc: Global, table: &str, key: &KeyConstraint) -> Result<Str, NoMemory>
    ensures { IfOk result (λ name. name ≡ spec.base_name table.now key.now) }
{
    match key.kind {
        KeyKind::Primary => primary_name(alloc, table),
        KeyKind::Unique => unique_name(alloc, table, key.columns.as_slice()),
    }
}

fn primary_name(alloc: Global, table: &str) -> Result<Str, NoMemory>
    ensures { IfOk result (λ name. name ≡ spec.primary_name table.now) }
{
    let mut text = String::from_str(alloc, table)?;
    text.push_str("_pkey")?;
    Ok(Str::new(text))
}

fn unique_name(alloc: Global, table: &str, columns: &[Str]) -> Result<Str, NoMemory>
    ensures { IfOk result (λ name. name ≡ spec.unique_name table.now columns.now) }
{
    let mut text = String::from_str(alloc, table)?;
    push_columns(&mut text, columns)?;
    text.push_str("_key")?;
    Ok(Str::new(text))
}

fn push_columns(text: &mut String, columns: &[Str]) -> Result<(), NoMemory>
    ensures { OnOk result (string_bytes text.new ≡ spec.with_columns (string_bytes text.old) columns.now) }
{
    for column in columns {
        text.push_str("_")?;
        text.push_str(column.as_str())?;
    }
    Ok(())
}

/// The name itself where it is free, else the first free one of those with a number behind it.
fn free_name(
    alloc: Global,
    names: &[NameRow],
    schema: SchemaId,
    made: &[Str],
    base: Str,
) -> Result<Str, Stop> {
    if is_taken(names, schema, made, base.as_str()) {
        numbered_name(alloc, names, schema, made, base.as_str())
    } else {
        Ok(base)
    }
}

fn numbered_name(
    alloc: Global,
    names: &[NameRow],
    schema: SchemaId,
    made: &[Str],
    base: &str,
) -> Result<Str, Stop> {
    for number in 0..MOST_NUMBERS {
        let name = numbered(alloc, base, number + 1)?;
        if !is_taken(names, schema, made, name.as_str()) {
            return Ok(name);
        }
    }
    Err(refusal(alloc, Code::LimitExceeded))
}

fn numbered(alloc: Global, base: &str, number: u32) -> Result<Str, NoMemory>
    ensures { IfOk result (λ name. name ≡ base.now ++ decimal number) }
{
    let mut text = String::from_str(alloc, base)?;
    let digits = number.to_string(alloc)?;
    text.push_str(digits.as_str())?;
    Ok(Str::new(text))
}

fn is_taken(names: &[NameRow], schema: SchemaId, made: &[Str], name: &str) -> bool
    ensures { result ≡ spec.is_taken names.now schema made.now name.now }
{
    named_in(names, schema, name).is_some() || is_named(made, name)
}

/// 42622 for the first name of over 63 bytes.
fn check_bytes(alloc: Global, names: &[Str]) -> Result<(), Stop>
    ensures { Answers (spec.short_names names.now) result }
{
    for name in names {
        if MOST_BYTES < name.as_str().len() {
            return Err(refusal_naming(alloc, Code::IdentifierTooLong, name.as_str()));
        }
    }
    Ok(())
}
