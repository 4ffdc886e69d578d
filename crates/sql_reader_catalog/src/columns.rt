//! Definitions of columns:
//!
//! ```text
//! column_def = name type {NOT NULL | NULL | DEFAULT constant | PRIMARY KEY | UNIQUE}
//! type       = name
//! ```
//!
//! PRIMARY KEY and UNIQUE stand in CREATE TABLE alone. No part stands twice, nor NULL beside NOT NULL.

ghost use Rattle.std.specs.Prelude.{◌≡◌, OnOk};
ghost use Rattle.sql_expr.specs.Reading.{Reads};
ghost use Rattle.sql_reader_catalog.specs.Columns as spec;

use crate::constant;
use q_base::{Code, ListOf, NoMemory, Stop, Str, refusal};
use sql_expr::{Cursor, name};
use sql_tree::{ColumnDef, KeyKind, Literal, Nullability};
use std::alloc::Global;

/// What may stand behind the type in a column's definition.
#[derive(Drop)]
pub enum Part {
    Nulls(Nullability),
    Default(Literal),
    Key(KeyKind),
}

/// A column's definition, with keys where `keyed` says so.
#[tactic(auto, unfolding(crate::specs::Columns::column_def))]
pub(crate) fn column_def(
    alloc: Global,
    cursor: &mut Cursor<'_>,
    keyed: bool,
) -> Result<ColumnDef, Stop>
    ensures { Reads (spec.column_def keyed cursor.old) result cursor.new }
{
    let column = name(alloc, cursor)?;
    let type_name = name(alloc, cursor)?;
    parts(alloc, cursor, keyed, bare(alloc, column, type_name))
}

fn bare(alloc: Global, name: Str, type_name: Str) -> ColumnDef
    ensures { result ≡ spec.bare name type_name }
{
    ColumnDef {
        name,
        type_name,
        nullability: Nullability::Unsaid,
        default: None,
        keys: ListOf::new(alloc),
    }
}

/// The definition with the parts that come next.
fn parts(
    alloc: Global,
    cursor: &mut Cursor<'_>,
    keyed: bool,
    bare: ColumnDef,
) -> Result<ColumnDef, Stop>
    ensures { Reads (spec.parts keyed bare cursor.old) result cursor.new }
{
    let mut def = bare;
    for _turn in 0..cursor.left() {
        let Some(part) = next_part(alloc, cursor, keyed, &def)? else {
            return Ok(def);
        };
        put(&mut def, part)?;
    }
    Ok(def)
}

/// Goes past a part, if one comes next. 42601 where the definition has such a part already.
#[tactic(auto, unfolding(crate::specs::Columns::next_part))]
fn next_part(
    alloc: Global,
    cursor: &mut Cursor<'_>,
    keyed: bool,
    def: &ColumnDef,
) -> Result<Option<Part>, Stop>
    ensures { Reads (spec.next_part keyed def.now cursor.old) result cursor.new }
{
    let Some(part) = eat_part(alloc, cursor, keyed)? else {
        return Ok(None);
    };
    if repeats(def, &part) {
        return Err(refusal(alloc, Code::SyntaxError));
    }
    Ok(Some(part))
}

#[tactic(auto, unfolding(crate::specs::Columns::part))]
fn eat_part(alloc: Global, cursor: &mut Cursor<'_>, keyed: bool) -> Result<Option<Part>, Stop>
    ensures { Reads (spec.part keyed cursor.old) result cursor.new }
{
    if cursor.eat_word("not") {
        cursor.expect_word(alloc, "null")?;
        Ok(Some(Part::Nulls(Nullability::NotNull)))
    } else if cursor.eat_word("null") {
        Ok(Some(Part::Nulls(Nullability::Null)))
    } else if cursor.eat_word("default") {
        Ok(Some(Part::Default(constant(alloc, cursor)?)))
    } else if keyed {
        eat_key(alloc, cursor)
    } else {
        Ok(None)
    }
}

#[tactic(auto, unfolding(crate::specs::Columns::key))]
fn eat_key(alloc: Global, cursor: &mut Cursor<'_>) -> Result<Option<Part>, Stop>
    ensures { Reads (spec.key cursor.old) result cursor.new }
{
    if cursor.eat_word("primary") {
        cursor.expect_word(alloc, "key")?;
        Ok(Some(Part::Key(KeyKind::Primary)))
    } else if cursor.eat_word("unique") {
        Ok(Some(Part::Key(KeyKind::Unique)))
    } else {
        Ok(None)
    }
}

/// Whether the definition says already what the part says. NULL and NOT NULL say the same kind of thing.
fn repeats(def: &ColumnDef, part: &Part) -> bool
    ensures { result ≡ spec.repeats part.now def.now }
{
    match part {
        Part::Nulls(_) => def.nullability != Nullability::Unsaid,
        Part::Default(_) => def.default.is_some(),
        Part::Key(kind) => def.keys.as_slice().contains(kind),
    }
}

fn put(def: &mut ColumnDef, part: Part) -> Result<(), NoMemory>
    ensures { OnOk result (def.new ≡ spec.with_part part def.old) }
{
    match part {
        Part::Nulls(nullability) => def.nullability = nullability,
        Part::Default(literal) => def.default = Some(literal),
        Part::Key(kind) => def.keys.push(kind)?,
    }
    Ok(())
}
