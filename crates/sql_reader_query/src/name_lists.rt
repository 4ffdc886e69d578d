//! Names of relations and columns, and lists of names:
//!
//! ```text
//! relation            = name ["." name]
//! column              = name ["." name]
//! names               = name {"," name}
//! parenthesized_names = "(" names ")"
//! optional_names      = [parenthesized_names]
//! ```

ghost use Rattle.sql_expr.specs.Names.{name as name_reading};
ghost use Rattle.sql_expr.specs.Reading.{Reads};
ghost use Rattle.sql_reader_query.specs.Names as spec;

use crate::lists::{Element, list_of};
use q_base::{ListOf, Stop, Str};
use sql_expr::{Cursor, name};
use sql_tokens::Sign;
use sql_tree::{ColumnRef, NameList, QName};
use std::alloc::Global;

/// A name, and the one that was written before it and a dot.
#[tactic(auto, unfolding(crate::specs::Names::qualified))]
fn qualified(alloc: Global, cursor: &mut Cursor<'_>) -> Result<(Option<Str>, Str), Stop>
    ensures { Reads (spec.qualified cursor.old) result cursor.new }
{
    let first = name(alloc, cursor)?;
    if !cursor.eat_sign(Sign::Dot) {
        return Ok((None, first));
    }
    let second = name(alloc, cursor)?;
    Ok((Some(first), second))
}

/// The name of a table, view or index, with the name of a schema before it or without (PostgreSQL's manual,
/// "Schemas"). 42601 where none comes next, and where none stands behind a dot.
#[tactic(auto, unfolding(crate::specs::Names::relation))]
pub fn relation(alloc: Global, cursor: &mut Cursor<'_>) -> Result<QName, Stop>
    ensures { Reads (spec.relation cursor.old) result cursor.new }
{
    let (schema, name) = qualified(alloc, cursor)?;
    Ok(QName { schema, name })
}

/// The name of a column.
impl Element for ColumnRef {
    ghost reading = { spec.column };

    #[tactic(auto, unfolding(crate::specs::Names::column))]
    fn read(alloc: Global, cursor: &mut Cursor<'_>) -> Result<ColumnRef, Stop> {
        let (item, name) = qualified(alloc, cursor)?;
        Ok(ColumnRef { item, name })
    }
}

impl Element for Str {
    ghost reading = { name_reading };

    fn read(alloc: Global, cursor: &mut Cursor<'_>) -> Result<Str, Stop> {
        name(alloc, cursor)
    }
}

/// Names with commas between them, as many as there are. 42601 where none comes next, and where none stands
/// behind a comma.
#[tactic(auto, unfolding(crate::specs::Names::names))]
pub fn names(alloc: Global, cursor: &mut Cursor<'_>) -> Result<NameList, Stop>
    ensures { Reads (spec.names cursor.old) result cursor.new }
{
    list_of(alloc, cursor)
}

/// The names behind an opening parenthesis, and the closing one.
#[tactic(auto, unfolding(crate::specs::Names::enclosed_names))]
fn enclosed_names(alloc: Global, cursor: &mut Cursor<'_>) -> Result<NameList, Stop>
    ensures { Reads (spec.enclosed_names cursor.old) result cursor.new }
{
    let found = names(alloc, cursor)?;
    cursor.expect_sign(alloc, Sign::RightParen)?;
    Ok(found)
}

/// Names in parentheses. 42601 where the tokens don't begin so.
#[tactic(auto, unfolding(crate::specs::Names::parenthesized_names))]
pub fn parenthesized_names(alloc: Global, cursor: &mut Cursor<'_>) -> Result<NameList, Stop>
    ensures { Reads (spec.parenthesized_names cursor.old) result cursor.new }
{
    cursor.expect_sign(alloc, Sign::LeftParen)?;
    enclosed_names(alloc, cursor)
}

/// Names in parentheses, or no names where no opening parenthesis comes next.
#[tactic(auto, unfolding(crate::specs::Names::optional_names))]
pub fn optional_names(alloc: Global, cursor: &mut Cursor<'_>) -> Result<NameList, Stop>
    ensures { Reads (spec.optional_names cursor.old) result cursor.new }
{
    if cursor.eat_sign(Sign::LeftParen) {
        enclosed_names(alloc, cursor)
    } else {
        Ok(ListOf::new(alloc))
    }
}
