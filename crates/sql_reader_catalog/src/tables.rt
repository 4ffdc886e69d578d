//! What CREATE TABLE makes:
//!
//! ```text
//! table      = relation "(" elements ")"
//! elements   = element {"," element}
//! element    = PRIMARY KEY parenthesized_names | UNIQUE parenthesized_names | column_def
//! temp_table = table [ON COMMIT (PRESERVE ROWS | DELETE ROWS | DROP)]
//! ```

ghost use Rattle.sql_expr.specs.Reading.{Reads};
ghost use Rattle.sql_reader_catalog.specs.Tables as spec;

use crate::columns::column_def;
use q_base::{Code, ListOf, Stop, refusal};
use sql_expr::Cursor;
use sql_reader_query::{parenthesized_names, relation};
use sql_tokens::Sign;
use sql_tree::{
    KeyConstraint, KeyKind, OnCommit, TableElement, TableElementList, TableTree, TempTableTree,
};
use std::alloc::Global;

#[tactic(auto, unfolding(crate::specs::Tables::table))]
pub(crate) fn table(alloc: Global, cursor: &mut Cursor<'_>) -> Result<TableTree, Stop>
    ensures { Reads (spec.table cursor.old) result cursor.new }
{
    let name = relation(alloc, cursor)?;
    cursor.expect_sign(alloc, Sign::LeftParen)?;
    let elements = elements(alloc, cursor)?;
    cursor.expect_sign(alloc, Sign::RightParen)?;
    Ok(TableTree { name, elements })
}

#[tactic(auto, unfolding(crate::specs::Tables::temp_table))]
pub(crate) fn temp_table(alloc: Global, cursor: &mut Cursor<'_>) -> Result<TempTableTree, Stop>
    ensures { Reads (spec.temp_table cursor.old) result cursor.new }
{
    let table = table(alloc, cursor)?;
    let on_commit = on_commit(alloc, cursor)?;
    Ok(TempTableTree { table, on_commit })
}

/// What stands between the parentheses.
fn elements(alloc: Global, cursor: &mut Cursor<'_>) -> Result<TableElementList, Stop>
    ensures { Reads (spec.elements cursor.old) result cursor.new }
{
    let mut found = ListOf::new(alloc);
    for _turn in 0..cursor.left() {
        found.push(element(alloc, cursor)?)?;
        if !cursor.eat_sign(Sign::Comma) {
            return Ok(found);
        }
    }
    Err(refusal(alloc, Code::SyntaxError))
}

#[tactic(auto, unfolding(crate::specs::Tables::element))]
fn element(alloc: Global, cursor: &mut Cursor<'_>) -> Result<TableElement, Stop>
    ensures { Reads (spec.element cursor.old) result cursor.new }
{
    if cursor.eat_word("primary") {
        cursor.expect_word(alloc, "key")?;
        constraint(alloc, cursor, KeyKind::Primary)
    } else if cursor.eat_word("unique") {
        constraint(alloc, cursor, KeyKind::Unique)
    } else {
        Ok(TableElement::Column(column_def(alloc, cursor, true)?))
    }
}

/// The key of a kind that was read, over the columns that come next.
#[tactic(auto, unfolding(crate::specs::Tables::constraint))]
fn constraint(alloc: Global, cursor: &mut Cursor<'_>, kind: KeyKind) -> Result<TableElement, Stop>
    ensures { Reads (spec.constraint kind cursor.old) result cursor.new }
{
    let columns = parenthesized_names(alloc, cursor)?;
    Ok(TableElement::Key(KeyConstraint { kind, columns }))
}

/// Rows are preserved where ON COMMIT isn't written.
#[tactic(auto, unfolding(crate::specs::Tables::on_commit))]
fn on_commit(alloc: Global, cursor: &mut Cursor<'_>) -> Result<OnCommit, Stop>
    ensures { Reads (spec.on_commit cursor.old) result cursor.new }
{
    if !cursor.eat_word("on") {
        return Ok(OnCommit::Preserve);
    }
    cursor.expect_word(alloc, "commit")?;
    if cursor.eat_word("drop") {
        return Ok(OnCommit::Drop);
    }
    if cursor.eat_word("delete") {
        cursor.expect_word(alloc, "rows")?;
        return Ok(OnCommit::Delete);
    }
    cursor.expect_word(alloc, "preserve")?;
    cursor.expect_word(alloc, "rows")?;
    Ok(OnCommit::Preserve)
}
