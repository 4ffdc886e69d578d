//! CREATE, behind that word:
//!
//! ```text
//! create = SCHEMA name | TABLE table | (TEMP | TEMPORARY) TABLE temp_table
//!        | [UNIQUE] INDEX name ON relation parenthesized_names
//!        | [OR REPLACE] VIEW relation optional_names AS select
//! ```

ghost use Rattle.std.specs.Prelude.{◌≡◌, Some};
ghost use Rattle.sql_expr.specs.Reading.{Reads};
ghost use Rattle.sql_reader_catalog.specs.Creation as spec;

use crate::tables::{table, temp_table};
use q_base::Stop;
use sql_expr::{Cursor, name};
use sql_reader_query::{optional_names, parenthesized_names, relation, select};
use sql_tree::{Command, IndexTree, SchemaCommand, Statement, ViewTree};
use std::alloc::Global;

/// The command whose leading CREATE was read: of a schema, a table, an index or a view (PostgreSQL's manual, CREATE SCHEMA,
/// TABLE, INDEX and VIEW). 42601 where the tokens don't go on so.
#[tactic(auto, unfolding(crate::specs::Creation::create))]
pub fn create(alloc: Global, cursor: &mut Cursor<'_>) -> Result<Command, Stop>
    ensures { Reads (spec.create cursor.old) result cursor.new }
{
    if cursor.eat_word("schema") {
        Ok(Command::Schema(SchemaCommand::Create(name(alloc, cursor)?)))
    } else if cursor.eat_word("table") {
        Ok(Command::CreateTable(table(alloc, cursor)?))
    } else if eat_temp(cursor) {
        cursor.expect_word(alloc, "table")?;
        Ok(Command::CreateTempTable(temp_table(alloc, cursor)?))
    } else if cursor.eat_word("unique") {
        cursor.expect_word(alloc, "index")?;
        Ok(Command::CreateIndex(index(alloc, cursor, true)?))
    } else if cursor.eat_word("index") {
        Ok(Command::CreateIndex(index(alloc, cursor, false)?))
    } else {
        Ok(Command::CreateView(view(alloc, cursor)?))
    }
}

/// Goes past TEMP or TEMPORARY, if one of them comes next, and says whether it did.
fn eat_temp(cursor: &mut Cursor<'_>) -> bool
    ensures { spec.eat_temp cursor.old ≡ Some (result, cursor.new) }
{
    if cursor.eat_word("temp") {
        return true;
    }
    cursor.eat_word("temporary")
}

/// What stands behind INDEX.
#[tactic(auto, unfolding(crate::specs::Creation::index))]
fn index(alloc: Global, cursor: &mut Cursor<'_>, unique: bool) -> Result<IndexTree, Stop>
    ensures { Reads (spec.index unique cursor.old) result cursor.new }
{
    let index = name(alloc, cursor)?;
    cursor.expect_word(alloc, "on")?;
    let table = relation(alloc, cursor)?;
    let columns = parenthesized_names(alloc, cursor)?;
    Ok(IndexTree {
        name: index,
        unique,
        table,
        columns,
    })
}

/// The view, with OR REPLACE before VIEW or without.
#[tactic(auto, unfolding(crate::specs::Creation::view))]
fn view(alloc: Global, cursor: &mut Cursor<'_>) -> Result<ViewTree, Stop>
    ensures { Reads (spec.view cursor.old) result cursor.new }
{
    let replace = or_replace(alloc, cursor)?;
    cursor.expect_word(alloc, "view")?;
    let name = relation(alloc, cursor)?;
    let columns = optional_names(alloc, cursor)?;
    cursor.expect_word(alloc, "as")?;
    let query = Statement::ViewSelect(select(alloc, cursor)?);
    Ok(ViewTree {
        name,
        replace,
        columns,
        query,
    })
}

/// Whether OR REPLACE comes next, which is then read.
#[tactic(auto, unfolding(crate::specs::Creation::or_replace))]
fn or_replace(alloc: Global, cursor: &mut Cursor<'_>) -> Result<bool, Stop>
    ensures { Reads (spec.or_replace cursor.old) result cursor.new }
{
    if !cursor.eat_word("or") {
        return Ok(false);
    }
    cursor.expect_word(alloc, "replace")?;
    Ok(true)
}
