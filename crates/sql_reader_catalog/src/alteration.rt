//! ALTER, behind that word:
//!
//! ```text
//! alter         = SCHEMA name RENAME TO name | TABLE relation action
//! action        = ADD [COLUMN] column_def | DROP [COLUMN] name | RENAME (TO name | [COLUMN] name TO name)
//!               | SET SCHEMA name | ALTER [COLUMN] name change
//! change        = [SET DATA] TYPE name | SET DEFAULT constant | DROP DEFAULT | (SET | DROP) NOT NULL
//! ```
//!
//! The definition behind ADD has no keys.

ghost use Rattle.sql_expr.specs.Reading.{Reads};
ghost use Rattle.sql_reader_catalog.specs.Alteration as spec;

use crate::columns::column_def;
use crate::constant;
use crate::keywords::{
    skip_column_before_change, skip_column_before_definition, skip_column_before_name,
};
use q_base::{Stop, Str};
use sql_expr::{Cursor, name};
use sql_reader_query::relation;
use sql_tree::{AlterAction, AlterTree, Command, SchemaCommand};
use std::alloc::Global;

/// The command whose leading ALTER was read: of a table or a schema (PostgreSQL's manual, ALTER TABLE and ALTER SCHEMA).
/// 42601 where the tokens don't go on so.
#[tactic(auto, unfolding(crate::specs::Alteration::alter))]
pub fn alter(alloc: Global, cursor: &mut Cursor<'_>) -> Result<Command, Stop>
    ensures { Reads (spec.alter cursor.old) result cursor.new }
{
    if cursor.eat_word("schema") {
        return Ok(Command::Schema(renaming(alloc, cursor)?));
    }
    cursor.expect_word(alloc, "table")?;
    let table = relation(alloc, cursor)?;
    let action = action(alloc, cursor)?;
    Ok(Command::AlterTable(AlterTree { table, action }))
}

/// A schema's name, and its new one.
#[tactic(auto, unfolding(crate::specs::Alteration::renaming))]
fn renaming(alloc: Global, cursor: &mut Cursor<'_>) -> Result<SchemaCommand, Stop>
    ensures { Reads (spec.renaming cursor.old) result cursor.new }
{
    let schema = name(alloc, cursor)?;
    cursor.expect_word(alloc, "rename")?;
    let new_name = renamed_to(alloc, cursor)?;
    Ok(SchemaCommand::Rename(schema, new_name))
}

/// The name behind TO.
#[tactic(auto, unfolding(crate::specs::Alteration::renamed_to))]
fn renamed_to(alloc: Global, cursor: &mut Cursor<'_>) -> Result<Str, Stop>
    ensures { Reads (spec.renamed_to cursor.old) result cursor.new }
{
    cursor.expect_word(alloc, "to")?;
    name(alloc, cursor)
}

#[tactic(auto, unfolding(crate::specs::Alteration::table_action))]
fn action(alloc: Global, cursor: &mut Cursor<'_>) -> Result<AlterAction, Stop>
    ensures { Reads (spec.table_action cursor.old) result cursor.new }
{
    if cursor.eat_word("add") {
        skip_column_before_definition(cursor);
        Ok(AlterAction::AddColumn(column_def(alloc, cursor, false)?))
    } else if cursor.eat_word("drop") {
        skip_column_before_name(cursor);
        Ok(AlterAction::DropColumn(name(alloc, cursor)?))
    } else if cursor.eat_word("rename") {
        rename(alloc, cursor)
    } else if cursor.eat_word("set") {
        cursor.expect_word(alloc, "schema")?;
        Ok(AlterAction::SetSchema(name(alloc, cursor)?))
    } else {
        cursor.expect_word(alloc, "alter")?;
        alter_column(alloc, cursor)
    }
}

/// What stands behind RENAME.
#[tactic(auto, unfolding(crate::specs::Alteration::rename))]
fn rename(alloc: Global, cursor: &mut Cursor<'_>) -> Result<AlterAction, Stop>
    ensures { Reads (spec.rename cursor.old) result cursor.new }
{
    if cursor.eat_word("to") {
        return Ok(AlterAction::RenameTo(name(alloc, cursor)?));
    }
    skip_column_before_name(cursor);
    let column = name(alloc, cursor)?;
    let new_name = renamed_to(alloc, cursor)?;
    Ok(AlterAction::RenameColumn(column, new_name))
}

/// What stands behind the inner ALTER.
#[tactic(auto, unfolding(crate::specs::Alteration::alter_column))]
fn alter_column(alloc: Global, cursor: &mut Cursor<'_>) -> Result<AlterAction, Stop>
    ensures { Reads (spec.alter_column cursor.old) result cursor.new }
{
    skip_column_before_change(cursor);
    let column = name(alloc, cursor)?;
    if cursor.eat_word("type") {
        set_type(alloc, cursor, column)
    } else if cursor.eat_word("set") {
        set_part(alloc, cursor, column)
    } else {
        cursor.expect_word(alloc, "drop")?;
        drop_part(alloc, cursor, column)
    }
}

/// What stands behind TYPE.
#[tactic(auto, unfolding(crate::specs::Alteration::set_type))]
fn set_type(alloc: Global, cursor: &mut Cursor<'_>, column: Str) -> Result<AlterAction, Stop>
    ensures { Reads (spec.set_type column cursor.old) result cursor.new }
{
    let type_name = name(alloc, cursor)?;
    Ok(AlterAction::SetType(column, type_name))
}

/// What stands behind SET.
#[tactic(auto, unfolding(crate::specs::Alteration::set_part))]
fn set_part(alloc: Global, cursor: &mut Cursor<'_>, column: Str) -> Result<AlterAction, Stop>
    ensures { Reads (spec.set_part column cursor.old) result cursor.new }
{
    if cursor.eat_word("data") {
        cursor.expect_word(alloc, "type")?;
        set_type(alloc, cursor, column)
    } else if cursor.eat_word("default") {
        let value = constant(alloc, cursor)?;
        Ok(AlterAction::SetDefault(column, value))
    } else {
        not_null(alloc, cursor)?;
        Ok(AlterAction::SetNotNull(column))
    }
}

/// What stands behind DROP.
#[tactic(auto, unfolding(crate::specs::Alteration::drop_part))]
fn drop_part(alloc: Global, cursor: &mut Cursor<'_>, column: Str) -> Result<AlterAction, Stop>
    ensures { Reads (spec.drop_part column cursor.old) result cursor.new }
{
    if cursor.eat_word("default") {
        return Ok(AlterAction::DropDefault(column));
    }
    not_null(alloc, cursor)?;
    Ok(AlterAction::DropNotNull(column))
}

#[tactic(auto, unfolding(crate::specs::Alteration::not_null))]
fn not_null(alloc: Global, cursor: &mut Cursor<'_>) -> Result<(), Stop>
    ensures { Reads (spec.not_null cursor.old) result cursor.new }
{
    cursor.expect_word(alloc, "not")?;
    cursor.expect_word(alloc, "null")
}
