//! Statements, and the commands that consist of one:
//!
//! ```text
//! statement         = SELECT selection | INSERT insertion | change [WHERE expression] returning
//! statement_command = SELECT selection | INSERT insertion | change (position | [WHERE expression]) returning
//! ```

ghost use Rattle.sql_expr.specs.Reading.{Reads};
ghost use Rattle.sql_reader_query.specs.Statements as spec;

use crate::changes::{change_command, change_of, insertion, searched};
use crate::query::selection;
use q_base::Stop;
use sql_expr::Cursor;
use sql_tree::{Command, Statement};
use std::alloc::Global;

/// A SELECT or an INSERT, if one of these words comes next.
#[tactic(auto, unfolding(crate::specs::Statements::select_or_insert))]
fn select_or_insert(alloc: Global, cursor: &mut Cursor<'_>) -> Result<Option<Statement>, Stop>
    ensures { Reads (spec.select_or_insert cursor.old) result cursor.new }
{
    if cursor.eat_word("select") {
        return Ok(Some(Statement::Select(selection(alloc, cursor)?)));
    }
    if cursor.eat_word("insert") {
        return Ok(Some(Statement::Insert(insertion(alloc, cursor)?)));
    }
    Ok(None)
}

/// A SELECT, INSERT, UPDATE or DELETE (PostgreSQL's manual has a page of each name), the longest that the
/// tokens give without going back. None is positioned: behind WHERE the word CURRENT is a column, also before OF.
/// 42601 where the tokens don't begin so.
#[tactic(auto, unfolding(crate::specs::Statements::statement))]
pub fn statement(alloc: Global, cursor: &mut Cursor<'_>) -> Result<Statement, Stop>
    ensures { Reads (spec.statement cursor.old) result cursor.new }
{
    if let Some(statement) = select_or_insert(alloc, cursor)? {
        return Ok(statement);
    }
    let change = change_of(alloc, cursor)?;
    searched(alloc, cursor, change)
}

/// A command that is a statement, or a positioned UPDATE or DELETE, in which WHERE CURRENT OF and a cursor's name
/// stand in the place of the condition. 42601 where the tokens don't begin so.
#[tactic(auto, unfolding(crate::specs::Statements::statement_command))]
pub fn statement_command(alloc: Global, cursor: &mut Cursor<'_>) -> Result<Command, Stop>
    ensures { Reads (spec.statement_command cursor.old) result cursor.new }
{
    if let Some(statement) = select_or_insert(alloc, cursor)? {
        return Ok(Command::Statement(statement));
    }
    let change = change_of(alloc, cursor)?;
    change_command(alloc, cursor, change)
}
