//! The backslash lines, behind the token of the backslash and its letters:
//!
//! ```text
//! \prepared | \cursors | \sync
//! \parse prepare_tree
//! \bind portal execute_tree
//! \run portal count
//! \end portal
//! ```

ghost use Rattle.sql_expr.specs.Reading.{Reads};
ghost use Rattle.sql_reader_session.specs.Lines as spec;

use crate::numbers::count;
use crate::prepared::{execute_tree, prepare_tree};
use q_base::{Code, Stop, refusal};
use sql_expr::{Cursor, name};
use sql_tree::{BindTree, Command, RunTree};
use std::alloc::Global;

#[tactic(auto, unfolding(crate::specs::Lines::bind_tree))]
fn bind_tree(alloc: Global, cursor: &mut Cursor<'_>) -> Result<BindTree, Stop>
    ensures { Reads (spec.bind_tree cursor.old) result cursor.new }
{
    let portal = name(alloc, cursor)?;
    let execute = execute_tree(alloc, cursor)?;
    Ok(BindTree { portal, execute })
}

#[tactic(auto, unfolding(crate::specs::Lines::run_tree))]
fn run_tree(alloc: Global, cursor: &mut Cursor<'_>) -> Result<RunTree, Stop>
    ensures { Reads (spec.run_tree cursor.old) result cursor.new }
{
    let portal = name(alloc, cursor)?;
    let count = count(alloc, cursor)?;
    Ok(RunTree { portal, count })
}

/// What stands behind a backslash and these letters, which are told apart by case: the parts that the line asks for
/// (this project's own: two for the views pg_prepared_statements and pg_cursors, five for messages of PostgreSQL's extended
/// query protocol). 42601 where there is no such line, and where the tokens don't go on as it asks.
#[tactic(auto, unfolding(crate::specs::Lines::backslash_line))]
pub fn backslash_line(
    alloc: Global,
    cursor: &mut Cursor<'_>,
    letters: &str,
) -> Result<Command, Stop>
    ensures { Reads (spec.backslash_line letters.now cursor.old) result cursor.new }
{
    if letters == "prepared" {
        Ok(Command::ShowPrepared)
    } else if letters == "cursors" {
        Ok(Command::ShowCursors)
    } else if letters == "parse" {
        Ok(Command::Parse(prepare_tree(alloc, cursor)?))
    } else if letters == "bind" {
        Ok(Command::Bind(bind_tree(alloc, cursor)?))
    } else if letters == "run" {
        Ok(Command::Run(run_tree(alloc, cursor)?))
    } else if letters == "end" {
        Ok(Command::EndPortal(name(alloc, cursor)?))
    } else if letters == "sync" {
        Ok(Command::Sync)
    } else {
        Err(refusal(alloc, Code::SyntaxError))
    }
}
