//! The commands on prepared statements, behind their leading words:
//!
//! ```text
//! prepare_tree = name ["(" list(name) ")"] AS statement
//! execute_tree = name ["(" list(expression) ")"]
//! explain      = EXECUTE execute_tree | statement
//! deallocate   = [PREPARE] (ALL | name)
//! discard      = PLANS | TEMP | TEMPORARY
//! ```

ghost use Rattle.std.specs.Prelude.{◌≡◌, Some};
ghost use Rattle.sql_expr.specs.Reading.{Reads};
ghost use Rattle.sql_reader_session.specs.Prepared as spec;

use crate::keywords::eat_either;
use q_base::{Code, ListOf, Stop, refusal};
use sql_expr::{Cursor, expression, name, sees_name};
use sql_reader_query::{optional_names, statement};
use sql_tokens::Sign;
use sql_tree::{Command, ExecuteTree, ExprList, PrepareTree};
use std::alloc::Global;

/// Expressions with commas between them.
#[tactic(auto, unfolding(crate::specs::Prepared::expressions))]
fn expressions(alloc: Global, cursor: &mut Cursor<'_>) -> Result<ExprList, Stop>
    ensures { Reads (spec.expressions cursor.old) result cursor.new }
{
    let mut found = ListOf::new(alloc);
    for _turn in 0..cursor.left() {
        found.push(expression(alloc, cursor)?)?;
        if !cursor.eat_sign(Sign::Comma) {
            return Ok(found);
        }
    }
    Err(refusal(alloc, Code::SyntaxError))
}

/// Expressions in parentheses, or none where no opening parenthesis comes next.
#[tactic(auto, unfolding(crate::specs::Prepared::arguments))]
fn arguments(alloc: Global, cursor: &mut Cursor<'_>) -> Result<ExprList, Stop>
    ensures { Reads (spec.arguments cursor.old) result cursor.new }
{
    if !cursor.eat_sign(Sign::LeftParen) {
        return Ok(ListOf::new(alloc));
    }
    let found = expressions(alloc, cursor)?;
    cursor.expect_sign(alloc, Sign::RightParen)?;
    Ok(found)
}

/// What stands behind PREPARE. Names of types are only read here.
#[tactic(auto, unfolding(crate::specs::Prepared::prepare_tree))]
pub(crate) fn prepare_tree(alloc: Global, cursor: &mut Cursor<'_>) -> Result<PrepareTree, Stop>
    ensures { Reads (spec.prepare_tree cursor.old) result cursor.new }
{
    let name = name(alloc, cursor)?;
    let types = optional_names(alloc, cursor)?;
    cursor.expect_word(alloc, "as")?;
    let statement = statement(alloc, cursor)?;
    Ok(PrepareTree {
        name,
        types,
        statement,
    })
}

/// What stands behind EXECUTE.
#[tactic(auto, unfolding(crate::specs::Prepared::execute_tree))]
pub(crate) fn execute_tree(alloc: Global, cursor: &mut Cursor<'_>) -> Result<ExecuteTree, Stop>
    ensures { Reads (spec.execute_tree cursor.old) result cursor.new }
{
    let name = name(alloc, cursor)?;
    let arguments = arguments(alloc, cursor)?;
    Ok(ExecuteTree { name, arguments })
}

/// What stands behind PREPARE: the statement's name, perhaps names of types in parentheses, AS and a statement
/// (PostgreSQL's manual, PREPARE). 42601 where the tokens don't go on so.
#[tactic(auto, unfolding(crate::specs::Prepared::prepare))]
pub fn prepare(alloc: Global, cursor: &mut Cursor<'_>) -> Result<Command, Stop>
    ensures { Reads (spec.prepare cursor.old) result cursor.new }
{
    Ok(Command::Prepare(prepare_tree(alloc, cursor)?))
}

/// What stands behind EXECUTE: the statement's name, and perhaps arguments in parentheses, one at least (PostgreSQL's
/// manual, EXECUTE). 42601 where the tokens don't go on so.
#[tactic(auto, unfolding(crate::specs::Prepared::execute))]
pub fn execute(alloc: Global, cursor: &mut Cursor<'_>) -> Result<Command, Stop>
    ensures { Reads (spec.execute cursor.old) result cursor.new }
{
    Ok(Command::Execute(execute_tree(alloc, cursor)?))
}

/// What stands behind EXPLAIN: a statement, or EXECUTE with its name and arguments (PostgreSQL's manual, EXPLAIN; its
/// options aren't in this project's subset). 42601 where neither does.
#[tactic(auto, unfolding(crate::specs::Prepared::explain))]
pub fn explain(alloc: Global, cursor: &mut Cursor<'_>) -> Result<Command, Stop>
    ensures { Reads (spec.explain cursor.old) result cursor.new }
{
    if cursor.eat_word("execute") {
        return Ok(Command::ExplainExecute(execute_tree(alloc, cursor)?));
    }
    Ok(Command::Explain(statement(alloc, cursor)?))
}

/// Goes past PREPARE, if it comes next and a name or ALL stands behind it. Elsewhere the word is the
/// statement's name.
fn eat_prepare(cursor: &mut Cursor<'_>) -> bool
    ensures { spec.eat_prepare cursor.old ≡ Some (result, cursor.new) }
{
    let behind = cursor.past_next();
    let found = cursor.sees_word("prepare") && (sees_name(&behind) || behind.sees_word("all"));
    if found {
        cursor.skip();
    }
    found
}

/// What stands behind DEALLOCATE: perhaps PREPARE, and ALL or a statement's name (PostgreSQL's manual, DEALLOCATE). 42601
/// where neither does.
#[tactic(auto, unfolding(crate::specs::Prepared::deallocate))]
pub fn deallocate(alloc: Global, cursor: &mut Cursor<'_>) -> Result<Command, Stop>
    ensures { Reads (spec.deallocate cursor.old) result cursor.new }
{
    eat_prepare(cursor);
    if cursor.eat_word("all") {
        return Ok(Command::DeallocateAll);
    }
    Ok(Command::Deallocate(name(alloc, cursor)?))
}

/// What stands behind DISCARD: PLANS, or TEMP or TEMPORARY for temporary tables (PostgreSQL's manual, DISCARD). 42601
/// where none of them does.
#[tactic(auto, unfolding(crate::specs::Prepared::discard))]
pub fn discard(alloc: Global, cursor: &mut Cursor<'_>) -> Result<Command, Stop>
    ensures { Reads (spec.discard cursor.old) result cursor.new }
{
    if cursor.eat_word("plans") {
        Ok(Command::DiscardPlans)
    } else if eat_either(cursor, "temp", "temporary") {
        Ok(Command::DiscardTemp)
    } else {
        Err(refusal(alloc, Code::SyntaxError))
    }
}
