//! Row changes:
//!
//! ```text
//! insertion  = INTO relation optional_names VALUES row {"," row} returning    behind INSERT
//! row        = "(" value {"," value} ")"
//! value      = DEFAULT | expression
//! change     = UPDATE relation SET assignment {"," assignment} | DELETE FROM relation
//! assignment = name "=" value
//! position   = WHERE CURRENT OF name
//! ```
//!
//! Behind a change stands `[WHERE expression] returning` or, in a positioned one, `position returning`.

ghost use Rattle.std.specs.Prelude.{◌≡◌};
ghost use Rattle.sql_expr.specs.Reading.{Reads};
ghost use Rattle.sql_reader_query.specs.Changes as spec;

use crate::lists::{Element, list_of};
use crate::name_lists::{optional_names, relation};
use crate::outputs::returning;
use crate::query::condition;
use q_base::{Code, ListOf, Stop, Str, refusal};
use sql_expr::{Cursor, expression, name};
use sql_tokens::Sign;
use sql_tree::{
    Assignment, AssignmentList, Command, DeleteTree, Expr, InsertTree, NameList, NewRow, NewValue,
    OutputList, PositionedTree, QName, Statement, UpdateTree,
};
use std::alloc::Global;

/// The table of an INSERT, and the columns that are named behind it.
#[derive(Drop)]
pub struct InsertTarget {
    pub table: QName,
    pub columns: NameList,
}

/// An UPDATE or DELETE, up to what says which rows it is for.
#[derive(Drop)]
pub enum Change {
    Update(QName, AssignmentList),
    Delete(QName),
}

#[tactic(auto, unfolding(crate::specs::Changes::target))]
fn target(alloc: Global, cursor: &mut Cursor<'_>) -> Result<InsertTarget, Stop>
    ensures { Reads (spec.target cursor.old) result cursor.new }
{
    cursor.expect_word(alloc, "into")?;
    let table = relation(alloc, cursor)?;
    let columns = optional_names(alloc, cursor)?;
    Ok(InsertTarget { table, columns })
}

impl Element for NewValue {
    ghost reading = { spec.value };

    #[tactic(auto, unfolding(crate::specs::Changes::value))]
    fn read(alloc: Global, cursor: &mut Cursor<'_>) -> Result<NewValue, Stop> {
        if cursor.eat_word("default") {
            Ok(NewValue::Default)
        } else {
            Ok(NewValue::Expr(expression(alloc, cursor)?))
        }
    }
}

impl Element for NewRow {
    ghost reading = { spec.row };

    #[tactic(auto, unfolding(crate::specs::Changes::row))]
    fn read(alloc: Global, cursor: &mut Cursor<'_>) -> Result<NewRow, Stop> {
        cursor.expect_sign(alloc, Sign::LeftParen)?;
        let values = list_of(alloc, cursor)?;
        cursor.expect_sign(alloc, Sign::RightParen)?;
        Ok(values)
    }
}

/// What stands behind INSERT.
#[tactic(auto, unfolding(crate::specs::Changes::insertion))]
pub(crate) fn insertion(alloc: Global, cursor: &mut Cursor<'_>) -> Result<InsertTree, Stop>
    ensures { Reads (spec.insertion cursor.old) result cursor.new }
{
    let InsertTarget { table, columns } = target(alloc, cursor)?;
    cursor.expect_word(alloc, "values")?;
    let rows = list_of(alloc, cursor)?;
    let returning = returning(alloc, cursor)?;
    Ok(InsertTree {
        table,
        columns,
        rows,
        returning,
    })
}

impl Element for Assignment {
    ghost reading = { spec.assignment };

    #[tactic(auto, unfolding(crate::specs::Changes::assignment))]
    fn read(alloc: Global, cursor: &mut Cursor<'_>) -> Result<Assignment, Stop> {
        let column = name(alloc, cursor)?;
        cursor.expect_sign(alloc, Sign::Equal)?;
        let value = NewValue::read(alloc, cursor)?;
        Ok(Assignment { column, value })
    }
}

/// What stands behind UPDATE.
#[tactic(auto, unfolding(crate::specs::Changes::updated))]
fn updated(alloc: Global, cursor: &mut Cursor<'_>) -> Result<Change, Stop>
    ensures { Reads (spec.updated cursor.old) result cursor.new }
{
    let table = relation(alloc, cursor)?;
    cursor.expect_word(alloc, "set")?;
    let assignments = list_of(alloc, cursor)?;
    Ok(Change::Update(table, assignments))
}

/// What stands behind DELETE.
#[tactic(auto, unfolding(crate::specs::Changes::deleted))]
fn deleted(alloc: Global, cursor: &mut Cursor<'_>) -> Result<Change, Stop>
    ensures { Reads (spec.deleted cursor.old) result cursor.new }
{
    cursor.expect_word(alloc, "from")?;
    Ok(Change::Delete(relation(alloc, cursor)?))
}

#[tactic(auto, unfolding(crate::specs::Changes::change))]
pub(crate) fn change_of(alloc: Global, cursor: &mut Cursor<'_>) -> Result<Change, Stop>
    ensures { Reads (spec.change cursor.old) result cursor.new }
{
    if cursor.eat_word("update") {
        updated(alloc, cursor)
    } else if cursor.eat_word("delete") {
        deleted(alloc, cursor)
    } else {
        Err(refusal(alloc, Code::SyntaxError))
    }
}

fn statement_of(change: Change, condition: Option<Expr>, returning: OutputList) -> Statement
    ensures { result ≡ spec.statement_of change condition returning }
{
    match change {
        Change::Update(table, assignments) => Statement::Update(UpdateTree {
            table,
            assignments,
            condition,
            returning,
        }),
        Change::Delete(table) => Statement::Delete(DeleteTree {
            table,
            condition,
            returning,
        }),
    }
}

/// The rest of a change that isn't positioned.
#[tactic(auto, unfolding(crate::specs::Changes::searched))]
pub(crate) fn searched(
    alloc: Global,
    cursor: &mut Cursor<'_>,
    change: Change,
) -> Result<Statement, Stop>
    ensures { Reads (spec.searched change cursor.old) result cursor.new }
{
    let condition = or_drop!(condition(alloc, cursor, "where"), change);
    let returning = or_drop!(returning(alloc, cursor), change, condition);
    Ok(statement_of(change, condition, returning))
}

/// Whether WHERE CURRENT OF comes next. Where OF is missing, `current` is a column.
#[tactic(auto, unfolding(crate::specs::Changes::sees_position))]
fn sees_position(cursor: &Cursor<'_>) -> bool
    ensures { result ≡ spec.sees_position cursor.now }
{
    let second = cursor.past_next();
    let third = second.past_next();
    cursor.sees_word("where") && second.sees_word("current") && third.sees_word("of")
}

/// WHERE CURRENT OF and the cursor's name.
#[tactic(auto, unfolding(crate::specs::Changes::position))]
fn position(alloc: Global, cursor: &mut Cursor<'_>) -> Result<Str, Stop>
    ensures { Reads (spec.position cursor.old) result cursor.new }
{
    cursor.expect_word(alloc, "where")?;
    cursor.expect_word(alloc, "current")?;
    cursor.expect_word(alloc, "of")?;
    name(alloc, cursor)
}

/// The rest of a positioned change.
#[tactic(auto, unfolding(crate::specs::Changes::positioned))]
fn positioned(
    alloc: Global,
    cursor: &mut Cursor<'_>,
    change: Change,
) -> Result<PositionedTree, Stop>
    ensures { Reads (spec.positioned change cursor.old) result cursor.new }
{
    let position = or_drop!(position(alloc, cursor), change);
    let returning = or_drop!(returning(alloc, cursor), change, position);
    Ok(PositionedTree {
        statement: statement_of(change, None, returning),
        cursor: position,
    })
}

/// The rest of a change that may be positioned.
#[tactic(auto, unfolding(crate::specs::Changes::change_command))]
pub(crate) fn change_command(
    alloc: Global,
    cursor: &mut Cursor<'_>,
    change: Change,
) -> Result<Command, Stop>
    ensures { Reads (spec.change_command change cursor.old) result cursor.new }
{
    if sees_position(cursor) {
        Ok(Command::Positioned(positioned(alloc, cursor, change)?))
    } else {
        Ok(Command::Statement(searched(alloc, cursor, change)?))
    }
}
