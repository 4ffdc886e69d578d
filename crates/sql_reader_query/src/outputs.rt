//! Select lists, and what stands behind RETURNING:
//!
//! ```text
//! output    = "*" | name "." "*" | expression [alias]
//! alias     = [AS] name
//! returning = [RETURNING output {"," output}]
//! ```

ghost use Rattle.std.specs.Prelude.{◌≡◌};
ghost use Rattle.sql_expr.specs.Reading.{Reads};
ghost use Rattle.sql_reader_query.specs.Outputs as spec;

use crate::lists::{Element, list_of};
use q_base::{ListOf, Stop, Str};
use sql_expr::{Cursor, eat_name, expression, name, sees_name};
use sql_tokens::Sign;
use sql_tree::{OutputItem, OutputList};
use std::alloc::Global;

/// The name that stands behind an entry, with AS or without.
#[tactic(auto, unfolding(crate::specs::Outputs::alias))]
pub(crate) fn alias(alloc: Global, cursor: &mut Cursor<'_>) -> Result<Option<Str>, Stop>
    ensures { Reads (spec.alias cursor.old) result cursor.new }
{
    if cursor.eat_word("as") {
        return Ok(Some(name(alloc, cursor)?));
    }
    match eat_name(cursor) {
        Some(name) => Ok(Some(name.copy(alloc)?)),
        None => Ok(None),
    }
}

/// Whether `name.*` comes next.
#[tactic(auto, unfolding(crate::specs::Outputs::sees_all_of))]
fn sees_all_of(cursor: &Cursor<'_>) -> bool
    ensures { result ≡ spec.sees_all_of cursor.now }
{
    let second = cursor.past_next();
    let third = second.past_next();
    sees_name(cursor) && second.sees_sign(Sign::Dot) && third.sees_sign(Sign::Star)
}

/// `name.*`.
#[tactic(auto, unfolding(crate::specs::Outputs::all_of))]
fn all_of(alloc: Global, cursor: &mut Cursor<'_>) -> Result<OutputItem, Stop>
    ensures { Reads (spec.all_of cursor.old) result cursor.new }
{
    let item = name(alloc, cursor)?;
    cursor.expect_sign(alloc, Sign::Dot)?;
    cursor.expect_sign(alloc, Sign::Star)?;
    Ok(OutputItem::AllOf(item))
}

#[tactic(auto, unfolding(crate::specs::Outputs::computed))]
fn computed(alloc: Global, cursor: &mut Cursor<'_>) -> Result<OutputItem, Stop>
    ensures { Reads (spec.computed cursor.old) result cursor.new }
{
    let expr = expression(alloc, cursor)?;
    let alias = or_drop!(alias(alloc, cursor), expr);
    Ok(OutputItem::Expr(expr, alias))
}

impl Element for OutputItem {
    ghost reading = { spec.output };

    #[tactic(auto, unfolding(crate::specs::Outputs::output))]
    fn read(alloc: Global, cursor: &mut Cursor<'_>) -> Result<OutputItem, Stop> {
        if cursor.eat_sign(Sign::Star) {
            return Ok(OutputItem::All);
        }
        if sees_all_of(cursor) {
            all_of(alloc, cursor)
        } else {
            computed(alloc, cursor)
        }
    }
}

/// What is given back of changed rows: no entries where RETURNING isn't written.
#[tactic(auto, unfolding(crate::specs::Outputs::returning))]
pub(crate) fn returning(alloc: Global, cursor: &mut Cursor<'_>) -> Result<OutputList, Stop>
    ensures { Reads (spec.returning cursor.old) result cursor.new }
{
    if cursor.eat_word("returning") {
        list_of(alloc, cursor)
    } else {
        Ok(ListOf::new(alloc))
    }
}
