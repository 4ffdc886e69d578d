//! How many rows of a query are given:
//!
//! ```text
//! limits = [limit] [offset] | [offset] [limit]
//! limit  = LIMIT (ALL | count)
//! offset = OFFSET count
//! count  = NULL | parameter | ["-"] number
//! ```

ghost use Rattle.sql_expr.specs.Reading.{Reads};
ghost use Rattle.sql_reader_query.specs.Limits as spec;

use q_base::Stop;
use sql_expr::{Cursor, eat_param, numeral};
use sql_tree::{Limits, RowCount};
use std::alloc::Global;

#[tactic(auto, unfolding(crate::specs::Limits::count))]
fn row_count(alloc: Global, cursor: &mut Cursor<'_>) -> Result<RowCount, Stop>
    ensures { Reads (spec.count cursor.old) result cursor.new }
{
    if cursor.eat_word("null") {
        return Ok(RowCount::Null);
    }
    match eat_param(cursor) {
        Some(digits) => Ok(RowCount::Param(digits.copy(alloc)?)),
        None => Ok(RowCount::Number(numeral(alloc, cursor)?)),
    }
}

/// What stands behind LIMIT, where ALL is the same as NULL.
#[tactic(auto, unfolding(crate::specs::Limits::limit_count))]
fn limit_count(alloc: Global, cursor: &mut Cursor<'_>) -> Result<RowCount, Stop>
    ensures { Reads (spec.limit_count cursor.old) result cursor.new }
{
    if cursor.eat_word("all") {
        Ok(RowCount::Null)
    } else {
        row_count(alloc, cursor)
    }
}

#[tactic(auto, unfolding(crate::specs::Limits::limit))]
fn limit(alloc: Global, cursor: &mut Cursor<'_>) -> Result<Option<RowCount>, Stop>
    ensures { Reads (spec.limit cursor.old) result cursor.new }
{
    if cursor.eat_word("limit") {
        Ok(Some(limit_count(alloc, cursor)?))
    } else {
        Ok(None)
    }
}

#[tactic(auto, unfolding(crate::specs::Limits::offset))]
fn offset(alloc: Global, cursor: &mut Cursor<'_>) -> Result<Option<RowCount>, Stop>
    ensures { Reads (spec.offset cursor.old) result cursor.new }
{
    if cursor.eat_word("offset") {
        Ok(Some(row_count(alloc, cursor)?))
    } else {
        Ok(None)
    }
}

/// LIMIT and OFFSET in either order, each at most once.
#[tactic(auto, unfolding(crate::specs::Limits::limits))]
pub(crate) fn limits(alloc: Global, cursor: &mut Cursor<'_>) -> Result<Limits, Stop>
    ensures { Reads (spec.limits cursor.old) result cursor.new }
{
    if cursor.eat_word("limit") {
        let limit = limit_count(alloc, cursor)?;
        let offset = offset(alloc, cursor)?;
        return Ok(Limits {
            limit: Some(limit),
            offset,
        });
    }
    let offset = offset(alloc, cursor)?;
    let limit = limit(alloc, cursor)?;
    Ok(Limits { limit, offset })
}
