//! Queries:
//!
//! ```text
//! select    = SELECT selection
//! selection = core grouping order limits
//! core      = [ALL | DISTINCT] output {"," output} from [WHERE expression]
//! grouping  = [GROUP BY column {"," column}] [HAVING expression]
//! order     = [ORDER BY key {"," key}]
//! key       = expression [ASC | DESC] [NULLS (FIRST | LAST)]
//! ```

ghost use Rattle.std.specs.Prelude.{◌≡◌, Some};
ghost use Rattle.sql_expr.specs.Reading.{Reads};
ghost use Rattle.sql_reader_query.specs.Query as spec;

use crate::from_clause::from_list;
use crate::limits::limits;
use crate::lists::{Element, list_of};
use q_base::{ListOf, Stop};
use sql_expr::{Cursor, expression};
use sql_tree::{ColumnRefList, Expr, Grouping, OrderItem, OrderList, Select, SelectCore};
use std::alloc::Global;

/// Goes past DISTINCT or ALL, if one of them comes next, and says whether it was DISTINCT.
#[tactic(auto, unfolding(crate::specs::Query::distinct))]
fn eat_distinct(cursor: &mut Cursor<'_>) -> bool
    ensures { spec.distinct cursor.old ≡ Some (result, cursor.new) }
{
    if cursor.eat_word("distinct") {
        return true;
    }
    cursor.eat_word("all");
    false
}

/// The condition behind WHERE or HAVING, if that word comes next.
#[tactic(auto, unfolding(crate::specs::Query::condition))]
pub(crate) fn condition(
    alloc: Global,
    cursor: &mut Cursor<'_>,
    word: &str,
) -> Result<Option<Expr>, Stop>
    ensures { Reads (spec.condition word.now cursor.old) result cursor.new }
{
    if cursor.eat_word(word) {
        Ok(Some(expression(alloc, cursor)?))
    } else {
        Ok(None)
    }
}

#[tactic(auto, unfolding(crate::specs::Query::core))]
fn core_of(alloc: Global, cursor: &mut Cursor<'_>) -> Result<SelectCore, Stop>
    ensures { Reads (spec.core cursor.old) result cursor.new }
{
    let distinct = eat_distinct(cursor);
    let outputs = list_of(alloc, cursor)?;
    let from = from_list(alloc, cursor)?;
    let condition = condition(alloc, cursor, "where")?;
    Ok(SelectCore {
        distinct,
        outputs,
        from,
        condition,
    })
}

#[tactic(auto, unfolding(crate::specs::Query::group_keys))]
fn group_keys(alloc: Global, cursor: &mut Cursor<'_>) -> Result<ColumnRefList, Stop>
    ensures { Reads (spec.group_keys cursor.old) result cursor.new }
{
    if !cursor.eat_word("group") {
        return Ok(ListOf::new(alloc));
    }
    cursor.expect_word(alloc, "by")?;
    list_of(alloc, cursor)
}

#[tactic(auto, unfolding(crate::specs::Query::grouping))]
fn grouping(alloc: Global, cursor: &mut Cursor<'_>) -> Result<Grouping, Stop>
    ensures { Reads (spec.grouping cursor.old) result cursor.new }
{
    let keys = group_keys(alloc, cursor)?;
    let having = condition(alloc, cursor, "having")?;
    Ok(Grouping { keys, having })
}

/// Goes past DESC or ASC, if one of them comes next, and says whether it was DESC.
#[tactic(auto, unfolding(crate::specs::Query::descending))]
fn eat_descending(cursor: &mut Cursor<'_>) -> bool
    ensures { spec.descending cursor.old ≡ Some (result, cursor.new) }
{
    if cursor.eat_word("desc") {
        return true;
    }
    cursor.eat_word("asc");
    false
}

/// Whether nulls come first: exactly where the key descends, unless that is said.
#[tactic(auto, unfolding(crate::specs::Query::nulls_first))]
fn nulls_first(alloc: Global, cursor: &mut Cursor<'_>, descending: bool) -> Result<bool, Stop>
    ensures { Reads (spec.nulls_first descending cursor.old) result cursor.new }
{
    if !cursor.eat_word("nulls") {
        return Ok(descending);
    }
    if cursor.eat_word("first") {
        return Ok(true);
    }
    cursor.expect_word(alloc, "last")?;
    Ok(false)
}

impl Element for OrderItem {
    ghost reading = { spec.key };

    #[tactic(auto, unfolding(crate::specs::Query::key))]
    fn read(alloc: Global, cursor: &mut Cursor<'_>) -> Result<OrderItem, Stop> {
        let expr = expression(alloc, cursor)?;
        let descending = eat_descending(cursor);
        let nulls_first = or_drop!(nulls_first(alloc, cursor, descending), expr);
        Ok(OrderItem {
            expr,
            descending,
            nulls_first,
        })
    }
}

#[tactic(auto, unfolding(crate::specs::Query::order))]
fn order(alloc: Global, cursor: &mut Cursor<'_>) -> Result<OrderList, Stop>
    ensures { Reads (spec.order cursor.old) result cursor.new }
{
    if !cursor.eat_word("order") {
        return Ok(ListOf::new(alloc));
    }
    cursor.expect_word(alloc, "by")?;
    list_of(alloc, cursor)
}

/// What stands behind SELECT.
#[tactic(auto, unfolding(crate::specs::Query::selection))]
pub(crate) fn selection(alloc: Global, cursor: &mut Cursor<'_>) -> Result<Select, Stop>
    ensures { Reads (spec.selection cursor.old) result cursor.new }
{
    let core = core_of(alloc, cursor)?;
    let grouping = or_drop!(grouping(alloc, cursor), core);
    let order = or_drop!(order(alloc, cursor), core, grouping);
    let limits = or_drop!(limits(alloc, cursor), core, grouping, order);
    Ok(Select {
        core,
        grouping,
        order,
        limits,
    })
}

/// A query (PostgreSQL's manual, "SELECT"), the longest that the tokens give without going back. 42601 where
/// the tokens don't begin so.
#[tactic(auto, unfolding(crate::specs::Query::select))]
pub fn select(alloc: Global, cursor: &mut Cursor<'_>) -> Result<Select, Stop>
    ensures { Reads (spec.select cursor.old) result cursor.new }
{
    cursor.expect_word(alloc, "select")?;
    selection(alloc, cursor)
}
