//! What stands behind FROM:
//!
//! ```text
//! from  = [FROM chain {"," chain}]
//! chain = item {join}
//! join  = [INNER] JOIN item ON expression | CROSS JOIN item
//! item  = relation [alias]
//! ```

ghost use Rattle.sql_expr.specs.Reading.{Reads};
ghost use Rattle.sql_reader_query.specs.FromClause as spec;

use crate::lists::{Element, list_of};
use crate::name_lists::relation;
use crate::outputs::alias;
use q_base::{ListOf, Stop};
use sql_expr::{Cursor, expression};
use sql_tree::{FromChain, FromItem, FromList, Join, JoinList};
use std::alloc::Global;

#[tactic(auto, unfolding(crate::specs::FromClause::item))]
fn item(alloc: Global, cursor: &mut Cursor<'_>) -> Result<FromItem, Stop>
    ensures { Reads (spec.item cursor.old) result cursor.new }
{
    let relation = relation(alloc, cursor)?;
    let alias = alias(alloc, cursor)?;
    Ok(FromItem { relation, alias })
}

/// What stands behind JOIN or INNER JOIN.
#[tactic(auto, unfolding(crate::specs::FromClause::inner_join))]
fn inner_join(alloc: Global, cursor: &mut Cursor<'_>) -> Result<Join, Stop>
    ensures { Reads (spec.inner_join cursor.old) result cursor.new }
{
    let item = item(alloc, cursor)?;
    cursor.expect_word(alloc, "on")?;
    let condition = expression(alloc, cursor)?;
    Ok(Join::Inner(item, condition))
}

/// What stands behind CROSS.
#[tactic(auto, unfolding(crate::specs::FromClause::cross_join))]
fn cross_join(alloc: Global, cursor: &mut Cursor<'_>) -> Result<Join, Stop>
    ensures { Reads (spec.cross_join cursor.old) result cursor.new }
{
    cursor.expect_word(alloc, "join")?;
    Ok(Join::Cross(item(alloc, cursor)?))
}

/// A further item of a chain, if one comes next.
#[tactic(auto, unfolding(crate::specs::FromClause::join))]
fn eat_join(alloc: Global, cursor: &mut Cursor<'_>) -> Result<Option<Join>, Stop>
    ensures { Reads (spec.join cursor.old) result cursor.new }
{
    if cursor.eat_word("cross") {
        return Ok(Some(cross_join(alloc, cursor)?));
    }
    if cursor.eat_word("inner") {
        cursor.expect_word(alloc, "join")?;
        return Ok(Some(inner_join(alloc, cursor)?));
    }
    if cursor.eat_word("join") {
        return Ok(Some(inner_join(alloc, cursor)?));
    }
    Ok(None)
}

/// The further items of a chain, as many as there are.
#[tactic(auto, unfolding(crate::specs::FromClause::joins))]
fn joins(alloc: Global, cursor: &mut Cursor<'_>) -> Result<JoinList, Stop>
    ensures { Reads (spec.joins cursor.old) result cursor.new }
{
    let mut found = ListOf::new(alloc);
    for _turn in 0..cursor.left() {
        let Some(join) = eat_join(alloc, cursor)? else {
            return Ok(found);
        };
        found.push(join)?;
    }
    Ok(found)
}

impl Element for FromChain {
    ghost reading = { spec.chain };

    #[tactic(auto, unfolding(crate::specs::FromClause::chain))]
    fn read(alloc: Global, cursor: &mut Cursor<'_>) -> Result<FromChain, Stop> {
        let first = item(alloc, cursor)?;
        let joins = joins(alloc, cursor)?;
        Ok(FromChain { first, joins })
    }
}

/// The chains behind FROM, or none where it isn't written.
#[tactic(auto, unfolding(crate::specs::FromClause::from))]
pub(crate) fn from_list(alloc: Global, cursor: &mut Cursor<'_>) -> Result<FromList, Stop>
    ensures { Reads (spec.from cursor.old) result cursor.new }
{
    if cursor.eat_word("from") {
        list_of(alloc, cursor)
    } else {
        Ok(ListOf::new(alloc))
    }
}
