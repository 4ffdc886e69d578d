ghost use Rattle.std.specs.Prelude.{◌≡◌, map, true, false, IfOk, IfErr};
ghost use Rattle.q_base.specs.Stops.{StopsBy};
ghost use Rattle.view_rewrite.specs.Changed.{changed, changed_aggregate, changed_key};
ghost use Rattle.view_rewrite.specs.Replaced.{names_view, is_rewritten, IsReplaced, Replaces, IsLimit};

use crate::changed::{Change, changed_aggregates, changed_keys, changed_list};
use crate::depths::{MAX_DEPTH, depth};
use crate::placing::{Placing, Views, place_query};
use crate::widths::{MAX_WIDTH, width};
use cat_core::Catalog;
use q_base::{Code, NoMemory, Stop, refusal};
use query_tree::{
    AggregateList, Bound, CondList, Copies, Item, Query, SortKeyList, Target, TargetList,
};
use std::alloc::Global;
use std::rc::Rc;

/// A statement with its views replaced by their queries; the same one where it is no SELECT or names no view.
///
/// 54001 where views stand more than `MAX_DEPTH` deep, and then 54000 where the statement is wider than `MAX_WIDTH`
/// (this project's own limits).
pub fn rewrite(alloc: Global, bound: &Rc<Bound>, catalog: &Catalog) -> Result<Rc<Bound>, Stop>
    ensures same { is_rewritten bound.now.value ≡ false → IfOk result (λ new. new.value ≡ bound.now.value) }
    ensures replaced { is_rewritten bound.now.value ≡ true → IfOk result (λ new. Replaces bound.now.value new.value) }
    ensures refused { IfErr result (StopsBy IsLimit) }
{
    check(alloc, bound, catalog)?;
    match &**bound {
        Bound::Select(query) if names_view(query) => {
            let views = Views {
                catalog,
                depth: MAX_DEPTH,
            };
            let block = block_of(alloc, query, views)?;
            Ok(Rc::new(alloc, Bound::Select(block))?)
        }
        _ => Ok(Rc::clone(bound)?),
    }
}

fn check(alloc: Global, bound: &Bound, catalog: &Catalog) -> Result<(), Stop>
    ensures { IfErr result (StopsBy IsLimit) }
{
    if MAX_DEPTH < depth(alloc, bound, catalog)? {
        return Err(refusal(alloc, Code::StackDepthExceeded));
    }
    if MAX_WIDTH < width(bound, catalog) {
        return Err(refusal(alloc, Code::LimitExceeded));
    }
    Ok(())
}

fn names_view(query: &Query) -> bool
    ensures { result ≡ names_view query.now.items }
{
    for item in query.items.as_slice() {
        if let Item::View(_) = item {
            return true;
        }
    }
    false
}

/// What a query gives of each row or group.
#[derive(Drop)]
struct RowParts {
    targets: TargetList,
    order: SortKeyList,
}

/// What it does to groups.
#[derive(Drop)]
struct GroupParts {
    keys: TargetList,
    aggregates: AggregateList,
    having: CondList,
}

/// How many rows it gives.
#[derive(Drop)]
struct PageParts {
    limit: Option<Target>,
    offset: Option<Target>,
}

/// A query with its views replaced.
#[cycle(placing)]
pub fn block_of(alloc: Global, query: &Query, views: Views<'_>) -> Result<Query, NoMemory>
    ensures { IfOk result (λ block. IsReplaced query.now block) }
{
    let mut placing = Placing::new(alloc);
    let meanings = place_query(alloc, query, views, &mut placing)?;
    let change = Change {
        meanings: meanings.as_slice(),
        width: placing.width,
    };
    let rows = row_parts(alloc, query, change)?;
    let groups = group_parts(alloc, query, change)?;
    let page = page_parts(alloc, query)?;
    Ok(Query {
        items: placing.items,
        conds: placing.conds,
        targets: rows.targets,
        grouped: query.grouped,
        keys: groups.keys,
        aggregates: groups.aggregates,
        aggregate_calls: query.aggregate_calls,
        having: groups.having,
        distinct: query.distinct,
        order: rows.order,
        limit: page.limit,
        offset: page.offset,
    })
}

fn row_parts(alloc: Global, query: &Query, change: Change<'_>) -> Result<RowParts, NoMemory>
    ensures targets { IfOk result (λ parts. parts.targets ≡ map (changed change.entry.meanings.now change.entry.width) query.now.targets) }
    ensures order { IfOk result (λ parts. parts.order ≡ map (changed_key change.entry.meanings.now change.entry.width) query.now.order) }
{
    Ok(RowParts {
        targets: changed_list(alloc, query.targets.as_slice(), change)?,
        order: changed_keys(alloc, query.order.as_slice(), change)?,
    })
}

fn group_parts(alloc: Global, query: &Query, change: Change<'_>) -> Result<GroupParts, NoMemory>
    ensures keys { IfOk result (λ parts. parts.keys ≡ map (changed change.entry.meanings.now change.entry.width) query.now.keys) }
    ensures aggregates { IfOk result (λ parts. parts.aggregates ≡ map (changed_aggregate change.entry.meanings.now change.entry.width) query.now.aggregates) }
    ensures having { IfOk result (λ parts. parts.having ≡ map (changed change.entry.meanings.now change.entry.width) query.now.having) }
{
    Ok(GroupParts {
        keys: changed_list(alloc, query.keys.as_slice(), change)?,
        aggregates: changed_aggregates(alloc, query.aggregates.as_slice(), change)?,
        having: changed_list(alloc, query.having.as_slice(), change)?,
    })
}

fn page_parts(alloc: Global, query: &Query) -> Result<PageParts, NoMemory>
    ensures limit { IfOk result (λ parts. parts.limit ≡ query.now.limit) }
    ensures offset { IfOk result (λ parts. parts.offset ≡ query.now.offset) }
{
    Ok(PageParts {
        limit: query.limit.copy(alloc)?,
        offset: query.offset.copy(alloc)?,
    })
}
