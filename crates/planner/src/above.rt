ghost use Rattle.std.specs.Prelude.{◌≡◌, IfOk};
ghost use Rattle.std.specs.Option.{option_copied};
ghost use Rattle.planner.specs.Above as spec;
ghost use Rattle.planner.specs.Changed as changes;

use crate::changed::{Change, aggregates_changed, all_changed, keys_changed, some_changed};
use cost_units::{
    aggregate_cost, charged, check_cost, grouped_rows, sort_cost, thirds, unique_cost, unique_rows,
};
use plan_tree::{Cut, Estimate, GroupNode, Node};
use q_base::{NoMemory, Switches};
use query_tree::{CondList, Query};
use sqlite_items::Boxed;
use std::alloc::Global;

/// A Check above so many rows.
pub fn checked(input: Estimate, conds: usize) -> Estimate
    ensures { result ≡ spec.checked input conds }
{
    Estimate {
        cost: check_cost(input.cost, input.rows, conds as u64),
        rows: thirds(input.rows, conds),
    }
}

/// An aggregation.
fn aggregated(input: Estimate, query: &Query) -> Estimate
    ensures { result ≡ spec.aggregated input query.now }
{
    let has_keys = !query.keys.as_slice().is_empty();
    Estimate {
        cost: aggregate_cost(input.cost, input.rows, query.aggregate_calls as u64),
        rows: grouped_rows(input.rows, has_keys, query.having.as_slice().len()),
    }
}

/// One row of equal ones.
fn unique(input: Estimate) -> Estimate
    ensures { result ≡ spec.unique input }
{
    Estimate {
        cost: unique_cost(input.cost, input.rows),
        rows: unique_rows(input.rows),
    }
}

fn sorted(input: Estimate, switches: Switches) -> Estimate
    ensures { result ≡ spec.sorted input switches }
{
    Estimate {
        cost: charged(sort_cost(input.cost, input.rows), switches.sort),
        rows: input.rows,
    }
}

/// Tells whether a Sort is needed.
fn has_sort(query: &Query, delivered: bool) -> bool
    ensures { result ≡ spec.has_sort query.now delivered }
{
    !query.order.as_slice().is_empty() && !delivered
}

/// Tells whether LIMIT or OFFSET is written.
fn has_cut(query: &Query) -> bool
    ensures { result ≡ spec.has_cut query.now }
{
    query.limit.is_some() || query.offset.is_some()
}

/// The estimate of the topmost node of a block above its joins, of whose conditions so many may fault.
pub fn topmost(
    joined: Estimate,
    fallible: usize,
    query: &Query,
    delivered: bool,
    switches: Switches,
) -> Estimate
    ensures { result ≡ spec.topmost joined fallible query.now delivered switches }
{
    let tested = tested(joined, fallible);
    let grouped = grouped(tested, query);
    let distinct = distinct(grouped, query);
    ordered(distinct, query, delivered, switches)
}

fn tested(joined: Estimate, fallible: usize) -> Estimate
    ensures { result ≡ spec.tested joined fallible }
{
    if fallible == 0 {
        joined
    } else {
        checked(joined, fallible)
    }
}

fn grouped(input: Estimate, query: &Query) -> Estimate
    ensures { result ≡ spec.grouped input query.now }
{
    if query.grouped {
        aggregated(input, query)
    } else {
        input
    }
}

fn distinct(input: Estimate, query: &Query) -> Estimate
    ensures { result ≡ spec.distinct input query.now }
{
    if query.distinct { unique(input) } else { input }
}

fn ordered(input: Estimate, query: &Query, delivered: bool, switches: Switches) -> Estimate
    ensures { result ≡ spec.ordered input query.now delivered switches }
{
    if has_sort(query, delivered) {
        sorted(input, switches)
    } else {
        input
    }
}

/// Puts a Check above a node where conditions may fault.
pub fn with_check(alloc: Global, input: Node, fallible: CondList) -> Result<Node, NoMemory>
    ensures { IfOk result (λ node. node ≡ spec.with_check input fallible) }
{
    if fallible.as_slice().is_empty() {
        return Ok(input);
    }
    let estimate = checked(input.estimate(), fallible.as_slice().len());
    Ok(Node::Check(estimate, fallible, Boxed::new(alloc, input)?))
}

/// Puts the nodes of a query above its tested rows.
pub fn with_upper(
    alloc: Global,
    tested: Node,
    query: &Query,
    change: Change<'_>,
    delivered: bool,
    switches: Switches,
) -> Result<Node, NoMemory>
    ensures { IfOk result (λ node. node ≡ spec.with_upper tested query.now (changes.changing (option_copied change.entry.params) change.entry.offsets.now change.entry.width) delivered switches) }
{
    let grouped = with_groups(alloc, tested, query, change)?;
    let distinct = with_unique(alloc, grouped, query, change)?;
    let ordered = with_sort(alloc, distinct, query, change, delivered, switches)?;
    with_limit(alloc, ordered, query, change)
}

fn with_groups(
    alloc: Global,
    input: Node,
    query: &Query,
    change: Change<'_>,
) -> Result<Node, NoMemory>
    ensures { IfOk result (λ node. node ≡ spec.with_groups input query.now (changes.changing (option_copied change.entry.params) change.entry.offsets.now change.entry.width)) }
{
    if !query.grouped {
        return Ok(input);
    }
    let estimate = aggregated(input.estimate(), query);
    let group = group_node(alloc, query, change)?;
    Ok(Node::Aggregate(estimate, group, Boxed::new(alloc, input)?))
}

fn group_node(alloc: Global, query: &Query, change: Change<'_>) -> Result<GroupNode, NoMemory>
    ensures { IfOk result (λ group. group ≡ spec.group_of query.now (changes.changing (option_copied change.entry.params) change.entry.offsets.now change.entry.width)) }
{
    Ok(GroupNode {
        keys: all_changed(alloc, query.keys.as_slice(), change)?,
        aggregates: aggregates_changed(alloc, query.aggregates.as_slice(), change)?,
        having: all_changed(alloc, query.having.as_slice(), change)?,
        width: change.width,
    })
}

fn with_unique(
    alloc: Global,
    input: Node,
    query: &Query,
    change: Change<'_>,
) -> Result<Node, NoMemory>
    ensures { IfOk result (λ node. node ≡ spec.with_unique input query.now (changes.changing (option_copied change.entry.params) change.entry.offsets.now change.entry.width)) }
{
    if !query.distinct {
        return Ok(input);
    }
    let estimate = unique(input.estimate());
    let targets = all_changed(alloc, query.targets.as_slice(), change)?;
    Ok(Node::Unique(estimate, targets, Boxed::new(alloc, input)?))
}

fn with_sort(
    alloc: Global,
    input: Node,
    query: &Query,
    change: Change<'_>,
    delivered: bool,
    switches: Switches,
) -> Result<Node, NoMemory>
    ensures { IfOk result (λ node. node ≡ spec.with_sort input query.now (changes.changing (option_copied change.entry.params) change.entry.offsets.now change.entry.width) delivered switches) }
{
    if !has_sort(query, delivered) {
        return Ok(input);
    }
    let estimate = sorted(input.estimate(), switches);
    let keys = keys_changed(alloc, query.order.as_slice(), change)?;
    Ok(Node::Sort(estimate, keys, Boxed::new(alloc, input)?))
}

fn with_limit(
    alloc: Global,
    input: Node,
    query: &Query,
    change: Change<'_>,
) -> Result<Node, NoMemory>
    ensures { IfOk result (λ node. node ≡ spec.with_limit input query.now (changes.changing (option_copied change.entry.params) change.entry.offsets.now change.entry.width)) }
{
    if !has_cut(query) {
        return Ok(input);
    }
    let estimate = input.estimate();
    let cut = cut_of(alloc, query, change)?;
    Ok(Node::Limit(estimate, cut, Boxed::new(alloc, input)?))
}

fn cut_of(alloc: Global, query: &Query, change: Change<'_>) -> Result<Cut, NoMemory>
    ensures { IfOk result (λ cut. cut ≡ spec.cut_of query.now (changes.changing (option_copied change.entry.params) change.entry.offsets.now change.entry.width)) }
{
    Ok(Cut {
        limit: some_changed(alloc, &query.limit, change)?,
        offset: some_changed(alloc, &query.offset, change)?,
    })
}
