use crate::above::{topmost, with_check, with_upper};
use crate::changed::{Change, all_changed};
use crate::conditions::{Parted, part_conditions};
use crate::input::PlanInput;
use crate::items::items_facts;
use crate::joins::{Making, joined_node, layout_of};
use crate::scans::ItemFacts;
use crate::search::{Space, Step, linked_items, path_of, rows_of_sets, search};
use crate::sets::{ItemSet, MOST_ITEMS};
use plan_tree::{Block, Estimate, Node};
use q_base::{NoMemory, Switches};
use q_value::Value;
use query_tree::{CondList, Item, Query, SortKey};
use std::alloc::Global;

/// A least plan of a query whose views are rewritten. `NoMemory` also where it has more items than a query can have.
#[cycle(block)]
pub fn query_block(
    alloc: Global,
    query: &Query,
    params: Option<&[Value]>,
    input: PlanInput<'_>,
) -> Result<Block, NoMemory> {
    let items = query.items.as_slice();
    if MOST_ITEMS < items.len() {
        return Err(NoMemory);
    }
    let blocks = derived_blocks(alloc, items, input)?;
    let parted = part_conditions(alloc, items, query.conds.as_slice(), params, input)?;
    let own = parted.own.as_slice();
    let facts = items_facts(
        alloc,
        items,
        blocks.as_slice(),
        own,
        wanted_keys(query),
        input,
    )?;
    planned_block(alloc, query, params, input.switches, blocks, parted, facts)
}

/// The plans of the items that have a block of their own; they have no parameters.
#[cycle(block)]
fn derived_blocks(
    alloc: Global,
    items: &[Item],
    input: PlanInput<'_>,
) -> Result<Vec<Option<Block>>, NoMemory> {
    let mut blocks = Vec::new(alloc);
    for item in items {
        blocks.push(derived_block(alloc, item, input)?)?;
    }
    Ok(blocks)
}

#[cycle(block)]
fn derived_block(
    alloc: Global,
    item: &Item,
    input: PlanInput<'_>,
) -> Result<Option<Block>, NoMemory> {
    match item {
        Item::Table(_) | Item::View(_) => Ok(None),
        Item::Derived(_, query) => Ok(Some(query_block(alloc, query.get(), None, input)?)),
    }
}

/// The keys that a scan can deliver: those of ORDER BY, where the rows are neither grouped nor made distinct.
fn wanted_keys(query: &Query) -> &[SortKey] {
    if query.grouped || query.distinct {
        &[]
    } else {
        query.order.as_slice()
    }
}

/// A path through the items, the last step first.
#[derive(Drop)]
struct Path {
    steps: Vec<(ItemSet, Step)>,
    /// It delivers the wanted order.
    delivers: bool,
    /// For each set its rows.
    rows: Vec<u64>,
}

fn planned_block(
    alloc: Global,
    query: &Query,
    params: Option<&[Value]>,
    switches: Switches,
    blocks: Vec<Option<Block>>,
    parted: Parted,
    facts: Vec<ItemFacts>,
) -> Result<Block, NoMemory> {
    let path = least_path(alloc, query, &parted, facts.as_slice(), switches)?;
    let layout = layout_of(alloc, facts.as_slice(), path.steps.as_slice())?;
    let change = Change {
        params,
        offsets: layout.offsets.as_slice(),
        width: layout.width,
    };
    let making = Making {
        items: facts.as_slice(),
        parted: &parted,
        rows: path.rows.as_slice(),
        change,
    };
    let node = tested_node(alloc, making, &path, blocks)?;
    let node = with_upper(alloc, node, query, change, path.delivers, switches)?;
    made_block(alloc, node, query, change)
}

fn made_block(
    alloc: Global,
    node: Node,
    query: &Query,
    change: Change<'_>,
) -> Result<Block, NoMemory> {
    let targets = all_changed(alloc, query.targets.as_slice(), change)?;
    Ok(Block { node, targets })
}

/// The node of the rows on which all conditions are true.
fn tested_node(
    alloc: Global,
    making: Making<'_>,
    path: &Path,
    blocks: Vec<Option<Block>>,
) -> Result<Node, NoMemory> {
    let mut blocks = blocks;
    let fallible = making.parted.fallible.as_slice();
    let conds: CondList = all_changed(alloc, fallible, making.change)?;
    let node = joined_node(alloc, making, path.steps.as_slice(), blocks.as_mut_slice())?;
    with_check(alloc, node, conds)
}

/// A path that leads to a least plan of the block.
fn least_path(
    alloc: Global,
    query: &Query,
    parted: &Parted,
    facts: &[ItemFacts],
    switches: Switches,
) -> Result<Path, NoMemory> {
    let links = parted.links.as_slice();
    let rows = rows_of_sets(alloc, facts, links)?;
    let linked = linked_items(alloc, facts.len(), links)?;
    let space = Space {
        items: facts,
        links,
        rows: rows.as_slice(),
        linked: linked.as_slice(),
        switches,
    };
    let fallible = parted.fallible.as_slice().len();
    let steps = lesser_steps(alloc, query, space, fallible)?;
    Ok(Path {
        steps: path_of(alloc, steps.steps.as_slice(), facts.len())?,
        delivers: steps.delivers,
        rows,
    })
}

/// The steps of a search.
#[derive(Drop)]
struct Found {
    steps: Vec<Option<Step>>,
    delivers: bool,
}

/// The steps that lead to the lesser cost, by a first scan that delivers the wanted order or by one that doesn't.
fn lesser_steps(
    alloc: Global,
    query: &Query,
    space: Space<'_>,
    fallible: usize,
) -> Result<Found, NoMemory> {
    let plain = search(alloc, space, false)?;
    let delivering = search(alloc, space, true)?;
    let plain_cost = cost_above(query, space, fallible, plain.as_slice(), false);
    let delivering_cost = cost_above(query, space, fallible, delivering.as_slice(), true);
    let delivers = is_less(delivering_cost, plain_cost);
    Ok(Found {
        steps: if delivers { delivering } else { plain },
        delivers,
    })
}

/// The cost of a block that goes by such steps; `None` where they don't lead to all items.
fn cost_above(
    query: &Query,
    space: Space<'_>,
    fallible: usize,
    steps: &[Option<Step>],
    delivers: bool,
) -> Option<u64> {
    let last = steps.last()?.as_ref()?;
    let joined = Estimate {
        cost: last.cost,
        rows: *space.rows.last()?,
    };
    Some(topmost(joined, fallible, query, delivers, space.switches).cost)
}

/// Tells whether there is a cost and it is less than the other, if there is another.
fn is_less(cost: Option<u64>, other: Option<u64>) -> bool {
    match (cost, other) {
        (Some(cost), Some(other)) => cost < other,
        (Some(_), None) => true,
        (None, _) => false,
    }
}
