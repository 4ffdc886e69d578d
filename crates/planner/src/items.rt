use crate::input::{PlanInput, table_of};
use crate::scans::{ItemFacts, Wanted, derived_facts, table_facts};
use plan_tree::Block;
use q_base::{ListOf, NoMemory};
use q_value::TableStats;
use query_tree::{Cond, CondList, Item, Relation, SortKey};
use std::alloc::Global;

/// The rows of a table that isn't there; an analysed statement names none.
const UNKNOWN_ROWS: u64 = 1000;

/// The items of a block, in numbers. `blocks` has the plan of each that is a block, `own` the conditions of each.
pub fn items_facts(
    alloc: Global,
    items: &[Item],
    blocks: &[Option<Block>],
    own: &[CondList],
    keys: &[SortKey],
    input: PlanInput<'_>,
) -> Result<Vec<ItemFacts>, NoMemory> {
    let mut facts = Vec::new(alloc);
    for (place, item) in items.iter().enumerate() {
        let wanted = Wanted { keys, item: place };
        let conds = conds_at(own, place);
        facts.push(item_facts(alloc, item, block_at(blocks, place), conds, wanted, input)?)?;
    }
    Ok(facts)
}

fn block_at(blocks: &[Option<Block>], place: usize) -> Option<&Block> {
    blocks.get(place)?.as_ref()
}

/// The conditions of an item.
pub fn conds_at(own: &[CondList], place: usize) -> &[Cond] {
    match own.get(place) {
        Some(conds) => conds.as_slice(),
        None => &[],
    }
}

fn item_facts(
    alloc: Global,
    item: &Item,
    block: Option<&Block>,
    conds: &[Cond],
    wanted: Wanted<'_>,
    input: PlanInput<'_>,
) -> Result<ItemFacts, NoMemory> {
    match block {
        Some(block) => {
            let mut facts = derived_facts(alloc, block.node.estimate(), conds)?;
            set_relation(&mut facts, item.relation());
            Ok(facts)
        }
        None => relation_facts(alloc, item.relation(), conds, wanted, input),
    }
}

fn set_relation(facts: &mut ItemFacts, relation: &Relation) {
    facts.table = relation.id;
    facts.width = relation.columns.as_slice().len();
}

/// A table that an item names or a statement changes, in numbers.
pub fn relation_facts(
    alloc: Global,
    relation: &Relation,
    conds: &[Cond],
    wanted: Wanted<'_>,
    input: PlanInput<'_>,
) -> Result<ItemFacts, NoMemory> {
    let indexes = input.catalog.indexes_of(alloc, relation.id)?;
    let mut facts = match table_of(input.catalog, relation.id) {
        Some(table) => { table_facts(alloc, &table.stats, indexes, conds, wanted, input.switches)? }
        None => {
            let stats = unknown_stats(alloc);
            table_facts(alloc, &stats, indexes, conds, wanted, input.switches)?
        }
    };
    set_relation(&mut facts, relation);
    Ok(facts)
}

fn unknown_stats(alloc: Global) -> TableStats {
    TableStats {
        rows: UNKNOWN_ROWS,
        columns: ListOf::new(alloc),
    }
}
