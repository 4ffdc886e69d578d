ghost use Rattle.std.specs.Prelude.{◌≡◌};
ghost use Rattle.std.specs.Option.{option_copied};
ghost use Rattle.plan_tree.specs.Expressions as spec;

use q_base::{ColId, NoMemory};
use query_tree::{Copies, Item, ItemList, Relation};
use std::alloc::Global;

/// The table or view of an item.
pub fn relation_at(items: &[Item], item: usize) -> Option<&Relation>
    ensures { option_copied result ≡ spec.relation_at items.now item }
{
    Some(items.get(item)?.relation())
}

/// The items of the block of an item; none where it has no block.
pub fn items_within(items: &[Item], item: usize) -> &[Item] {
    match items.get(item) {
        Some(Item::Derived(_, block)) => block.get().items.as_slice(),
        _ => &[],
    }
}

/// The list of one table, such as the one that a statement changes.
pub fn only_table(alloc: Global, table: &Relation) -> Result<ItemList, NoMemory> {
    let mut items = ItemList::new(alloc);
    items.push(Item::Table(table.copy(alloc)?))?;
    Ok(items)
}

/// The name by which a relation's columns are called.
pub fn called(relation: &Relation) -> &str
    ensures { result.now ≡ spec.called relation.now }
{
    match &relation.alias {
        Some(alias) => alias.as_str(),
        None => relation.name.as_str(),
    }
}

/// The name of a column; it is empty where there is no such column.
pub fn column_name(relation: &Relation, column: ColId) -> &str
    ensures { result.now ≡ spec.column_name relation.now column }
{
    match relation.columns.as_slice().get(column.0 as usize) {
        Some(Some(found)) => found.name.as_str(),
        _ => "",
    }
}
