ghost use Rattle.std.specs.Prelude.{◌≡◌, IfOk};

use crate::{
    AggregateList, CondList, Copies, Item, ItemList, Query, SortKeyList, Target, TargetList,
};
use q_base::NoMemory;
use sqlite_items::{Boxed, Items};
use std::alloc::Global;

/// What a query does to each row of its product.
#[derive(Drop)]
struct RowParts {
    items: ItemList,
    conds: CondList,
    targets: TargetList,
}

/// What it does to groups.
#[derive(Drop)]
struct GroupParts {
    keys: TargetList,
    aggregates: AggregateList,
    having: CondList,
}

/// What it does to the rows that are left.
#[derive(Drop)]
struct LastParts {
    order: SortKeyList,
    limit: Option<Target>,
    offset: Option<Target>,
}

impl Query {
    /// A second owner of the same query.
    #[cycle(copy_query)]
    pub fn copy(&self, alloc: Global) -> Result<Query, NoMemory>
        ensures { IfOk result (λ query. query ≡ self.now) }
    {
        let groups = self.copy_groups(alloc)?;
        let last = self.copy_last(alloc)?;
        let rows = self.copy_rows(alloc)?;
        Ok(Query {
            items: rows.items,
            conds: rows.conds,
            targets: rows.targets,
            grouped: self.grouped,
            keys: groups.keys,
            aggregates: groups.aggregates,
            aggregate_calls: self.aggregate_calls,
            having: groups.having,
            distinct: self.distinct,
            order: last.order,
            limit: last.limit,
            offset: last.offset,
        })
    }

    #[cycle(copy_query)]
    fn copy_rows(&self, alloc: Global) -> Result<RowParts, NoMemory>
        ensures items { IfOk result (λ parts. parts.items ≡ self.now.items) }
        ensures conds { IfOk result (λ parts. parts.conds ≡ self.now.conds) }
        ensures targets { IfOk result (λ parts. parts.targets ≡ self.now.targets) }
    {
        Ok(RowParts {
            conds: self.conds.copy(alloc)?,
            targets: self.targets.copy(alloc)?,
            items: copy_items(alloc, self.items.as_slice())?,
        })
    }

    fn copy_groups(&self, alloc: Global) -> Result<GroupParts, NoMemory>
        ensures keys { IfOk result (λ parts. parts.keys ≡ self.now.keys) }
        ensures aggregates { IfOk result (λ parts. parts.aggregates ≡ self.now.aggregates) }
        ensures having { IfOk result (λ parts. parts.having ≡ self.now.having) }
    {
        Ok(GroupParts {
            keys: self.keys.copy(alloc)?,
            aggregates: self.aggregates.copy(alloc)?,
            having: self.having.copy(alloc)?,
        })
    }

    fn copy_last(&self, alloc: Global) -> Result<LastParts, NoMemory>
        ensures order { IfOk result (λ parts. parts.order ≡ self.now.order) }
        ensures limit { IfOk result (λ parts. parts.limit ≡ self.now.limit) }
        ensures offset { IfOk result (λ parts. parts.offset ≡ self.now.offset) }
    {
        Ok(LastParts {
            order: self.order.copy(alloc)?,
            limit: self.limit.copy(alloc)?,
            offset: self.offset.copy(alloc)?,
        })
    }
}

#[cycle(copy_query)]
fn copy_items(alloc: Global, items: &[Item]) -> Result<ItemList, NoMemory>
    ensures { IfOk result (λ copies. copies ≡ items.now) }
{
    let mut copies = Items::new(alloc);
    for item in items {
        copies.push(item.copy(alloc)?)?;
    }
    Ok(copies)
}

impl Item {
    /// A second owner of the same item.
    #[cycle(copy_query)]
    pub fn copy(&self, alloc: Global) -> Result<Item, NoMemory>
        ensures { IfOk result (λ item. item ≡ self.now) }
    {
        match self {
            Item::Table(relation) => Ok(Item::Table(relation.copy(alloc)?)),
            Item::View(relation) => Ok(Item::View(relation.copy(alloc)?)),
            Item::Derived(relation, block) => {
                let block = Boxed::new(alloc, block.get().copy(alloc)?)?;
                Ok(Item::Derived(relation.copy(alloc)?, block))
            }
        }
    }
}
