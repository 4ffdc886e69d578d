ghost use Rattle.std.specs.Prelude.{◌≡◌, ◌≢◌, ◌↔◌, [], ◌∷◌, ◌++◌, map, length, take, drop, false, IsTrue, IfOk, OnOk};
ghost use Rattle.view_rewrite.specs.declared.changed.Meaning.TheVariants as Meaning;
ghost use Rattle.view_rewrite.specs.Changed as spec;
ghost use Rattle.view_rewrite.specs.Replaced.{with_columns, row_width};

use crate::changed::{Change, Meaning, MeaningList, changed, changed_list};
use crate::depths::query_of;
use crate::relations::relation_now;
use crate::rewriting::block_of;
use cat_core::Catalog;
use q_base::{ListOf, NoMemory};
use query_tree::{Cond, CondList, Item, ItemList, Query, Relation, TargetList};
use sqlite_items::{Boxed, Items};
use std::alloc::Global;

/// The items and the conditions of a query whose views are replaced one after another.
#[derive(Drop)]
pub struct Placing {
    pub items: ItemList,
    pub conds: CondList,
    /// The length of a row of the items' product.
    pub width: usize,
}

impl Placing {
    /// Of no items.
    pub fn new(alloc: Global) -> Placing
        ensures items { result.items ≡ [] }
        ensures conds { result.conds ≡ [] }
        ensures width { result.width ≡ 0 }
    {
        Placing {
            items: Items::new(alloc),
            conds: ListOf::new(alloc),
            width: 0,
        }
    }

    /// Places an item behind the others.
    fn push(&mut self, item: Item) -> Result<Meaning, NoMemory>
        ensures items { OnOk result (self.new.items ≡ self.old.items ++ item ∷ []) }
        ensures width { OnOk result (self.new.width ≡ with_columns self.old.width item) }
        ensures meaning { IfOk result (λ meaning. meaning ≡ Meaning.Placed (length self.old.items) self.old.width) }
        ensures conds { OnOk result (self.new.conds ≡ self.old.conds) }
    {
        let columns = item.relation().columns.as_slice().len();
        let meaning = Meaning::Placed {
            item: self.items.len(),
            start: self.width,
        };
        self.items.push(item)?;
        self.width = self.width.saturating_add(columns);
        Ok(meaning)
    }

    /// Places conditions of a query behind the others.
    fn push_conds(
        &mut self,
        alloc: Global,
        conds: &[Cond],
        meanings: &[Meaning],
    ) -> Result<(), NoMemory>
        ensures conds { OnOk result (self.new.conds ≡ self.old.conds ++ map (spec.changed meanings.now 0) conds.now) }
        ensures items { OnOk result (self.new.items ≡ self.old.items) }
        ensures width { OnOk result (self.new.width ≡ self.old.width) }
    {
        let change = Change { meanings, width: 0 };
        for cond in conds {
            self.conds.push(changed(alloc, cond, change)?)?;
        }
        Ok(())
    }
}

/// Where views are looked up, and how deep they may stand below.
#[derive(Clone, Copy)]
pub struct Views<'a> {
    pub catalog: &'a Catalog,
    pub depth: u64,
}

/// Places the items of a query, each with the conditions of ON behind it, and then the conditions of WHERE, and
/// tells what the items have become.
#[cycle(placing)]
pub fn place_query(
    alloc: Global,
    query: &Query,
    views: Views<'_>,
    placing: &mut Placing,
) -> Result<MeaningList, NoMemory>
    ensures one_each { IfOk result (λ meanings. length meanings ≡ length query.now.items) }
    ensures width { placing.old.width ≡ row_width placing.old.items → OnOk result (placing.new.width ≡ row_width placing.new.items) }
{
    let mut meanings = ListOf::new(alloc);
    let mut conds = query.conds.as_slice();
    for item in query.items.as_slice() {
        meanings.push(place_item(alloc, item, views, placing)?)?;
        let (here, others) = cut(conds, item.relation().on_conds);
        placing.push_conds(alloc, here, meanings.as_slice())?;
        conds = others;
    }
    placing.push_conds(alloc, conds, meanings.as_slice())?;
    Ok(meanings)
}

/// The first conditions and the others.
fn cut(conds: &[Cond], first: usize) -> (&[Cond], &[Cond])
    ensures first { result.0.now ≡ take first conds.now }
    ensures others { result.1.now ≡ drop first conds.now }
{
    if first <= conds.len() {
        conds.split_at(first)
    } else {
        (conds, &[])
    }
}

#[cycle(placing)]
fn place_item(
    alloc: Global,
    item: &Item,
    views: Views<'_>,
    placing: &mut Placing,
) -> Result<Meaning, NoMemory>
    ensures width { placing.old.width ≡ row_width placing.old.items → OnOk result (placing.new.width ≡ row_width placing.new.items) }
{
    let relation = relation_now(alloc, item.relation(), views.catalog)?;
    match (
        item,
        query_of(views.catalog, relation.id),
        views.depth.checked_sub(1),
    ) {
        (Item::View(_), Some(query), Some(depth)) => {
            let below = Views {
                catalog: views.catalog,
                depth,
            };
            place_view(alloc, relation, query, below, placing)
        }
        (Item::View(_), _, _) => placing.push(Item::View(relation)),
        _ => placing.push(Item::Table(relation)),
    }
}

#[cycle(placing)]
fn place_view(
    alloc: Global,
    relation: Relation,
    query: &Query,
    views: Views<'_>,
    placing: &mut Placing,
) -> Result<Meaning, NoMemory>
    ensures width { placing.old.width ≡ row_width placing.old.items → OnOk result (placing.new.width ≡ row_width placing.new.items) }
{
    if is_pulled_up(query) {
        return Ok(Meaning::PulledUp(pull_up(alloc, query, views, placing)?));
    }
    let block = Boxed::new(alloc, block_of(alloc, query, views)?)?;
    placing.push(Item::Derived(relation, block))
}

/// Tells whether a view's items and conditions can stand in its place.
fn is_pulled_up(query: &Query) -> bool
    ensures { IsTrue result ↔ ((query.now.items ≢ []) × (query.now.grouped ≡ false) × (query.now.distinct ≡ false)) }
{
    !query.items.is_empty() && !query.grouped && !query.distinct
}

/// Places a view's items and conditions, and gives what stands for its columns.
#[cycle(placing)]
fn pull_up(
    alloc: Global,
    query: &Query,
    views: Views<'_>,
    placing: &mut Placing,
) -> Result<TargetList, NoMemory>
    ensures width { placing.old.width ≡ row_width placing.old.items → OnOk result (placing.new.width ≡ row_width placing.new.items) }
{
    let meanings = place_query(alloc, query, views, placing)?;
    let change = Change {
        meanings: meanings.as_slice(),
        width: 0,
    };
    changed_list(alloc, query.targets.as_slice(), change)
}
