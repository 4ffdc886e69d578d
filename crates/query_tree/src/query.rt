ghost use Rattle.std.specs.Prelude.{◌≡◌, ◌↔◌, Contains, IfOk};
ghost use Rattle.query_tree.specs.Items.{relation_of, ids_of};

use crate::{CondList, ResultColumn, Target, TargetList};
use q_base::{IdList, ListOf, NoMemory, ObjId, Str};
use q_value::SqlType;
use sqlite_items::{Boxed, Items};
use std::alloc::Global;

/// The columns of a relation's rows by their places; `None` where a table's column was dropped, whose place
/// stays in the stored rows. A row may be longer than this where the table has columns from later on.
pub type RelationColumnList = ListOf<Option<ResultColumn>>;

/// A table or a view as an item names it (in PostgreSQL a range table entry).
#[derive(Drop)]
pub struct Relation {
    pub id: ObjId,
    /// The name in the catalog, without a schema.
    pub name: Str,
    /// The alias, where one is written.
    pub alias: Option<Str>,
    pub columns: RelationColumnList,
    /// How many of the query's conditions stand in ON behind this item; those of WHERE come after all of
    /// them. Not read once views are rewritten.
    pub on_conds: usize,
}

/// An item of FROM.
#[cycle(query)]
#[derive(Drop)]
pub enum Item {
    Table(Relation),
    View(Relation),
    /// A view whose query keeps a block of its own, as rewriting leaves it.
    Derived(Relation, Boxed<Query>),
}

/// The items of FROM, in order.
pub type ItemList = Items<Item>;

/// A call of an aggregate, with its argument.
#[derive(Drop)]
pub enum Aggregate {
    /// `count(*)`.
    CountRows,
    Count(Target),
    Sum(Target),
    Min(Target),
    Max(Target),
}

/// The aggregates of a grouped query, none twice.
pub type AggregateList = ListOf<Aggregate>;

/// A key of ORDER BY.
#[derive(Drop)]
pub struct SortKey {
    pub target: Target,
    /// The greatest value comes first.
    pub desc: bool,
    /// Nulls come before all other values, and else behind them. By default they do exactly where the key
    /// descends (PostgreSQL's manual, "Sorting Rows (ORDER BY)").
    pub nulls_first: bool,
}

/// The keys of ORDER BY, in order.
pub type SortKeyList = ListOf<SortKey>;

/// An analysed SELECT.
#[cycle(query)]
#[derive(Drop)]
pub struct Query {
    pub items: ItemList,
    /// The conjuncts of ON and WHERE.
    pub conds: CondList,
    /// The select list.
    pub targets: TargetList,
    /// It has GROUP BY, HAVING or an aggregate.
    pub grouped: bool,
    /// The columns of GROUP BY.
    pub keys: TargetList,
    pub aggregates: AggregateList,
    /// How many calls of aggregates are written in the select list, HAVING and ORDER BY.
    pub aggregate_calls: usize,
    /// The conjuncts of HAVING.
    pub having: CondList,
    /// Of equal rows of the answer one is given: SELECT DISTINCT.
    pub distinct: bool,
    /// Empty where ORDER BY isn't written.
    pub order: SortKeyList,
    /// Of an integer type; a null constant is LIMIT ALL or LIMIT NULL.
    pub limit: Option<Target>,
    /// Of an integer type: how many rows are skipped, none where it is null.
    pub offset: Option<Target>,
}

/// The ids of the tables and views that a query's items name. Views aren't followed: an item of one counts by
/// the view's own id alone, also where it has a block.
pub fn direct(alloc: Global, query: &Query) -> Result<IdList, NoMemory>
    ensures { IfOk result (λ ids. (id : ObjId) → Contains ids id ↔ Contains (ids_of query.now) id) }
{
    let mut ids = IdList::new(alloc);
    for item in query.items.as_slice() {
        ids.push(item.relation().id)?;
    }
    Ok(ids)
}

impl Item {
    /// The table or view that the item names.
    pub fn relation(&self) -> &Relation
        ensures { result.now ≡ relation_of self.now }
    {
        match self {
            Item::Table(relation) | Item::View(relation) | Item::Derived(relation, _) => relation,
        }
    }
}
