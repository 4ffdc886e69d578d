//! The items of FROM, and the conditions of ON.

ghost use Rattle.std.specs.Prelude.{◌≡◌, ◌++◌, [], take, drop, IfOk, OnOk};
ghost use Rattle.expr_analysis.specs.Analysis.{Does};
ghost use Rattle.expr_analysis.specs.Sights.{sight};
ghost use Rattle.analyzer.specs.FromClause as spec;

use crate::clauses::conjuncts_of;
use crate::naming::{NameIds, Names, object_of};
use crate::relations::{ScopeItemList, scope_item};
use cat_core::{Catalog, Def, Entry};
use cat_names::refusal_of;
use expr_analysis::{Allowed, Scope, ScopeItem, State};
use q_base::{Code, ListOf, NoMemory, Stop, Str, refusal_naming};
use query_tree::{CondList, Item, ItemList};
use sql_tree::{Expr, FromChain, FromItem, Join};
use sqlite_items::Items;
use std::alloc::Global;

/// The items of FROM in text order: for each 42P01 where its name means no object, 42809 where that is an index,
/// and 42712 where another item before has its name or alias.
pub(crate) fn read_items(
    alloc: Global,
    names: Names<'_>,
    catalog: &Catalog,
    from: &[FromChain],
) -> Result<ScopeItemList, Stop> {
    let mut found = ListOf::new(alloc);
    for chain in from {
        read_chain(alloc, names, catalog, &mut found, chain)?;
    }
    Ok(found)
}

fn read_chain(
    alloc: Global,
    names: Names<'_>,
    catalog: &Catalog,
    found: &mut ScopeItemList,
    chain: &FromChain,
) -> Result<(), Stop> {
    add_item(alloc, names, catalog, found, &chain.first)?;
    for join in chain.joins.as_slice() {
        add_item(alloc, names, catalog, found, item_of_join(join))?;
    }
    Ok(())
}

fn item_of_join(join: &Join) -> &FromItem {
    match join {
        Join::Inner(item, _) | Join::Cross(item) => item,
    }
}

fn add_item(
    alloc: Global,
    names: Names<'_>,
    catalog: &Catalog,
    found: &mut ScopeItemList,
    written: &FromItem,
) -> Result<(), Stop> {
    let item = read_item(alloc, names, catalog, found.as_slice(), written)?;
    found.push(item)?;
    Ok(())
}

fn read_item(
    alloc: Global,
    names: Names<'_>,
    catalog: &Catalog,
    before: &[ScopeItem],
    written: &FromItem,
) -> Result<ScopeItem, Stop> {
    let id = object_of(alloc, names, catalog, before.len(), &written.relation)?;
    match catalog.entry(id) {
        Some(entry) => item_of(alloc, entry, before, written),
        None => Err(refusal_of(alloc, Code::UnknownRelation, &written.relation)),
    }
}

fn item_of(
    alloc: Global,
    entry: &Entry,
    before: &[ScopeItem],
    written: &FromItem,
) -> Result<ScopeItem, Stop> {
    if is_index(&entry.def) {
        return Err(refusal_of(alloc, Code::NotATable, &written.relation));
    }
    let name = name_of(written);
    if is_named(before, name.as_str()) {
        return Err(refusal_naming(alloc, Code::ItemNamedTwice, name.as_str()));
    }
    Ok(scope_item(alloc, entry, name, &written.alias, before)?)
}

fn is_index(def: &Def) -> bool
    ensures { result ≡ spec.is_index def.now }
{
    match def {
        Def::Index(_) => true,
        Def::Table(_) | Def::View(_) => false,
    }
}

/// The alias, else the written name without a schema.
fn name_of(written: &FromItem) -> &Str {
    match &written.alias {
        Some(alias) => alias,
        None => &written.relation.name,
    }
}

fn is_named(items: &[ScopeItem], name: &str) -> bool
    ensures { result ≡ spec.is_named name.now items.now }
{
    for item in items {
        if item.name.as_str() == name {
            return true;
        }
    }
    false
}

/// The conditions of ON, and how many of them stand behind each item.
#[derive(Drop)]
pub struct OnPart {
    pub conds: CondList,
    pub counts: ListOf<usize>,
}

impl OnPart {
    pub(crate) fn new(alloc: Global) -> OnPart
        ensures { result ≡ spec.no_conds }
    {
        OnPart {
            conds: ListOf::new(alloc),
            counts: ListOf::new(alloc),
        }
    }

    /// An item with the conditions behind it.
    fn add(&mut self, conds: CondList) -> Result<(), NoMemory>
        ensures { OnOk result (self.new ≡ spec.with_on self.old conds) }
    {
        self.counts.push(conds.as_slice().len())?;
        add_conds(&mut self.conds, conds)
    }
}

pub(crate) fn add_conds(all: &mut CondList, conds: CondList) -> Result<(), NoMemory>
    ensures { OnOk result (all.new ≡ all.old ++ conds) }
{
    for cond in conds.into_vec() {
        all.push(cond)?;
    }
    Ok(())
}

/// The conditions of ON, of which each sees the items of its own chain so far: 42804 where one is no boolean.
/// `scope` has all items.
pub(crate) fn read_on(
    alloc: Global,
    state: &mut State,
    scope: Scope<'_>,
    allowed: Allowed,
    from: &[FromChain],
) -> Result<OnPart, Stop>
    ensures { Does (spec.on_from (sight scope.entry) allowed spec.no_conds from.now state.old) result state.new }
{
    let mut part = OnPart::new(alloc);
    for chain in from {
        read_chain_on(alloc, state, scope, allowed, &mut part, chain)?;
    }
    Ok(part)
}

#[tactic(auto, unfolding(crate::specs::FromClause::chain_on))]
fn read_chain_on(
    alloc: Global,
    state: &mut State,
    scope: Scope<'_>,
    allowed: Allowed,
    part: &mut OnPart,
    chain: &FromChain,
) -> Result<(), Stop>
    ensures { spec.DoesAdd (spec.chain_on (sight scope.entry) allowed part.old chain.now state.old) result part.new state.new }
{
    let first = part.counts.as_slice().len();
    part.add(ListOf::new(alloc))?;
    read_joins_on(
        alloc,
        state,
        scope,
        allowed,
        first,
        part,
        chain.joins.as_slice(),
    )
}

fn read_joins_on(
    alloc: Global,
    state: &mut State,
    scope: Scope<'_>,
    allowed: Allowed,
    first: usize,
    part: &mut OnPart,
    joins: &[Join],
) -> Result<(), Stop>
    ensures { spec.DoesAdd (spec.joins_on (sight scope.entry) allowed first part.old joins.now state.old) result part.new state.new }
{
    for join in joins {
        let seen = seen_from(scope, first, part.counts.as_slice().len());
        let conds = join_conds(alloc, state, seen, allowed, join)?;
        part.add(conds)?;
    }
    Ok(())
}

/// The items from a number on, up to and with another.
#[tactic(auto, unfolding(crate::specs::FromClause::seen_from))]
fn seen_from(scope: Scope<'_>, first: usize, last: usize) -> Scope<'_>
    ensures { sight result ≡ spec.seen_from (sight scope.entry) first last }
{
    let items = behind(front(scope.items, last.saturating_add(1)), first);
    Scope {
        first,
        items,
        width: scope.width,
    }
}

/// The first items, no more than `count`.
#[tactic(auto, using(std::proofs::lemmas::List::take_all))]
fn front(items: &[ScopeItem], count: usize) -> &[ScopeItem]
    ensures { result.now ≡ take count items.now }
{
    if count < items.len() {
        &items[..count]
    } else {
        items
    }
}

/// The items behind the first `count`.
#[tactic(auto, using(std::proofs::lemmas::List::drop_all))]
fn behind(items: &[ScopeItem], count: usize) -> &[ScopeItem]
    ensures { result.now ≡ drop count items.now }
{
    if count < items.len() {
        &items[count..]
    } else {
        &[]
    }
}

fn join_conds(
    alloc: Global,
    state: &mut State,
    scope: Scope<'_>,
    allowed: Allowed,
    join: &Join,
) -> Result<CondList, Stop>
    ensures { Does (spec.join_conds (sight scope.entry) allowed join.now state.old) result state.new }
{
    match join {
        Join::Inner(_, written) => conjuncts_of(alloc, state, scope, allowed, "ON", written),
        Join::Cross(_) => Ok(ListOf::new(alloc)),
    }
}

/// The items of a query, with how many conditions of ON stand behind each.
pub(crate) fn query_items(
    alloc: Global,
    items: ScopeItemList,
    counts: &[usize],
) -> Result<ItemList, NoMemory>
    ensures { IfOk result (λ found. found ≡ spec.query_items_from [] items counts.now) }
{
    let mut found = Items::new(alloc);
    let mut rest = counts;
    for item in items.into_vec() {
        found.push(query_item(item, first_count(rest)))?;
        rest = other_counts(rest);
    }
    Ok(found)
}

fn first_count(counts: &[usize]) -> usize
    ensures { result ≡ spec.first_count counts.now }
{
    match counts {
        [count, ..] => *count,
        [] => 0,
    }
}

fn other_counts(counts: &[usize]) -> &[usize]
    ensures { result.now ≡ spec.other_counts counts.now }
{
    match counts {
        [_, others @ ..] => others,
        [] => counts,
    }
}

fn query_item(item: ScopeItem, count: usize) -> Item
    ensures { result ≡ spec.query_item item count }
{
    let ScopeItem {
        mut relation,
        is_view,
        ..
    } = item;
    relation.on_conds = count;
    if is_view {
        Item::View(relation)
    } else {
        Item::Table(relation)
    }
}

/// The objects of the items, in order.
pub(crate) fn ids_of(alloc: Global, items: &[ScopeItem]) -> Result<NameIds, NoMemory>
    ensures { IfOk result (λ ids. ids ≡ spec.ids_of items.now) }
{
    let mut ids = ListOf::new(alloc);
    for item in items {
        ids.push(item.relation.id)?;
    }
    Ok(ids)
}
