ghost use Rattle.std.specs.Prelude.{◌≡◌, ◌↔◌, [], ◌∷◌, map, slice_get, Contains, IsTrue, IfOk};
ghost use Rattle.q_base.specs.declared.ids.ObjId.{ObjId as Id};
ghost use Rattle.q_base.specs.IdLists.{IsAscending};
ghost use Rattle.query_tree.specs.Items.{relation_of, ids_of};
ghost use Rattle.cat_deps.specs.Reached as spec;

use cat_core::{Catalog, Def};
use q_base::{IdList, NoMemory, ObjId};
use query_tree::{Item, Query, direct};
use std::alloc::Global;

/// The tables and views that a query names, or reaches through the views that it names, in ascending order
/// (PostgreSQL's manual, "Prepared Statements": what a cached plan depends on).
pub fn uses(alloc: Global, catalog: &Catalog, query: &Query) -> Result<IdList, NoMemory>
    ensures { IfOk result (λ found. (id : Id) → Contains found id ↔ spec.Reaches catalog.now.slots (ids_of query.now) id) }
{
    let named = direct(alloc, query)?;
    uses_of(alloc, catalog, named.as_slice())
}

/// These tables and views, and those that they reach through views, in ascending order.
pub fn uses_of(alloc: Global, catalog: &Catalog, ids: &[ObjId]) -> Result<IdList, NoMemory>
    ensures { IfOk result (λ found. (id : Id) → Contains found id ↔ spec.Reaches catalog.now.slots ids.now id) }
{
    let mut reached = Reached::new(alloc);
    add_all(&mut reached, ids)?;
    for turn in 0..usize::MAX {
        match reached.at(turn) {
            Some(id) => add_named(catalog, &mut reached, id)?,
            None => return Ok(reached.found),
        }
    }
    Ok(reached.found)
}

/// What was reached so far.
#[derive(Drop)]
struct Reached {
    /// In ascending order.
    found: IdList,
    /// The same, in the order in which they were found.
    order: Vec<ObjId>,
}

impl Reached {
    fn new(alloc: Global) -> Reached
        ensures found { result.found ≡ [] }
        ensures order { result.order.items ≡ [] }
    {
        Reached {
            found: IdList::new(alloc),
            order: Vec::new(alloc),
        }
    }

    fn at(&self, place: usize) -> Option<ObjId>
        ensures { result ≡ slice_get self.now.order.items place }
    {
        match self.order.get(place) {
            Some(id) => Some(*id),
            None => None,
        }
    }

    fn add(&mut self, id: ObjId) -> Result<(), NoMemory>
        requires { spec.IsListed self.old }
        ensures { IfOk result (λ _. spec.Adds (id ∷ []) self.old self.new) }
    {
        if is_among(self.found.as_slice(), id) {
            return Ok(());
        }
        self.order.reserve(1)?;
        self.found.push(id)?;
        self.order.push_reserved(id);
        Ok(())
    }
}

/// Tells whether an id is among ids in ascending order.
pub(crate) fn is_among(ids: &[ObjId], id: ObjId) -> bool
    requires { IsAscending ids.now }
    ensures { IsTrue result ↔ Contains ids.now id }
{
    ids.binary_search(&id).is_ok()
}

fn add_all(reached: &mut Reached, ids: &[ObjId]) -> Result<(), NoMemory>
    requires { spec.IsListed reached.old }
    ensures { IfOk result (λ _. spec.Adds ids.now reached.old reached.new) }
{
    for id in ids {
        reached.add(*id)?;
    }
    Ok(())
}

/// Adds what a view names.
fn add_named(catalog: &Catalog, reached: &mut Reached, id: ObjId) -> Result<(), NoMemory>
    requires { spec.IsListed reached.old }
    ensures { IfOk result (λ _. spec.Adds (spec.names_of catalog.now.slots id) reached.old reached.new) }
{
    match catalog.entry(id) {
        Some(entry) => add_def(reached, &entry.def),
        None => Ok(()),
    }
}

fn add_def(reached: &mut Reached, def: &Def) -> Result<(), NoMemory>
    requires { spec.IsListed reached.old }
    ensures { IfOk result (λ _. spec.Adds (spec.def_names def.now) reached.old reached.new) }
{
    match def {
        Def::View(view) => add_items(reached, view.query.items.as_slice()),
        Def::Table(_) => Ok(()),
        Def::Index(_) => Ok(()),
    }
}

fn add_items(reached: &mut Reached, items: &[Item]) -> Result<(), NoMemory>
    requires { spec.IsListed reached.old }
    ensures { IfOk result (λ _. spec.Adds (map (λ item. (relation_of item).id) items.now) reached.old reached.new) }
{
    for item in items {
        reached.add(item.relation().id)?;
    }
    Ok(())
}
