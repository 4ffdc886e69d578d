ghost use Rattle.std.specs.Prelude.{◌≡◌, ◌↔◌, ◌⊎◌, map, Contains, IsTrue, IfOk};
ghost use Rattle.q_base.specs.declared.ids.ObjId.{ObjId as Id};
ghost use Rattle.q_base.specs.IdLists.{IsAscending};
ghost use Rattle.query_tree.specs.Items.{relation_of};
ghost use Rattle.cat_core.specs.Finding.{entries, views as views_of};
ghost use Rattle.cat_deps.specs.Reached as spec;

use crate::reached::is_among;
use cat_core::{Catalog, Def, Entry};
use q_base::{IdList, NoMemory, ObjId};
use query_tree::Item;
use std::alloc::Global;
use std::rc::Rc;

/// The views that name an object, or reach it through views, in ascending order; without the object itself.
pub fn dependents(alloc: Global, catalog: &Catalog, id: ObjId) -> Result<IdList, NoMemory>
    ensures { IfOk result (λ found. (other : Id) → Contains found other ↔ spec.Dependent (views_of catalog.now.slots) id other) }
{
    let views = catalog.views(alloc)?;
    reaching(alloc, views.as_slice(), id)
}

fn reaching(alloc: Global, views: &[Rc<Entry>], id: ObjId) -> Result<IdList, NoMemory>
    ensures { IfOk result (λ found. (other : Id) → Contains found other ↔ spec.Dependent (entries views.now) id other) }
{
    let mut found = IdList::new(alloc);
    for _turn in 0..usize::MAX {
        let before = found.as_slice().len();
        add_naming(&mut found, views, id)?;
        if found.as_slice().len() == before {
            return Ok(found);
        }
    }
    // Each turn but the last finds one more, and there are fewer.
    Err(NoMemory)
}

/// Adds the views that name the object or one of those found.
fn add_naming(found: &mut IdList, views: &[Rc<Entry>], id: ObjId) -> Result<(), NoMemory>
    ensures { IfOk result (λ _. spec.Grows (entries views.now) id found.old found.new) }
{
    for view in views {
        add_view(found, view, id)?;
    }
    Ok(())
}

fn add_view(found: &mut IdList, view: &Entry, id: ObjId) -> Result<(), NoMemory>
    ensures { IfOk result (λ _. spec.AddsView view.now id found.old found.new) }
{
    if view.id.0 != id.0 && def_hits(&view.def, id, found.as_slice()) {
        found.push(view.id)
    } else {
        Ok(())
    }
}

fn def_hits(def: &Def, id: ObjId, found: &[ObjId]) -> bool
    requires { IsAscending found.now }
    ensures { IsTrue result ↔ spec.Hits id found.now (spec.def_names def.now) }
{
    match def {
        Def::View(view) => any_hits(view.query.items.as_slice(), id, found),
        Def::Table(_) => false,
        Def::Index(_) => false,
    }
}

fn any_hits(items: &[Item], id: ObjId, found: &[ObjId]) -> bool
    requires { IsAscending found.now }
    ensures { IsTrue result ↔ spec.Hits id found.now (map (λ item. (relation_of item).id) items.now) }
{
    for item in items {
        if is_hit(item.relation().id, id, found) {
            return true;
        }
    }
    false
}

fn is_hit(named: ObjId, id: ObjId, found: &[ObjId]) -> bool
    requires { IsAscending found.now }
    ensures { IsTrue result ↔ ((named ≡ id) ⊎ Contains found.now named) }
{
    named.0 == id.0 || is_among(found, named)
}
