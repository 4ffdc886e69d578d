use cat_core::{Catalog, Def};
use q_base::{IdList, NoMemory, ObjId};
use query_tree::{Bound, Item, Query};
use std::alloc::Global;

/// The greatest depth of views (this project's own).
pub const MAX_DEPTH: u64 = 32;

/// How many views stand one within another at most: 0 where a statement names none; a view counts one more than its
/// query. `MAX_DEPTH + 1` stands for every depth past `MAX_DEPTH`.
pub fn depth(alloc: Global, bound: &Bound, catalog: &Catalog) -> Result<u64, NoMemory> {
    match bound {
        Bound::Select(query) => depth_of(alloc, query, catalog),
        Bound::Insert(_) | Bound::Update(_) | Bound::Delete(_) => Ok(0),
    }
}

// Each turn goes to the views that those of the turn before name; the turns are counted.
fn depth_of(alloc: Global, query: &Query, catalog: &Catalog) -> Result<u64, NoMemory> {
    let mut views = IdList::new(alloc);
    push_views(&mut views, query)?;
    for depth in 0..=MAX_DEPTH {
        if views.as_slice().is_empty() {
            return Ok(depth);
        }
        views = views_below(alloc, views.as_slice(), catalog)?;
    }
    Ok(MAX_DEPTH + 1)
}

fn push_views(views: &mut IdList, query: &Query) -> Result<(), NoMemory> {
    for item in query.items.as_slice() {
        if let Item::View(relation) = item {
            views.push(relation.id)?;
        }
    }
    Ok(())
}

fn views_below(alloc: Global, views: &[ObjId], catalog: &Catalog) -> Result<IdList, NoMemory> {
    let mut below = IdList::new(alloc);
    for view in views {
        if let Some(query) = query_of(catalog, *view) {
            push_views(&mut below, query)?;
        }
    }
    Ok(below)
}

/// The query of a view; `None` where the id names none.
pub(crate) fn query_of(catalog: &Catalog, id: ObjId) -> Option<&Query> {
    match &catalog.entry(id)?.def {
        Def::View(view) => Some(&view.query),
        Def::Table(_) | Def::Index(_) => None,
    }
}
