use crate::depths::{MAX_DEPTH, query_of};
use cat_core::Catalog;
use query_tree::{Bound, Item};

/// The greatest width of a statement (this project's own).
pub const MAX_WIDTH: u64 = 12;

/// How many items a statement has once its views are replaced, where a view without FROM counts as one: 1 for a table,
/// for a view the sum of its items' widths or 1, and 1 for a statement that is no SELECT. `MAX_WIDTH + 1` stands
/// for every width past `MAX_WIDTH`. Views below a depth of `MAX_DEPTH` count as tables.
pub fn width(bound: &Bound, catalog: &Catalog) -> u64 {
    match bound {
        Bound::Select(query) => width_with(query.items.as_slice(), catalog, 0, MAX_DEPTH),
        Bound::Insert(_) | Bound::Update(_) | Bound::Delete(_) => 1,
    }
}

// The width of the items before, with these; it stops once the width is past the greatest.
#[cycle(width)]
fn width_with(items: &[Item], catalog: &Catalog, before: u64, depth: u64) -> u64 {
    let mut width = before;
    for item in items {
        if MAX_WIDTH < width {
            return width;
        }
        width = width_with_item(item, catalog, width, depth);
    }
    width
}

#[cycle(width)]
fn width_with_item(item: &Item, catalog: &Catalog, before: u64, depth: u64) -> u64 {
    let Item::View(relation) = item else {
        return before.saturating_add(1);
    };
    match (query_of(catalog, relation.id), depth.checked_sub(1)) {
        (Some(query), Some(depth)) if !query.items.is_empty() => {
            width_with(query.items.as_slice(), catalog, before, depth)
        }
        _ => before.saturating_add(1),
    }
}
