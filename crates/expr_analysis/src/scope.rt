//! The items that an expression sees, and their columns.

ghost use Rattle.std.specs.Prelude.{◌≡◌};
ghost use Rattle.std.specs.Option.{option_copied};
ghost use Rattle.q_value.specs.Answers.{Answers};
ghost use Rattle.expr_analysis.specs.Sights.{sight};
ghost use Rattle.expr_analysis.specs.Scopes as spec;

use crate::node::Node;
use q_base::{Code, ColId, Stop, Str, refusal_naming, refusal_naming_two};
use q_value::SqlType;
use query_tree::{ColumnPlace, Relation, ResultColumn, Target};
use sql_tree::ColumnRef;
use std::alloc::Global;

/// An item of FROM, or the target of a change, as expressions see it.
#[derive(Drop)]
pub struct ScopeItem {
    /// The alias, else the written name without a schema.
    pub name: Str,
    pub relation: Relation,
    pub is_view: bool,
    /// Where the item's row begins in the row of the query's product.
    pub offset: usize,
}

/// The items that an expression sees.
#[derive(Clone, Copy)]
pub struct Scope<'a> {
    /// The number of the first of them among all items of the query.
    pub first: usize,
    pub items: &'a [ScopeItem],
    /// How long the row of the query's product is, of all its items; a group's aggregates come behind it.
    pub width: usize,
}

/// What an expression sees where there are no items.
pub fn no_items() -> Scope<'static>
    ensures { sight result ≡ spec.no_items }
{
    Scope {
        first: 0,
        items: &[],
        width: 0,
    }
}

/// Where a bare name stands.
#[derive(Clone, Copy)]
pub enum Found {
    Nowhere,
    Once(SqlType, ColumnPlace),
    Often,
}

/// A column: 42703 and 42702 for a bare name that no item or several items have; with an item 42P01 where no
/// item has that name, and 42703 where it has no such column (PostgreSQL's manual, "Column References").
#[tactic(auto, unfolding(crate::specs::Scopes::column))]
pub fn column(alloc: Global, scope: Scope<'_>, written: &ColumnRef) -> Result<Node, Stop>
    ensures { Answers (spec.column (sight scope.entry) written.now) result }
{
    match &written.item {
        None => bare_column(alloc, scope, written.name.as_str()),
        Some(item) => column_of(alloc, scope, item.as_str(), written.name.as_str()),
    }
}

#[tactic(auto, unfolding(crate::specs::Scopes::bare_column))]
fn bare_column(alloc: Global, scope: Scope<'_>, name: &str) -> Result<Node, Stop>
    ensures { Answers (spec.bare_column (sight scope.entry) name.now) result }
{
    match found_bare(scope, name) {
        Found::Nowhere => Err(refusal_naming(alloc, Code::UnknownColumn, name)),
        Found::Once(kind, place) => Ok(Node::Typed(Target::Column(kind, place))),
        Found::Often => Err(refusal_naming(alloc, Code::AmbiguousColumn, name)),
    }
}

fn found_bare(scope: Scope<'_>, name: &str) -> Found
    ensures { result ≡ spec.found_from spec.nowhere scope.entry.first name.now scope.entry.items.now }
{
    let mut found = Found::Nowhere;
    let mut number = scope.first;
    for item in scope.items {
        found = with_column(found, column_in(number, item, name));
        number = number.saturating_add(1);
    }
    found
}

fn with_column(found: Found, column: Found) -> Found
    ensures { result ≡ spec.with_column found column }
{
    match (found, column) {
        (Found::Nowhere, _) => column,
        (_, Found::Nowhere) => found,
        _ => Found::Often,
    }
}

/// The column of an item, by its name; `Nowhere` where it has none.
fn column_in(number: usize, item: &ScopeItem, name: &str) -> Found
    ensures { result ≡ spec.column_in number item.now name.now }
{
    let mut id = 0_u32;
    for column in item.relation.columns.as_slice() {
        match column {
            Some(column) if column.name.as_str() == name => {
                return Found::Once(column.kind, place_of(number, item.offset, id));
            }
            _ => id = id.saturating_add(1),
        }
    }
    Found::Nowhere
}

/// What a target reads that reads a column of an item: the item's number and offset, and the column's id.
pub fn place_of(number: usize, offset: usize, id: u32) -> ColumnPlace
    ensures { result ≡ spec.place_of number offset id }
{
    ColumnPlace {
        item: number,
        column: ColId(id),
        place: offset.saturating_add(id as usize),
    }
}

#[tactic(auto, unfolding(crate::specs::Scopes::column_of))]
fn column_of(alloc: Global, scope: Scope<'_>, item: &str, name: &str) -> Result<Node, Stop>
    ensures { Answers (spec.column_of (sight scope.entry) item.now name.now) result }
{
    let mut number = scope.first;
    for known in scope.items {
        if known.name.as_str() == item {
            return own_column(alloc, number, known, name);
        }
        number = number.saturating_add(1);
    }
    Err(refusal_naming(alloc, Code::MissingFromEntry, item))
}

#[tactic(auto, unfolding(crate::specs::Scopes::own_column))]
fn own_column(alloc: Global, number: usize, item: &ScopeItem, name: &str) -> Result<Node, Stop>
    ensures { Answers (spec.own_column number item.now name.now) result }
{
    match column_in(number, item, name) {
        Found::Once(kind, place) => Ok(Node::Typed(Target::Column(kind, place))),
        Found::Nowhere | Found::Often => {
            let own = item.name.as_str();
            Err(refusal_naming_two(alloc, Code::UnknownItemColumn, own, name))
        }
    }
}
