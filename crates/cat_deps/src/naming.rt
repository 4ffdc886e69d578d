ghost use Rattle.std.specs.Prelude.{◌≡◌};
ghost use Rattle.cat_deps.specs.Naming as spec;

use cat_core::{Catalog, Def};
use cat_names::NameRow;
use q_base::{ColId, ObjId};
use query_tree::{Aggregate, ColumnPlace, Item, Query, SortKey, Target};

/// Tells whether the query of a view names the column of the table; it takes no memory. `*` names the columns that
/// the table had when the view was made.
pub fn column_used(catalog: &Catalog, table: ObjId, column: ColId) -> bool
    ensures { result ≡ spec.is_column_used (record { table = table; column = column }) catalog.now.slots catalog.now.names }
{
    any_view_naming(catalog, catalog.names(), Named { table, column })
}

fn any_view_naming(catalog: &Catalog, names: &[NameRow], named: Named) -> bool
    ensures { result ≡ spec.is_column_used named catalog.now.slots names.now }
{
    for row in names {
        if is_view_naming(catalog, row.id, named) {
            return true;
        }
    }
    false
}

fn is_view_naming(catalog: &Catalog, id: ObjId, named: Named) -> bool
    ensures { result ≡ spec.is_view_naming named catalog.now.slots id }
{
    match catalog.entry(id) {
        Some(entry) => names_it(&entry.def, named),
        None => false,
    }
}

fn names_it(def: &Def, named: Named) -> bool
    ensures { result ≡ spec.def_names named def.now }
{
    match def {
        Def::View(view) => query_names(&view.query, named),
        Def::Table(_) => false,
        Def::Index(_) => false,
    }
}

/// A column of a table.
#[derive(Clone, Copy)]
struct Named {
    table: ObjId,
    column: ColId,
}

fn query_names(query: &Query, named: Named) -> bool
    ensures { result ≡ spec.query_names named query.now }
{
    lists_name(query, named) || page_names(query, named)
}

fn lists_name(query: &Query, named: Named) -> bool
    ensures { result ≡ spec.lists_name named query.now }
{
    let items = query.items.as_slice();
    any_names(query.conds.as_slice(), items, named)
        || any_names(query.targets.as_slice(), items, named)
        || any_names(query.keys.as_slice(), items, named)
        || any_aggregate(items, query.aggregates.as_slice(), named)
        || any_names(query.having.as_slice(), items, named)
        || any_key(items, query.order.as_slice(), named)
}

fn page_names(query: &Query, named: Named) -> bool
    ensures { result ≡ spec.page_names named query.now }
{
    let items = query.items.as_slice();
    some_names(items, &query.limit, named) || some_names(items, &query.offset, named)
}

fn some_names(items: &[Item], target: &Option<Target>, named: Named) -> bool
    ensures { result ≡ spec.some_names named items.now target.now }
{
    match target {
        Some(target) => target_names(target, items, named),
        None => false,
    }
}

fn any_aggregate(items: &[Item], aggregates: &[Aggregate], named: Named) -> bool
    ensures { result ≡ spec.any_aggregate named items.now aggregates.now }
{
    for aggregate in aggregates {
        if aggregate_names(items, aggregate, named) {
            return true;
        }
    }
    false
}

fn aggregate_names(items: &[Item], aggregate: &Aggregate, named: Named) -> bool
    ensures { result ≡ spec.aggregate_names named items.now aggregate.now }
{
    match aggregate {
        Aggregate::CountRows => false,
        Aggregate::Count(argument)
        | Aggregate::Sum(argument)
        | Aggregate::Min(argument)
        | Aggregate::Max(argument) => target_names(argument, items, named),
    }
}

fn any_key(items: &[Item], keys: &[SortKey], named: Named) -> bool
    ensures { result ≡ spec.any_key named items.now keys.now }
{
    for key in keys {
        if target_names(&key.target, items, named) {
            return true;
        }
    }
    false
}

#[cycle(names)]
fn any_names(targets: &[Target], items: &[Item], named: Named) -> bool
    ensures { result ≡ spec.any_names named items.now targets.now }
{
    for target in targets {
        if target_names(target, items, named) {
            return true;
        }
    }
    false
}

#[cycle(names)]
fn target_names(target: &Target, items: &[Item], named: Named) -> bool
    ensures { result ≡ spec.target_names named items.now target.now }
{
    match target {
        Target::Const(_, _) | Target::Param(_, _) | Target::Aggregate(_, _) => false,
        Target::Column(_, column) => is_named(items, *column, named),
        Target::Arithmetic(_, _, left, right) | Target::Compare(_, left, right) => {
            target_names(left.get(), items, named) || target_names(right.get(), items, named)
        }
        Target::Negate(_, operand) | Target::IsNull(operand, _) | Target::Not(operand) => {
            target_names(operand.get(), items, named)
        }
        Target::In(operand, values) => {
            target_names(operand.get(), items, named) || any_names(values.as_slice(), items, named)
        }
        Target::Between(operand, low, high) => {
            target_names(operand.get(), items, named)
                || target_names(low.get(), items, named)
                || target_names(high.get(), items, named)
        }
        Target::And(operands) | Target::Or(operands) => {
            any_names(operands.as_slice(), items, named)
        }
    }
}

fn is_named(items: &[Item], column: ColumnPlace, named: Named) -> bool
    ensures { result ≡ spec.is_named named items.now column }
{
    match items.get(column.item) {
        Some(item) => { item.relation().id.0 == named.table.0 && column.column.0 == named.column.0 }
        None => false,
    }
}
