//! Tables and views as items see them.

ghost use Rattle.std.specs.Prelude.{◌≡◌, IfOk};
ghost use Rattle.analyzer.specs.Relations as spec;

use cat_core::{Column, Def, Entry};
use expr_analysis::ScopeItem;
use q_base::{ListOf, NoMemory, Str};
use query_tree::{Copies, Relation, RelationColumnList, ResultColumn, ResultType};
use std::alloc::Global;

/// The items of FROM as expressions see them, in order.
pub(crate) type ScopeItemList = ListOf<ScopeItem>;

/// How long the rows of items are together.
pub(crate) fn width_of(items: &[ScopeItem]) -> usize
    ensures { result ≡ spec.width_of items.now }
{
    let mut width = 0;
    for item in items {
        width = end_of(item);
    }
    width
}

/// Where the row of an item ends in the row of the product.
fn end_of(item: &ScopeItem) -> usize
    ensures { result ≡ spec.end_of item.now }
{
    item.offset
        .saturating_add(item.relation.columns.as_slice().len())
}

/// A table or a view as an item of a name sees it, behind the items before.
pub(crate) fn scope_item(
    alloc: Global,
    entry: &Entry,
    name: &Str,
    alias: &Option<Str>,
    before: &[ScopeItem],
) -> Result<ScopeItem, NoMemory>
    ensures { IfOk result (λ item. item ≡ spec.scope_item entry.now name.now alias.now before.now) }
{
    let relation = relation_of(alloc, entry, alias)?;
    match name.copy(alloc) {
        Ok(name) => Ok(ScopeItem {
            name,
            relation,
            is_view: is_view(&entry.def),
            offset: width_of(before),
        }),
        Err(stop) => {
            drop(relation);
            Err(stop)
        }
    }
}

fn is_view(def: &Def) -> bool
    ensures { result ≡ spec.is_view def.now }
{
    match def {
        Def::View(_) => true,
        Def::Table(_) | Def::Index(_) => false,
    }
}

fn relation_of(alloc: Global, entry: &Entry, alias: &Option<Str>) -> Result<Relation, NoMemory>
    ensures { IfOk result (λ relation. relation ≡ spec.relation_of entry.now alias.now) }
{
    let name = entry.name.copy(alloc)?;
    let alias = alias.copy(alloc)?;
    Ok(Relation {
        id: entry.id,
        name,
        alias,
        columns: columns_of(alloc, &entry.def)?,
        on_conds: 0,
    })
}

/// The columns of an object's rows by their places.
fn columns_of(alloc: Global, def: &Def) -> Result<RelationColumnList, NoMemory>
    ensures { IfOk result (λ columns. columns ≡ spec.columns_of def.now) }
{
    match def {
        Def::Table(table) => { placed_columns(alloc, table.columns.as_slice(), table.next_column) }
        Def::View(view) => view_columns(alloc, &view.result),
        Def::Index(_) => Ok(ListOf::new(alloc)),
    }
}

/// A table's columns by their ids, with a gap for each that was dropped.
fn placed_columns(
    alloc: Global,
    columns: &[Column],
    next_column: u32,
) -> Result<RelationColumnList, NoMemory>
    ensures { IfOk result (λ found. found ≡ spec.placed_from next_column 0 columns.now) }
{
    let mut found = ListOf::new(alloc);
    let mut rest = columns;
    for id in 0..next_column {
        found.push(column_at(alloc, id, rest)?)?;
        rest = behind_id(id, rest);
    }
    Ok(found)
}

/// The first column, where it has the id.
fn column_at(alloc: Global, id: u32, columns: &[Column]) -> Result<Option<ResultColumn>, NoMemory>
    ensures { IfOk result (λ found. found ≡ spec.column_at id columns.now) }
{
    match columns {
        [column, ..] if column.id.0 == id => Ok(Some(result_column(alloc, column)?)),
        _ => Ok(None),
    }
}

/// The columns behind an id.
fn behind_id(id: u32, columns: &[Column]) -> &[Column]
    ensures { result.now ≡ spec.behind_id id columns.now }
{
    match columns {
        [column, others @ ..] if column.id.0 == id => others,
        _ => columns,
    }
}

fn result_column(alloc: Global, column: &Column) -> Result<ResultColumn, NoMemory>
    ensures { IfOk result (λ found. found ≡ spec.result_column column.now) }
{
    Ok(ResultColumn {
        name: column.name.copy(alloc)?,
        kind: column.kind,
    })
}

fn view_columns(alloc: Global, shape: &ResultType) -> Result<RelationColumnList, NoMemory>
    ensures { IfOk result (λ found. found ≡ spec.view_columns shape.now.columns) }
{
    match &shape.columns {
        Some(columns) => all_columns(alloc, columns.as_slice()),
        None => Ok(ListOf::new(alloc)),
    }
}

fn all_columns(alloc: Global, columns: &[ResultColumn]) -> Result<RelationColumnList, NoMemory>
    ensures { IfOk result (λ found. found ≡ spec.all_columns columns.now) }
{
    let mut found = ListOf::new(alloc);
    for column in columns {
        found.push(Some(column.copy(alloc)?))?;
    }
    Ok(found)
}
