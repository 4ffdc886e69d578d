ghost use Rattle.std.specs.Prelude.{◌≡◌, IfOk};
ghost use Rattle.std.specs.Option.{option_copied};
ghost use Rattle.q_value.specs.Answers.{Answers};
ghost use Rattle.cat_commands.specs.Views as spec;
ghost use Rattle.cat_commands.specs.Steps.{steps};

use crate::entries::{one, put, put_touched};
use crate::limits::room_for;
use crate::names::check_unrepeated;
use cat_core::{Catalog, Changes, Def, ViewDef};
use cat_names::{named_in, place_for, refusal_of};
use q_base::{Code, IdList, ListOf, NoMemory, ObjId, SchemaId, SchemaList, Stop, Str, refusal};
use query_tree::{Query, ResultColumn, ResultColumnList, ResultType};
use sql_tree::{NameList, ViewTree};
use std::alloc::Global;
use std::rc::Rc;

/// What CREATE VIEW and CREATE OR REPLACE VIEW change, where `query` and `shape` are those of the analysis of the
/// tree's query, and `used` are the tables and views that the query names or reaches (PostgreSQL's manual, CREATE VIEW).
///
/// Refused, in this order, as 42601 with more names than columns, 42701 where a name stands twice, and 3F000 where there
/// is no schema to make it in. A new view is refused as 54000 past 65,536 objects and schemas. Where the name is taken: as
/// 42P07 without OR REPLACE; and with it as 42809 where it isn't a view's, as 42P16 where one of the view's columns would
/// be dropped, renamed or of another type, and as 42P17 where the view would reach itself. A replaced view is touched.
pub fn create_view(
    alloc: Global,
    catalog: &Catalog,
    path: &SchemaList,
    tree: &ViewTree,
    query: &Query,
    shape: &ResultType,
    used: &IdList,
) -> Result<Changes, Stop> {
    let columns = checked_columns(alloc, shape, tree.columns.as_slice())?;
    let place = view_place(alloc, catalog, path, tree, columns.as_slice(), used)?;
    let def = view_def(alloc, columns, query)?;
    let name = tree.name.name.as_str();
    Ok(put_view(alloc, place.id, place.schema, name, def, place.replaced)?)
}

/// Where a view is put.
#[derive(Clone, Copy)]
struct ViewPlace {
    schema: SchemaId,
    id: ObjId,
    replaced: bool,
}

fn view_place(
    alloc: Global,
    catalog: &Catalog,
    path: &SchemaList,
    tree: &ViewTree,
    columns: &[ResultColumn],
    used: &IdList,
) -> Result<ViewPlace, Stop> {
    let schema = place_for(alloc, &tree.name, path, catalog.schemas())?;
    match named_in(catalog.names(), schema, tree.name.name.as_str()) {
        Some(id) => {
            check_replaced(alloc, catalog, id, tree, columns, used)?;
            Ok(ViewPlace {
                schema,
                id,
                replaced: true,
            })
        }
        None => {
            let id = ObjId(room_for(alloc, catalog.next_id(), 1)?);
            Ok(ViewPlace {
                schema,
                id,
                replaced: false,
            })
        }
    }
}

/// The columns of the query under the names that are written, which may be fewer.
fn checked_columns(
    alloc: Global,
    shape: &ResultType,
    names: &[Str],
) -> Result<ResultColumnList, Stop> {
    let columns = columns_of(shape);
    if columns.len() < names.len() {
        return Err(refusal(alloc, Code::SyntaxError));
    }
    let named = column_names(alloc, columns, names)?;
    check_unrepeated(alloc, named.as_slice())?;
    Ok(with_names(alloc, columns, named.as_slice())?)
}

fn columns_of(shape: &ResultType) -> &[ResultColumn]
    ensures { result.now ≡ spec.columns_of shape.now }
{
    match &shape.columns {
        Some(columns) => columns.as_slice(),
        None => &[],
    }
}

/// The names that are written, and behind them those of the other columns.
fn column_names(
    alloc: Global,
    columns: &[ResultColumn],
    names: &[Str],
) -> Result<NameList, NoMemory> {
    let mut all = ListOf::new(alloc);
    for (place, column) in columns.iter().enumerate() {
        all.push(column_name(alloc, column, names.get(place))?)?;
    }
    Ok(all)
}

fn column_name(alloc: Global, column: &ResultColumn, written: Option<&Str>) -> Result<Str, NoMemory>
    ensures { IfOk result (λ name. name ≡ spec.column_name column.now (option_copied written.entry)) }
{
    match written {
        Some(name) => name.copy(alloc),
        None => column.name.copy(alloc),
    }
}

/// The columns under these names.
fn with_names(
    alloc: Global,
    columns: &[ResultColumn],
    names: &[Str],
) -> Result<ResultColumnList, NoMemory> {
    let mut named = ListOf::new(alloc);
    for (column, name) in columns.iter().zip(names) {
        named.push(ResultColumn {
            name: name.copy(alloc)?,
            kind: column.kind,
        })?;
    }
    Ok(named)
}

fn check_replaced(
    alloc: Global,
    catalog: &Catalog,
    id: ObjId,
    tree: &ViewTree,
    columns: &[ResultColumn],
    used: &IdList,
) -> Result<(), Stop> {
    if !tree.replace {
        return Err(refusal_of(alloc, Code::DuplicateRelation, &tree.name));
    }
    let Some(old) = view_columns(catalog, id) else {
        return Err(refusal_of(alloc, Code::NotAView, &tree.name));
    };
    if !keeps_columns(old, columns) {
        return Err(refusal_of(alloc, Code::ViewColumnsChanged, &tree.name));
    }
    if is_among(used.as_slice(), id) {
        return Err(refusal_of(alloc, Code::RecursiveView, &tree.name));
    }
    Ok(())
}

/// The columns of a view; `None` of another object.
fn view_columns(catalog: &Catalog, id: ObjId) -> Option<&[ResultColumn]> {
    match catalog.entry(id) {
        Some(entry) => match &entry.def {
            Def::View(view) => Some(columns_of(&view.result)),
            Def::Table(_) | Def::Index(_) => None,
        },
        None => None,
    }
}

/// Tells whether the old columns are the first of the new ones.
fn keeps_columns(old: &[ResultColumn], new: &[ResultColumn]) -> bool {
    for (place, column) in old.iter().enumerate() {
        if !is_same(column, new.get(place)) {
            return false;
        }
    }
    true
}

fn is_same(old: &ResultColumn, new: Option<&ResultColumn>) -> bool {
    match new {
        Some(new) => old.name.as_str() == new.name.as_str() && old.kind == new.kind,
        None => false,
    }
}

fn is_among(ids: &[ObjId], id: ObjId) -> bool
    ensures { result ≡ spec.is_among id ids.now }
{
    for other in ids {
        if other.0 == id.0 {
            return true;
        }
    }
    false
}

fn put_view(
    alloc: Global,
    id: ObjId,
    schema: SchemaId,
    name: &str,
    def: Def,
    replaced: bool,
) -> Result<Changes, NoMemory>
    ensures { IfOk result (λ changes. steps changes ≡ spec.put_view id schema name.now def replaced) }
{
    if replaced {
        put_touched(alloc, id, schema, name, def)
    } else {
        one(alloc, put(alloc, id, schema, name, def)?)
    }
}

fn view_def(alloc: Global, columns: ResultColumnList, query: &Query) -> Result<Def, NoMemory> {
    let query = Rc::new(alloc, query.copy(alloc)?)?;
    Ok(Def::View(ViewDef {
        result: ResultType {
            columns: Some(columns),
        },
        query,
    }))
}
