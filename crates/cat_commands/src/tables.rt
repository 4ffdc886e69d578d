use crate::elements::{checked_names, columns_of};
use crate::entries::{one, put};
use crate::indexes::{IndexDefList, add_indexes, key_indexes};
use crate::keys::{KeyConstraintList, checked_keys};
use crate::limits::room_for;
use crate::made_names::made_names;
use crate::places::check_place;
use crate::stats::first_stats;
use cat_core::{Catalog, Changes, ColumnList, Def, TableDef};
use cat_names::{NameRow, place_for};
use q_base::{NoMemory, ObjId, SchemaId, SchemaList, Stop, Str};
use sql_tree::{NameList, TableTree};
use std::alloc::Global;

/// A table that may be made.
#[derive(Drop)]
struct NewTable {
    columns: ColumnList,
    keys: NewKeys,
}

/// The keys of a table that may be made, each with the name of its index.
#[derive(Drop)]
struct NewKeys {
    keys: KeyConstraintList,
    names: NameList,
}

/// What CREATE TABLE changes: it makes the table, and then an index for each PRIMARY KEY and UNIQUE in the order as
/// written, with the ids from the next one on (PostgreSQL's manual, CREATE TABLE).
///
/// Refused, in this order, as 3F000 where there is no schema to make it in, 42P07 where the name is taken there, 54000
/// with over 128 columns, 42701 where a column is named twice, 42704 for a type, 42804, 22P02 and 22003 for defaults, 42P16
/// with two primary keys, 42703 and 42701 for the columns of keys, 54000 with over 8 of them, 42622 where an index's made
/// name is over 63 bytes long, and 54000 past 65,536 objects and schemas. Each is sought in the whole command before the next.
pub fn create_table(
    alloc: Global,
    catalog: &Catalog,
    path: &SchemaList,
    tree: &TableTree,
) -> Result<Changes, Stop> {
    let schema = place_for(alloc, &tree.name, path, catalog.schemas())?;
    check_place(alloc, catalog.names(), schema, &tree.name)?;
    let table = planned(alloc, catalog.names(), schema, tree)?;
    let count = table.keys.keys.as_slice().len();
    let id = room_for(alloc, catalog.next_id(), count.saturating_add(1))?;
    Ok(made(alloc, ObjId(id), schema, &tree.name.name, table)?)
}

fn planned(
    alloc: Global,
    names: &[NameRow],
    schema: SchemaId,
    tree: &TableTree,
) -> Result<NewTable, Stop> {
    let columns = checked_names(alloc, tree.elements.as_slice())?;
    with_keys(alloc, names, schema, tree, columns.as_slice())
}

fn with_keys(
    alloc: Global,
    names: &[NameRow],
    schema: SchemaId,
    tree: &TableTree,
    columns: &[Str],
) -> Result<NewTable, Stop> {
    let made = columns_of(alloc, tree.elements.as_slice())?;
    let keys = planned_keys(alloc, names, schema, tree, columns)?;
    Ok(NewTable {
        columns: made,
        keys,
    })
}

fn planned_keys(
    alloc: Global,
    names: &[NameRow],
    schema: SchemaId,
    tree: &TableTree,
    columns: &[Str],
) -> Result<NewKeys, Stop> {
    let keys = checked_keys(alloc, &tree.name, tree.elements.as_slice(), columns)?;
    let table = tree.name.name.as_str();
    let names = made_names(alloc, names, schema, table, keys.as_slice())?;
    Ok(NewKeys { keys, names })
}

fn made(
    alloc: Global,
    id: ObjId,
    schema: SchemaId,
    name: &Str,
    table: NewTable,
) -> Result<Changes, NoMemory> {
    let NewTable { columns, keys } = table;
    let NewKeys { keys, names } = keys;
    let indexes = key_indexes(alloc, id, keys.as_slice(), columns.as_slice())?;
    let changes = put_new(alloc, id, schema, name, columns)?;
    add_indexes(alloc, changes, schema, id, indexes, names.as_slice())
}

fn put_new(
    alloc: Global,
    id: ObjId,
    schema: SchemaId,
    name: &Str,
    columns: ColumnList,
) -> Result<Changes, NoMemory> {
    let table = new_table(alloc, columns)?;
    one(
        alloc,
        put(alloc, id, schema, name.as_str(), Def::Table(table))?,
    )
}

fn new_table(alloc: Global, columns: ColumnList) -> Result<TableDef, NoMemory> {
    let count = columns.as_slice().len();
    let stats = first_stats(alloc, count)?;
    Ok(TableDef {
        columns,
        next_column: match u32::try_from(count) {
            Ok(next) => next,
            Err(_) => u32::MAX,
        },
        stats,
    })
}
