ghost use Rattle.std.specs.Prelude.{◌≡◌, ◌++◌, IfOk, OnOk};
ghost use Rattle.q_value.specs.Answers.{Answers};
ghost use Rattle.cat_commands.specs.Indexes as spec;
ghost use Rattle.cat_commands.specs.Steps.{steps, Gives};

use crate::entries::{one, put, then};
use crate::keys::{check_columns, is_primary};
use crate::limits::{MOST_KEY_COLUMNS, check_within, room_for};
use crate::names::check_unrepeated;
use crate::places::check_free;
use crate::used_actively;
use cat_core::{Catalog, Change, Changes, Column, Def, Entry, IndexDef, find_table};
use cat_names::refusal_of;
use q_base::{Code, ColList, ListOf, NoMemory, ObjId, SchemaId, SchemaList, Stop, Str};
use sql_tree::{IndexTree, KeyConstraint, NameList};
use std::alloc::Global;

/// What CREATE INDEX changes: it makes the index in its table's schema, and touches the table (PostgreSQL's manual,
/// CREATE INDEX).
///
/// Refused, in this order, as 42P01 and 42809 for the table's name, 55006 where the table is in use, 42P07 where the
/// index's name is taken, 42703 and 42701 for its columns, 54000 with over 8 of them, and as 54000 past 65,536 objects and
/// schemas. That stored rows break a unique index (23505) is found where it is filled, after all of these.
#[tactic(auto, unfolding(crate::specs::Indexes::created))]
pub fn create_index(
    alloc: Global,
    catalog: &Catalog,
    path: &SchemaList,
    tree: &IndexTree,
    in_use: bool,
) -> Result<Changes, Stop>
    ensures { Gives (spec.created catalog.now path.now tree.now in_use) result }
{
    let id = find_table(alloc, catalog, path, &tree.table)?;
    if in_use {
        return Err(used_actively(alloc, "CREATE INDEX", &tree.table));
    }
    match catalog.entry(id) {
        Some(entry) => index_on(alloc, catalog, entry, tree),
        None => Err(refusal_of(alloc, Code::UnknownRelation, &tree.table)),
    }
}

#[tactic(auto, unfolding(crate::specs::Indexes::created_on))]
fn index_on(
    alloc: Global,
    catalog: &Catalog,
    table: &Entry,
    tree: &IndexTree,
) -> Result<Changes, Stop>
    ensures { Gives (spec.created_on catalog.now table.now tree.now) result }
{
    check_free(alloc, catalog.names(), table.schema, tree.name.as_str())?;
    check_listed(alloc, tree.columns.as_slice(), table.columns())?;
    let id = room_for(alloc, catalog.next_id(), 1)?;
    Ok(put_index(alloc, ObjId(id), table, tree)?)
}

/// The columns of an index: 42703, 42701, and 54000 with over 8 of them.
#[tactic(auto, unfolding(crate::specs::Indexes::listed))]
fn check_listed(alloc: Global, names: &[Str], columns: &[Column]) -> Result<(), Stop>
    ensures { Answers (spec.listed names.now columns.now) result }
{
    let known = column_names(alloc, columns)?;
    check_columns(alloc, names, known.as_slice())?;
    check_unrepeated(alloc, names)?;
    check_within(alloc, MOST_KEY_COLUMNS, names.len())
}

fn column_names(alloc: Global, columns: &[Column]) -> Result<NameList, NoMemory>
    ensures { IfOk result (λ names. names ≡ spec.column_names columns.now) }
{
    let mut names = ListOf::new(alloc);
    for column in columns {
        names.push(column.name.copy(alloc)?)?;
    }
    Ok(names)
}

fn put_index(alloc: Global, id: ObjId, table: &Entry, tree: &IndexTree) -> Result<Changes, NoMemory>
    ensures { IfOk result (λ changes. steps changes ≡ spec.put_index id table.now tree.now) }
{
    let def = IndexDef {
        table: table.id,
        columns: column_ids(alloc, tree.columns.as_slice(), table.columns())?,
        unique: tree.unique,
        of_constraint: false,
        primary: false,
    };
    let put = put(alloc, id, table.schema, tree.name.as_str(), Def::Index(def))?;
    then(one(alloc, put)?, Change::Touch(table.id))
}

/// The ids of the columns of these names.
fn column_ids(alloc: Global, names: &[Str], columns: &[Column]) -> Result<ColList, NoMemory>
    ensures { IfOk result (λ ids. ids ≡ spec.column_ids columns.now names.now) }
{
    let mut ids = ListOf::new(alloc);
    for name in names {
        add_ids(&mut ids, name.as_str(), columns)?;
    }
    Ok(ids)
}

fn add_ids(ids: &mut ColList, name: &str, columns: &[Column]) -> Result<(), NoMemory>
    ensures { OnOk result (ids.new ≡ ids.old ++ spec.ids_named name.now columns.now) }
{
    for column in columns {
        if column.name.as_str() == name {
            ids.push(column.id)?;
        }
    }
    Ok(())
}

/// The definitions of indexes.
pub(crate) type IndexDefList = ListOf<IndexDef>;

/// The indexes of a new table's keys.
pub(crate) fn key_indexes(
    alloc: Global,
    table: ObjId,
    keys: &[KeyConstraint],
    columns: &[Column],
) -> Result<IndexDefList, NoMemory>
    ensures { IfOk result (λ indexes. indexes ≡ spec.key_indexes table columns.now keys.now) }
{
    let mut indexes = ListOf::new(alloc);
    for key in keys {
        indexes.push(key_index(alloc, table, key, columns)?)?;
    }
    Ok(indexes)
}

fn key_index(
    alloc: Global,
    table: ObjId,
    key: &KeyConstraint,
    columns: &[Column],
) -> Result<IndexDef, NoMemory>
    ensures { IfOk result (λ index. index ≡ spec.key_index table columns.now key.now) }
{
    Ok(IndexDef {
        table,
        columns: column_ids(alloc, key.columns.as_slice(), columns)?,
        unique: true,
        of_constraint: true,
        primary: is_primary(key.kind),
    })
}

/// The changes with those that make a new table's indexes, whose ids follow the table's.
pub(crate) fn add_indexes(
    alloc: Global,
    changes: Changes,
    schema: SchemaId,
    table: ObjId,
    indexes: IndexDefList,
    names: &[Str],
) -> Result<Changes, NoMemory> {
    let mut all = changes;
    let mut id = table.0;
    for (index, name) in indexes.into_vec().into_iter().zip(names) {
        id = id.saturating_add(1);
        all.push(put(alloc, ObjId(id), schema, name.as_str(), Def::Index(index))?)?;
    }
    Ok(all)
}
