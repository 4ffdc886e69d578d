ghost use Rattle.std.specs.Prelude.{◌≡◌, ◌++◌, IfOk};
ghost use Rattle.q_value.specs.Answers.{Answers};
ghost use Rattle.cat_core.specs.Finding.{entries};
ghost use Rattle.cat_commands.specs.Alter as spec;
ghost use Rattle.cat_commands.specs.Alterations.{Alters, seen, put_table as table_put};
ghost use Rattle.cat_commands.specs.Steps.{step, steps, Gives};

use crate::alter_columns::{
    add_column, drop_column, drop_not_null, rename_column, set_default, set_not_null, set_type,
};
use crate::entries::{one, put, put_touched, then};
use crate::places::{check_free, schema_known};
use crate::stats::copy_stats;
use crate::used_actively;
use cat_core::{Catalog, Change, Changes, Def, Entry, IndexDef, TableDef, find_table};
use cat_names::{NameRow, refusal_of};
use q_base::{Code, ColId, ListOf, NoMemory, SchemaId, SchemaList, Stop, Str};
use q_value::{SqlType, Value};
use query_tree::Copies;
use sql_tree::{AlterAction, AlterTree, Literal};
use std::alloc::Global;
use std::rc::Rc;

/// What ALTER TABLE does to the stored rows, before its changes are made.
#[derive(Drop)]
pub enum RowWork {
    Nothing,
    /// Each row gets the value at the new column's place. Where NOT NULL is written, a null is refused as 23502 if there
    /// is a row.
    Fill(ColId, Value, bool),
    /// Each row's value is converted (22003), with the indexes over the column.
    Convert(ColId, SqlType),
    /// A row with a null there is refused as 23502.
    CheckNotNull(ColId),
}

/// What ALTER TABLE changes.
#[derive(Drop)]
pub struct Altered {
    pub rows: RowWork,
    pub changes: Changes,
}

/// What ALTER TABLE changes, where `in_use` tells that an open query uses the table, and `column_used` that a view names
/// the column that DROP COLUMN or TYPE names (PostgreSQL's manual, ALTER TABLE). The table is touched.
///
/// Refused, in this order, as 42P01 and 42809 for the table's name, as 55006 where it is in use, but for RENAME COLUMN,
/// RENAME TO and SET SCHEMA, and then by form:
/// - ADD COLUMN: 42701; 54000 with over 128 columns; 42704; 42804, 22P02 and 22003 of the default.
/// - DROP COLUMN: 42703; 2BP01 where a view names it; 0A000 for the last column. Its indexes go.
/// - RENAME COLUMN: 42703; 42701. RENAME TO: 42P07.
/// - SET SCHEMA: 3F000; 42P07 of the table's or an index's name. They move together.
/// - TYPE: 42703; 42704; 0A000 where a view names it; 42804; 22003 of the default. Its statistics go.
/// - SET DEFAULT and DROP DEFAULT: 42703; those of the default. SET NOT NULL: 42703.
/// - DROP NOT NULL: 42703; 42P16 for a column of the primary key.
///
/// What is found in the stored rows comes after all of these.
#[tactic(auto, unfolding(crate::specs::Alter::altered))]
pub fn alter_table(
    alloc: Global,
    catalog: &Catalog,
    path: &SchemaList,
    tree: &AlterTree,
    in_use: bool,
    column_used: bool,
) -> Result<Altered, Stop>
    ensures { Alters (spec.altered catalog.now path.now tree.now in_use column_used) result }
{
    let id = find_table(alloc, catalog, path, &tree.table)?;
    if in_use && !is_free(&tree.action) {
        return Err(used_actively(alloc, "ALTER TABLE", &tree.table));
    }
    match catalog.entry(id) {
        Some(entry) => alter_entry(alloc, catalog, entry, tree, column_used),
        None => Err(refusal_of(alloc, Code::UnknownRelation, &tree.table)),
    }
}

/// Tells whether the action is also done to a table in use.
fn is_free(action: &AlterAction) -> bool
    ensures { result ≡ spec.is_free action.now }
{
    match action {
        AlterAction::RenameColumn(_, _) | AlterAction::RenameTo(_) | AlterAction::SetSchema(_) => {
            true
        }
        AlterAction::AddColumn(_)
        | AlterAction::DropColumn(_)
        | AlterAction::SetType(_, _)
        | AlterAction::SetDefault(_, _)
        | AlterAction::DropDefault(_)
        | AlterAction::SetNotNull(_)
        | AlterAction::DropNotNull(_) => false,
    }
}

fn alter_entry(
    alloc: Global,
    catalog: &Catalog,
    entry: &Entry,
    tree: &AlterTree,
    column_used: bool,
) -> Result<Altered, Stop>
    ensures { Alters (spec.def_altered catalog.now entry.now tree.now column_used entry.now.def) result }
{
    match &entry.def {
        Def::Table(table) => do_action(alloc, catalog, entry, table, tree, column_used),
        Def::View(_) | Def::Index(_) => Err(refusal_of(alloc, Code::NotATable, &tree.table)),
    }
}

fn do_action(
    alloc: Global,
    catalog: &Catalog,
    entry: &Entry,
    table: &TableDef,
    tree: &AlterTree,
    column_used: bool,
) -> Result<Altered, Stop>
    ensures { Alters (spec.action_done catalog.now entry.now table.now tree.now.table column_used tree.now.action) result }
{
    let written = &tree.table;
    match &tree.action {
        AlterAction::AddColumn(column) => add_column(alloc, entry, table, written, column),
        AlterAction::DropColumn(name) => {
            drop_column(alloc, catalog, entry, table, written, name, column_used)
        }
        AlterAction::RenameColumn(name, new) => {
            rename_column(alloc, entry, table, written, name, new)
        }
        AlterAction::RenameTo(new) => rename_to(alloc, catalog, entry, table, new),
        AlterAction::SetSchema(schema) => set_schema(alloc, catalog, entry, table, schema),
        AlterAction::SetType(name, kind) => {
            set_type(alloc, entry, table, written, name, kind, column_used)
        }
        AlterAction::SetDefault(name, literal) => {
            set_default(alloc, entry, table, written, name, literal)
        }
        AlterAction::DropDefault(name) => {
            set_default(alloc, entry, table, written, name, &Literal::Null)
        }
        AlterAction::SetNotNull(name) => set_not_null(alloc, entry, table, written, name),
        AlterAction::DropNotNull(name) => {
            drop_not_null(alloc, catalog, entry, table, written, name)
        }
    }
}

/// The changes that put a table's new definition in place of its old one and touch it, after the work on its rows.
pub(crate) fn put_table(
    alloc: Global,
    entry: &Entry,
    table: TableDef,
    rows: RowWork,
) -> Result<Altered, NoMemory>
    ensures { IfOk result (λ altered. seen altered ≡ table_put entry.now table rows) }
{
    let name = entry.name.as_str();
    let changes = put_touched(alloc, entry.id, entry.schema, name, Def::Table(table))?;
    Ok(Altered { rows, changes })
}

/// A second owner of the same definition.
fn copy_table(alloc: Global, table: &TableDef) -> Result<TableDef, NoMemory>
    ensures { IfOk result (λ copy. copy ≡ table.now) }
{
    let columns = table.columns.copy(alloc)?;
    let stats = copy_stats(alloc, &table.stats)?;
    Ok(TableDef {
        columns,
        next_column: table.next_column,
        stats,
    })
}

fn rename_to(
    alloc: Global,
    catalog: &Catalog,
    entry: &Entry,
    table: &TableDef,
    new: &Str,
) -> Result<Altered, Stop>
    ensures { Alters (spec.renamed catalog.now entry.now table.now new.now) result }
{
    check_free(alloc, catalog.names(), entry.schema, new.as_str())?;
    let def = Def::Table(copy_table(alloc, table)?);
    let changes = put_touched(alloc, entry.id, entry.schema, new.as_str(), def)?;
    Ok(Altered {
        rows: RowWork::Nothing,
        changes,
    })
}

fn set_schema(
    alloc: Global,
    catalog: &Catalog,
    entry: &Entry,
    table: &TableDef,
    schema: &Str,
) -> Result<Altered, Stop>
    ensures { Alters (spec.schema_set catalog.now entry.now table.now schema.now) result }
{
    let schema = schema_known(alloc, catalog.schemas(), schema.as_str())?;
    let changes = moved(alloc, catalog, entry, table, schema)?;
    Ok(Altered {
        rows: RowWork::Nothing,
        changes,
    })
}

/// The table and its indexes in another schema, where their names must be free; in its own schema it is only touched.
#[tactic(auto, unfolding(crate::specs::Alter::moved))]
fn moved(
    alloc: Global,
    catalog: &Catalog,
    entry: &Entry,
    table: &TableDef,
    schema: SchemaId,
) -> Result<Changes, Stop>
    ensures { Gives (spec.moved catalog.now entry.now table.now schema) result }
{
    if schema.0 == entry.schema.0 {
        return Ok(one(alloc, Change::Touch(entry.id))?);
    }
    check_free(alloc, catalog.names(), schema, entry.name.as_str())?;
    let indexes = catalog.indexes_of(alloc, entry.id)?;
    check_all_free(alloc, catalog.names(), schema, indexes.as_slice())?;
    Ok(moved_entries(alloc, entry, table, schema, indexes.as_slice())?)
}

fn check_all_free(
    alloc: Global,
    names: &[NameRow],
    schema: SchemaId,
    indexes: &[Rc<Entry>],
) -> Result<(), Stop>
    ensures { Answers (spec.all_free names.now schema (entries indexes.now)) result }
{
    for index in indexes {
        check_free(alloc, names, schema, index.name.as_str())?;
    }
    Ok(())
}

fn moved_entries(
    alloc: Global,
    entry: &Entry,
    table: &TableDef,
    schema: SchemaId,
    indexes: &[Rc<Entry>],
) -> Result<Changes, NoMemory>
    ensures { IfOk result (λ changes. steps changes ≡ spec.moved_entries entry.now table.now schema (entries indexes.now)) }
{
    let def = Def::Table(copy_table(alloc, table)?);
    let table = one(
        alloc,
        put(alloc, entry.id, schema, entry.name.as_str(), def)?,
    )?;
    then(
        moved_indexes(alloc, table, schema, indexes)?,
        Change::Touch(entry.id),
    )
}

fn moved_indexes(
    alloc: Global,
    changes: Changes,
    schema: SchemaId,
    indexes: &[Rc<Entry>],
) -> Result<Changes, NoMemory>
    ensures { IfOk result (λ all. steps all ≡ steps changes ++ spec.moved_indexes schema (entries indexes.now)) }
{
    let mut all = changes;
    for index in indexes {
        if let Def::Index(def) = &index.def {
            all.push(moved_index(alloc, index, def, schema)?)?;
        }
    }
    Ok(all)
}

fn moved_index(
    alloc: Global,
    entry: &Entry,
    index: &IndexDef,
    schema: SchemaId,
) -> Result<Change, NoMemory>
    ensures { IfOk result (λ change. step change ≡ spec.moved_one schema entry.now index.now) }
{
    let def = Def::Index(copy_index(alloc, index)?);
    put(alloc, entry.id, schema, entry.name.as_str(), def)
}

fn copy_index(alloc: Global, index: &IndexDef) -> Result<IndexDef, NoMemory>
    ensures { IfOk result (λ copy. copy ≡ index.now) }
{
    let mut columns = ListOf::new(alloc);
    for column in index.columns.as_slice() {
        columns.push(*column)?;
    }
    Ok(IndexDef {
        table: index.table,
        columns,
        unique: index.unique,
        of_constraint: index.of_constraint,
        primary: index.primary,
    })
}
