ghost use Rattle.std.specs.Prelude.{◌≡◌, ◌++◌, ◌∷◌, [], IfOk};
ghost use Rattle.q_value.specs.Answers.{Answers};
ghost use Rattle.cat_core.specs.Finding.{entries, indexes_of};
ghost use Rattle.cat_commands.specs.AlterColumns as spec;
ghost use Rattle.cat_commands.specs.Columns.{columns_with};
ghost use Rattle.cat_commands.specs.Alterations.{Alters, seen};
ghost use Rattle.cat_commands.specs.Steps.{step, steps};

use crate::alter::put_table;
use crate::columns::{
    columns_with, columns_without, default_copied, of_type, with_default, with_name, with_not_null,
};
use crate::defaults::{default_written, mismatch};
use crate::elements::column_of;
use crate::entries::{put, then};
use crate::limits::{MOST_COLUMNS, check_within};
use crate::refusals::{no_such_column, refusal_naming_in};
use crate::stats::{copy_stats, stats_with_new, stats_without};
use crate::types::{column_type, is_assignable};
use crate::{Altered, RowWork};
use cat_core::{Catalog, Change, Changes, Column, Def, Entry, TableDef, column_named};
use q_base::{Code, ColId, ListOf, NoMemory, Stop, Str, refusal, refusal_naming};
use q_value::TableStats;
use query_tree::Copies;
use sql_tree::{ColumnDef, Literal, QName};
use std::alloc::Global;
use std::rc::Rc;

#[tactic(auto, unfolding(crate::specs::AlterColumns::column_added))]
pub(crate) fn add_column(
    alloc: Global,
    entry: &Entry,
    table: &TableDef,
    written: &QName,
    new: &ColumnDef,
) -> Result<Altered, Stop>
    ensures { Alters (spec.column_added entry.now table.now written.now new.now) result }
{
    check_unnamed(alloc, table, written, new.name.as_str())?;
    let count = table.columns.as_slice().len();
    check_within(alloc, MOST_COLUMNS, count.saturating_add(1))?;
    let column = column_of(alloc, ColId(table.next_column), new, false)?;
    Ok(put_new_column(alloc, entry, table, column)?)
}

/// 42701 where the table has a column of the name.
fn check_unnamed(alloc: Global, table: &TableDef, written: &QName, name: &str) -> Result<(), Stop>
    ensures { Answers (spec.unnamed table.now written.now name.now) result }
{
    match column_named(table.columns.as_slice(), name) {
        Some(_) => Err(refusal_naming_in(alloc, Code::ColumnExists, name, written)),
        None => Ok(()),
    }
}

fn put_new_column(
    alloc: Global,
    entry: &Entry,
    table: &TableDef,
    column: Column,
) -> Result<Altered, NoMemory>
    ensures { IfOk result (λ altered. seen altered ≡ spec.put_new_column entry.now table.now column) }
{
    let value = default_copied(alloc, &column)?;
    let rows = RowWork::Fill(column.id, value, column.not_null);
    let table = with_new(alloc, table, column)?;
    put_table(alloc, entry, table, rows)
}

fn with_new(alloc: Global, table: &TableDef, column: Column) -> Result<TableDef, NoMemory>
    ensures { IfOk result (λ new. new ≡ spec.with_new table.now column) }
{
    let mut columns = table.columns.copy(alloc)?;
    columns.push(column)?;
    let stats = stats_with_new(alloc, &table.stats)?;
    Ok(TableDef {
        columns,
        next_column: table.next_column.saturating_add(1),
        stats,
    })
}

#[tactic(auto, unfolding(crate::specs::AlterColumns::column_dropped))]
pub(crate) fn drop_column(
    alloc: Global,
    catalog: &Catalog,
    entry: &Entry,
    table: &TableDef,
    written: &QName,
    name: &Str,
    used: bool,
) -> Result<Altered, Stop>
    ensures { Alters (spec.column_dropped catalog.now entry.now table.now written.now name.now used) result }
{
    let Some(column) = column_named(table.columns.as_slice(), name.as_str()) else {
        return Err(no_such_column(alloc, name.as_str(), written));
    };
    if used {
        return Err(refusal_naming_in(alloc, Code::ColumnHasDependents, name.as_str(), written));
    }
    if table.columns.as_slice().len() <= 1 {
        return Err(refusal(alloc, Code::LastColumn));
    }
    Ok(put_without(alloc, catalog, entry, table, column.id)?)
}

fn put_without(
    alloc: Global,
    catalog: &Catalog,
    entry: &Entry,
    table: &TableDef,
    column: ColId,
) -> Result<Altered, NoMemory>
    ensures { IfOk result (λ altered. seen altered ≡ spec.put_without catalog.now entry.now table.now column) }
{
    let indexes = catalog.indexes_of(alloc, entry.id)?;
    let changes = drop_indexes(alloc, indexes.as_slice(), column)?;
    let changes = put_narrower(alloc, changes, entry, table, column)?;
    Ok(Altered {
        rows: RowWork::Nothing,
        changes: then(changes, Change::Touch(entry.id))?,
    })
}

fn put_narrower(
    alloc: Global,
    changes: Changes,
    entry: &Entry,
    table: &TableDef,
    column: ColId,
) -> Result<Changes, NoMemory>
    ensures { IfOk result (λ all. steps all ≡ steps changes ++ spec.narrower entry.now table.now column ∷ []) }
{
    then(changes, narrower(alloc, entry, table, column)?)
}

fn narrower(
    alloc: Global,
    entry: &Entry,
    table: &TableDef,
    column: ColId,
) -> Result<Change, NoMemory>
    ensures { IfOk result (λ change. step change ≡ spec.narrower entry.now table.now column) }
{
    let def = Def::Table(without_column(alloc, table, column)?);
    put(alloc, entry.id, entry.schema, entry.name.as_str(), def)
}

/// The changes that drop each index over the column.
fn drop_indexes(alloc: Global, indexes: &[Rc<Entry>], column: ColId) -> Result<Changes, NoMemory>
    ensures { IfOk result (λ changes. steps changes ≡ spec.drops_over column (entries indexes.now)) }
{
    let mut changes = ListOf::new(alloc);
    for index in indexes {
        if is_over(index, column) {
            changes.push(Change::DropEntry(index.id))?;
        }
    }
    Ok(changes)
}

/// Tells whether an index is over the column.
fn is_over(entry: &Entry, column: ColId) -> bool
    ensures { result ≡ spec.is_over column entry.now.def }
{
    match &entry.def {
        Def::Index(index) => has_column(index.columns.as_slice(), column),
        Def::Table(_) | Def::View(_) => false,
    }
}

fn has_column(columns: &[ColId], column: ColId) -> bool
    ensures { result ≡ spec.has_column column columns.now }
{
    for other in columns {
        if other.0 == column.0 {
            return true;
        }
    }
    false
}

fn without_column(alloc: Global, table: &TableDef, id: ColId) -> Result<TableDef, NoMemory>
    ensures { IfOk result (λ new. new ≡ spec.without_column table.now id) }
{
    let columns = columns_without(alloc, table.columns.as_slice(), id)?;
    let stats = copy_stats(alloc, &table.stats)?;
    Ok(TableDef {
        columns,
        next_column: table.next_column,
        stats,
    })
}

#[tactic(auto, unfolding(crate::specs::AlterColumns::column_renamed))]
pub(crate) fn rename_column(
    alloc: Global,
    entry: &Entry,
    table: &TableDef,
    written: &QName,
    name: &Str,
    new: &Str,
) -> Result<Altered, Stop>
    ensures { Alters (spec.column_renamed entry.now table.now written.now name.now new.now) result }
{
    let Some(column) = column_named(table.columns.as_slice(), name.as_str()) else {
        return Err(no_such_column(alloc, name.as_str(), written));
    };
    check_unnamed(alloc, table, written, new.as_str())?;
    let renamed = with_name(alloc, column, new)?;
    Ok(put_column(alloc, entry, table, &renamed, RowWork::Nothing)?)
}

/// The changes that put a column in place of that of its id.
fn put_column(
    alloc: Global,
    entry: &Entry,
    table: &TableDef,
    column: &Column,
    rows: RowWork,
) -> Result<Altered, NoMemory>
    ensures { IfOk result (λ altered. seen altered ≡ spec.put_column entry.now table.now column.now rows) }
{
    let stats = copy_stats(alloc, &table.stats)?;
    put_table(
        alloc,
        entry,
        with_column(alloc, table, column, stats)?,
        rows,
    )
}

fn with_column(
    alloc: Global,
    table: &TableDef,
    column: &Column,
    stats: TableStats,
) -> Result<TableDef, NoMemory>
    ensures { IfOk result (λ new. new ≡ record { columns = columns_with column.now table.now.columns; next_column = table.now.next_column; stats = stats }) }
{
    let columns = columns_with(alloc, table.columns.as_slice(), column)?;
    Ok(TableDef {
        columns,
        next_column: table.next_column,
        stats,
    })
}

#[tactic(auto, unfolding(crate::specs::AlterColumns::type_set))]
pub(crate) fn set_type(
    alloc: Global,
    entry: &Entry,
    table: &TableDef,
    written: &QName,
    name: &Str,
    type_name: &Str,
    used: bool,
) -> Result<Altered, Stop>
    ensures { Alters (spec.type_set entry.now table.now written.now name.now type_name.now used) result }
{
    let Some(column) = column_named(table.columns.as_slice(), name.as_str()) else {
        return Err(no_such_column(alloc, name.as_str(), written));
    };
    let kind = column_type(alloc, type_name.as_str())?;
    if used {
        return Err(refusal(alloc, Code::ColumnTypeUsedByView));
    }
    if !is_assignable(column.kind, kind) {
        return Err(mismatch(alloc, name.as_str(), kind, column.kind));
    }
    let changed = of_type(alloc, column, kind)?;
    Ok(put_typed(alloc, entry, table, &changed)?)
}

fn put_typed(
    alloc: Global,
    entry: &Entry,
    table: &TableDef,
    column: &Column,
) -> Result<Altered, NoMemory>
    ensures { IfOk result (λ altered. seen altered ≡ spec.put_typed entry.now table.now column.now) }
{
    let rows = RowWork::Convert(column.id, column.kind);
    let stats = stats_without(alloc, &table.stats, column.id)?;
    put_table(
        alloc,
        entry,
        with_column(alloc, table, column, stats)?,
        rows,
    )
}

#[tactic(auto, unfolding(crate::specs::AlterColumns::default_set))]
pub(crate) fn set_default(
    alloc: Global,
    entry: &Entry,
    table: &TableDef,
    written: &QName,
    name: &Str,
    literal: &Literal,
) -> Result<Altered, Stop>
    ensures { Alters (spec.default_set entry.now table.now written.now name.now literal.now) result }
{
    let Some(column) = column_named(table.columns.as_slice(), name.as_str()) else {
        return Err(no_such_column(alloc, name.as_str(), written));
    };
    let value = default_written(alloc, literal, name.as_str(), column.kind)?;
    let changed = with_default(alloc, column, value)?;
    Ok(put_column(alloc, entry, table, &changed, RowWork::Nothing)?)
}

#[tactic(auto, unfolding(crate::specs::AlterColumns::not_null_set))]
pub(crate) fn set_not_null(
    alloc: Global,
    entry: &Entry,
    table: &TableDef,
    written: &QName,
    name: &Str,
) -> Result<Altered, Stop>
    ensures { Alters (spec.not_null_set entry.now table.now written.now name.now) result }
{
    let Some(column) = column_named(table.columns.as_slice(), name.as_str()) else {
        return Err(no_such_column(alloc, name.as_str(), written));
    };
    let changed = with_not_null(alloc, column, true)?;
    Ok(put_column(
        alloc,
        entry,
        table,
        &changed,
        RowWork::CheckNotNull(column.id),
    )?)
}

#[tactic(auto, unfolding(crate::specs::AlterColumns::not_null_dropped))]
pub(crate) fn drop_not_null(
    alloc: Global,
    catalog: &Catalog,
    entry: &Entry,
    table: &TableDef,
    written: &QName,
    name: &Str,
) -> Result<Altered, Stop>
    ensures { Alters (spec.not_null_dropped catalog.now entry.now table.now written.now name.now) result }
{
    let Some(column) = column_named(table.columns.as_slice(), name.as_str()) else {
        return Err(no_such_column(alloc, name.as_str(), written));
    };
    if is_in_primary(alloc, catalog, entry, column.id)? {
        return Err(refusal_naming(alloc, Code::ColumnInPrimaryKey, name.as_str()));
    }
    let changed = with_not_null(alloc, column, false)?;
    Ok(put_column(alloc, entry, table, &changed, RowWork::Nothing)?)
}

fn is_in_primary(
    alloc: Global,
    catalog: &Catalog,
    entry: &Entry,
    column: ColId,
) -> Result<bool, NoMemory>
    ensures { IfOk result (λ found. found ≡ spec.any_primary_over column (indexes_of entry.now.id catalog.now.slots)) }
{
    let indexes = catalog.indexes_of(alloc, entry.id)?;
    Ok(any_primary_over(indexes.as_slice(), column))
}

fn any_primary_over(indexes: &[Rc<Entry>], column: ColId) -> bool
    ensures { result ≡ spec.any_primary_over column (entries indexes.now) }
{
    for index in indexes {
        if is_primary_over(index, column) {
            return true;
        }
    }
    false
}

fn is_primary_over(entry: &Entry, column: ColId) -> bool
    ensures { result ≡ spec.is_primary_over column entry.now.def }
{
    match &entry.def {
        Def::Index(index) => index.primary && has_column(index.columns.as_slice(), column),
        Def::Table(_) | Def::View(_) => false,
    }
}
