use cat_core::{Catalog, Column, Def, TableDef};
use q_base::{ListOf, NoMemory};
use query_tree::{
    Copies, Relation, RelationColumnList, ResultColumn, ResultColumnList, ResultType,
};
use std::alloc::Global;

/// The relation that an item of a view's query names, with its name and its columns of now. One that isn't in the
/// catalog stays as it was.
pub fn relation_now(
    alloc: Global,
    relation: &Relation,
    catalog: &Catalog,
) -> Result<Relation, NoMemory> {
    let Some(entry) = catalog.entry(relation.id) else {
        return relation.copy(alloc);
    };
    let columns = columns_of(alloc, &entry.def)?;
    let alias = relation.alias.copy(alloc)?;
    Ok(Relation {
        id: relation.id,
        name: entry.name.copy(alloc)?,
        alias,
        columns,
        on_conds: relation.on_conds,
    })
}

fn columns_of(alloc: Global, def: &Def) -> Result<RelationColumnList, NoMemory> {
    match def {
        Def::Table(table) => table_columns(alloc, table),
        Def::View(view) => view_columns(alloc, &view.result),
        Def::Index(_) => Ok(ListOf::new(alloc)),
    }
}

fn view_columns(alloc: Global, shape: &ResultType) -> Result<RelationColumnList, NoMemory> {
    match &shape.columns {
        Some(columns) => named_columns(alloc, columns),
        None => Ok(ListOf::new(alloc)),
    }
}

fn named_columns(
    alloc: Global,
    columns: &ResultColumnList,
) -> Result<RelationColumnList, NoMemory> {
    let mut found = ListOf::new(alloc);
    for column in columns.as_slice() {
        found.push(Some(column.copy(alloc)?))?;
    }
    Ok(found)
}

// The columns stand by ascending ids, so that those passed are all below the next.
fn table_columns(alloc: Global, table: &TableDef) -> Result<RelationColumnList, NoMemory> {
    let mut found = ListOf::new(alloc);
    for column in table.columns.as_slice() {
        fill_to(&mut found, column.id.0 as usize)?;
        found.push(Some(result_column(alloc, column)?))?;
    }
    fill_to(&mut found, table.next_column as usize)?;
    Ok(found)
}

/// Appends places of dropped columns until there are `length`.
fn fill_to(columns: &mut RelationColumnList, length: usize) -> Result<(), NoMemory> {
    for _ in columns.as_slice().len()..length {
        columns.push(None)?;
    }
    Ok(())
}

fn result_column(alloc: Global, column: &Column) -> Result<ResultColumn, NoMemory> {
    Ok(ResultColumn {
        name: column.name.copy(alloc)?,
        kind: column.kind,
    })
}
