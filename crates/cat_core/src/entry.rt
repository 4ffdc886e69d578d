use q_base::{ColId, ColList, ListOf, ObjId, SchemaId, Str};
use q_value::{SqlType, TableStats, Value};
use query_tree::{Query, ResultType};
use std::rc::Rc;

/// An object of the catalog.
#[derive(Drop)]
pub struct Entry {
    pub id: ObjId,
    pub schema: SchemaId,
    /// Without its schema.
    pub name: Str,
    pub def: Def,
}

/// Shared entries in order.
pub type EntryList = ListOf<Rc<Entry>>;

/// What an object is.
#[derive(Drop)]
pub enum Def {
    Table(TableDef),
    View(ViewDef),
    Index(IndexDef),
}

/// A table.
#[derive(Drop)]
pub struct TableDef {
    /// In order of making, those that were dropped left out.
    pub columns: ColumnList,
    /// The id that the next column gets, which is also the length of a stored row: ids are given from 0 on, and a
    /// dropped column keeps its place.
    pub next_column: u32,
    /// What ANALYZE found. `columns` of it has an entry for each id below `next_column`; a table or a column without
    /// statistics has 1000 rows, 200 different values and none common.
    pub stats: TableStats,
}

/// A column of a table.
#[derive(Drop)]
pub struct Column {
    pub id: ColId,
    pub name: Str,
    pub kind: SqlType,
    pub not_null: bool,
    /// A constant of the column's type; without one the column's default is null.
    pub default_value: Option<Value>,
}

/// Columns in order of making.
pub type ColumnList = ListOf<Column>;

/// A view.
#[derive(Drop)]
pub struct ViewDef {
    /// The names and types of its columns.
    pub result: ResultType,
    /// Its query, whose items name tables and views by their ids.
    pub query: Rc<Query>,
}

/// An index, which lives in the schema of its table.
#[derive(Drop)]
pub struct IndexDef {
    pub table: ObjId,
    pub columns: ColList,
    pub unique: bool,
    /// It was made for PRIMARY KEY or UNIQUE.
    pub of_constraint: bool,
    pub primary: bool,
}
