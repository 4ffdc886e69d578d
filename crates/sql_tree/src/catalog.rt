use crate::{Literal, NameList, QName, Statement};
use q_base::{ListOf, Str};

/// The commands on schemas.
#[derive(Drop)]
pub enum SchemaCommand {
    Create(Str),
    Drop(Str),
    /// The name, and the new name.
    Rename(Str, Str),
}

/// What a column's definition says of nulls.
#[derive(Clone, Copy, Debug, PartialEq, Eq)]
pub enum Nullability {
    Unsaid,
    Null,
    NotNull,
}

/// The kinds of keys.
#[derive(Clone, Copy, Debug, PartialEq, Eq)]
pub enum KeyKind {
    Primary,
    Unique,
}

/// The keys that a column's definition names, in the order as written, none twice.
pub type KeyList = ListOf<KeyKind>;

/// A column's definition in CREATE TABLE or ADD COLUMN, where the latter has no keys.
#[derive(Drop)]
pub struct ColumnDef {
    pub name: Str,
    pub type_name: Str,
    pub nullability: Nullability,
    pub default: Option<Literal>,
    pub keys: KeyList,
}

/// PRIMARY KEY or UNIQUE with a list of columns.
#[derive(Drop)]
pub struct KeyConstraint {
    pub kind: KeyKind,
    pub columns: NameList,
}

/// One entry between the parentheses of CREATE TABLE.
#[derive(Drop)]
pub enum TableElement {
    Column(ColumnDef),
    Key(KeyConstraint),
}

/// What stands between the parentheses of CREATE TABLE, in the order as written.
pub type TableElementList = ListOf<TableElement>;

/// CREATE TABLE.
#[derive(Drop)]
pub struct TableTree {
    pub name: QName,
    pub elements: TableElementList,
}

/// What becomes of a temporary table at the end of a transaction (PostgreSQL's manual, "CREATE TABLE").
#[derive(Clone, Copy, Debug, PartialEq, Eq)]
pub enum OnCommit {
    Preserve,
    Delete,
    Drop,
}

/// CREATE TEMP TABLE; without ON COMMIT rows are preserved.
#[derive(Drop)]
pub struct TempTableTree {
    pub table: TableTree,
    pub on_commit: OnCommit,
}

/// CREATE VIEW.
#[derive(Drop)]
pub struct ViewTree {
    pub name: QName,
    /// OR REPLACE is written.
    pub replace: bool,
    pub columns: NameList,
    /// The query, always a `Statement::ViewSelect`.
    pub query: Statement,
}

/// CREATE INDEX.
#[derive(Drop)]
pub struct IndexTree {
    pub name: Str,
    pub unique: bool,
    pub table: QName,
    pub columns: NameList,
}

/// What ALTER TABLE does, with the name of the column first.
#[derive(Drop)]
pub enum AlterAction {
    AddColumn(ColumnDef),
    DropColumn(Str),
    /// The column, and its new name.
    RenameColumn(Str, Str),
    RenameTo(Str),
    SetSchema(Str),
    /// The column, and the name of its new type.
    SetType(Str, Str),
    SetDefault(Str, Literal),
    DropDefault(Str),
    SetNotNull(Str),
    DropNotNull(Str),
}

/// ALTER TABLE.
#[derive(Drop)]
pub struct AlterTree {
    pub table: QName,
    pub action: AlterAction,
}

/// The kinds of objects.
#[derive(Clone, Copy, Debug, PartialEq, Eq)]
pub enum ObjectKind {
    Table,
    View,
    Index,
}

/// DROP TABLE, DROP VIEW and DROP INDEX.
#[derive(Drop)]
pub struct DropTree {
    pub kind: ObjectKind,
    pub name: QName,
    pub cascade: bool,
}
