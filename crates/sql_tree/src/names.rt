use q_base::{ListOf, Str};

/// Names in order.
pub type NameList = ListOf<Str>;

/// The name of a table, view or index, with the schema that was written before it.
#[derive(Drop)]
pub struct QName {
    pub schema: Option<Str>,
    pub name: Str,
}

/// The name of a column, with the name of the FROM item that was written before it.
#[derive(Drop)]
pub struct ColumnRef {
    pub item: Option<Str>,
    pub name: Str,
}

/// The keys of a GROUP BY.
pub type ColumnRefList = ListOf<ColumnRef>;
