use crate::Value;
use q_base::ListOf;

/// A value that many rows hold in a column, and how many.
#[derive(Debug, Drop)]
pub struct Common {
    pub value: Value,
    pub count: u64,
}

/// The commonest values of a column: up to 100, as many as PostgreSQL keeps by default (its manual,
/// default_statistics_target). The commonest comes first, and of equally common ones the smaller; the
/// latter, and counts of all rows in place of a sample, are this project's own.
pub type CommonList = ListOf<Common>;

/// What ANALYZE found of a column: how many different values it has, null aside, and the commonest of them.
#[derive(Debug, Drop)]
pub struct ColumnStats {
    pub distinct: u64,
    pub common: CommonList,
}

/// One for each column of a table, in the order of the columns.
pub type ColumnStatsList = ListOf<ColumnStats>;

/// What ANALYZE found of a table: its number of rows, and of each column.
#[derive(Debug, Drop)]
pub struct TableStats {
    pub rows: u64,
    pub columns: ColumnStatsList,
}
