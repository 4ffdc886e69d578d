use crate::{CondList, Query, Relation, Target, TargetList};
use q_base::{ColId, ListOf, Str};
use q_value::SqlType;

/// A column of the changed table, with its type, to which what it is given is converted.
#[derive(Clone, Copy, Debug, PartialEq, Eq)]
pub struct AssignedColumn {
    pub id: ColId,
    pub kind: SqlType,
}

/// Columns of the changed table, none twice.
pub type AssignedColumnList = ListOf<AssignedColumn>;

/// What a column is given.
#[derive(Drop)]
pub struct Assignment {
    pub column: AssignedColumn,
    pub value: Target,
}

/// What columns are given, none twice.
pub type AssignmentList = ListOf<Assignment>;

/// The tuples of VALUES.
pub type ValuesList = ListOf<TargetList>;

/// An analysed INSERT. `RETURNING` sees the new row, in which a column stands at its id.
#[derive(Drop)]
pub struct Insert {
    pub table: Relation,
    /// The table's name as it was written, for refusals.
    pub written: Str,
    /// The columns for which VALUES has values, in their order.
    pub columns: AssignedColumnList,
    pub rows: ValuesList,
    /// The defaults of the other columns, which are constants.
    pub defaults: AssignmentList,
    /// Empty where RETURNING isn't written.
    pub returning: TargetList,
}

/// An analysed UPDATE. All but `RETURNING` sees the old row, in which a column stands at its id.
#[derive(Drop)]
pub struct Update {
    pub table: Relation,
    /// The table's name as it was written, for refusals.
    pub written: Str,
    /// What SET gives, in the order of the text.
    pub assignments: AssignmentList,
    /// The conjuncts of WHERE.
    pub conds: CondList,
    /// Empty where RETURNING isn't written.
    pub returning: TargetList,
}

/// An analysed DELETE, over the old row.
#[derive(Drop)]
pub struct Delete {
    pub table: Relation,
    /// The conjuncts of WHERE.
    pub conds: CondList,
    /// Empty where RETURNING isn't written.
    pub returning: TargetList,
}

/// An analysed statement.
#[derive(Drop)]
pub enum Bound {
    Select(Query),
    Insert(Insert),
    Update(Update),
    Delete(Delete),
}
