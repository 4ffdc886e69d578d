use crate::{Expr, NameList, OutputList, QName};
use q_base::{ListOf, Str};

/// What a column is given: an expression's value, or its default.
#[derive(Drop)]
pub enum NewValue {
    Expr(Expr),
    Default,
}

/// What stands in one pair of parentheses behind VALUES.
pub type NewRow = ListOf<NewValue>;

/// What stands behind VALUES.
pub type NewRowList = ListOf<NewRow>;

/// INSERT; `columns` are those named behind the table.
#[derive(Drop)]
pub struct InsertTree {
    pub table: QName,
    pub columns: NameList,
    pub rows: NewRowList,
    pub returning: OutputList,
}

/// One `column = value` of UPDATE's SET.
#[derive(Drop)]
pub struct Assignment {
    pub column: Str,
    pub value: NewValue,
}

/// What stands behind UPDATE's SET.
pub type AssignmentList = ListOf<Assignment>;

/// UPDATE.
#[derive(Drop)]
pub struct UpdateTree {
    pub table: QName,
    pub assignments: AssignmentList,
    /// The condition behind WHERE.
    pub condition: Option<Expr>,
    pub returning: OutputList,
}

/// DELETE.
#[derive(Drop)]
pub struct DeleteTree {
    pub table: QName,
    /// The condition behind WHERE.
    pub condition: Option<Expr>,
    pub returning: OutputList,
}
