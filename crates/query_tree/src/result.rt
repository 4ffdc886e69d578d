use q_base::{ListOf, Str};
use q_value::SqlType;

/// A column of an answer.
#[derive(Debug, Drop)]
pub struct ResultColumn {
    pub name: Str,
    pub kind: SqlType,
}

/// The columns of an answer, in order.
pub type ResultColumnList = ListOf<ResultColumn>;

/// The shape of a statement's answer.
#[derive(Debug, Drop)]
pub struct ResultType {
    /// `None` for a statement that gives no rows.
    pub columns: Option<ResultColumnList>,
}
