use crate::{DeleteTree, InsertTree, Select, UpdateTree};
use q_base::Str;

/// What can be analysed and planned.
#[derive(Drop)]
pub enum Statement {
    Select(Select),
    /// The query of a CREATE VIEW.
    ViewSelect(Select),
    Insert(InsertTree),
    Update(UpdateTree),
    Delete(DeleteTree),
}

/// A positioned UPDATE or DELETE: one with WHERE CURRENT OF.
#[derive(Drop)]
pub struct PositionedTree {
    /// The UPDATE or DELETE, which has no condition.
    pub statement: Statement,
    pub cursor: Str,
}
