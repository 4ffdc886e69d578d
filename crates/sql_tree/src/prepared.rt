use crate::{ExprList, NameList, Statement};
use q_base::Str;

/// PREPARE, and the line `\parse`.
#[derive(Drop)]
pub struct PrepareTree {
    pub name: Str,
    /// The names of the parameters' types.
    pub types: NameList,
    pub statement: Statement,
}

/// EXECUTE.
#[derive(Drop)]
pub struct ExecuteTree {
    pub name: Str,
    pub arguments: ExprList,
}

/// The line `\bind`: a portal, and the statement with its arguments.
#[derive(Drop)]
pub struct BindTree {
    pub portal: Str,
    pub execute: ExecuteTree,
}

/// The line `\run`: a portal, and how many rows at most, from 0 to 2147483647, where 0 means all.
#[derive(Drop)]
pub struct RunTree {
    pub portal: Str,
    pub count: u32,
}
