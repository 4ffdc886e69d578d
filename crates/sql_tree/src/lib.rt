//! The syntax trees of commands, as the tokens spell them: nothing is looked up, converted or checked yet.
//!
//! The forms follow PostgreSQL's commands (its manual, "SQL Commands") within this project's subset. A name
//! is kept as it was read, folded or unquoted, and a number as its digits. A list that a command may leave
//! out is empty where it is left out, since a written one never is.
#![tactic(auto)]

mod catalog;
mod command;
mod cursors;
mod expr;
mod names;
mod prepared;
mod rows;
mod select;
mod statement;

pub use catalog::{
    AlterAction, AlterTree, ColumnDef, DropTree, IndexTree, KeyConstraint, KeyKind, KeyList,
    Nullability, ObjectKind, OnCommit, SchemaCommand, TableElement, TableElementList, TableTree,
    TempTableTree, ViewTree,
};
pub use command::{Command, SetTree};
pub use cursors::{CursorOptions, DeclareTree, FetchTree, Motion};
pub use expr::{Arithmetic, Comparison, Expr, ExprList, Literal, Numeral};
pub use names::{ColumnRef, ColumnRefList, NameList, QName};
pub use prepared::{BindTree, ExecuteTree, PrepareTree, RunTree};
pub use rows::{
    Assignment, AssignmentList, DeleteTree, InsertTree, NewRow, NewRowList, NewValue, UpdateTree,
};
pub use select::{
    FromChain, FromItem, FromList, Grouping, Join, JoinList, Limits, OrderItem, OrderList,
    OutputItem, OutputList, RowCount, Select, SelectCore,
};
pub use statement::{PositionedTree, Statement};
