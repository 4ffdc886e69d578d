//! Analysed statements: names are resolved to ids, every expression has a type, and nothing is planned yet.
//!
//! A query ranges over items: tables, views, and blocks of their own once views are rewritten. A row of its
//! product is one flat list of values, the rows of the items one after another, and a column names an item,
//! a column of it, and the place of its value in that list. In a grouped query the values of the aggregates
//! stand behind those of the items.
#![tactic(auto)]

mod copies;
pub mod laws;
mod query;
mod query_copy;
mod result;
mod statement;
mod target;

pub use copies::Copies;
pub use query::{
    Aggregate, AggregateList, Item, ItemList, Query, Relation, RelationColumnList, SortKey,
    SortKeyList, direct,
};
pub use result::{ResultColumn, ResultColumnList, ResultType};
pub use statement::{
    AssignedColumn, AssignedColumnList, Assignment, AssignmentList, Bound, Delete, Insert, Update,
    ValuesList,
};
pub use target::{
    AggregatePlace, ArithmeticOp, ColumnPlace, CompareOp, Cond, CondList, Target, TargetList,
};
