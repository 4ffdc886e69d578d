//! A plan of least cost.
//!
//! A block joins its items in whatever order: the first is scanned, and each later one is the inner side of a join
//! with those before. The rows of a set of items don't depend on the order in which they were joined, and no node's
//! cost falls where that of its input rises. So a least plan of a set is found from least plans of the sets with one
//! item less, apart for plans that deliver the block's order and plans that don't.
#![tactic(auto)]

mod above;
mod block;
mod changed;
mod conditions;
mod input;
mod items;
mod joins;
mod scans;
mod search;
mod served;
mod sets;
mod statement;

pub use input::PlanInput;
pub use statement::plan;
