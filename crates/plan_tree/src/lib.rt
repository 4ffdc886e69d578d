//! Plans of analysed statements: their nodes, their cost and their text.
#![tactic(auto)]

mod append;
mod cost;
mod expressions;
mod items;
mod node;
mod text;

pub use cost::cost_of;
pub use node::{
    Block, Cut, Estimate, GroupNode, HashKeys, IndexUse, Node, Plan, RangeEnd, Scan, UsedList,
};
pub use text::plan_text;
