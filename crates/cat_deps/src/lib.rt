//! Which views reach an object, and which objects a query reaches.
#![tactic(auto)]

mod naming;
mod reached;
mod reaching;

pub use naming::column_used;
pub use reached::{uses, uses_of};
pub use reaching::dependents;
