//! Analysis of expressions: what constants, parameters and names mean, and the types of what they make.
#![tactic(auto)]

mod aggregates;
mod arguments;
mod calls;
mod expressions;
pub mod laws;
mod node;
mod numbers;
mod operators;
mod params;
mod refusals;
mod same;
mod scope;
mod state;
mod types;
mod undeclared;

pub use arguments::{analyse_args, is_assignable};
pub use calls::calls_in_select;
pub use expressions::{expression, operand};
pub use node::{Node, condition_of, give, typed};
pub use numbers::{bigint_constant, number_of, shown_number};
pub use params::param;
pub use refusals::refusal_naming_three;
pub use same::{same_aggregate, same_target};
pub use scope::{Scope, ScopeItem, column, no_items, place_of};
pub use state::{Allowed, Known, KnownList, State, count_declared};
pub use types::{declared_types, type_named};
pub use undeclared::{
    undeclared_in_delete, undeclared_in_insert, undeclared_in_select, undeclared_in_update,
};
