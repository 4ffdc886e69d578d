//! Analysis of statements: what their names, constants and parameters mean, and the types of their expressions.
#![tactic(auto)]

mod assignments;
mod changes;
mod clauses;
mod from_clause;
mod grouping;
mod naming;
mod ordering;
mod outputs;
mod queries;
mod relations;
mod statements;

pub use expr_analysis::{analyse_args, declared_types, type_named};
pub use naming::{NameIds, Names};
pub use statements::{Analysed, analyse};
