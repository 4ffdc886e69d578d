//! Views replaced by their queries, before a statement is planned.
//!
//! A view with FROM and without grouping and DISTINCT is pulled up: its items and its conditions stand in its
//! place (in PostgreSQL `pull_up_simple_subquery`, src/backend/optimizer/prep/prepjointree.c). Another is an item
//! with a block of its own.
#![tactic(auto)]

mod changed;
mod depths;
mod placing;
mod relations;
mod rewriting;
mod widths;

pub use depths::{MAX_DEPTH, depth};
pub use rewriting::rewrite;
pub use widths::{MAX_WIDTH, width};
