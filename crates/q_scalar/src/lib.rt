//! Operators of SQL, and the evaluation of conditions and targets over a row.
#![tactic(auto)]

mod arithmetic;
mod comparison;
mod eval;
mod held;
mod logic;
mod operators;

pub use arithmetic::compute;
pub use eval::{EvalStop, eval_cond, eval_fallible, eval_target};
pub use operators::{Op, OpRow, find_op};
