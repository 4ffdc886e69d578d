//! Whole commands, read from tokens.
#![tactic(auto)]

mod command;
pub mod laws;
mod leading;

pub use command::read_command;
