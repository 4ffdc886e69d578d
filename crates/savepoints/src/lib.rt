//! Transaction blocks with their savepoints, and the settings that follow them.
#![tactic(auto)]

mod given;
mod held;
mod settings;
mod shown;
mod transaction;

pub use settings::{SetMark, Settings};
pub use transaction::{Block, Transaction};
