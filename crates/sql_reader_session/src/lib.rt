//! The commands on prepared statements, cursors, transactions and settings, and the backslash lines, read
//! from tokens.
//!
//! Each public function reads what stands behind a command's leading word, or behind the letters of a
//! backslash line. It answers 42601 exactly where the tokens don't go on so.
#![tactic(auto)]

mod blocks;
mod cursors;
mod keywords;
mod lines;
mod motions;
mod numbers;
mod prepared;
mod settings;

pub use blocks::{abort, begin, commit, release, rollback, savepoint, start};
pub use cursors::{close, declare, fetch, move_cursor};
pub use lines::backslash_line;
pub use prepared::{deallocate, discard, execute, explain, prepare};
pub use settings::{reset, set, show};
