//! The commands on the catalog, read from tokens: CREATE, DROP, ALTER, TRUNCATE and ANALYZE.
//!
//! Each command is read from behind its leading word, and what stands behind the command is left to the
//! caller. The forms are those of PostgreSQL's commands (its manual, "SQL Commands") within this project's
//! subset.
#![tactic(auto)]

mod alteration;
mod columns;
mod constants;
mod creation;
mod keywords;
mod removal;
mod tables;

pub use alteration::alter;
pub use constants::constant;
pub use creation::create;
pub use removal::{analyze, drop_object, truncate};
