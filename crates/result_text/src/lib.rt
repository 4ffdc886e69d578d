//! What is printed for an answer: rows, tags, refusals and warnings, as psql prints them unaligned.
#![tactic(auto)]

mod append;
mod errors;
mod rows;
mod tags;

pub use errors::{error_text, warning_text};
pub use rows::{count_text, rows_text};
pub use tags::{Tag, TagKind, tag_text};
