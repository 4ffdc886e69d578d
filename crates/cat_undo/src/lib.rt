//! The catalog with its stamps, changed and taken back.
#![tactic(auto)]

mod now;
mod store;

pub use store::{CatMark, CatStore};
