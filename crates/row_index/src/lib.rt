//! The entries of an index in the order of their keys, and ranges of them.
#![tactic(auto)]

mod block;
mod cut;
mod entries;
mod index;
pub mod laws;
mod lead;
mod order;
mod part;
mod parts;
mod stored;

pub use entries::{Edge, IndexPlace, Key, KeyRange};
pub use index::Index;
