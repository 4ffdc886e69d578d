//! The rows of every table in versions, so that a snapshot keeps showing the rows of its time.
//!
//! A row stands in a slot of its table. An update puts a newer version into the slot, a delete ends
//! the newest one, and a rollback takes such changes back. This is how PostgreSQL's heap keeps rows
//! (its manual, "Concurrency Control"), for one session.
#![tactic(auto)]

mod heap;
mod heaps;
pub mod laws;
mod slot;
mod snaps;
mod tables;

pub use heaps::Heaps;
pub use snaps::{HeapMark, Pin, Snap};
