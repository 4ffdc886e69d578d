//! Marks of cached sources: which of them a change of the catalog has made invalid since they were analysed.
#![tactic(auto)]

mod index;
pub mod laws;
mod marks;
mod source;

pub use marks::Marks;
pub use source::SourceId;
