//! The outcomes that a cursor keeps of its query's answer.
#![tactic(auto)]

mod row_buffer;

pub use row_buffer::RowBuffer;
