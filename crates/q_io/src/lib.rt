//! Where bytes come from and where they go.
//!
//! [`Source`] and [`Sink`] say what one read and one write do. They are kept by objects in memory,
//! which fail where they are told to, and by adapters of std's readers and writers.
#![tactic(auto)]

mod adapters;
mod calls;
mod fault;
mod mem_sink;
mod mem_source;
mod pieces;
mod room;
mod sink;
mod source;
mod sure_source;

pub use adapters::{ReadSource, WriteSink};
pub use fault::Failed;
pub use mem_sink::MemSink;
pub use mem_source::MemSource;
pub use sink::Sink;
pub use source::Source;
pub use sure_source::SureSource;
