//! One session: what it keeps, and what each command does and answers.
//!
//! A command's text becomes tokens (sql_tokens) and these a command (sql_reader); the machine runs it by the method of its
//! family. A statement that is written out is analysed (analyzer), its views are rewritten (view_rewrite), a plan of least
//! cost is made (planner) and run (executor, dml). PREPARE keeps it as a cached source (plan_source) in `Definitions`, which
//! owns the catalog, the marks and the statements, so that each change of the catalog is told to the marks; EXECUTE takes
//! the kept plan or has one made. A cursor owns a suspended run over a pinned snapshot. A refusal leaves all as it was, but
//! makes an active block failed; a command that changed rows before it was refused has them taken back by its method.
#![tactic(auto)]

mod answers;
mod arguments;
mod cursors;
mod definitions;
mod machine;
mod printed;
mod session;
mod statements;

pub use session::{Done, Session};
