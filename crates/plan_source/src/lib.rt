//! A prepared statement with what was worked out of it: analysed once and again where it was made invalid, and planned
//! for its uses. PostgreSQL keeps it as a CachedPlanSource (plancache.c).
#![tactic(auto)]

mod binding;
mod same;
mod source;

pub use same::is_same_result;
pub use source::{CachedSource, Env, Ready, SourceStop, SourceView};
