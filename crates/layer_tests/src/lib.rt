//! Tests of the crates from the ground up to the session, and nothing else.
//!
//! A crate with tests is proved once more for them. Here that is a crate without code of its own, so that
//! the tested ones are proved once.
#![tactic(auto)]

#[cfg(test)]
mod blocks;
#[cfg(test)]
mod ground;
#[cfg(test)]
mod index_entries;
#[cfg(test)]
mod kept_outcomes;
#[cfg(test)]
mod operators;
#[cfg(test)]
mod printed_lines;
#[cfg(test)]
mod query_copies;
#[cfg(test)]
mod reads_and_writes;
#[cfg(test)]
mod session_settings;
#[cfg(test)]
mod source_marks;
#[cfg(test)]
mod values;
