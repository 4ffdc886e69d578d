//! The tests of the crates that read: tables over tokens, expressions and the whole grammar, each line of it with
//! texts that are spelt and texts that just miss. A crate with tests is proved once more for them, which is dear there.
#![tactic(auto)]

#[cfg(test)]
mod catalog_commands;
#[cfg(test)]
mod expressions;
#[cfg(test)]
mod query_commands;
#[cfg(test)]
mod session_commands;
#[cfg(test)]
mod shared;
#[cfg(test)]
mod splitting;
#[cfg(test)]
mod token_texts;
#[cfg(test)]
mod whole_commands;
