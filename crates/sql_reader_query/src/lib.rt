//! Queries and row changes, read from tokens: a function for each line of their grammar.
#![tactic(auto)]

/// What was read, or the way out past what was read before, which is dropped by name: that is proved much sooner than the
/// drop that `?` adds at each place.
macro_rules! or_drop {
    ($read:expr, $($tree:ident),+) => {
        match $read {
            Ok(read) => read,
            Err(stop) => {
                $(drop($tree);)+
                return Err(stop);
            }
        }
    };
}

mod changes;
mod from_clause;
mod limits;
mod lists;
mod name_lists;
mod outputs;
mod query;
mod statements;

pub use name_lists::{names, optional_names, parenthesized_names, relation};
pub use query::select;
pub use statements::{statement, statement_command};
