//! The load of a command, and its expressions.
#![tactic(auto)]

/// What was read or made, or the way out past trees that are dropped by name: that is proved much sooner than the drop
/// that `?` adds at each place.
macro_rules! or_drop {
    ($read:expr, $($tree:ident),+) => {
        match $read {
            Ok(read) => read,
            Err(stop) => {
                $(drop($tree);)+
                return Err(stop);
            }
        }
    };
}

mod cursor;
mod grammar;
mod levels;
mod literals;
mod names;
mod nodes;
mod operators;
mod slice;

pub use cursor::Cursor;
pub use grammar::expression;
pub use levels::load;
pub use literals::{eat_digits, eat_literal, eat_param, numeral};
pub use names::{eat_name, is_reserved, name, sees_name};
pub use slice::read_expr;
