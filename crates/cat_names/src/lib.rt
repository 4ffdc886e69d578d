//! The search path, and the look-up of a name along it.
#![tactic(auto)]

mod lookup;
mod path;
mod rows;
mod spelling;

pub use lookup::{found, look_up, named_in, place_for};
pub use path::{effective, same_effective, schema_named};
pub use rows::{NameRow, SchemaRow};
pub use spelling::{refusal_of, written};
