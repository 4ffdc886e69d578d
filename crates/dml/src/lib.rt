//! INSERT, UPDATE and DELETE: the rows after, or the first refusal.
#![tactic(auto)]

mod build;
mod changed;
mod columns;
mod delete;
mod entries;
mod insert;
mod tables;
mod unique;
mod update;
mod values;

pub use build::{build_index, clear_table};
pub use changed::Changed;
pub use columns::{check_not_null, convert_column, fill_column};
pub use delete::delete_slots;
pub use insert::insert_rows;
pub use update::update_slots;
