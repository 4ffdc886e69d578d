//! What each catalog command changes, or why it is refused.
#![tactic(auto)]

mod alter;
mod alter_columns;
mod analyze;
mod columns;
mod defaults;
mod drops;
mod elements;
mod entries;
mod indexes;
mod keys;
mod limits;
mod made_names;
mod names;
mod numbers;
mod places;
mod refusals;
mod schemas;
mod stats;
mod tables;
mod types;
mod views;

pub use alter::{Altered, RowWork, alter_table};
pub use analyze::analyzed;
pub use drops::drop_object;
pub use indexes::create_index;
pub use refusals::used_actively;
pub use schemas::schema_changes;
pub use tables::create_table;
pub use views::create_view;
