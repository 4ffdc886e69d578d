//! The catalog: its schemas, its entries, their stamps, and the steps that change it.
#![tactic(auto)]

mod catalog;
mod changes;
mod copies;
mod entry;
mod finding;
mod shelf;
mod slots;
mod stamps;

pub use catalog::{Catalog, Undo};
pub use changes::{Change, Changes};
pub use entry::{Column, ColumnList, Def, Entry, EntryList, IndexDef, TableDef, ViewDef};
pub use finding::{column_named, find_index, find_object, find_table, find_view};
pub use stamps::{StampRow, Stamps};
