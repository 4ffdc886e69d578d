//! Plans that run and may be suspended between two rows.
//!
//! A run keeps only how far it is. It takes the stored tables anew each time that it is asked for a row, so that they
//! may change in between (PostgreSQL's executor keeps a snapshot in the same way: its manual, "Transaction Isolation").
#![tactic(auto)]

mod check;
mod conds;
mod cut;
mod found;
mod groups;
mod hashed;
mod index_scan;
mod next;
mod ordered;
mod run;
mod scan;
mod slots;
mod start;
mod state;
mod stores;
mod unique;

pub use run::Run;
pub use slots::run_slots;
pub use stores::{IndexList, IndexRow, Stores, has_key, key_of};
