//! What a query means over the rows of the tables: which rows it has, and which lists of outcomes answer it. Nothing is
//! pulled up, no index is used and no row is skipped; a plan is right where what it gives is one of the answers.
#![tactic(auto)]

pub mod laws;
