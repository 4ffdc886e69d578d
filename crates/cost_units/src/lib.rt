//! Statistics of tables, how many rows a condition is thought to leave, and what the nodes of a plan cost.
//!
//! All numbers are whole: a division drops the fraction, and sums and products end at `CEILING`.
#![tactic(auto)]

mod capped;
mod costs;
mod estimates;
pub mod laws;
mod stats;
mod tests_of_columns;

pub use capped::{CEILING, capped_product, capped_sum};
pub use costs::{
    OFF_COST, aggregate_cost, charged, check_cost, hash_join_cost, index_scan_cost, insert_cost,
    nested_loop_cost, result_cost, seq_scan_cost, sort_cost, subquery_scan_cost, unique_cost,
};
pub use estimates::{
    DERIVED_DISTINCT, distinct_of, divided, grouped_rows, pages_of, rows_in, rows_of, third,
    thirds, unique_rows,
};
pub use stats::StatsBuilder;
pub use tests_of_columns::{ColumnTest, column_test, columns_equal};
