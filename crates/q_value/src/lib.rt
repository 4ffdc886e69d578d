//! Values, rows and the feeds that give rows one by one.
#![tactic(auto)]

mod conversions;
mod feed;
pub mod laws;
mod order;
mod print;
mod statistics;
mod texts;
mod value;

pub use conversions::convert;
pub use feed::RowFeed;
pub use order::{compare3, order_values};
pub use print::value_text;
pub use statistics::{ColumnStats, ColumnStatsList, Common, CommonList, TableStats};
pub use texts::parse_value;
pub use value::{Outcome, OutcomeList, Row, Rows, SqlType, TypeList, Value};
