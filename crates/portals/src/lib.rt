//! Cursors: motion over a fixed list of rows, WITH HOLD, and the savepoints at which cursors end.
#![tactic(auto)]

mod course;
mod cursor;
mod portals;

pub use cursor::{Cursor, CursorView};
pub use portals::Portals;
