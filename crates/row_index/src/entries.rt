use q_base::{ListOf, SlotId};
use q_value::Value;

/// The values of a row in the columns of an index, in the order of the columns.
///
/// Two keys go by the first values in which they differ, ascending with null as the greatest (PostgreSQL's
/// manual, "Indexes and ORDER BY") and texts by their bytes; a key is below each longer one that begins with
/// it. Integers of all types count by their value alone: 1 and 1 as a bigint make one key. Any number is
/// below any text, and any text below any boolean. These last two rules are this project's own.
pub type Key = ListOf<Value>;

/// An entry of an index: a key, and the place of a row that has it.
#[derive(Debug, Drop)]
pub struct IndexPlace {
    pub key: Key,
    pub slot: SlotId,
}

/// The least or the greatest value of a range, which the range has or only comes up to.
#[derive(Debug, Drop)]
pub struct Edge {
    pub value: Value,
    pub included: bool,
}

/// A range of keys: those whose first values are the ones of `equal`. An edge bounds the value behind these
/// too, from below or from above; that value then has to be there, and a null never is within.
#[derive(Debug, Drop)]
pub struct KeyRange {
    pub equal: Key,
    pub low: Option<Edge>,
    pub high: Option<Edge>,
}
