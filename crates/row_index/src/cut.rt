ghost use Rattle.std.specs.Prelude.{◌≡◌};
ghost use Rattle.std.specs.Option.{option_copied};
ghost use Rattle.row_index.specs.Ranges.{is_above, is_below, key_side, next_side, value_side};
ghost use Rattle.row_index.specs.Cuts.{is_before};
ghost use Rattle.row_index.specs.Leads.{key_lead};

use crate::order::{compare_keys, compare_values};
use crate::stored::Sought;
use crate::{Edge, IndexPlace, Key, KeyRange};
use q_value::Value;
use std::cmp::Ordering;

/// A place in the order of entries, with those before it and those after it.
#[derive(Drop)]
pub(crate) enum Cut<'a> {
    /// Before an entry.
    Entry(&'a Sought<'a>),
    /// Behind an entry.
    Past(&'a Sought<'a>),
    /// Before the entries of a range.
    Range(&'a KeyRange),
}

impl Cut<'_> {
    /// Tells whether `entry`, whose key has this lead, lies before the cut.
    #[inline(always)]
    pub(crate) fn comes_after(&self, lead: i64, entry: &IndexPlace) -> bool
        requires { lead ≡ key_lead entry.now.key }
        ensures { result ≡ is_before self.now entry.now }
    {
        match self {
            Cut::Entry(sought) => sought.order_of(lead, entry).is_lt(),
            Cut::Past(sought) => !sought.order_of(lead, entry).is_gt(),
            Cut::Range(range) => key_side_of(range, &entry.key).is_lt(),
        }
    }
}

/// Where a key lies: before the range, in it or after it.
#[inline(never)]
pub(crate) fn key_side_of(range: &KeyRange, key: &Key) -> Ordering
    ensures { result ≡ key_side range.now key.now }
{
    let key = key.as_slice();
    let equal = range.equal.as_slice();
    let front = &key[..key.len().min(equal.len())];
    match compare_keys(front, equal) {
        Ordering::Equal => next_side_of(range, key.get(equal.len())),
        order => order,
    }
}

/// Where the keys lie that begin with `equal` and have a next value, or none.
fn next_side_of(range: &KeyRange, next: Option<&Value>) -> Ordering
    ensures { result ≡ next_side range.now (option_copied next.entry) }
{
    if range.low.is_none() && range.high.is_none() {
        return Ordering::Equal;
    }
    match next {
        None => Ordering::Less,
        Some(value) => value_side_of(range, value),
    }
}

fn value_side_of(range: &KeyRange, value: &Value) -> Ordering
    ensures { result ≡ value_side range.now value.now }
{
    if !reaches(&range.low, value) {
        Ordering::Less
    } else if matches!(value, Value::Null) || !stays_below(&range.high, value) {
        Ordering::Greater
    } else {
        Ordering::Equal
    }
}

fn reaches(low: &Option<Edge>, value: &Value) -> bool
    ensures { result ≡ is_above low.now value.now }
{
    match low {
        None => true,
        Some(edge) => match compare_values(value, &edge.value) {
            Ordering::Less => false,
            Ordering::Equal => edge.included,
            Ordering::Greater => true,
        },
    }
}

fn stays_below(high: &Option<Edge>, value: &Value) -> bool
    ensures { result ≡ is_below high.now value.now }
{
    match high {
        None => true,
        Some(edge) => match compare_values(value, &edge.value) {
            Ordering::Less => true,
            Ordering::Equal => edge.included,
            Ordering::Greater => false,
        },
    }
}
