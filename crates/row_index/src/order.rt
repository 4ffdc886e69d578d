ghost use Rattle.std.specs.Prelude.{◌≡◌};
ghost use Rattle.row_index.specs.Order.{entry_cmp, entry_of, keys_cmp, value_cmp};

use crate::{IndexPlace, Key};
use q_base::SlotId;
use q_value::{Value, order_values};
use std::cmp::Ordering;

/// The order of two values in a key: ascending, with nulls last.
pub(crate) fn compare_values(left: &Value, right: &Value) -> Ordering
    ensures { result ≡ value_cmp left.now right.now }
{
    order_values(left, right, false, false)
}

/// The order of two keys: by the first place in which they differ, and else by their lengths.
pub(crate) fn compare_keys(left: &[Value], right: &[Value]) -> Ordering
    ensures { result ≡ keys_cmp left.now right.now }
{
    for (place, value) in left.iter().enumerate() {
        let Some(other) = right.get(place) else {
            return Ordering::Greater;
        };
        match compare_values(value, other) {
            Ordering::Equal => {}
            order => return order,
        }
    }
    left.len().cmp(&right.len())
}

/// The order of an entry and that of a key and a slot: by key, and then by slot.
#[inline(never)]
pub(crate) fn compare_entry(entry: &IndexPlace, key: &Key, slot: SlotId) -> Ordering
    ensures { result ≡ entry_cmp entry.now (entry_of key.now slot) }
{
    compare_keys(entry.key.as_slice(), key.as_slice()).then(entry.slot.cmp(&slot))
}
