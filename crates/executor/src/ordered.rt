ghost use Rattle.std.specs.Prelude.{◌≡◌, [], IfOk, reverse, unwrap_or};
ghost use Rattle.std.specs.Option.{option_copied};
ghost use Rattle.q_scalar.specs.Stops.{Gives};
ghost use Rattle.q_value.specs.Order.{sort_cmp};
ghost use Rattle.q_value.specs.declared.value.Value.TheVariants as value;
ghost use Rattle.executor.specs.Sorts as spec;

use crate::found::Found;
use q_base::NoMemory;
use q_scalar::{EvalStop, eval_target};
use q_value::{Row, Value, laws, order_values};
use query_tree::SortKey;
use sqlite_items::Items;
use std::alloc::Global;
use std::cmp::Ordering;

/// A row with the values of its sort keys.
#[derive(Drop)]
pub(crate) struct Keyed {
    keys: Row,
    found: Found,
}

/// A row with the values of its sort keys.
#[tactic(auto, unfolding(crate::specs::Sorts::with_keys))]
pub(crate) fn with_keys(
    alloc: Global,
    keys: &[SortKey],
    found: Found,
    params: &[Value],
) -> Result<Keyed, EvalStop>
    ensures { Gives (spec.with_keys keys.now params.now found) result }
{
    let values = key_values(alloc, keys, found.row.as_slice(), params)?;
    Ok(Keyed {
        keys: values,
        found,
    })
}

/// The values of sort keys over a row, from left to right, or the first fault.
fn key_values(
    alloc: Global,
    keys: &[SortKey],
    row: &[Value],
    params: &[Value],
) -> Result<Row, EvalStop>
    ensures { Gives (spec.keys_from [] keys.now row.now params.now) result }
{
    let mut values = Row::new(alloc);
    for key in keys {
        values.push(eval_target(alloc, &key.target, row, params)?)?;
    }
    Ok(values)
}

/// The rows in the order of their keys, rows that are equal in all of them in the order in which they came.
#[tactic(auto, using(crate::proofs::Turns::turned_twice))]
pub(crate) fn sorted(
    alloc: Global,
    keys: &[SortKey],
    rows: Vec<Keyed>,
) -> Result<Vec<Found>, NoMemory>
    ensures { IfOk result (λ found. found.items ≡ spec.sorted keys.now rows.items) }
{
    let mut rows = in_order(keys, rows)?;
    rows.reverse();
    without_keys(alloc, Items::from_vec(rows))
}

fn in_order(keys: &[SortKey], rows: Vec<Keyed>) -> Result<Vec<Keyed>, NoMemory>
    ensures { IfOk result (λ found. found.items ≡ spec.in_order (spec.comes_before keys.now) [] rows.items) }
{
    laws::orders();
    let mut rows = rows;
    rows.sort_by(
        |left: &Keyed, right: &Keyed| -> Ordering
            ensures { result ≡ spec.order_rows keys.entry.now left.now right.now }
        { order_rows(keys, left, right) },
    )?;
    Ok(rows)
}

/// The rows without their keys, which come the last one first.
fn without_keys(alloc: Global, rows: Items<Keyed>) -> Result<Vec<Found>, NoMemory>
    ensures { IfOk result (λ found. found.items ≡ spec.unkeyed [] (reverse rows)) }
{
    let mut rows = rows;
    let mut found = Vec::new(alloc);
    while let Some(row) = rows.pop() {
        found.push(row.found)?;
    }
    Ok(found)
}

/// How two rows compare by the values of their sort keys.
fn order_rows(keys: &[SortKey], left: &Keyed, right: &Keyed) -> Ordering
    ensures { result ≡ spec.order_rows keys.now left.now right.now }
{
    order_lists(keys, left.keys.as_slice(), right.keys.as_slice())
}

fn order_lists(keys: &[SortKey], left: &[Value], right: &[Value]) -> Ordering
    ensures { result ≡ spec.order_from 0 keys.now left.now right.now }
{
    for at in 0..keys.len() {
        match order_at(at, &keys[at], left, right) {
            Ordering::Less => return Ordering::Less,
            Ordering::Equal => {}
            Ordering::Greater => return Ordering::Greater,
        }
    }
    Ordering::Equal
}

/// How two rows compare by the sort key at a place.
#[tactic(auto, unfolding(crate::specs::Sorts::order_at))]
fn order_at(at: usize, key: &SortKey, left: &[Value], right: &[Value]) -> Ordering
    ensures { result ≡ spec.order_at at key.now left.now right.now }
{
    order_optional(key, left.get(at), right.get(at))
}

/// How two values compare by a sort key; past the end of a row there are nulls.
fn order_optional(key: &SortKey, left: Option<&Value>, right: Option<&Value>) -> Ordering
    ensures { result ≡ sort_cmp key.now.desc key.now.nulls_first (unwrap_or (option_copied left.entry) value.Null) (unwrap_or (option_copied right.entry) value.Null) }
{
    let null = Value::Null;
    let left = left.unwrap_or(&null);
    let right = right.unwrap_or(&null);
    order_values(left, right, key.desc, key.nulls_first)
}
