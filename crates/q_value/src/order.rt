ghost use Rattle.std.specs.Prelude.{◌≡◌, if◌then◌else◌};
ghost use Rattle.q_value.specs.Order.{AreComparable, rank_of, key_cmp, compared, sort_cmp};

use crate::Value;
use std::cmp::Ordering;

/// How two values of comparable types compare: integers of any type by value, texts by their bytes,
/// booleans with false first. `None`, unknown, exactly where one of them is null (PostgreSQL's manual,
/// "Comparison Functions and Operators"; texts by bytes as under its collation "C").
pub fn compare3(left: &Value, right: &Value) -> Option<Ordering>
    requires { AreComparable left.now right.now }
    ensures { result ≡ compared left.now right.now }
{
    match (left, right) {
        (Value::Null, _) | (_, Value::Null) => None,
        _ => Some(key_order(left, right)),
    }
}

/// The order of two values in a sort: ascending or descending, with nulls first or last
/// (PostgreSQL's manual, "Sorting Rows (ORDER BY)"). Values of types that aren't comparable are ordered
/// as numbers before texts before booleans, which `desc` turns round (this project's own).
pub fn order_values(left: &Value, right: &Value, desc: bool, nulls_first: bool) -> Ordering
    ensures { result ≡ sort_cmp desc nulls_first left.now right.now }
{
    match (left, right) {
        (Value::Null, Value::Null) => Ordering::Equal,
        (Value::Null, _) => before_if(nulls_first),
        (_, Value::Null) => before_if(!nulls_first),
        _ if desc => key_order(left, right).reverse(),
        _ => key_order(left, right),
    }
}

fn before_if(first: bool) -> Ordering
    ensures { result ≡ (if first then Ordering.Less else Ordering.Greater) }
{
    if first {
        Ordering::Less
    } else {
        Ordering::Greater
    }
}

fn key_order(left: &Value, right: &Value) -> Ordering
    ensures { result ≡ key_cmp left.now right.now }
{
    match (left, right) {
        (Value::Text(left), Value::Text(right)) => left.as_str().cmp(right.as_str()),
        (Value::Bool(left), Value::Bool(right)) => left.cmp(right),
        _ => match (left.number(), right.number()) {
            (Some(left), Some(right)) => left.cmp(&right),
            _ => rank(left).cmp(&rank(right)),
        },
    }
}

fn rank(value: &Value) -> u8
    ensures { result ≡ rank_of value.now }
{
    match value {
        Value::Int2(_) | Value::Int4(_) | Value::Int8(_) => 0,
        Value::Text(_) => 1,
        Value::Bool(_) => 2,
        Value::Null => 3,
    }
}
