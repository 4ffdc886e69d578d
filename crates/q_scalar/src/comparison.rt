ghost use Rattle.std.specs.Prelude.{◌≡◌};
ghost use Rattle.query_tree.specs.Evaluation as spec;

use q_value::{Value, order_values};
use query_tree::CompareOp;
use std::cmp::Ordering;

/// A comparison of two values, unknown where one is null. Values of types that aren't comparable, which a
/// typed tree doesn't hold, go by the order of keys.
pub fn compare(op: CompareOp, left: &Value, right: &Value) -> Option<bool>
    ensures { result ≡ spec.comparison op left.now right.now }
{
    match (left, right) {
        (Value::Null, _) | (_, Value::Null) => None,
        _ => Some(holds(op, order_values(left, right, false, false))),
    }
}

fn holds(op: CompareOp, order: Ordering) -> bool
    ensures { result ≡ spec.holds op order }
{
    match op {
        CompareOp::Equal => order.is_eq(),
        CompareOp::NotEqual => order.is_ne(),
        CompareOp::Less => order.is_lt(),
        CompareOp::LessEqual => order.is_le(),
        CompareOp::Greater => order.is_gt(),
        CompareOp::GreaterEqual => order.is_ge(),
    }
}
