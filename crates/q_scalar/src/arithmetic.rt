ghost use Rattle.std.specs.Prelude.{◌≡◌, ◌+ℤ◌, ◌-ℤ◌, ◌*ℤ◌, neg_ℤ, int_div, ◌≢◌, pos};
ghost use Rattle.q_value.specs.Values.{integer_in};
ghost use Rattle.query_tree.specs.Evaluation as spec;

use q_base::Code;
use q_value::{SqlType, Value};
use query_tree::ArithmeticOp;

/// An operator over two values, with a result of type `kind`; null where one is null.
pub fn compute(op: ArithmeticOp, kind: SqlType, left: &Value, right: &Value) -> Result<Value, Code>
    ensures { result ≡ spec.computed op kind left.now right.now }
{
    match (left.number(), right.number()) {
        (Some(left), Some(right)) => compute_numbers(op, kind, left, right),
        _ => Ok(Value::Null),
    }
}

fn compute_numbers(op: ArithmeticOp, kind: SqlType, left: i64, right: i64) -> Result<Value, Code>
    ensures { result ≡ spec.computed_number op kind left right }
{
    match op {
        ArithmeticOp::Add => in_range(kind, sum(kind, left, right)),
        ArithmeticOp::Subtract => in_range(kind, difference(kind, left, right)),
        ArithmeticOp::Multiply => in_range(kind, product(kind, left, right)),
        ArithmeticOp::Divide if right == 0 => Err(Code::DivisionByZero),
        ArithmeticOp::Divide => in_range(kind, quotient(kind, left, right)),
    }
}

/// Unary minus of a value, with a result of type `kind`; null of null.
pub fn negate(kind: SqlType, operand: &Value) -> Result<Value, Code>
    ensures { result ≡ spec.negated kind operand.now }
{
    match operand.number() {
        Some(number) => in_range(kind, opposite(kind, number)),
        None => Ok(Value::Null),
    }
}

/// The value, or the fault that there is none of the type.
fn in_range(kind: SqlType, value: Option<Value>) -> Result<Value, Code>
    ensures { result ≡ spec.or_fault (spec.range_fault kind) value }
{
    match value {
        Some(value) => Ok(value),
        None => Err(range_fault(kind)),
    }
}

fn range_fault(kind: SqlType) -> Code
    ensures { result ≡ spec.range_fault kind }
{
    match kind {
        SqlType::Int2 => Code::SmallintOutOfRange,
        SqlType::Int4 => Code::IntegerOutOfRange,
        SqlType::Int8 | SqlType::Text | SqlType::Bool => Code::BigintOutOfRange,
    }
}

fn sum(kind: SqlType, left: i64, right: i64) -> Option<Value>
    ensures { result ≡ integer_in kind (left +ℤ right) }
{
    match left.checked_add(right) {
        Some(number) => Value::integer(number, kind),
        None => None,
    }
}

fn difference(kind: SqlType, left: i64, right: i64) -> Option<Value>
    ensures { result ≡ integer_in kind (left -ℤ right) }
{
    match left.checked_sub(right) {
        Some(number) => Value::integer(number, kind),
        None => None,
    }
}

fn product(kind: SqlType, left: i64, right: i64) -> Option<Value>
    ensures { result ≡ integer_in kind (left *ℤ right) }
{
    match left.checked_mul(right) {
        Some(number) => Value::integer(number, kind),
        None => None,
    }
}

fn quotient(kind: SqlType, left: i64, right: i64) -> Option<Value>
    requires { right ≢ pos 0 }
    ensures { result ≡ integer_in kind (int_div left right) }
{
    match left.checked_div(right) {
        Some(number) => Value::integer(number, kind),
        None => None,
    }
}

fn opposite(kind: SqlType, number: i64) -> Option<Value>
    ensures { result ≡ integer_in kind (neg_ℤ number) }
{
    match number.checked_neg() {
        Some(number) => Value::integer(number, kind),
        None => None,
    }
}
