//! Which expressions are the same.

ghost use Rattle.std.specs.Prelude.{◌≡◌, map};
ghost use Rattle.query_tree.specs.declared.target.Target.{out-Target};
ghost use Rattle.expr_analysis.specs.Same as spec;

use q_value::Value;
use query_tree::{Aggregate, CompareOp, Target};

fn same_truth(left: bool, right: bool) -> bool
    ensures { result ≡ spec.same_truth left right }
{
    if left { right } else { !right }
}

fn same_value(left: &Value, right: &Value) -> bool
    ensures { result ≡ spec.same_value left.now right.now }
{
    match (left, right) {
        (Value::Null, Value::Null) => true,
        (Value::Int2(left), Value::Int2(right)) => *left == *right,
        (Value::Int4(left), Value::Int4(right)) => *left == *right,
        (Value::Int8(left), Value::Int8(right)) => *left == *right,
        (Value::Text(left), Value::Text(right)) => left.as_str() == right.as_str(),
        (Value::Bool(left), Value::Bool(right)) => same_truth(*left, *right),
        _ => false,
    }
}

/// Tells whether two targets are one expression. IN is the OR of its comparisons, and BETWEEN the AND of its two.
#[cycle(same)]
pub fn same_target(left: &Target, right: &Target) -> bool
    ensures { result ≡ spec.same_target left.now right.now }
{
    match (left, right) {
        (Target::Const(kind, value), Target::Const(kind2, value2)) => {
            *kind == *kind2 && same_value(value, value2)
        }
        (Target::Param(kind, number), Target::Param(kind2, number2)) => {
            *kind == *kind2 && *number == *number2
        }
        (Target::Column(_, column), Target::Column(_, column2)) => {
            column.item == column2.item && column.column.0 == column2.column.0
        }
        (Target::Aggregate(_, aggregate), Target::Aggregate(_, aggregate2)) => {
            aggregate.number == aggregate2.number
        }
        (Target::Arithmetic(op, kind, a, b), Target::Arithmetic(op2, kind2, a2, b2)) => {
            *op == *op2
                && *kind == *kind2
                && same_target(a.get(), a2.get())
                && same_target(b.get(), b2.get())
        }
        (Target::Negate(kind, operand), Target::Negate(kind2, operand2)) => {
            *kind == *kind2 && same_target(operand.get(), operand2.get())
        }
        (Target::Compare(op, a, b), Target::Compare(op2, a2, b2)) => {
            *op == *op2 && same_target(a.get(), a2.get()) && same_target(b.get(), b2.get())
        }
        (Target::IsNull(operand, negated), Target::IsNull(operand2, negated2)) => {
            same_truth(*negated, *negated2) && same_target(operand.get(), operand2.get())
        }
        (Target::Not(operand), Target::Not(operand2)) => {
            same_target(operand.get(), operand2.get())
        }
        (Target::And(operands), Target::And(operands2))
        | (Target::Or(operands), Target::Or(operands2)) => {
            same_targets(operands.as_slice(), operands2.as_slice())
        }
        (Target::In(a, values), Target::In(a2, values2)) => {
            same_targets(values.as_slice(), values2.as_slice())
                && (values.as_slice().is_empty() || same_target(a.get(), a2.get()))
        }
        (Target::In(_, _), Target::Or(operands)) => is_member_of(left, operands.as_slice()),
        (Target::Or(operands), Target::In(_, _)) => are_members(operands.as_slice(), right),
        (Target::Between(a, low, high), Target::Between(a2, low2, high2)) => {
            same_target(a.get(), a2.get())
                && same_target(low.get(), low2.get())
                && same_target(high.get(), high2.get())
        }
        (Target::Between(_, _, _), Target::And(operands)) => is_range(left, operands.as_slice()),
        (Target::And(operands), Target::Between(_, _, _)) => {
            are_range(operands.as_slice(), right)
        }
        _ => false,
    }
}

#[cycle(same)]
fn same_targets(left: &[Target], right: &[Target]) -> bool
    ensures { result ≡ spec.all_same (map spec.same_target left.now) right.now }
{
    let mut others = right;
    for target in left {
        let [other, rest @ ..] = others else {
            return false;
        };
        if !same_target(target, other) {
            return false;
        }
        others = rest;
    }
    others.is_empty()
}

/// An IN beside the operands of an OR.
#[cycle(same)]
fn is_member_of(left: &Target, operands: &[Target]) -> bool
    ensures { result ≡ spec.is_member_of (out-Target left.now) operands.now }
{
    let Target::In(a, values) = left else {
        return false;
    };
    let mut others = operands;
    for value in values.as_slice() {
        let [Target::Compare(op, a2, value2), rest @ ..] = others else {
            return false;
        };
        if !(CompareOp::Equal == *op
            && same_target(a.get(), a2.get())
            && same_target(value, value2.get()))
        {
            return false;
        }
        others = rest;
    }
    others.is_empty()
}

/// The operands of an OR beside an IN.
#[cycle(same)]
fn are_members(operands: &[Target], right: &Target) -> bool
    ensures { result ≡ spec.are_members operands.now (out-Target right.now) }
{
    let Target::In(a, values) = right else {
        return false;
    };
    let mut others = values.as_slice();
    for operand in operands {
        let [value, rest @ ..] = others else {
            return false;
        };
        if !is_equality(operand, a.get(), value) {
            return false;
        }
        others = rest;
    }
    others.is_empty()
}

#[cycle(same)]
fn is_equality(left: &Target, a: &Target, value: &Target) -> bool
    ensures { result ≡ spec.same_target left.now (Target.Compare CompareOp.Equal a.now value.now) }
{
    match left {
        Target::Compare(op, a2, value2) => {
            *op == CompareOp::Equal && same_target(a2.get(), a) && same_target(value2.get(), value)
        }
        _ => false,
    }
}

/// A BETWEEN beside the operands of an AND.
#[cycle(same)]
fn is_range(left: &Target, operands: &[Target]) -> bool
    ensures { result ≡ spec.is_range (out-Target left.now) operands.now }
{
    let [first, others @ ..] = operands else {
        return false;
    };
    let [second, rest @ ..] = others else {
        return false;
    };
    begins_with(left, first) && ends_with(left, second) && rest.is_empty()
}

/// The operands of an AND beside a BETWEEN.
#[cycle(same)]
fn are_range(operands: &[Target], right: &Target) -> bool
    ensures { result ≡ spec.are_range operands.now (out-Target right.now) }
{
    let [first, others @ ..] = operands else {
        return false;
    };
    let [second, rest @ ..] = others else {
        return false;
    };
    is_begin_of(first, right) && is_end_of(second, right) && rest.is_empty()
}

/// A BETWEEN beside the first operand of an AND.
#[cycle(same)]
fn begins_with(left: &Target, other: &Target) -> bool
    ensures { result ≡ spec.begins_with (out-Target left.now) other.now }
{
    match (left, other) {
        (Target::Between(a, low, _), Target::Compare(op, a2, low2)) => {
            CompareOp::GreaterEqual == *op
                && same_target(a.get(), a2.get())
                && same_target(low.get(), low2.get())
        }
        _ => false,
    }
}

#[cycle(same)]
fn ends_with(left: &Target, other: &Target) -> bool
    ensures { result ≡ spec.ends_with (out-Target left.now) other.now }
{
    match (left, other) {
        (Target::Between(a, _, high), Target::Compare(op, a2, high2)) => {
            CompareOp::LessEqual == *op
                && same_target(a.get(), a2.get())
                && same_target(high.get(), high2.get())
        }
        _ => false,
    }
}

/// The first operand of an AND beside a BETWEEN.
#[cycle(same)]
fn is_begin_of(left: &Target, other: &Target) -> bool
    ensures { result ≡ spec.is_begin_of left.now (out-Target other.now) }
{
    match (left, other) {
        (Target::Compare(op, a, low), Target::Between(a2, low2, _)) => {
            *op == CompareOp::GreaterEqual
                && same_target(a.get(), a2.get())
                && same_target(low.get(), low2.get())
        }
        _ => false,
    }
}

#[cycle(same)]
fn is_end_of(left: &Target, other: &Target) -> bool
    ensures { result ≡ spec.is_end_of left.now (out-Target other.now) }
{
    match (left, other) {
        (Target::Compare(op, a, high), Target::Between(a2, _, high2)) => {
            *op == CompareOp::LessEqual
                && same_target(a.get(), a2.get())
                && same_target(high.get(), high2.get())
        }
        _ => false,
    }
}

pub fn same_aggregate(left: &Aggregate, right: &Aggregate) -> bool
    ensures { result ≡ spec.same_aggregate left.now right.now }
{
    match (left, right) {
        (Aggregate::CountRows, Aggregate::CountRows) => true,
        (Aggregate::Count(left), Aggregate::Count(right)) => same_target(left, right),
        (Aggregate::Sum(left), Aggregate::Sum(right)) => same_target(left, right),
        (Aggregate::Min(left), Aggregate::Min(right)) => same_target(left, right),
        (Aggregate::Max(left), Aggregate::Max(right)) => same_target(left, right),
        _ => false,
    }
}
