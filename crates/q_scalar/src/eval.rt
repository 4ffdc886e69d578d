ghost use Rattle.std.specs.Prelude.{◌≡◌, map, true, false, List, [], ◌∷◌, Option, Some, Ok, IfOk};
ghost use Rattle.q_value.specs.declared.value.SqlType.{SqlType};
ghost use Rattle.q_value.specs.Values.{IsOf, Fits};
ghost use Rattle.query_tree.specs.Targets.{is_fallible};
ghost use Rattle.query_tree.specs.Typing.{IsTyped, FitsRow};
ghost use Rattle.query_tree.specs.Evaluation as spec;
ghost use Rattle.query_tree.specs.declared.target.CompareOp.TheVariants as compare_op;
ghost use Rattle.q_scalar.specs.Held.{value_in, outcome_value};
ghost use Rattle.q_scalar.specs.Stops.{Gives};

use crate::arithmetic::{compute, negate};
use crate::comparison::compare;
use crate::held::{Held, held_at, held_param, truth_held};
use crate::logic::{both, either, negation};
use q_base::{Code, NoMemory};
use q_value::Value;
use query_tree::{CompareOp, Cond, Target, laws};
use std::alloc::Global;

/// Why a target has no value: a fault of its own, or want of memory.
#[derive(Clone, Copy, Debug, PartialEq, Eq)]
pub enum EvalStop {
    Fault(Code),
    NoMemory,
}

impl From<NoMemory> for EvalStop {
    ghost use Rattle.std.specs.Prelude.{◌≡◌};
    ghost use Rattle.q_scalar.specs.declared.eval.EvalStop.TheVariants as stop;

    ghost from_gives = { λ _ e. e ≡ stop.NoMemory };

    fn from(_: NoMemory) -> EvalStop {
        EvalStop::NoMemory
    }
}

/// The truth value of a condition over a row and the values of the parameters, `None` where it is unknown
/// (PostgreSQL's manual, "Logical Operators"). A condition without arithmetic can't fault; of one that holds some
/// and faults the answer is `None` too, and `eval_fallible` tells the fault.
pub fn eval_cond(cond: &Cond, row: &[Value], params: &[Value]) -> Option<bool>
    ensures value { result ≡ spec.truth_of cond.now row.now params.now }
    ensures sure { is_fallible cond.now ≡ false → spec.truth_or_fault (spec.value_of cond.now row.now params.now) ≡ Ok result }
{
    laws::faults();
    truth_or_unknown(eval_fallible(cond, row, params))
}

fn truth_or_unknown(truth: Result<Option<bool>, Code>) -> Option<bool>
    ensures { result ≡ spec.known truth }
{
    match truth {
        Ok(truth) => truth,
        Err(_) => None,
    }
}

/// The truth value of a condition that may hold arithmetic, `None` where it is unknown, or its first fault, as of
/// `eval_target`: 22003 where a number is out of the range of its type, 22012 for a division by zero.
pub fn eval_fallible(cond: &Cond, row: &[Value], params: &[Value]) -> Result<Option<bool>, Code>
    ensures { result ≡ spec.truth_or_fault (spec.value_of cond.now row.now params.now) }
{
    let held = outcome(cond, row, params)?;
    Ok(held.truth())
}

/// The value of a target over a row and the values of the parameters, or its first fault: 22003 where a number
/// is out of the range of its type, 22012 for a division by zero. Operands go from left to right, all of them.
/// A place past the end of the row, and a parameter past the last, count as null.
pub fn eval_target(
    alloc: Global,
    target: &Target,
    row: &[Value],
    params: &[Value],
) -> Result<Value, EvalStop>
    ensures value { Gives (spec.value_of target.now row.now params.now) result }
    ensures typed { (columns : List (Option SqlType)) (types : List SqlType) (kind : SqlType) → IsTyped columns types kind target.now → FitsRow columns row.now → Fits types params.now → IfOk result (IsOf kind) }
{
    laws::types();
    owned(alloc, outcome(target, row, params))
}

/// The value as the caller's own.
fn owned(alloc: Global, outcome: Result<Held<'_>, Code>) -> Result<Value, EvalStop>
    ensures { Gives (outcome_value outcome.entry) result }
{
    match outcome {
        Ok(Held::Lent(value)) => Ok(value.copy(alloc)?),
        Ok(Held::Made(value)) => Ok(value),
        Err(code) => Err(EvalStop::Fault(code)),
    }
}

/// The value of a target, lent where it stands somewhere already. It takes no memory.
#[cycle(eval)]
fn outcome<'a>(target: &'a Target, row: &'a [Value], params: &'a [Value]) -> Result<Held<'a>, Code>
    ensures { outcome_value result ≡ spec.value_of target.now row.now params.now }
{
    match target {
        Target::Const(_, constant) => Ok(Held::Lent(constant)),
        Target::Param(_, number) => Ok(held_param(params, *number)),
        Target::Column(_, column) => Ok(held_at(row, column.place)),
        Target::Aggregate(_, aggregate) => Ok(held_at(row, aggregate.place)),
        Target::Arithmetic(op, kind, left, right) => {
            let left = outcome(left.get(), row, params)?;
            let right = outcome(right.get(), row, params)?;
            Ok(Held::Made(compute(*op, *kind, left.value(), right.value())?))
        }
        Target::Negate(kind, operand) => {
            let operand = outcome(operand.get(), row, params)?;
            Ok(Held::Made(negate(*kind, operand.value())?))
        }
        Target::Compare(op, left, right) => {
            let left = outcome(left.get(), row, params)?;
            let right = outcome(right.get(), row, params)?;
            Ok(truth_held(compare(*op, left.value(), right.value())))
        }
        Target::IsNull(operand, negated) => {
            let operand = outcome(operand.get(), row, params)?;
            Ok(Held::Made(Value::Bool(null_test(*negated, operand.value()))))
        }
        Target::Not(operand) => {
            let operand = outcome(operand.get(), row, params)?;
            Ok(truth_held(negation(operand.truth())))
        }
        Target::And(operands) => truth_outcome(conjunction(operands.as_slice(), row, params)),
        Target::Or(operands) => truth_outcome(disjunction(operands.as_slice(), row, params)),
        Target::In(operand, values) => {
            let operand = outcome(operand.get(), row, params);
            truth_outcome(membership(operand, values.as_slice(), row, params))
        }
        Target::Between(operand, low, high) => {
            let operand = outcome(operand.get(), row, params)?;
            let low = outcome(low.get(), row, params)?;
            let high = outcome(high.get(), row, params)?;
            Ok(within(operand.value(), low.value(), high.value()))
        }
    }
}

/// BETWEEN over values.
fn within<'a>(operand: &Value, low: &Value, high: &Value) -> Held<'a>
    ensures { Ok (value_in result) ≡ spec.conjunction (spec.comparison_outcome compare_op.GreaterEqual (Ok operand.now) (Ok low.now) ∷ spec.comparison_outcome compare_op.LessEqual (Ok operand.now) (Ok high.now) ∷ []) }
{
    let above = compare(CompareOp::GreaterEqual, operand, low);
    let below = compare(CompareOp::LessEqual, operand, high);
    truth_held(both(above, below))
}

/// A truth value or a fault as the outcome of a target.
fn truth_outcome<'a>(truth: Result<Option<bool>, Code>) -> Result<Held<'a>, Code>
    ensures { outcome_value result ≡ spec.truth_outcome truth }
{
    Ok(truth_held(truth?))
}

/// IS NULL, or IS NOT NULL.
fn null_test(negated: bool, operand: &Value) -> bool
    ensures { result ≡ spec.null_test negated operand.now }
{
    match operand {
        Value::Null => !negated,
        _ => negated,
    }
}

/// AND of all operands, each of which is evaluated, so that a fault stands.
#[cycle(eval)]
fn conjunction(operands: &[Target], row: &[Value], params: &[Value]) -> Result<Option<bool>, Code>
    ensures { result ≡ spec.joined spec.both (Some true) (map (λ operand. spec.value_of operand row.now params.now) operands.now) }
{
    let mut truth = Some(true);
    for operand in operands {
        truth = both(truth, outcome(operand, row, params)?.truth());
    }
    Ok(truth)
}

/// OR of all operands, each of which is evaluated, so that a fault stands.
#[cycle(eval)]
fn disjunction(operands: &[Target], row: &[Value], params: &[Value]) -> Result<Option<bool>, Code>
    ensures { result ≡ spec.joined spec.either (Some false) (map (λ operand. spec.value_of operand row.now params.now) operands.now) }
{
    let mut truth = Some(false);
    for operand in operands {
        truth = either(truth, outcome(operand, row, params)?.truth());
    }
    Ok(truth)
}

/// IN, where a fault of the operand stands.
#[cycle(eval)]
fn membership(
    operand: Result<Held<'_>, Code>,
    values: &[Target],
    row: &[Value],
    params: &[Value],
) -> Result<Option<bool>, Code>
    ensures { spec.truth_outcome result ≡ spec.then_with (outcome_value operand.entry) (spec.membership (map (λ value. spec.value_of value row.now params.now) values.now)) }
{
    let operand = operand?;
    is_member(operand.value(), values, row, params)
}

/// OR of the comparisons of one value with each of the others.
#[cycle(eval)]
fn is_member(
    operand: &Value,
    values: &[Target],
    row: &[Value],
    params: &[Value],
) -> Result<Option<bool>, Code>
    ensures { result ≡ spec.joined spec.either (Some false) (map (spec.comparison_outcome compare_op.Equal (Ok operand.now)) (map (λ value. spec.value_of value row.now params.now) values.now)) }
{
    let mut truth = Some(false);
    for value in values {
        truth = either(truth, equals(operand, outcome(value, row, params))?.truth());
    }
    Ok(truth)
}

fn equals<'a>(operand: &Value, value: Result<Held<'_>, Code>) -> Result<Held<'a>, Code>
    ensures { outcome_value result ≡ spec.comparison_outcome compare_op.Equal (Ok operand.now) (outcome_value value.entry) }
{
    let value = value?;
    Ok(truth_held(compare(CompareOp::Equal, operand, value.value())))
}
