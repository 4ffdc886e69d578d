ghost use Rattle.std.specs.Prelude.{◌≡◌};
ghost use Rattle.q_value.specs.Answers.{Answers};
ghost use Rattle.expr_analysis.specs.Analysis.{Does};
ghost use Rattle.expr_analysis.specs.Aggregates as spec;

use crate::node::{Node, typed};
use crate::same::same_aggregate;
use crate::state::{Allowed, State};
use q_base::{Code, Stop, refusal, refusal_naming_two};
use q_value::SqlType;
use query_tree::{Aggregate, AggregatePlace, Target};
use std::alloc::Global;

/// The type of an aggregate's value, where the function takes an argument of the type.
#[tactic(auto, unfolding(crate::specs::Aggregates::call_kind))]
fn call_kind(function: &str, kind: SqlType) -> Option<SqlType>
    ensures { result ≡ spec.call_kind function.now kind }
{
    if function == "count" {
        Some(SqlType::Int8)
    } else if function == "sum" {
        sum_kind(kind)
    } else if function == "min" || function == "max" {
        least_kind(kind)
    } else {
        None
    }
}

fn sum_kind(kind: SqlType) -> Option<SqlType>
    ensures { result ≡ spec.sum_kind kind }
{
    match kind {
        SqlType::Int2 | SqlType::Int4 | SqlType::Int8 => Some(SqlType::Int8),
        SqlType::Text | SqlType::Bool => None,
    }
}

fn least_kind(kind: SqlType) -> Option<SqlType>
    ensures { result ≡ spec.least_kind kind }
{
    match kind {
        SqlType::Int2 | SqlType::Int4 | SqlType::Int8 | SqlType::Text => Some(kind),
        SqlType::Bool => None,
    }
}

/// A call of an aggregate: 42883 by its function and the type of its argument, then 42803 by its place, then
/// 0A000 for a sum of bigints and for arithmetic in the argument.
#[tactic(auto, unfolding(crate::specs::Aggregates::called))]
pub fn called(
    alloc: Global,
    state: &mut State,
    width: usize,
    allowed: Allowed,
    function: &str,
    argument: Node,
) -> Result<Node, Stop>
    ensures { Does (spec.called width allowed function.now argument state.old) result state.new }
{
    let argument = typed(alloc, argument, SqlType::Text)?;
    let Some(kind) = call_kind(function, argument.kind()) else {
        let name = argument.kind().name();
        drop(argument);
        return Err(refusal_naming_two(alloc, Code::UnknownFunction, function, name));
    };
    if let Err(stop) = check_call(alloc, allowed, function, &argument) {
        drop(argument);
        return Err(stop);
    }
    placed(state, width, kind, aggregate_of(function, argument))
}

#[tactic(auto, unfolding(crate::specs::Aggregates::check_call))]
fn check_call(
    alloc: Global,
    allowed: Allowed,
    function: &str,
    argument: &Target,
) -> Result<(), Stop>
    ensures { Answers (spec.check_call allowed function.now argument.now) result }
{
    if !allowed.aggregates {
        return Err(refusal(alloc, Code::AggregateNotAllowed));
    }
    if is_bigint_sum(function, argument.kind()) {
        return Err(refusal(alloc, Code::SumBigintNotSupported));
    }
    if argument.is_fallible() {
        return Err(refusal(alloc, Code::ArithmeticNotSupported));
    }
    Ok(())
}

#[tactic(auto, unfolding(crate::specs::Aggregates::is_bigint_sum))]
fn is_bigint_sum(function: &str, kind: SqlType) -> bool
    ensures { result ≡ spec.is_bigint_sum function.now kind }
{
    match kind {
        SqlType::Int8 => function == "sum",
        SqlType::Int2 | SqlType::Int4 | SqlType::Text | SqlType::Bool => false,
    }
}

#[tactic(auto, unfolding(crate::specs::Aggregates::aggregate_of))]
fn aggregate_of(function: &str, argument: Target) -> Aggregate
    ensures { result ≡ spec.aggregate_of function.now argument }
{
    if function == "count" {
        Aggregate::Count(argument)
    } else if function == "sum" {
        Aggregate::Sum(argument)
    } else if function == "min" {
        Aggregate::Min(argument)
    } else {
        Aggregate::Max(argument)
    }
}

/// A call of a function of `*`, by the same causes.
#[tactic(auto, unfolding(crate::specs::Aggregates::called_star))]
pub fn called_star(
    alloc: Global,
    state: &mut State,
    width: usize,
    allowed: Allowed,
    function: &str,
) -> Result<Node, Stop>
    ensures { Does (spec.called_star width allowed function.now state.old) result state.new }
{
    if function != "count" {
        return Err(refusal_naming_two(alloc, Code::UnknownFunction, function, "*"));
    }
    if !allowed.aggregates {
        return Err(refusal(alloc, Code::AggregateNotAllowed));
    }
    placed(state, width, SqlType::Int8, Aggregate::CountRows)
}

/// The aggregate, which joins those of the query where none of them is the same.
#[tactic(auto, unfolding(crate::specs::Aggregates::placed))]
fn placed(
    state: &mut State,
    width: usize,
    kind: SqlType,
    aggregate: Aggregate,
) -> Result<Node, Stop>
    ensures { Does (spec.placed width kind aggregate state.old) result state.new }
{
    if let Some(number) = number_in(state.aggregates.as_slice(), &aggregate) {
        drop(aggregate);
        return Ok(read_aggregate(width, kind, number));
    }
    let number = state.aggregates.as_slice().len();
    state.aggregates.push(aggregate)?;
    Ok(read_aggregate(width, kind, number))
}

fn read_aggregate(width: usize, kind: SqlType, number: usize) -> Node
    ensures { result ≡ spec.read_aggregate width kind number }
{
    Node::Typed(Target::Aggregate(
        kind,
        AggregatePlace {
            number,
            place: width.saturating_add(number),
        },
    ))
}

fn number_in(aggregates: &[Aggregate], aggregate: &Aggregate) -> Option<usize>
    ensures { result ≡ spec.number_from 0 aggregate.now aggregates.now }
{
    for number in 0..aggregates.len() {
        if same_aggregate(&aggregates[number], aggregate) {
            return Some(number);
        }
    }
    None
}
