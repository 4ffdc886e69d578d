ghost use Rattle.std.specs.Prelude.{◌≡◌, [], IfOk};
ghost use Rattle.std.specs.Option.{option_copied};
ghost use Rattle.q_value.specs.Answers.{Answers};
ghost use Rattle.expr_analysis.specs.Analysis.{Does};
ghost use Rattle.expr_analysis.specs.Sights.{sight};
ghost use Rattle.analyzer.specs.Ordering as spec;

use crate::outputs::Output;
use expr_analysis::{Allowed, Scope, State, number_of, operand, same_target, shown_number, typed};
use q_base::{Code, ListOf, Stop, refusal, refusal_naming};
use q_value::SqlType;
use query_tree::{SortKey, SortKeyList, Target};
use sql_tree::{ColumnRef, Expr, Literal, Numeral, OrderItem};
use std::alloc::Global;

/// The keys of ORDER BY.
pub(crate) fn sort_keys(
    alloc: Global,
    state: &mut State,
    scope: Scope<'_>,
    place: Allowed,
    outputs: &[Output],
    written: &[OrderItem],
) -> Result<SortKeyList, Stop>
    ensures { Does (spec.sort_keys_from (sight scope.entry) place outputs.now [] written.now state.old) result state.new }
{
    let mut found = ListOf::new(alloc);
    for key in written {
        let target = key_target(alloc, state, scope, place, outputs, &key.expr)?;
        found.push(SortKey {
            target,
            desc: key.descending,
            nulls_first: key.nulls_first,
        })?;
    }
    Ok(found)
}

/// A number is a place in the select list, and another bare constant is 42601. A bare name is first the name
/// of an output. Anything else is an expression.
#[tactic(auto, unfolding(crate::specs::Ordering::key_target))]
fn key_target(
    alloc: Global,
    state: &mut State,
    scope: Scope<'_>,
    place: Allowed,
    outputs: &[Output],
    written: &Expr,
) -> Result<Target, Stop>
    ensures { Does (spec.key_target (sight scope.entry) place outputs.now written.now state.old) result state.new }
{
    match written {
        Expr::Literal(constant) => by_constant(alloc, outputs, constant),
        Expr::Column(name) => by_column(alloc, state, scope, place, outputs, name, written),
        _ => by_expression(alloc, state, scope, place, written),
    }
}

#[tactic(auto, unfolding(crate::specs::Ordering::by_expression))]
fn by_expression(
    alloc: Global,
    state: &mut State,
    scope: Scope<'_>,
    place: Allowed,
    written: &Expr,
) -> Result<Target, Stop>
    ensures { Does (spec.by_expression (sight scope.entry) place written.now state.old) result state.new }
{
    let node = operand(alloc, state, scope, place, written)?;
    typed(alloc, node, SqlType::Text)
}

fn by_constant(alloc: Global, outputs: &[Output], constant: &Literal) -> Result<Target, Stop>
    ensures { Answers (spec.by_constant outputs.now constant.now) result }
{
    match constant {
        Literal::Number(numeral) => by_position(alloc, outputs, numeral),
        Literal::Text(_) | Literal::Null | Literal::Bool(_) => {
            Err(refusal(alloc, Code::SyntaxError))
        }
    }
}

/// 42P10 where the select list has no such place.
#[tactic(auto, unfolding(crate::specs::Ordering::by_position))]
fn by_position(alloc: Global, outputs: &[Output], numeral: &Numeral) -> Result<Target, Stop>
    ensures { Answers (spec.by_position outputs.now numeral.now) result }
{
    let number = number_of(alloc, numeral.negative, numeral.digits.as_str())?;
    match output_at(outputs, number) {
        Some(output) => listed(alloc, &output.target),
        None => Err(no_position(alloc, numeral)),
    }
}

fn no_position(alloc: Global, numeral: &Numeral) -> Stop
    ensures { spec.StopsByPosition numeral.now result }
{
    match shown_number(alloc, numeral.negative, numeral.digits.as_str()) {
        Ok(shown) => refusal_naming(alloc, Code::OrderPositionMissing, shown.as_str()),
        Err(_) => Stop::NoMemory,
    }
}

fn output_at(outputs: &[Output], number: Option<i64>) -> Option<&Output>
    ensures { option_copied result ≡ spec.output_at outputs.now number }
{
    match number {
        Some(number) if 1 <= number => outputs.get((number - 1) as usize),
        _ => None,
    }
}

/// A target of the select list as a key: 0A000 where it holds arithmetic.
#[tactic(auto, unfolding(crate::specs::Ordering::listed))]
fn listed(alloc: Global, target: &Target) -> Result<Target, Stop>
    ensures { Answers (spec.listed target.now) result }
{
    if target.is_fallible() {
        return Err(refusal(alloc, Code::ArithmeticNotSupported));
    }
    Ok(target.copy(alloc)?)
}

/// 42702 where two different outputs have the name.
#[tactic(auto, unfolding(crate::specs::Ordering::by_column))]
fn by_column(
    alloc: Global,
    state: &mut State,
    scope: Scope<'_>,
    place: Allowed,
    outputs: &[Output],
    column: &ColumnRef,
    written: &Expr,
) -> Result<Target, Stop>
    ensures { Does (spec.by_column (sight scope.entry) place outputs.now column.now written.now state.old) result state.new }
{
    if column.item.is_some() {
        return by_expression(alloc, state, scope, place, written);
    }
    let name = column.name.as_str();
    match output_named(outputs, name) {
        Some(output) if is_ambiguous(outputs, name, &output.target) => {
            Err(refusal_naming(alloc, Code::AmbiguousColumn, name))
        }
        Some(output) => listed(alloc, &output.target),
        None => by_expression(alloc, state, scope, place, written),
    }
}

/// The first output of the name.
fn output_named<'a>(outputs: &'a [Output], name: &str) -> Option<&'a Output>
    ensures { option_copied result ≡ spec.output_named name.now outputs.now }
{
    for output in outputs {
        if output.name.as_str() == name {
            return Some(output);
        }
    }
    None
}

/// Tells whether an output of the name differs from the target.
fn is_ambiguous(outputs: &[Output], name: &str, target: &Target) -> bool
    ensures { result ≡ spec.is_ambiguous name.now target.now outputs.now }
{
    for output in outputs {
        if output.name.as_str() == name && !same_target(&output.target, target) {
            return true;
        }
    }
    false
}

/// With DISTINCT each key is a target of the select list: 42P10.
pub(crate) fn check_distinct(
    alloc: Global,
    outputs: &[Output],
    order: &[SortKey],
) -> Result<(), Stop>
    ensures { Answers (spec.distinct_from outputs.now order.now) result }
{
    for key in order {
        if !is_listed(outputs, &key.target) {
            return Err(refusal(alloc, Code::DistinctOrderNotListed));
        }
    }
    Ok(())
}

fn is_listed(outputs: &[Output], target: &Target) -> bool
    ensures { result ≡ spec.is_listed target.now outputs.now }
{
    for output in outputs {
        if same_target(&output.target, target) {
            return true;
        }
    }
    false
}
