//! The answer of a query without FROM, whose product is one row without columns.

ghost use Rattle.std.specs.Prelude.{◌≡◌, [], IfOk};
ghost use Rattle.std.specs.List.{list_all};
ghost use Rattle.q_scalar.specs.Stops.{Gives};
ghost use Rattle.session_core.specs.Answers as spec;

use q_base::{Code, NoMemory};
use q_scalar::{EvalStop, eval_cond, eval_fallible, eval_target};
use q_value::{Row, Rows, Value};
use query_tree::{Aggregate, Cond, Query, Target};
use std::alloc::Global;

/// The rows that a query without FROM gives, or its fault: 2201X, 2201W, 22003, 22012.
#[tactic(auto, unfolding(crate::specs::Answers::answer))]
pub fn answer(alloc: Global, query: &Query, params: &[Value]) -> Result<Rows, EvalStop>
    ensures { Gives (spec.answer query.now params.now) result }
{
    let skipped = cut(alloc, &query.offset, params, Code::NegativeOffset)?;
    let most = cut(alloc, &query.limit, params, Code::NegativeLimit)?;
    if is_zero(most) {
        return Ok(Rows::new(alloc));
    }
    match source_row(alloc, query, params)? {
        Some(row) => projected(alloc, query, params, row.as_slice(), skips(skipped)),
        None => Ok(Rows::new(alloc)),
    }
}

/// The number of LIMIT or OFFSET, `None` where it is null or not written.
fn cut(
    alloc: Global,
    written: &Option<Target>,
    params: &[Value],
    negative: Code,
) -> Result<Option<i64>, EvalStop>
    ensures { Gives (spec.cut written.now params.now negative) result }
{
    let Some(target) = written else {
        return Ok(None);
    };
    let value = eval_target(alloc, target, &[], params)?;
    match value.number() {
        Some(number) if number < 0 => Err(EvalStop::Fault(negative)),
        number => Ok(number),
    }
}

fn is_zero(most: Option<i64>) -> bool
    ensures { result ≡ spec.is_zero most }
{
    match most {
        Some(number) => number == 0,
        None => false,
    }
}

fn skips(skipped: Option<i64>) -> bool
    ensures { result ≡ spec.skips skipped }
{
    match skipped {
        Some(number) => 0 < number,
        None => false,
    }
}

/// The row over which the targets are evaluated, if there is one.
fn source_row(alloc: Global, query: &Query, params: &[Value]) -> Result<Option<Row>, EvalStop>
    ensures { Gives (spec.source_row query.now params.now) result }
{
    let there = stays(query.conds.as_slice(), params)?;
    if query.grouped {
        group_row(alloc, query, params, there)
    } else if there {
        Ok(Some(Row::new(alloc)))
    } else {
        Ok(None)
    }
}

/// Whether the one row stays: first by the conditions that can't fault, then by the others.
fn stays(conds: &[Cond], params: &[Value]) -> Result<bool, EvalStop>
    ensures { Gives (spec.stays conds.now [] params.now) result }
{
    if all_let_pass(conds, params) {
        all_pass(conds, params)
    } else {
        Ok(false)
    }
}

fn all_let_pass(conds: &[Cond], params: &[Value]) -> bool
    ensures { result ≡ list_all (spec.lets_pass [] params.now) conds.now }
{
    for cond in conds {
        if !lets_pass(cond, params) {
            return false;
        }
    }
    true
}

/// Whether the condition is true, or may fault, which is looked at later.
fn lets_pass(cond: &Cond, params: &[Value]) -> bool
    ensures { result ≡ spec.lets_pass [] params.now cond.now }
{
    cond.is_fallible() || is_true(eval_cond(cond, &[], params))
}

fn is_true(truth: Option<bool>) -> bool
    ensures { result ≡ spec.is_true truth }
{
    truth == Some(true)
}

fn all_pass(conds: &[Cond], params: &[Value]) -> Result<bool, EvalStop>
    ensures { Gives (spec.all_pass [] params.now conds.now) result }
{
    for cond in conds {
        if !passes(cond, params)? {
            return Ok(false);
        }
    }
    Ok(true)
}

/// Whether the condition can't fault or is true, or its fault.
fn passes(cond: &Cond, params: &[Value]) -> Result<bool, EvalStop>
    ensures { Gives (spec.passes [] params.now cond.now) result }
{
    if !cond.is_fallible() {
        return Ok(true);
    }
    match eval_fallible(cond, &[], params) {
        Ok(truth) => Ok(is_true(truth)),
        Err(code) => Err(EvalStop::Fault(code)),
    }
}

/// The row of the one group, if HAVING lets it stay.
fn group_row(
    alloc: Global,
    query: &Query,
    params: &[Value],
    there: bool,
) -> Result<Option<Row>, EvalStop>
    ensures { Gives (spec.group_row query.now params.now there) result }
{
    let row = aggregates(alloc, query.aggregates.as_slice(), params, there)?;
    if having(query.having.as_slice(), row.as_slice(), params) {
        Ok(Some(row))
    } else {
        Ok(None)
    }
}

fn having(conds: &[Cond], row: &[Value], params: &[Value]) -> bool
    ensures { result ≡ spec.having row.now params.now conds.now }
{
    for cond in conds {
        if !is_true(eval_cond(cond, row, params)) {
            return false;
        }
    }
    true
}

fn aggregates(
    alloc: Global,
    written: &[Aggregate],
    params: &[Value],
    there: bool,
) -> Result<Row, EvalStop>
    ensures { Gives (spec.each (spec.aggregated params.now there) written.now) result }
{
    let mut row = Row::new(alloc);
    for aggregate in written {
        row.push(aggregated(alloc, aggregate, params, there)?)?;
    }
    Ok(row)
}

/// The value of an aggregate over the one row where it is there, and else over none.
fn aggregated(
    alloc: Global,
    aggregate: &Aggregate,
    params: &[Value],
    there: bool,
) -> Result<Value, EvalStop>
    ensures { Gives (spec.aggregated params.now there aggregate.now) result }
{
    match aggregate {
        Aggregate::CountRows => Ok(count_of(there)),
        Aggregate::Count(argument) => {
            let value = eval_target(alloc, argument, &[], params)?;
            Ok(count_of(there && !matches!(value, Value::Null)))
        }
        Aggregate::Sum(argument) => {
            let value = eval_target(alloc, argument, &[], params)?;
            Ok(where_row(there, bigint_or_null(value.number())))
        }
        Aggregate::Min(argument) | Aggregate::Max(argument) => {
            Ok(where_row(there, eval_target(alloc, argument, &[], params)?))
        }
    }
}

fn count_of(counted: bool) -> Value
    ensures { result ≡ spec.count_of counted }
{
    Value::Int8(if counted { 1 } else { 0 })
}

fn bigint_or_null(number: Option<i64>) -> Value
    ensures { result ≡ spec.bigint_or_null number }
{
    match number {
        Some(number) => Value::Int8(number),
        None => Value::Null,
    }
}

fn where_row(there: bool, value: Value) -> Value
    ensures { result ≡ spec.where_row there value }
{
    if there { value } else { Value::Null }
}

/// The values of the targets over a row, which `skipped` leaves out; a fault stands all the same.
fn projected(
    alloc: Global,
    query: &Query,
    params: &[Value],
    row: &[Value],
    skipped: bool,
) -> Result<Rows, EvalStop>
    ensures { Gives (spec.projected_row query.now.targets params.now row.now skipped) result }
{
    let values = values_of(alloc, query.targets.as_slice(), row, params)?;
    Ok(given(alloc, skipped, values)?)
}

fn given(alloc: Global, skipped: bool, row: Row) -> Result<Rows, NoMemory>
    ensures { IfOk result (λ rows. rows ≡ spec.given skipped row) }
{
    let mut rows = Rows::new(alloc);
    if !skipped {
        rows.push(row)?;
    }
    Ok(rows)
}

#[tactic(auto, unfolding(crate::specs::Answers::values_of))]
fn values_of(
    alloc: Global,
    targets: &[Target],
    row: &[Value],
    params: &[Value],
) -> Result<Row, EvalStop>
    ensures { Gives (spec.values_of targets.now row.now params.now) result }
{
    let mut values = Row::new(alloc);
    for target in targets {
        values.push(eval_target(alloc, target, row, params)?)?;
    }
    Ok(values)
}
