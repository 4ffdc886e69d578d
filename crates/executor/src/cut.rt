ghost use Rattle.std.specs.Prelude.{◌≡◌, IfOk};
ghost use Rattle.std.specs.Option.{option_copied};
ghost use Rattle.q_value.specs.Values.{number_of};
ghost use Rattle.q_scalar.specs.Stops.{Gives};
ghost use Rattle.executor.specs.Cuts as spec;

use plan_tree::Cut;
use q_base::{Code, NoMemory};
use q_scalar::{EvalStop, eval_target};
use q_value::Value;
use query_tree::Target;
use std::alloc::Global;

/// Which rows of a list LIMIT and OFFSET leave, or the fault that stands in its place.
#[derive(Clone, Copy)]
pub(crate) enum Window {
    /// How many rows are skipped, and how many are given, all where that is `None`.
    Rows(u64, Option<u64>),
    Fault(Code),
}

/// The number of a count, `None` where it is null or not written. A negative one is a fault.
fn count_of(value: &Value, negative: Code) -> Result<Option<u64>, EvalStop>
    ensures { Gives (spec.natural negative (number_of value.now)) result }
{
    match value.number() {
        None => Ok(None),
        Some(number) if number < 0 => Err(EvalStop::Fault(negative)),
        Some(number) => Ok(Some(number as u64)),
    }
}

/// The count that a target gives over no row.
fn evaluated(
    alloc: Global,
    target: Option<&Target>,
    params: &[Value],
    negative: Code,
) -> Result<Option<u64>, EvalStop>
    ensures { Gives (spec.number_in negative params.now (option_copied target.entry)) result }
{
    match target {
        Some(target) => {
            let value = eval_target(alloc, target, &[], params)?;
            count_of(&value, negative)
        }
        None => Ok(None),
    }
}

/// OFFSET and LIMIT: a negative OFFSET is 2201X, else a negative LIMIT 2201W (PostgreSQL's manual, "LIMIT and
/// OFFSET", and nodeLimit.c, which evaluates them in this order).
fn rows_of(alloc: Global, cut: &Cut, params: &[Value]) -> Result<Window, EvalStop>
    ensures { Gives (spec.rows_of_cut cut.now params.now) result }
{
    let skip = evaluated(alloc, cut.offset.as_ref(), params, Code::NegativeOffset)?;
    let count = evaluated(alloc, cut.limit.as_ref(), params, Code::NegativeLimit)?;
    Ok(Window::Rows(skip.unwrap_or(0), count))
}

/// What LIMIT and OFFSET leave.
pub(crate) fn window_of(alloc: Global, cut: &Cut, params: &[Value]) -> Result<Window, NoMemory>
    ensures { IfOk result (λ window. window ≡ spec.window_of cut.now params.now) }
{
    match rows_of(alloc, cut, params) {
        Ok(window) => Ok(window),
        Err(EvalStop::Fault(code)) => Ok(Window::Fault(code)),
        Err(EvalStop::NoMemory) => Err(NoMemory),
    }
}
