//! The values of EXECUTE's arguments.

ghost use Rattle.std.specs.Prelude.{◌≡◌};
ghost use Rattle.q_value.specs.Answers.{Answers};
ghost use Rattle.session_core.specs.Arguments as spec;

use q_base::{Code, NoMemory, Stop, refusal};
use q_scalar::{EvalStop, eval_target};
use q_value::{Row, SqlType, Value, convert};
use query_tree::Target;
use std::alloc::Global;

/// The values of analysed arguments, each as a value of its parameter's type: 22003, 22012. They are taken in
/// order.
pub fn argument_values(alloc: Global, targets: &[Target], kinds: &[SqlType]) -> Result<Row, Stop>
    ensures { Answers (spec.argument_values targets.now kinds.now) result }
{
    let mut values = Row::new(alloc);
    let mut left = kinds;
    for target in targets {
        let [kind, rest @ ..] = left else {
            return Ok(values);
        };
        values.push(argument_value(alloc, *kind, target)?)?;
        left = rest;
    }
    Ok(values)
}

fn argument_value(alloc: Global, kind: SqlType, target: &Target) -> Result<Value, Stop>
    ensures { Answers (spec.argument_value kind target.now) result }
{
    match eval_target(alloc, target, &[], &[]) {
        Ok(value) => convert(alloc, value, kind),
        Err(stop) => Err(stop_of(alloc, stop)),
    }
}

/// A fault as a refusal.
pub fn stop_of(alloc: Global, stop: EvalStop) -> Stop
    ensures { result ≡ spec.stop_of stop }
{
    match stop {
        EvalStop::Fault(code) => refusal(alloc, code),
        EvalStop::NoMemory => Stop::NoMemory,
    }
}
