ghost use Rattle.std.specs.Prelude.{◌≡◌, ◌≤◌, ◌≤ℤ◌, pos, nat_abs};
ghost use Rattle.q_base.specs.Stops.{StopsBy};
ghost use Rattle.expr_analysis.specs.Analysis.{Does};
ghost use Rattle.expr_analysis.specs.Params as spec;

use crate::node::Node;
use crate::numbers::{number_of, shown_number};
use crate::state::{Known, State};
use q_base::{Code, Stop, refusal, refusal_naming};
use query_tree::Target;
use std::alloc::Global;

/// A parameter: 42P02 outside PREPARE and for `$0`, 54000 past `$64`.
#[tactic(auto, unfolding(crate::specs::Params::param))]
pub fn param(alloc: Global, state: &mut State, digits: &str) -> Result<Node, Stop>
    ensures { Does (spec.param digits.now state.old) result state.new }
{
    if !state.prepared {
        return Err(no_parameter(alloc, digits));
    }
    match number_of(alloc, false, digits)? {
        Some(number) if number == 0 => Err(no_parameter(alloc, digits)),
        Some(number) if 1 <= number && number <= 64 => used(state, unsigned(number)),
        _ => Err(refusal(alloc, Code::LimitExceeded)),
    }
}

fn unsigned(number: i64) -> u32
    requires low { pos 1 ≤ℤ number }
    requires high { number ≤ℤ pos 64 }
    ensures { result ≡ nat_abs number }
{
    number as u32
}

fn no_parameter(alloc: Global, digits: &str) -> Stop
    ensures { StopsBy (λ e. e ≡ spec.unknown_parameter digits.now) result }
{
    match shown_number(alloc, false, digits) {
        Ok(shown) => refusal_naming(alloc, Code::UnknownParameter, shown.as_str()),
        Err(_) => Stop::NoMemory,
    }
}

/// A use of `$number`.
#[tactic(auto, unfolding(crate::specs::Params::used))]
fn used(state: &mut State, number: u32) -> Result<Node, Stop>
    requires { 1 ≤ number }
    ensures { Does (spec.used number state.old) result state.new }
{
    let place = (number - 1) as usize;
    state.known.reach(place)?;
    match state.known.at(place) {
        Known::Typed(kind) => Ok(Node::Typed(Target::Param(kind, number))),
        Known::Unused if state.first => {
            state.known.set(place, Known::Untyped);
            Ok(Node::First(place))
        }
        Known::Unused | Known::Untyped => Ok(Node::Null),
    }
}
