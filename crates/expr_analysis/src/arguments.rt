ghost use Rattle.std.specs.Prelude.{◌≡◌, [], suc};
ghost use Rattle.q_value.specs.Answers.{Answers};
ghost use Rattle.expr_analysis.specs.Analysis.{Does};
ghost use Rattle.expr_analysis.specs.Arguments as spec;

use crate::expressions::operand;
use crate::node::give;
use crate::refusals::refusal_naming_three;
use crate::scope::no_items;
use crate::state::{Allowed, State};
use q_base::{Code, ListOf, Stop};
use q_value::SqlType;
use query_tree::{Target, TargetList};
use sql_tree::Expr;
use std::alloc::Global;

/// The arguments of EXECUTE, each for the parameter at its place. Arguments past the types are left out.
///
/// The first refusal stands: 42703 or 42P01 for a column, 42P02 for a parameter, 42803 for an aggregate, 22003 and
/// 22P02 for a number or a string that its type doesn't hold, 42883 for an operator or a function that isn't there
/// for its operands, 42725 for arithmetic without any type, and 42804 where AND, OR or NOT has no boolean or a type
/// isn't assigned to the parameter's (PostgreSQL's `EvaluateParams` in prepare.c). Values are converted later.
pub fn analyse_args(alloc: Global, args: &[Expr], types: &[SqlType]) -> Result<TargetList, Stop>
    ensures { Answers (spec.analysed args.now types.now) result }
{
    let mut state = State::new(alloc, None)?;
    read_arguments(alloc, &mut state, args, types)
}

fn read_arguments(
    alloc: Global,
    state: &mut State,
    args: &[Expr],
    types: &[SqlType],
) -> Result<TargetList, Stop>
    ensures { Does (spec.arguments_from [] args.now types.now state.old) result state.new }
{
    let mut found = ListOf::new(alloc);
    let mut kinds = types;
    for arg in args {
        let [kind, others @ ..] = kinds else {
            return Ok(found);
        };
        let number = found.as_slice().len() + 1;
        found.push(argument(alloc, state, number, *kind, arg)?)?;
        kinds = others;
    }
    Ok(found)
}

#[tactic(auto, unfolding(crate::specs::Arguments::argument))]
fn argument(
    alloc: Global,
    state: &mut State,
    number: usize,
    kind: SqlType,
    written: &Expr,
) -> Result<Target, Stop>
    ensures { Does (spec.argument number kind written.now state.old) result state.new }
{
    let node = operand(alloc, state, no_items(), argument_allowed(), written)?;
    let target = give(alloc, state, node, kind)?;
    let found = target.kind();
    if is_assignable(found, kind) {
        Ok(target)
    } else {
        drop(target);
        Err(not_assignable(alloc, number, found, kind))
    }
}

fn argument_allowed() -> Allowed
    ensures { result ≡ spec.argument_allowed }
{
    Allowed {
        aggregates: false,
        arithmetic: true,
        in_aggregate: false,
    }
}

/// Integers to one another, integers and booleans to text, and every type to itself.
pub fn is_assignable(from: SqlType, to: SqlType) -> bool
    ensures { result ≡ spec.is_assignable from to }
{
    match (from, to) {
        (_, SqlType::Text) => true,
        (SqlType::Int2 | SqlType::Int4 | SqlType::Int8, SqlType::Bool) => false,
        (SqlType::Int2 | SqlType::Int4 | SqlType::Int8, _) => true,
        (SqlType::Bool, SqlType::Bool) => true,
        (SqlType::Bool | SqlType::Text, _) => false,
    }
}

fn not_assignable(alloc: Global, number: usize, from: SqlType, to: SqlType) -> Stop
    ensures { spec.StopsByArgument number from to result }
{
    match number.to_string(alloc) {
        Ok(text) => {
            let code = Code::ParameterTypeMismatch;
            refusal_naming_three(alloc, code, text.as_str(), from.name(), to.name())
        }
        Err(_) => Stop::NoMemory,
    }
}
