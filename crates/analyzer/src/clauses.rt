//! WHERE, GROUP BY, HAVING, LIMIT and OFFSET.

ghost use Rattle.std.specs.Prelude.{◌≡◌, ◌++◌, [], map, OnOk, IfOk};
ghost use Rattle.q_value.specs.Answers.{Answers};
ghost use Rattle.expr_analysis.specs.Analysis.{Does};
ghost use Rattle.expr_analysis.specs.Sights.{sight};
ghost use Rattle.analyzer.specs.Clauses as spec;

use expr_analysis::{
    Allowed, Node, Scope, State, bigint_constant, column, condition_of, give, operand, param,
    refusal_naming_three, shown_number, typed,
};
use q_base::{Code, ListOf, NoMemory, Stop};
use q_value::{SqlType, Value};
use query_tree::{CompareOp, CondList, Target, TargetList};
use sql_tree::{ColumnRef, Expr, RowCount};
use sqlite_items::Boxed;
use std::alloc::Global;

/// The conjuncts of the condition of a clause: 42804 where it is no boolean.
#[tactic(auto, unfolding(crate::specs::Clauses::condition))]
pub(crate) fn condition(
    alloc: Global,
    state: &mut State,
    scope: Scope<'_>,
    place: Allowed,
    clause: &str,
    written: &Option<Expr>,
) -> Result<CondList, Stop>
    ensures { Does (spec.condition (sight scope.entry) place clause.now written.now state.old) result state.new }
{
    match written {
        None => Ok(ListOf::new(alloc)),
        Some(written) => conjuncts_of(alloc, state, scope, place, clause, written),
    }
}

/// The conjuncts of a written condition.
#[tactic(auto, unfolding(crate::specs::Clauses::written_conjuncts))]
pub(crate) fn conjuncts_of(
    alloc: Global,
    state: &mut State,
    scope: Scope<'_>,
    place: Allowed,
    clause: &str,
    written: &Expr,
) -> Result<CondList, Stop>
    ensures { Does (spec.written_conjuncts (sight scope.entry) place clause.now written.now state.old) result state.new }
{
    let node = operand(alloc, state, scope, place, written)?;
    let whole = condition_of(alloc, node, clause)?;
    Ok(conjuncts(alloc, whole)?)
}

fn conjuncts(alloc: Global, whole: Target) -> Result<CondList, NoMemory>
    ensures { IfOk result (λ found. found ≡ spec.conjuncts whole) }
{
    let mut found = ListOf::new(alloc);
    let parted = part(alloc, &mut found, &whole);
    drop(whole);
    parted?;
    Ok(found)
}

/// Parts a condition at each AND that stands under nothing but AND; BETWEEN is such an AND, of two comparisons.
#[cycle(part)]
fn part(alloc: Global, found: &mut CondList, whole: &Target) -> Result<(), NoMemory>
    ensures { OnOk result (found.new ≡ found.old ++ spec.conjuncts whole.now) }
{
    match whole {
        Target::And(operands) => part_each(alloc, found, operands.as_slice()),
        Target::Between(operand, low, high) => {
            let operand = operand.get();
            found.push(compared(alloc, CompareOp::GreaterEqual, operand, low.get())?)?;
            found.push(compared(alloc, CompareOp::LessEqual, operand, high.get())?)
        }
        _ => found.push(whole.copy(alloc)?),
    }
}

#[cycle(part)]
fn part_each(alloc: Global, found: &mut CondList, operands: &[Target]) -> Result<(), NoMemory>
    ensures { OnOk result (found.new ≡ found.old ++ spec.parted (map spec.conjuncts_of operands.now) operands.now) }
{
    for operand in operands {
        part(alloc, found, operand)?;
    }
    Ok(())
}

fn compared(alloc: Global, op: CompareOp, left: &Target, right: &Target) -> Result<Target, NoMemory>
    ensures { IfOk result (λ target. target ≡ Target.Compare op left.now right.now) }
{
    let left = Boxed::new(alloc, left.copy(alloc)?)?;
    Ok(Target::Compare(op, left, Boxed::new(alloc, right.copy(alloc)?)?))
}

/// The keys of GROUP BY, which are columns.
pub(crate) fn keys(
    alloc: Global,
    scope: Scope<'_>,
    written: &[ColumnRef],
) -> Result<TargetList, Stop>
    ensures { Answers (spec.keys_from (sight scope.entry) [] written.now) result }
{
    let mut found = ListOf::new(alloc);
    for key in written {
        found.push(typed(alloc, column(alloc, scope, key)?, SqlType::Text)?)?;
    }
    Ok(found)
}

/// LIMIT or OFFSET: a number, a parameter of an integer type, or null.
#[tactic(auto, unfolding(crate::specs::Clauses::row_count))]
pub(crate) fn row_count(
    alloc: Global,
    state: &mut State,
    written: &Option<RowCount>,
) -> Result<Option<Target>, Stop>
    ensures { Does (spec.row_count written.now state.old) result state.new }
{
    match written {
        None => Ok(None),
        Some(RowCount::Null) => Ok(Some(Target::Const(SqlType::Int8, Value::Null))),
        Some(RowCount::Number(numeral)) => Ok(Some(bigint_constant(alloc, numeral)?)),
        Some(RowCount::Param(digits)) => {
            let node = param(alloc, state, digits.as_str())?;
            Ok(Some(counted(alloc, state, digits.as_str(), node)?))
        }
    }
}

#[tactic(auto, unfolding(crate::specs::Clauses::counted))]
fn counted(alloc: Global, state: &mut State, digits: &str, node: Node) -> Result<Target, Stop>
    ensures { Does (spec.counted digits.now node state.old) result state.new }
{
    let target = give(alloc, state, node, SqlType::Int8)?;
    match target.kind() {
        SqlType::Int2 | SqlType::Int4 | SqlType::Int8 => Ok(target),
        other => {
            drop(target);
            Err(no_count(alloc, digits, other))
        }
    }
}

fn no_count(alloc: Global, digits: &str, kind: SqlType) -> Stop
    ensures { spec.StopsByCount digits.now kind result }
{
    match shown_number(alloc, false, digits) {
        Ok(shown) => {
            let code = Code::ParameterTypeMismatch;
            refusal_naming_three(alloc, code, shown.as_str(), kind.name(), "bigint")
        }
        Err(_) => Stop::NoMemory,
    }
}
