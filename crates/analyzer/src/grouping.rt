//! Which columns a grouped query may name outside aggregates.

ghost use Rattle.std.specs.Prelude.{◌≡◌, map, slice_get};
ghost use Rattle.q_value.specs.Answers.{Answers};
ghost use Rattle.expr_analysis.specs.Sights.{sight};
ghost use Rattle.analyzer.specs.Grouping as spec;

use crate::outputs::Output;
use expr_analysis::{Scope, ScopeItem};
use q_base::{Code, Stop, refusal, refusal_naming_two};
use query_tree::{ColumnPlace, SortKey, Target};
use std::alloc::Global;

/// Outside aggregates a grouped query names only columns of GROUP BY: 42803, for the first other one in the select
/// list, HAVING and ORDER BY.
#[tactic(auto, unfolding(crate::specs::Grouping::check_grouped))]
pub(crate) fn check_grouped(
    alloc: Global,
    scope: Scope<'_>,
    keys: &[Target],
    outputs: &[Output],
    having: &[Target],
    order: &[SortKey],
) -> Result<(), Stop>
    ensures { Answers (spec.check_grouped (sight scope.entry) keys.now outputs.now having.now order.now) result }
{
    check_outputs(alloc, scope, keys, outputs)?;
    check_having(alloc, scope, keys, having)?;
    check_order(alloc, scope, keys, order)
}

fn check_outputs(
    alloc: Global,
    scope: Scope<'_>,
    keys: &[Target],
    outputs: &[Output],
) -> Result<(), Stop>
    ensures { Answers (spec.check_outputs (sight scope.entry) keys.now outputs.now) result }
{
    for output in outputs {
        check_target(alloc, scope, keys, &output.target)?;
    }
    Ok(())
}

fn check_having(
    alloc: Global,
    scope: Scope<'_>,
    keys: &[Target],
    having: &[Target],
) -> Result<(), Stop>
    ensures { Answers (spec.check_having (sight scope.entry) keys.now having.now) result }
{
    for cond in having {
        check_target(alloc, scope, keys, cond)?;
    }
    Ok(())
}

fn check_order(
    alloc: Global,
    scope: Scope<'_>,
    keys: &[Target],
    order: &[SortKey],
) -> Result<(), Stop>
    ensures { Answers (spec.check_order (sight scope.entry) keys.now order.now) result }
{
    for key in order {
        check_target(alloc, scope, keys, &key.target)?;
    }
    Ok(())
}

fn check_target(
    alloc: Global,
    scope: Scope<'_>,
    keys: &[Target],
    target: &Target,
) -> Result<(), Stop>
    ensures { Answers (spec.check_target (sight scope.entry) keys.now target.now) result }
{
    match ungrouped(target, keys) {
        Some(column) => Err(ungrouped_column(alloc, scope, column)),
        None => Ok(()),
    }
}

/// The first column outside aggregates that is no key.
#[cycle(ungrouped)]
fn ungrouped(target: &Target, keys: &[Target]) -> Option<ColumnPlace>
    ensures { result ≡ spec.ungrouped keys.now target.now }
{
    match target {
        Target::Const(_, _) | Target::Param(_, _) | Target::Aggregate(_, _) => None,
        Target::Column(_, column) => {
            if is_key(keys, *column) {
                None
            } else {
                Some(*column)
            }
        }
        Target::Arithmetic(_, _, left, right) | Target::Compare(_, left, right) => {
            match ungrouped(left.get(), keys) {
                Some(column) => Some(column),
                None => ungrouped(right.get(), keys),
            }
        }
        Target::Negate(_, operand) | Target::IsNull(operand, _) | Target::Not(operand) => {
            ungrouped(operand.get(), keys)
        }
        Target::And(operands) | Target::Or(operands) => { ungrouped_in(operands.as_slice(), keys) }
        Target::In(operand, values) => match ungrouped(operand.get(), keys) {
            Some(column) => Some(column),
            None => ungrouped_in(values.as_slice(), keys),
        },
        Target::Between(operand, low, high) => match ungrouped(operand.get(), keys) {
            Some(column) => Some(column),
            None => match ungrouped(low.get(), keys) {
                Some(column) => Some(column),
                None => ungrouped(high.get(), keys),
            },
        },
    }
}

#[cycle(ungrouped)]
fn ungrouped_in(targets: &[Target], keys: &[Target]) -> Option<ColumnPlace>
    ensures { result ≡ spec.first_of (map (spec.ungrouped keys.now) targets.now) }
{
    for target in targets {
        let found = ungrouped(target, keys);
        if found.is_some() {
            return found;
        }
    }
    None
}

fn is_key(keys: &[Target], column: ColumnPlace) -> bool
    ensures { result ≡ spec.is_key keys.now column }
{
    for key in keys {
        if is_column(key, column) {
            return true;
        }
    }
    false
}

fn is_column(target: &Target, column: ColumnPlace) -> bool
    ensures { result ≡ spec.is_column target.now column }
{
    match target {
        Target::Column(_, other) => {
            other.item == column.item && other.column.0 == column.column.0
        }
        _ => false,
    }
}

/// The refusal that names an item's column.
fn ungrouped_column(alloc: Global, scope: Scope<'_>, column: ColumnPlace) -> Stop
    ensures { spec.StopsByColumn (spec.ungrouped_column (sight scope.entry) column) result }
{
    match scope.items.get(column.item.saturating_sub(scope.first)) {
        Some(item) => ungrouped_in_item(alloc, item, column.column.0 as usize),
        None => refusal(alloc, Code::UngroupedColumn),
    }
}

fn ungrouped_in_item(alloc: Global, item: &ScopeItem, id: usize) -> Stop
    ensures { spec.StopsByColumn (spec.column_error item.now (slice_get item.now.relation.columns id)) result }
{
    match item.relation.columns.as_slice().get(id) {
        Some(Some(column)) => refusal_naming_two(
            alloc,
            Code::UngroupedColumn,
            item.name.as_str(),
            column.name.as_str(),
        ),
        _ => refusal(alloc, Code::UngroupedColumn),
    }
}
