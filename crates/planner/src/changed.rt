ghost use Rattle.std.specs.Prelude.{◌≡◌, map, IfOk};
ghost use Rattle.std.specs.Option.{option_copied};
ghost use Rattle.planner.specs.Changed as spec;
ghost use Rattle.planner.specs.Sets as sets;

use crate::sets::{ItemSet, single};
use q_base::NoMemory;
use q_value::{SqlType, Value};
use query_tree::{
    Aggregate, AggregateList, AggregatePlace, ColumnPlace, SortKey, SortKeyList, Target, TargetList,
};
use sqlite_items::{Boxed, Items};
use std::alloc::Global;

/// How expressions change on their way into a plan.
#[derive(Clone, Copy)]
pub struct Change<'a> {
    /// Of a custom plan the values that stand in place of the parameters.
    pub params: Option<&'a [Value]>,
    /// Where the rows of the items begin in a row; where nothing is said, at its beginning.
    pub offsets: &'a [usize],
    /// Where the values of the aggregates begin.
    pub width: usize,
}

/// A copy of an expression with its parameters and places changed.
#[cycle(changed)]
pub fn changed(alloc: Global, target: &Target, change: Change<'_>) -> Result<Target, NoMemory>
    ensures { IfOk result (λ copy. copy ≡ spec.changed (spec.changing (option_copied change.entry.params) change.entry.offsets.now change.entry.width) target.now) }
{
    match target {
        Target::Const(kind, value) => Ok(Target::Const(*kind, value.copy(alloc)?)),
        Target::Param(kind, number) => changed_param(alloc, *kind, *number, change.params),
        Target::Column(kind, column) => Ok(Target::Column(*kind, placed(column, change.offsets))),
        Target::Aggregate(kind, aggregate) => {
            Ok(Target::Aggregate(*kind, placed_behind(aggregate, change.width)))
        }
        Target::Arithmetic(op, kind, left, right) => {
            let left = changed_boxed(alloc, left, change)?;
            let right = changed_boxed(alloc, right, change)?;
            Ok(Target::Arithmetic(*op, *kind, left, right))
        }
        Target::Negate(kind, operand) => {
            Ok(Target::Negate(*kind, changed_boxed(alloc, operand, change)?))
        }
        Target::Compare(op, left, right) => {
            let left = changed_boxed(alloc, left, change)?;
            let right = changed_boxed(alloc, right, change)?;
            Ok(Target::Compare(*op, left, right))
        }
        Target::IsNull(operand, negated) => {
            Ok(Target::IsNull(changed_boxed(alloc, operand, change)?, *negated))
        }
        Target::Not(operand) => Ok(Target::Not(changed_boxed(alloc, operand, change)?)),
        Target::And(operands) => Ok(Target::And(changed_operands(alloc, operands, change)?)),
        Target::Or(operands) => Ok(Target::Or(changed_operands(alloc, operands, change)?)),
        Target::In(operand, values) => {
            let operand = changed_boxed(alloc, operand, change)?;
            let values = changed_operands(alloc, values, change)?;
            Ok(Target::In(operand, values))
        }
        Target::Between(operand, low, high) => {
            let operand = changed_boxed(alloc, operand, change)?;
            let low = changed_boxed(alloc, low, change)?;
            let high = changed_boxed(alloc, high, change)?;
            Ok(Target::Between(operand, low, high))
        }
    }
}

#[cycle(changed)]
fn changed_boxed(
    alloc: Global,
    target: &Boxed<Target>,
    change: Change<'_>,
) -> Result<Boxed<Target>, NoMemory>
    ensures { IfOk result (λ copy. copy ≡ spec.changed (spec.changing (option_copied change.entry.params) change.entry.offsets.now change.entry.width) target.now) }
{
    Ok(Boxed::new(alloc, changed(alloc, target.get(), change)?)?)
}

#[cycle(changed)]
fn changed_operands(
    alloc: Global,
    operands: &Items<Target>,
    change: Change<'_>,
) -> Result<Items<Target>, NoMemory>
    ensures { IfOk result (λ copies. copies ≡ map (spec.changed (spec.changing (option_copied change.entry.params) change.entry.offsets.now change.entry.width)) operands.now) }
{
    let mut copies = Items::new(alloc);
    for operand in operands.as_slice() {
        copies.push(changed(alloc, operand, change)?)?;
    }
    Ok(copies)
}

fn changed_param(
    alloc: Global,
    kind: SqlType,
    number: u32,
    params: Option<&[Value]>,
) -> Result<Target, NoMemory>
    ensures { IfOk result (λ copy. copy ≡ spec.param_as kind number (spec.value_of number (option_copied params.entry))) }
{
    match param_value(number, params) {
        Some(value) => Ok(Target::Const(kind, value.copy(alloc)?)),
        None => Ok(Target::Param(kind, number)),
    }
}

fn param_value(number: u32, params: Option<&[Value]>) -> Option<&Value>
    ensures { option_copied result ≡ spec.value_of number (option_copied params.entry) }
{
    params?.get((number as usize).checked_sub(1)?)
}

fn placed(column: &ColumnPlace, offsets: &[usize]) -> ColumnPlace
    ensures { result ≡ spec.placed column.now offsets.now }
{
    ColumnPlace {
        item: column.item,
        column: column.column,
        place: offset_of(column.item, offsets).saturating_add(column.column.0 as usize),
    }
}

fn offset_of(item: usize, offsets: &[usize]) -> usize
    ensures { result ≡ spec.offset_of item offsets.now }
{
    match offsets.get(item) {
        Some(offset) => *offset,
        None => 0,
    }
}

fn placed_behind(aggregate: &AggregatePlace, width: usize) -> AggregatePlace
    ensures { result ≡ spec.placed_behind aggregate.now width }
{
    AggregatePlace {
        number: aggregate.number,
        place: width.saturating_add(aggregate.number),
    }
}

/// Copies of expressions, changed.
pub fn all_changed(
    alloc: Global,
    targets: &[Target],
    change: Change<'_>,
) -> Result<TargetList, NoMemory>
    ensures { IfOk result (λ copies. copies ≡ map (spec.changed (spec.changing (option_copied change.entry.params) change.entry.offsets.now change.entry.width)) targets.now) }
{
    let mut copies = TargetList::new(alloc);
    for target in targets {
        copies.push(changed(alloc, target, change)?)?;
    }
    Ok(copies)
}

/// A copy of an expression that may be absent, changed.
pub fn some_changed(
    alloc: Global,
    target: &Option<Target>,
    change: Change<'_>,
) -> Result<Option<Target>, NoMemory>
    ensures { IfOk result (λ copy. copy ≡ spec.some_changed (spec.changing (option_copied change.entry.params) change.entry.offsets.now change.entry.width) target.now) }
{
    match target {
        Some(target) => Ok(Some(changed(alloc, target, change)?)),
        None => Ok(None),
    }
}

/// Copies of keys of a sort, changed.
pub fn keys_changed(
    alloc: Global,
    keys: &[SortKey],
    change: Change<'_>,
) -> Result<SortKeyList, NoMemory>
    ensures { IfOk result (λ copies. copies ≡ map (spec.changed_key (spec.changing (option_copied change.entry.params) change.entry.offsets.now change.entry.width)) keys.now) }
{
    let mut copies = SortKeyList::new(alloc);
    for key in keys {
        copies.push(key_changed(alloc, key, change)?)?;
    }
    Ok(copies)
}

fn key_changed(alloc: Global, key: &SortKey, change: Change<'_>) -> Result<SortKey, NoMemory>
    ensures { IfOk result (λ copy. copy ≡ spec.changed_key (spec.changing (option_copied change.entry.params) change.entry.offsets.now change.entry.width) key.now) }
{
    Ok(SortKey {
        target: changed(alloc, &key.target, change)?,
        desc: key.desc,
        nulls_first: key.nulls_first,
    })
}

/// Copies of aggregates, changed.
pub fn aggregates_changed(
    alloc: Global,
    aggregates: &[Aggregate],
    change: Change<'_>,
) -> Result<AggregateList, NoMemory>
    ensures { IfOk result (λ copies. copies ≡ map (spec.changed_aggregate (spec.changing (option_copied change.entry.params) change.entry.offsets.now change.entry.width)) aggregates.now) }
{
    let mut copies = AggregateList::new(alloc);
    for aggregate in aggregates {
        copies.push(aggregate_changed(alloc, aggregate, change)?)?;
    }
    Ok(copies)
}

fn aggregate_changed(
    alloc: Global,
    aggregate: &Aggregate,
    change: Change<'_>,
) -> Result<Aggregate, NoMemory>
    ensures { IfOk result (λ copy. copy ≡ spec.changed_aggregate (spec.changing (option_copied change.entry.params) change.entry.offsets.now change.entry.width) aggregate.now) }
{
    Ok(match aggregate {
        Aggregate::CountRows => Aggregate::CountRows,
        Aggregate::Count(argument) => Aggregate::Count(changed(alloc, argument, change)?),
        Aggregate::Sum(argument) => Aggregate::Sum(changed(alloc, argument, change)?),
        Aggregate::Min(argument) => Aggregate::Min(changed(alloc, argument, change)?),
        Aggregate::Max(argument) => Aggregate::Max(changed(alloc, argument, change)?),
    })
}

/// The items whose columns an expression names.
#[cycle(items)]
pub fn items_of(target: &Target) -> ItemSet
    ensures { result ≡ sets.items_of target.now }
{
    match target {
        Target::Const(_, _) | Target::Param(_, _) | Target::Aggregate(_, _) => 0,
        Target::Column(_, column) => single(column.item),
        Target::Arithmetic(_, _, left, right) | Target::Compare(_, left, right) => {
            items_of(left.get()) | items_of(right.get())
        }
        Target::Negate(_, operand) | Target::IsNull(operand, _) | Target::Not(operand) => {
            items_of(operand.get())
        }
        Target::And(operands) | Target::Or(operands) => items_of_all(operands.as_slice()),
        Target::In(operand, values) => items_of(operand.get()) | items_of_all(values.as_slice()),
        Target::Between(operand, low, high) => {
            items_of(operand.get()) | items_of(low.get()) | items_of(high.get())
        }
    }
}

#[cycle(items)]
fn items_of_all(targets: &[Target]) -> ItemSet
    ensures { result ≡ sets.united 0 (map sets.items_of targets.now) }
{
    let mut items = 0;
    for target in targets {
        items |= items_of(target);
    }
    items
}
