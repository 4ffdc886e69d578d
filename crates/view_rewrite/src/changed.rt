ghost use Rattle.std.specs.Prelude.{◌≡◌, map, slice_get, Some, IfOk};
ghost use Rattle.view_rewrite.specs.declared.changed.Meaning.TheVariants as meaning;
ghost use Rattle.view_rewrite.specs.Changed as spec;

use q_base::{ListOf, NoMemory};
use q_value::SqlType;
use query_tree::{
    Aggregate, AggregateList, AggregatePlace, ColumnPlace, SortKey, SortKeyList, Target, TargetList,
};
use sqlite_items::{Boxed, Items};
use std::alloc::Global;

/// What an item of a query has become.
#[derive(Drop)]
pub enum Meaning {
    /// An item of the new query, by its place among the items and the place at which its row begins.
    Placed { item: usize, start: usize },
    /// A view that was pulled up: what stands for each of its columns.
    PulledUp(TargetList),
}

/// What the items of a query have become, in order.
pub type MeaningList = ListOf<Meaning>;

/// How expressions change.
#[derive(Clone, Copy)]
pub struct Change<'a> {
    pub meanings: &'a [Meaning],
    /// The length of a row of the new query's product, behind which the values of aggregates stand.
    pub width: usize,
}

/// A copy of an expression over the new query's rows.
#[cycle(changed)]
pub fn changed(alloc: Global, target: &Target, change: Change<'_>) -> Result<Target, NoMemory>
    ensures { IfOk result (λ copy. copy ≡ spec.changed change.entry.meanings.now change.entry.width target.now) }
{
    match target {
        Target::Const(kind, value) => Ok(Target::Const(*kind, value.copy(alloc)?)),
        Target::Param(kind, number) => Ok(Target::Param(*kind, *number)),
        Target::Column(kind, column) => changed_column(alloc, *kind, *column, change.meanings),
        Target::Aggregate(kind, aggregate) => {
            Ok(Target::Aggregate(*kind, placed_behind(*aggregate, change.width)))
        }
        Target::Arithmetic(op, kind, left, right) => {
            let left = changed_boxed(alloc, left, change)?;
            let right = changed_boxed(alloc, right, change)?;
            Ok(Target::Arithmetic(*op, *kind, left, right))
        }
        Target::Negate(kind, operand) => {
            Ok(Target::Negate(*kind, changed_boxed(alloc, operand, change)?))
        }
        Target::Compare(op, left, right) => {
            let left = changed_boxed(alloc, left, change)?;
            let right = changed_boxed(alloc, right, change)?;
            Ok(Target::Compare(*op, left, right))
        }
        Target::IsNull(operand, negated) => {
            Ok(Target::IsNull(changed_boxed(alloc, operand, change)?, *negated))
        }
        Target::Not(operand) => Ok(Target::Not(changed_boxed(alloc, operand, change)?)),
        Target::And(operands) => Ok(Target::And(changed_operands(alloc, operands, change)?)),
        Target::Or(operands) => Ok(Target::Or(changed_operands(alloc, operands, change)?)),
        Target::In(operand, values) => {
            let operand = changed_boxed(alloc, operand, change)?;
            let values = changed_operands(alloc, values, change)?;
            Ok(Target::In(operand, values))
        }
        Target::Between(operand, low, high) => {
            let operand = changed_boxed(alloc, operand, change)?;
            let low = changed_boxed(alloc, low, change)?;
            let high = changed_boxed(alloc, high, change)?;
            Ok(Target::Between(operand, low, high))
        }
    }
}

#[cycle(changed)]
fn changed_boxed(
    alloc: Global,
    target: &Boxed<Target>,
    change: Change<'_>,
) -> Result<Boxed<Target>, NoMemory>
    ensures { IfOk result (λ copy. copy ≡ spec.changed change.entry.meanings.now change.entry.width target.now) }
{
    Ok(Boxed::new(alloc, changed(alloc, target.get(), change)?)?)
}

#[cycle(changed)]
fn changed_operands(
    alloc: Global,
    operands: &Items<Target>,
    change: Change<'_>,
) -> Result<Items<Target>, NoMemory>
    ensures { IfOk result (λ copies. copies ≡ map (spec.changed change.entry.meanings.now change.entry.width) operands.now) }
{
    let mut copies = Items::new(alloc);
    for operand in operands.as_slice() {
        copies.push(changed(alloc, operand, change)?)?;
    }
    Ok(copies)
}

fn changed_column(
    alloc: Global,
    kind: SqlType,
    column: ColumnPlace,
    meanings: &[Meaning],
) -> Result<Target, NoMemory>
    ensures { IfOk result (λ copy. copy ≡ spec.column_as kind column (slice_get meanings.now column.item)) }
{
    match meanings.get(column.item) {
        Some(Meaning::Placed { item, start }) => {
            Ok(Target::Column(kind, placed_at(column, *item, *start)))
        }
        Some(Meaning::PulledUp(targets)) => pulled_up(alloc, kind, column, targets),
        None => Ok(Target::Column(kind, column)),
    }
}

fn pulled_up(
    alloc: Global,
    kind: SqlType,
    column: ColumnPlace,
    targets: &TargetList,
) -> Result<Target, NoMemory>
    ensures { IfOk result (λ copy. copy ≡ spec.column_as kind column (Some (meaning.PulledUp targets.now))) }
{
    match targets.as_slice().get(column.column.0 as usize) {
        Some(target) => target.copy(alloc),
        None => Ok(Target::Column(kind, column)),
    }
}

fn placed_at(column: ColumnPlace, item: usize, start: usize) -> ColumnPlace
    ensures { result ≡ spec.placed_at column item start }
{
    ColumnPlace {
        item,
        column: column.column,
        place: start.saturating_add(column.column.0 as usize),
    }
}

fn placed_behind(aggregate: AggregatePlace, width: usize) -> AggregatePlace
    ensures { result ≡ spec.placed_behind aggregate width }
{
    AggregatePlace {
        number: aggregate.number,
        place: width.saturating_add(aggregate.number),
    }
}

/// Copies of a list's expressions, in order.
pub fn changed_list(
    alloc: Global,
    targets: &[Target],
    change: Change<'_>,
) -> Result<TargetList, NoMemory>
    ensures { IfOk result (λ copies. copies ≡ map (spec.changed change.entry.meanings.now change.entry.width) targets.now) }
{
    let mut copies = ListOf::new(alloc);
    for target in targets {
        copies.push(changed(alloc, target, change)?)?;
    }
    Ok(copies)
}

/// Copies of aggregates, in order.
pub fn changed_aggregates(
    alloc: Global,
    aggregates: &[Aggregate],
    change: Change<'_>,
) -> Result<AggregateList, NoMemory>
    ensures { IfOk result (λ copies. copies ≡ map (spec.changed_aggregate change.entry.meanings.now change.entry.width) aggregates.now) }
{
    let mut copies = ListOf::new(alloc);
    for aggregate in aggregates {
        copies.push(changed_aggregate(alloc, aggregate, change)?)?;
    }
    Ok(copies)
}

fn changed_aggregate(
    alloc: Global,
    aggregate: &Aggregate,
    change: Change<'_>,
) -> Result<Aggregate, NoMemory>
    ensures { IfOk result (λ copy. copy ≡ spec.changed_aggregate change.entry.meanings.now change.entry.width aggregate.now) }
{
    Ok(match aggregate {
        Aggregate::CountRows => Aggregate::CountRows,
        Aggregate::Count(argument) => Aggregate::Count(changed(alloc, argument, change)?),
        Aggregate::Sum(argument) => Aggregate::Sum(changed(alloc, argument, change)?),
        Aggregate::Min(argument) => Aggregate::Min(changed(alloc, argument, change)?),
        Aggregate::Max(argument) => Aggregate::Max(changed(alloc, argument, change)?),
    })
}

/// Copies of the keys of a sort, in order.
pub fn changed_keys(
    alloc: Global,
    keys: &[SortKey],
    change: Change<'_>,
) -> Result<SortKeyList, NoMemory>
    ensures { IfOk result (λ copies. copies ≡ map (spec.changed_key change.entry.meanings.now change.entry.width) keys.now) }
{
    let mut copies = ListOf::new(alloc);
    for key in keys {
        copies.push(changed_key(alloc, key, change)?)?;
    }
    Ok(copies)
}

fn changed_key(alloc: Global, key: &SortKey, change: Change<'_>) -> Result<SortKey, NoMemory>
    ensures { IfOk result (λ copy. copy ≡ spec.changed_key change.entry.meanings.now change.entry.width key.now) }
{
    Ok(SortKey {
        target: changed(alloc, &key.target, change)?,
        desc: key.desc,
        nulls_first: key.nulls_first,
    })
}
