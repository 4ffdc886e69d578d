ghost use Rattle.std.specs.Prelude.{◌≡◌};
ghost use Rattle.std.specs.Option.{option_copied};
ghost use Rattle.planner.specs.Served as spec;

use cost_units::column_test;
use plan_tree::RangeEnd;
use q_base::{ColId, NoMemory};
use query_tree::{CompareOp, Cond, Target, TargetList};
use std::alloc::Global;

/// How many of an index's first columns a condition `column = v` names, v a constant or a parameter.
pub fn equal_columns(columns: &[ColId], conds: &[Cond]) -> usize
    ensures { result ≡ spec.equal_columns columns.now conds.now }
{
    for (place, column) in columns.iter().enumerate() {
        if equal_value(*column, conds).is_none() {
            return place;
        }
    }
    columns.len()
}

/// The value of the first condition `column = v`.
fn equal_value(column: ColId, conds: &[Cond]) -> Option<&Target>
    ensures { option_copied result ≡ spec.equal_value column conds.now }
{
    for cond in conds {
        match column_test(cond) {
            Some(test) if test.op == CompareOp::Equal && test.column.column == column => {
                return Some(test.value);
            }
            _ => {}
        }
    }
    None
}

/// Tells whether an index scan uses a condition: one `column = v` of the first columns that have such, or one
/// `< <= > >=` of the column behind those.
pub fn is_served(cond: &Cond, columns: &[ColId], equal: usize) -> bool
    ensures { result ≡ spec.is_served cond.now columns.now equal }
{
    match column_test(cond) {
        Some(test) => is_served_at(test.op, place_of(test.column.column, columns), equal),
        None => false,
    }
}

fn is_served_at(op: CompareOp, place: Option<usize>, equal: usize) -> bool
    ensures { result ≡ spec.is_served_at op place equal }
{
    match place {
        Some(place) if place < equal => op == CompareOp::Equal,
        Some(place) => place == equal,
        None => false,
    }
}

fn place_of(column: ColId, columns: &[ColId]) -> Option<usize>
    ensures { result ≡ spec.place_of column columns.now }
{
    columns.iter().position(|candidate| *candidate == column)
}

/// The values of an index's first columns.
pub fn equal_values(
    alloc: Global,
    columns: &[ColId],
    conds: &[Cond],
) -> Result<TargetList, NoMemory> {
    let mut values = TargetList::new(alloc);
    for column in columns {
        match equal_value(*column, conds) {
            Some(value) => values.push(value.copy(alloc)?)?,
            None => return Ok(values),
        }
    }
    Ok(values)
}

/// The ends of the range of a column; there is no range where there is no column.
#[derive(Drop)]
pub struct Range {
    pub low: Option<RangeEnd>,
    pub high: Option<RangeEnd>,
}

/// The ends that conditions set for the column of an index behind its first ones.
pub fn range_of(alloc: Global, column: Option<&ColId>, conds: &[Cond]) -> Result<Range, NoMemory> {
    let Some(column) = column else {
        return Ok(Range {
            low: None,
            high: None,
        });
    };
    let low = range_end(
        alloc,
        *column,
        conds,
        CompareOp::Greater,
        CompareOp::GreaterEqual,
    )?;
    let high = range_end(alloc, *column, conds, CompareOp::Less, CompareOp::LessEqual)?;
    Ok(Range { low, high })
}

/// The end that the first condition of two operators sets.
fn range_end(
    alloc: Global,
    column: ColId,
    conds: &[Cond],
    open: CompareOp,
    closed: CompareOp,
) -> Result<Option<RangeEnd>, NoMemory> {
    for cond in conds {
        match column_test(cond) {
            Some(test) if test.column.column == column && (test.op == open || test.op == closed) =>
                {
                    return Ok(Some(RangeEnd {
                        value: test.value.copy(alloc)?,
                        included: test.op == closed,
                    }));
                }
            _ => {}
        }
    }
    Ok(None)
}
