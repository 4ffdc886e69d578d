ghost use Rattle.std.specs.Prelude.{◌≡◌};
ghost use Rattle.std.specs.Option.{option_copied};
ghost use Rattle.cost_units.specs.Estimates as spec;

use crate::{ColumnTest, column_test};
use q_base::ColId;
use q_value::{ColumnStats, Common, TableStats, Value, order_values};
use query_tree::{CompareOp, Cond, Target};

/// How many different values a column is thought to have where there are no statistics of it, as of the columns
/// of a view's own plan (in PostgreSQL DEFAULT_NUM_DISTINCT).
pub const DERIVED_DISTINCT: u64 = 200;

/// The pages in which so many rows are thought to stand.
pub fn pages_of(rows: u64) -> u64
    ensures { result ≡ spec.pages_of rows }
{
    one_at_least(rows.div_ceil(64))
}

fn one_at_least(number: u64) -> u64
    ensures { result ≡ spec.one_at_least number }
{
    if number < 1 { 1 } else { number }
}

/// The rows of a table.
pub fn rows_in(stats: &TableStats) -> u64
    ensures { result ≡ spec.rows_in stats.now }
{
    one_at_least(stats.rows)
}

/// The rows that are left where one in `parts` is.
pub fn divided(rows: u64, parts: u64) -> u64
    ensures { result ≡ spec.divided rows parts }
{
    one_at_least(rows / one_at_least(parts))
}

/// The rows that are left by a condition of which nothing is known.
pub fn third(rows: u64) -> u64
    ensures { result ≡ spec.third rows }
{
    one_at_least(rows / 3)
}

/// The rows that are left by so many conditions of which nothing is known.
pub fn thirds(rows: u64, conds: usize) -> u64
    ensures { result ≡ spec.thirds rows conds }
{
    let mut left = rows;
    for _turn in 0..conds {
        left = third(left);
    }
    left
}

/// The groups of rows: one where there are no keys. Conditions on groups are such of which nothing is known.
pub fn grouped_rows(rows: u64, has_keys: bool, having: usize) -> u64
    ensures { result ≡ spec.grouped_rows rows has_keys having }
{
    let groups = if has_keys { one_at_least(rows / 10) } else { 1 };
    thirds(groups, having)
}

/// The different rows among so many.
pub fn unique_rows(rows: u64) -> u64
    ensures { result ≡ spec.unique_rows rows }
{
    one_at_least(rows / 10)
}

/// How many different values a column has.
pub fn distinct_of(stats: &TableStats, column: ColId) -> u64
    ensures { result ≡ spec.distinct_of stats.now column }
{
    match column_stats(stats, column) {
        Some(found) => one_at_least(found.distinct),
        None => DERIVED_DISTINCT,
    }
}

fn column_stats(stats: &TableStats, column: ColId) -> Option<&ColumnStats>
    ensures { option_copied result ≡ spec.column_stats stats.now column }
{
    stats.columns.as_slice().get(column.0 as usize)
}

/// How many of a table's rows a condition is thought to leave: `column = constant` as many as hold that value,
/// where it is one of the commonest, and else as many as there are of each of the different values; `column = $n`
/// the latter; any other condition a third (this project's own, after PostgreSQL's selfuncs.c).
pub fn rows_of(cond: &Cond, stats: &TableStats) -> u64
    ensures { result ≡ spec.rows_of cond.now stats.now }
{
    match column_test(cond) {
        Some(test) if test.op == CompareOp::Equal => rows_with(&test, stats),
        _ => third(rows_in(stats)),
    }
}

/// How many rows hold a value in a column.
fn rows_with(test: &ColumnTest<'_>, stats: &TableStats) -> u64
    ensures { result ≡ spec.rows_with test.now stats.now }
{
    match common_count(test.value, column_stats(stats, test.column.column)) {
        Some(count) => one_at_least(count),
        None => divided(rows_in(stats), distinct_of(stats, test.column.column)),
    }
}

/// How many rows hold the constant, where it is one of the commonest values.
fn common_count(value: &Target, stats: Option<&ColumnStats>) -> Option<u64>
    ensures { result ≡ spec.common_count value.now (option_copied stats.entry) }
{
    match (value, stats) {
        (Target::Const(_, value), Some(stats)) => count_of(value, stats.common.as_slice()),
        _ => None,
    }
}

fn count_of(value: &Value, common: &[Common]) -> Option<u64>
    ensures { result ≡ spec.count_of value.now common.now }
{
    for candidate in common {
        if is_same(value, &candidate.value) {
            return Some(candidate.count);
        }
    }
    None
}

/// Tells whether both are the same value, of whatever types of integers. Null is never common.
fn is_same(left: &Value, right: &Value) -> bool
    ensures { result ≡ spec.is_same left.now right.now }
{
    match left {
        Value::Null => false,
        _ => order_values(left, right, false, false).is_eq(),
    }
}
