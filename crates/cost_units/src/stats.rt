use q_base::{ListOf, NoMemory};
use q_value::{ColumnStats, Common, Row, TableStats, Value, order_values};
use std::alloc::Global;
use std::cmp::Ordering;

/// How many of the commonest values of a column are kept (PostgreSQL's manual, default_statistics_target).
const COMMON_KEPT: usize = 100;

/// The rows of a table as ANALYZE goes through them.
#[derive(Drop)]
pub struct StatsBuilder {
    rows: u64,
    /// The values of each column that aren't null.
    columns: Vec<Vec<Value>>,
}

impl StatsBuilder {
    /// No rows yet, of so many columns.
    pub fn new(alloc: Global, columns: u32) -> Result<StatsBuilder, NoMemory> {
        let mut values = Vec::new(alloc);
        for _ in 0..columns {
            values.push(Vec::new(alloc))?;
        }
        Ok(StatsBuilder {
            rows: 0,
            columns: values,
        })
    }

    /// One row more. Values past the columns aren't counted. After `NoMemory` the builder is of no use.
    pub fn add(&mut self, alloc: Global, row: &Row) -> Result<(), NoMemory> {
        add_values(alloc, &mut self.columns, row.as_slice())?;
        self.rows = self.rows.saturating_add(1);
        Ok(())
    }

    /// What was found.
    pub fn finish(self, alloc: Global) -> Result<TableStats, NoMemory> {
        let StatsBuilder { rows, columns } = self;
        Ok(TableStats {
            rows,
            columns: columns_stats(alloc, columns)?,
        })
    }
}

fn add_values(alloc: Global, columns: &mut [Vec<Value>], values: &[Value]) -> Result<(), NoMemory> {
    for (column, value) in columns.iter_mut().zip(values) {
        add_value(alloc, column, value)?;
    }
    Ok(())
}

fn add_value(alloc: Global, column: &mut Vec<Value>, value: &Value) -> Result<(), NoMemory> {
    if let Value::Null = value {
        return Ok(());
    }
    column.push(value.copy(alloc)?)?;
    Ok(())
}

fn columns_stats(alloc: Global, columns: Vec<Vec<Value>>) -> Result<ListOf<ColumnStats>, NoMemory> {
    let mut found = ListOf::new(alloc);
    for values in columns {
        found.push(stats_of(alloc, values)?)?;
    }
    Ok(found)
}

/// What is found of a column's values that aren't null.
fn stats_of(alloc: Global, values: Vec<Value>) -> Result<ColumnStats, NoMemory> {
    let mut counts = counts_of(alloc, values)?;
    let distinct = counts.len() as u64;
    counts.sort_by(more_common)?;
    counts.truncate(COMMON_KEPT);
    Ok(ColumnStats {
        distinct,
        common: ListOf::from_vec(counts),
    })
}

/// The more common first. The sort keeps the order of values that are equally common.
fn more_common(left: &Common, right: &Common) -> Ordering {
    right.count.cmp(&left.count)
}

fn smaller(left: &Value, right: &Value) -> Ordering {
    order_values(left, right, false, false)
}

/// The different values, in ascending order, each with its count.
fn counts_of(alloc: Global, values: Vec<Value>) -> Result<Vec<Common>, NoMemory> {
    let mut sorted = values;
    sorted.sort_by(smaller)?;
    let mut counts = Vec::new(alloc);
    for value in sorted {
        count_value(&mut counts, value)?;
    }
    Ok(counts)
}

fn count_value(counts: &mut Vec<Common>, value: Value) -> Result<(), NoMemory> {
    match counts.last_mut() {
        Some(last) if smaller(&last.value, &value).is_eq() => {
            last.count = last.count.saturating_add(1);
        }
        _ => counts.push(Common { value, count: 1 })?,
    }
    Ok(())
}
