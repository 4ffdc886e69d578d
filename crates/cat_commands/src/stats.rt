ghost use Rattle.std.specs.Prelude.{◌≡◌, IfOk};
ghost use Rattle.cat_commands.specs.Stats as spec;

use q_base::{ColId, ListOf, NoMemory};
use q_value::{ColumnStats, ColumnStatsList, Common, CommonList, TableStats};
use std::alloc::Global;

/// The statistics of a table that was never analysed, with so many columns.
pub(crate) fn first_stats(alloc: Global, count: usize) -> Result<TableStats, NoMemory> {
    Ok(TableStats {
        rows: 1000,
        columns: unknown_columns(alloc, count)?,
    })
}

fn unknown_columns(alloc: Global, count: usize) -> Result<ColumnStatsList, NoMemory> {
    let mut columns = ListOf::new(alloc);
    for _turn in 0..count {
        columns.push(unknown(alloc))?;
    }
    Ok(columns)
}

/// The statistics of a column that was never analysed.
fn unknown(alloc: Global) -> ColumnStats
    ensures { result ≡ spec.unknown }
{
    ColumnStats {
        distinct: 200,
        common: ListOf::new(alloc),
    }
}

/// A second owner of the same statistics.
pub(crate) fn copy_stats(alloc: Global, stats: &TableStats) -> Result<TableStats, NoMemory>
    ensures { IfOk result (λ copy. copy ≡ stats.now) }
{
    Ok(TableStats {
        rows: stats.rows,
        columns: copy_each(alloc, stats.columns.as_slice())?,
    })
}

fn copy_each(alloc: Global, columns: &[ColumnStats]) -> Result<ColumnStatsList, NoMemory>
    ensures { IfOk result (λ copies. copies ≡ columns.now) }
{
    let mut copies = ListOf::new(alloc);
    for column in columns {
        copies.push(copy_column(alloc, column)?)?;
    }
    Ok(copies)
}

fn copy_column(alloc: Global, column: &ColumnStats) -> Result<ColumnStats, NoMemory>
    ensures { IfOk result (λ copy. copy ≡ column.now) }
{
    Ok(ColumnStats {
        distinct: column.distinct,
        common: copy_common(alloc, column.common.as_slice())?,
    })
}

fn copy_common(alloc: Global, values: &[Common]) -> Result<CommonList, NoMemory>
    ensures { IfOk result (λ copies. copies ≡ values.now) }
{
    let mut copies = ListOf::new(alloc);
    for common in values {
        copies.push(copy_one(alloc, common)?)?;
    }
    Ok(copies)
}

fn copy_one(alloc: Global, common: &Common) -> Result<Common, NoMemory>
    ensures { IfOk result (λ copy. copy ≡ common.now) }
{
    Ok(Common {
        value: common.value.copy(alloc)?,
        count: common.count,
    })
}

/// The statistics with those of a column more, of which nothing is known.
pub(crate) fn stats_with_new(alloc: Global, stats: &TableStats) -> Result<TableStats, NoMemory>
    ensures { IfOk result (λ new. new ≡ spec.stats_with_new stats.now) }
{
    let mut columns = copy_each(alloc, stats.columns.as_slice())?;
    columns.push(unknown(alloc))?;
    Ok(TableStats {
        rows: stats.rows,
        columns,
    })
}

/// The statistics in which nothing is known of one column.
pub(crate) fn stats_without(
    alloc: Global,
    stats: &TableStats,
    id: ColId,
) -> Result<TableStats, NoMemory>
    ensures { IfOk result (λ new. new ≡ spec.stats_without stats.now id) }
{
    Ok(TableStats {
        rows: stats.rows,
        columns: each_but(alloc, stats.columns.as_slice(), id.0 as usize)?,
    })
}

fn each_but(
    alloc: Global,
    columns: &[ColumnStats],
    other: usize,
) -> Result<ColumnStatsList, NoMemory>
    ensures { IfOk result (λ kept. kept ≡ spec.each_but other 0 columns.now) }
{
    let mut kept = ListOf::new(alloc);
    for (place, column) in columns.iter().enumerate() {
        kept.push(kept_or_unknown(alloc, column, place == other)?)?;
    }
    Ok(kept)
}

fn kept_or_unknown(alloc: Global, column: &ColumnStats, lost: bool) -> Result<ColumnStats, NoMemory>
    ensures { IfOk result (λ kept. kept ≡ spec.kept_or_unknown column.now lost) }
{
    if lost {
        Ok(unknown(alloc))
    } else {
        copy_column(alloc, column)
    }
}
