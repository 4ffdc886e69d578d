ghost use Rattle.std.specs.Prelude.{◌≡◌, IfOk};
ghost use Rattle.cat_commands.specs.Analyze as spec;
ghost use Rattle.cat_commands.specs.Steps.{steps};

use crate::entries::put_touched;
use cat_core::{Changes, Def, Entry, TableDef};
use q_base::{ListOf, NoMemory};
use q_value::TableStats;
use query_tree::Copies;
use std::alloc::Global;

/// What ANALYZE changes of a table: it has the new statistics, which have an entry for each id below `next_column`, and
/// is touched (PostgreSQL's manual, ANALYZE). Nothing changes of a view or an index.
pub fn analyzed(alloc: Global, entry: &Entry, stats: TableStats) -> Result<Changes, NoMemory>
    ensures { IfOk result (λ changes. steps changes ≡ spec.analyzed entry.now stats) }
{
    match &entry.def {
        Def::Table(table) => put_analyzed(alloc, entry, table, stats),
        Def::View(_) | Def::Index(_) => Ok(ListOf::new(alloc)),
    }
}

fn put_analyzed(
    alloc: Global,
    entry: &Entry,
    table: &TableDef,
    stats: TableStats,
) -> Result<Changes, NoMemory>
    ensures { IfOk result (λ changes. steps changes ≡ spec.put_analyzed entry.now table.now stats) }
{
    let columns = table.columns.copy(alloc)?;
    let def = Def::Table(TableDef {
        columns,
        next_column: table.next_column,
        stats,
    });
    put_touched(alloc, entry.id, entry.schema, entry.name.as_str(), def)
}
