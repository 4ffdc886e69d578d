//! The lines `\prepared` and `\cursors`, which are this project's own.

ghost use Rattle.session_core.specs.State.{Does, Unstated};

use super::{Machine, given_of};
use crate::printed::text_table;
use plan_source::SourceView;
use portals::CursorView;
use q_base::{NoMemory, Stop, Str};
use q_value::{Row, Rows, Value};
use std::alloc::Global;

impl Machine {
    /// `\prepared`: the statements in order of making.
    pub(crate) fn show_prepared(&mut self, out: &mut Vec<u8>) -> Result<(), Stop>
        ensures { Does Unstated out.old.items out.new.items self.new result }
    {
        let names = [
            "name",
            "standing",
            "kept",
            "generic",
            "custom",
            "generic_cost",
            "custom_cost",
        ];
        let rows = self.defined.shown(given_of(&self.settings))?;
        Ok(text_table(self.alloc, &names, &rows, out)?)
    }

    /// `\cursors`: the cursors in order of declaration.
    pub(crate) fn show_cursors(&mut self, out: &mut Vec<u8>) -> Result<(), Stop>
        ensures { Does Unstated out.old.items out.new.items self.new result }
    {
        let names = ["name", "position", "held", "scroll", "failed", "reach"];
        let rows = self.cursors.shown(self.alloc)?;
        Ok(text_table(self.alloc, &names, &rows, out)?)
    }
}

/// The row of a statement.
pub(crate) fn statement_row(alloc: Global, name: &str, view: &SourceView) -> Result<Row, NoMemory> {
    let mut row = named_row(alloc, name)?;
    row.push(Value::Bool(view.standing))?;
    row.push(Value::Bool(view.kept))?;
    push_count(alloc, &mut row, view.tally.generic_count)?;
    push_count(alloc, &mut row, view.tally.custom_count)?;
    match view.tally.generic_cost {
        Some(cost) => push_count(alloc, &mut row, cost)?,
        None => row.push(Value::Null)?,
    }
    let sum = Str::new(view.tally.custom_sum.to_string(alloc)?);
    row.push(Value::Text(sum))?;
    Ok(row)
}

/// The row of a cursor.
pub(crate) fn cursor_row(alloc: Global, view: &CursorView<'_>) -> Result<Row, NoMemory> {
    let mut row = named_row(alloc, view.name)?;
    push_count(alloc, &mut row, view.position)?;
    row.push(Value::Bool(view.held))?;
    row.push(Value::Bool(view.scroll))?;
    row.push(Value::Bool(view.failed))?;
    push_count(alloc, &mut row, view.reach)?;
    Ok(row)
}

fn named_row(alloc: Global, name: &str) -> Result<Row, NoMemory> {
    let mut row = Row::new(alloc);
    row.push(Value::Text(Str::from_text(alloc, name)?))?;
    Ok(row)
}

fn push_count(alloc: Global, row: &mut Row, count: u64) -> Result<(), NoMemory> {
    row.push(Value::Text(Str::new(count.to_string(alloc)?)))
}
