//! Commands on a table and its rows: ALTER TABLE, TRUNCATE and ANALYZE.

ghost use Rattle.session_core.specs.State.{Does, Unstated};

use super::Machine;
use cat_commands::{RowWork, alter_table, analyzed, used_actively};
use cat_core::{Catalog, Change, Changes, Def, find_table};
use cat_deps::column_used;
use cat_names::written;
use cost_units::StatsBuilder;
use dml::{check_not_null, clear_table, convert_column, fill_column};
use q_base::{Code, ListOf, NoMemory, ObjId, SlotId, Stop, refusal, refusal_naming_two};
use q_scalar::EvalStop;
use q_value::TableStats;
use result_text::{Tag, TagKind, tag_text};
use row_versions::Snap;
use sql_tree::{AlterAction, AlterTree, QName};
use std::alloc::Global;

impl Machine {
    /// ALTER TABLE: the refusals of the catalog, and then 23502 and 22003 of the stored rows.
    pub(crate) fn alter_table(&mut self, tree: &AlterTree, out: &mut Vec<u8>) -> Result<(), Stop>
        ensures { Does Unstated out.old.items out.new.items self.new result }
    {
        let path = self.path()?;
        let catalog = self.defined.catalog();
        let table = find_table(self.alloc, catalog, &path, &tree.table)?;
        let in_use = self.cursors.uses(table);
        let used = is_named(catalog, table, &tree.action);
        let altered = alter_table(self.alloc, catalog, &path, tree, in_use, used)?;
        let mark = self.stores.heaps.mark();
        if let Err(stop) = self.alter_rows(tree, table, &altered.rows) {
            self.undo_rows(mark);
            return Err(stop);
        }
        self.defined.apply(altered.changes)?;
        Ok(tag_text(self.alloc, Tag::Alter(TagKind::Table), 0, out)?)
    }

    /// TRUNCATE: 42P01, 42809, and 55006 where a cursor uses the table.
    pub(crate) fn truncate(&mut self, name: &QName, out: &mut Vec<u8>) -> Result<(), Stop>
        ensures { Does Unstated out.old.items out.new.items self.new result }
    {
        let path = self.path()?;
        let table = find_table(self.alloc, self.defined.catalog(), &path, name)?;
        if self.cursors.uses(table) {
            return Err(used_actively(self.alloc, "TRUNCATE", name));
        }
        clear_table(&mut self.stores, table)?;
        let mut changes: Changes = ListOf::new(self.alloc);
        changes.push(Change::Touch(table))?;
        self.defined.apply(changes)?;
        Ok(tag_text(self.alloc, Tag::Truncate, 0, out)?)
    }

    /// ANALYZE of a table, or of all by age: 42P01, 42809.
    pub(crate) fn analyze(&mut self, name: &Option<QName>, out: &mut Vec<u8>) -> Result<(), Stop>
        ensures { Does Unstated out.old.items out.new.items self.new result }
    {
        match name {
            Some(name) => {
                let path = self.path()?;
                let table = find_table(self.alloc, self.defined.catalog(), &path, name)?;
                self.analyze_table(table)?;
            }
            None => {
                let tables = self.defined.catalog().tables(self.alloc)?;
                for entry in tables.as_slice() {
                    self.analyze_table(entry.id)?;
                }
            }
        }
        Ok(tag_text(self.alloc, Tag::Analyze, 0, out)?)
    }

    /// Takes the statistics of the rows of now into the catalog.
    fn analyze_table(&mut self, table: ObjId) -> Result<(), NoMemory> {
        let snap = self.snapshot()?;
        let Some(entry) = self.defined.catalog().entry(table) else {
            return Ok(());
        };
        let Def::Table(def) = &entry.def else {
            return Ok(());
        };
        let stats = self.statistics(table, def.next_column, snap)?;
        let changes = analyzed(self.alloc, entry, stats)?;
        self.defined.apply(changes)
    }

    fn statistics(&self, table: ObjId, columns: u32, snap: Snap) -> Result<TableStats, NoMemory> {
        let heaps = &self.stores.heaps;
        let mut builder = StatsBuilder::new(self.alloc, columns)?;
        let mut from = SlotId(0);
        for _turn in 0..u64::MAX {
            let Some(slot) = heaps.next_slot(table, from, snap) else {
                return builder.finish(self.alloc);
            };
            if let Some(row) = heaps.visible(table, slot, snap) {
                builder.add(self.alloc, row)?;
            }
            from = after(slot);
        }
        builder.finish(self.alloc)
    }

    /// What ALTER TABLE does to the stored rows: 23502, 22003.
    fn alter_rows(&mut self, tree: &AlterTree, table: ObjId, work: &RowWork) -> Result<(), Stop> {
        let stores = &mut self.stores;
        let done = match work {
            RowWork::Nothing => Ok(()),
            RowWork::Fill(column, value, not_null) => {
                fill_column(self.alloc, stores, table, *column, value, *not_null)
            }
            RowWork::Convert(column, kind) => {
                convert_column(self.alloc, stores, table, *column, *kind)
            }
            RowWork::CheckNotNull(column) => check_not_null(stores, table, *column),
        };
        match done {
            Ok(()) => Ok(()),
            Err(EvalStop::NoMemory) => Err(Stop::NoMemory),
            Err(EvalStop::Fault(code)) => Err(row_refusal(self.alloc, code, tree)),
        }
    }
}

/// The slot behind a slot; the last one itself.
fn after(slot: SlotId) -> SlotId {
    SlotId(slot.0.saturating_add(1))
}

/// Whether a view names the column that DROP COLUMN or TYPE names.
fn is_named(catalog: &Catalog, table: ObjId, action: &AlterAction) -> bool {
    let Some(entry) = catalog.entry(table) else {
        return false;
    };
    match action {
        AlterAction::DropColumn(name) | AlterAction::SetType(name, _) => {
            match entry.column_id(name.as_str()) {
                Some(column) => column_used(catalog, table, column),
                None => false,
            }
        }
        _ => false,
    }
}

/// 23502 of a column of stored rows.
fn nulls_stored(alloc: Global, column: &str, table: &QName) -> Stop {
    match written(alloc, table) {
        Ok(table) => refusal_naming_two(alloc, Code::NullsStored, column, table.as_str()),
        Err(NoMemory) => Stop::NoMemory,
    }
}

/// A fault of the stored rows as ALTER TABLE's refusal.
fn row_refusal(alloc: Global, code: Code, tree: &AlterTree) -> Stop {
    match (code, &tree.action) {
        (Code::NullsStored, AlterAction::AddColumn(column)) => {
            nulls_stored(alloc, column.name.as_str(), &tree.table)
        }
        (Code::NullsStored, AlterAction::SetNotNull(column)) => {
            nulls_stored(alloc, column.as_str(), &tree.table)
        }
        _ => refusal(alloc, code),
    }
}
