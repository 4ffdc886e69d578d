//! Commands that change the catalog alone: schemas, new tables, indexes and views, and what is dropped.

ghost use Rattle.session_core.specs.State.{Does, Unstated};

use super::Machine;
use cat_commands::{create_index, create_table, create_view, drop_object, schema_changes};
use cat_core::{Catalog, Change, Changes, Def, find_object, find_table};
use cat_deps::{dependents, uses};
use dml::{build_index, clear_table};
use q_base::{NoMemory, ObjId, Stop, Work};
use query_tree::Bound;
use result_text::{Tag, TagKind, tag_text};
use sql_tree::{DropTree, IndexTree, ObjectKind, SchemaCommand, TableTree, ViewTree};
use std::sync::ledger::Ledger;
use view_rewrite::rewrite;

impl Machine {
    /// CREATE, ALTER and DROP SCHEMA: 42939, 42P06, 3F000, 2BP01, 54000. Every statement becomes invalid.
    pub(crate) fn change_schema(
        &mut self,
        tree: &SchemaCommand,
        out: &mut Vec<u8>,
    ) -> Result<(), Stop>
        ensures { Does Unstated out.old.items out.new.items self.new result }
    {
        let changes = schema_changes(self.alloc, self.defined.catalog(), tree)?;
        self.defined.apply(changes)?;
        let kind = TagKind::Schema;
        let tag = match tree {
            SchemaCommand::Create(_) => Tag::Create(kind),
            SchemaCommand::Drop(_) => Tag::Drop(kind),
            SchemaCommand::Rename(_, _) => Tag::Alter(kind),
        };
        Ok(tag_text(self.alloc, tag, 0, out)?)
    }

    /// CREATE TABLE, with the indexes of its keys.
    pub(crate) fn create_table(&mut self, tree: &TableTree, out: &mut Vec<u8>) -> Result<(), Stop>
        ensures { Does Unstated out.old.items out.new.items self.new result }
    {
        let path = self.path()?;
        let changes = create_table(self.alloc, self.defined.catalog(), &path, tree)?;
        self.make(changes)?;
        Ok(tag_text(self.alloc, Tag::Create(TagKind::Table), 0, out)?)
    }

    /// CREATE INDEX: the refusals of the catalog, and then 23505 where the stored rows break a unique one.
    pub(crate) fn create_index(&mut self, tree: &IndexTree, out: &mut Vec<u8>) -> Result<(), Stop>
        ensures { Does Unstated out.old.items out.new.items self.new result }
    {
        let path = self.path()?;
        let catalog = self.defined.catalog();
        let table = find_table(self.alloc, catalog, &path, &tree.table)?;
        let in_use = self.cursors.uses(table);
        let changes = create_index(self.alloc, catalog, &path, tree, in_use)?;
        self.make(changes)?;
        Ok(tag_text(self.alloc, Tag::Create(TagKind::Index), 0, out)?)
    }

    /// CREATE [OR REPLACE] VIEW: the refusals of its query, 54001 and 54000 of views, and then those of the catalog.
    pub(crate) fn create_view<L: Ledger>(
        &mut self,
        tree: &ViewTree,
        out: &mut Vec<u8>,
        work: &mut Work<L>,
    ) -> Result<(), Stop>
        ensures { Does Unstated out.old.items out.new.items self.new result }
    {
        let path = self.path()?;
        let found = self.analysed(&tree.query, work)?;
        let catalog = self.defined.catalog();
        let _ = rewrite(self.alloc, &found.bound, catalog)?;
        let Bound::Select(query) = found.bound.as_ref() else {
            return Err(Stop::NoMemory);
        };
        let used = uses(self.alloc, catalog, query)?;
        let changes = create_view(
            self.alloc,
            catalog,
            &path,
            tree,
            query,
            &found.result,
            &used,
        )?;
        self.defined.apply(changes)?;
        Ok(tag_text(self.alloc, Tag::Create(TagKind::View), 0, out)?)
    }

    /// DROP TABLE, VIEW and INDEX.
    pub(crate) fn drop_object(&mut self, tree: &DropTree, out: &mut Vec<u8>) -> Result<(), Stop>
        ensures { Does Unstated out.old.items out.new.items self.new result }
    {
        let path = self.path()?;
        let catalog = self.defined.catalog();
        let id = find_object(self.alloc, catalog, &path, &tree.name, tree.kind)?;
        let reached = dependents(self.alloc, catalog, id)?;
        let in_use = self.cursors.uses(owner_of(catalog, id));
        let changes = drop_object(self.alloc, catalog, id, tree, &reached, in_use)?;
        self.clear_dropped(&changes)?;
        self.defined.apply(changes)?;
        let kind = match tree.kind {
            ObjectKind::Table => TagKind::Table,
            ObjectKind::View => TagKind::View,
            ObjectKind::Index => TagKind::Index,
        };
        Ok(tag_text(self.alloc, Tag::Drop(kind), 0, out)?)
    }

    /// Makes the changes, and the rooms for the rows and entries of new tables and indexes: 23505.
    pub(crate) fn make(&mut self, changes: Changes) -> Result<(), Stop> {
        for change in changes.as_slice() {
            if let Change::PutEntry(entry) = change {
                match &entry.def {
                    Def::Table(_) => self.stores.heaps.add_table(entry.id)?,
                    Def::Index(_) => {
                        if self.defined.catalog().entry(entry.id).is_none() {
                            build_index(self.alloc, &mut self.stores, entry)?;
                        }
                    }
                    Def::View(_) => {}
                }
            }
        }
        Ok(self.defined.apply(changes)?)
    }

    /// Ends the rows of the tables that the changes drop.
    fn clear_dropped(&mut self, changes: &Changes) -> Result<(), NoMemory> {
        for change in changes.as_slice() {
            if let Change::DropEntry(id) = change {
                clear_table(&mut self.stores, *id)?;
            }
        }
        Ok(())
    }
}

/// The table of an index, and else the object itself.
fn owner_of(catalog: &Catalog, id: ObjId) -> ObjId {
    match catalog.entry(id) {
        Some(entry) => entry.owner(),
        None => id,
    }
}
