ghost use Rattle.std.specs.Prelude.{◌≡◌, ◌++◌, IfOk};
ghost use Rattle.q_value.specs.Answers.{Answers};
ghost use Rattle.cat_core.specs.Finding.{entries, indexes_of};
ghost use Rattle.cat_commands.specs.Drops as spec;
ghost use Rattle.cat_commands.specs.Steps.{steps, Gives};

use crate::entries::{one, then};
use crate::refusals::refusal_naming_in;
use crate::used_actively;
use cat_core::{Catalog, Change, Changes, Def, Entry, IndexDef};
use cat_names::refusal_of;
use q_base::{Code, IdList, ListOf, NoMemory, ObjId, Stop};
use sql_tree::{DropTree, ObjectKind};
use std::alloc::Global;
use std::rc::Rc;

/// What DROP TABLE, DROP VIEW and DROP INDEX change, where `id` is what the tree's name means, `dependents` are the views
/// that reach it, and `in_use` tells of the table, of an index's table, that an open query uses it (PostgreSQL's manual,
/// DROP TABLE). CASCADE drops the views first; with a table go its indexes; an index's table is touched.
///
/// Refused, in this order, as 42809 where it is of another kind; an index as 2BP01 where a constraint needs it, and as
/// 55006 where its table is in use; a table or a view as 2BP01 where views reach it and CASCADE isn't written; a table as
/// 55006 where it is in use.
pub fn drop_object(
    alloc: Global,
    catalog: &Catalog,
    id: ObjId,
    tree: &DropTree,
    dependents: &IdList,
    in_use: bool,
) -> Result<Changes, Stop>
    ensures { Gives (spec.object_dropped catalog.now id tree.now dependents.now in_use) result }
{
    let Some(entry) = catalog.entry(id) else {
        return Err(refusal_of(alloc, Code::UnknownRelation, &tree.name));
    };
    match (tree.kind, &entry.def) {
        (ObjectKind::Table, Def::Table(_)) => {
            check_dependents(alloc, tree, "table", dependents)?;
            check_unused(alloc, tree, "DROP TABLE", in_use)?;
            Ok(drop_table(alloc, catalog, id, dependents)?)
        }
        (ObjectKind::View, Def::View(_)) => {
            check_dependents(alloc, tree, "view", dependents)?;
            Ok(drop_view(alloc, id, dependents)?)
        }
        (ObjectKind::Index, Def::Index(index)) => {
            check_constraint(alloc, tree, index)?;
            check_unused(alloc, tree, "DROP INDEX", in_use)?;
            Ok(drop_index(alloc, id, index.table)?)
        }
        (ObjectKind::Table, _) => Err(refusal_of(alloc, Code::NotATable, &tree.name)),
        (ObjectKind::View, _) => Err(refusal_of(alloc, Code::NotAView, &tree.name)),
        (ObjectKind::Index, _) => Err(refusal_of(alloc, Code::NotAnIndex, &tree.name)),
    }
}

fn check_dependents(
    alloc: Global,
    tree: &DropTree,
    kind: &str,
    dependents: &IdList,
) -> Result<(), Stop>
    ensures { Answers (spec.independent tree.now kind.now dependents.now) result }
{
    if !tree.cascade && !dependents.as_slice().is_empty() {
        return Err(refusal_naming_in(alloc, Code::ObjectHasDependents, kind, &tree.name));
    }
    Ok(())
}

fn check_unused(alloc: Global, tree: &DropTree, command: &str, in_use: bool) -> Result<(), Stop>
    ensures { Answers (spec.unused tree.now command.now in_use) result }
{
    if in_use {
        return Err(used_actively(alloc, command, &tree.name));
    }
    Ok(())
}

fn check_constraint(alloc: Global, tree: &DropTree, index: &IndexDef) -> Result<(), Stop>
    ensures { Answers (spec.unconstrained tree.now index.now) result }
{
    if index.of_constraint {
        return Err(refusal_of(alloc, Code::IndexOfConstraint, &tree.name));
    }
    Ok(())
}

fn drop_each(alloc: Global, ids: &[ObjId]) -> Result<Changes, NoMemory>
    ensures { IfOk result (λ changes. steps changes ≡ spec.drops ids.now) }
{
    let mut changes = ListOf::new(alloc);
    for id in ids {
        changes.push(Change::DropEntry(*id))?;
    }
    Ok(changes)
}

fn drop_view(alloc: Global, id: ObjId, dependents: &IdList) -> Result<Changes, NoMemory>
    ensures { IfOk result (λ changes. steps changes ≡ spec.drop_view id dependents.now) }
{
    then(
        drop_each(alloc, dependents.as_slice())?,
        Change::DropEntry(id),
    )
}

fn drop_table(
    alloc: Global,
    catalog: &Catalog,
    id: ObjId,
    dependents: &IdList,
) -> Result<Changes, NoMemory>
    ensures { IfOk result (λ changes. steps changes ≡ spec.drop_table id dependents.now (indexes_of id catalog.now.slots)) }
{
    let indexes = catalog.indexes_of(alloc, id)?;
    let views = drop_each(alloc, dependents.as_slice())?;
    then(
        drop_indexes(views, indexes.as_slice())?,
        Change::DropEntry(id),
    )
}

fn drop_indexes(changes: Changes, indexes: &[Rc<Entry>]) -> Result<Changes, NoMemory>
    ensures { IfOk result (λ all. steps all ≡ steps changes ++ spec.drops_of (entries indexes.now)) }
{
    let mut all = changes;
    for index in indexes {
        all.push(Change::DropEntry(index.id))?;
    }
    Ok(all)
}

fn drop_index(alloc: Global, id: ObjId, table: ObjId) -> Result<Changes, NoMemory>
    ensures { IfOk result (λ changes. steps changes ≡ spec.drop_index id table) }
{
    then(one(alloc, Change::DropEntry(id))?, Change::Touch(table))
}
