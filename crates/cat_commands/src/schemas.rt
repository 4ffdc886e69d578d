ghost use Rattle.std.specs.Prelude.{◌≡◌, IfOk};
ghost use Rattle.q_value.specs.Answers.{Answers};
ghost use Rattle.cat_commands.specs.Schemas as spec;
ghost use Rattle.cat_commands.specs.Steps.{steps, Gives};

use crate::entries::{one, then};
use crate::limits::room_for;
use crate::places::schema_known;
use cat_core::{Catalog, Change, Changes};
use cat_names::{NameRow, SchemaRow, schema_named};
use q_base::{Code, NoMemory, SchemaId, Stop, Str, refusal_naming, refusal_naming_two};
use sql_tree::SchemaCommand;
use std::alloc::Global;

/// What CREATE SCHEMA, ALTER SCHEMA RENAME and DROP SCHEMA change (PostgreSQL's manual, "SQL Commands").
///
/// CREATE SCHEMA is refused as 42939 where the name begins with `pg_`, as 42P06 where it is taken, and as 54000 past
/// 65,536 objects and schemas; ALTER SCHEMA as 3F000 where there is none of the name, then as 42P06 and as 42939 for the
/// new name; DROP SCHEMA as 3F000, and as 2BP01 where an object is in it. The order is this project's own.
pub fn schema_changes(
    alloc: Global,
    catalog: &Catalog,
    command: &SchemaCommand,
) -> Result<Changes, Stop>
    ensures { Gives (spec.schema_changes catalog.now command.now) result }
{
    match command {
        SchemaCommand::Create(name) => create_schema(alloc, catalog, name),
        SchemaCommand::Rename(name, new) => rename_schema(alloc, catalog, name.as_str(), new),
        SchemaCommand::Drop(name) => drop_schema(alloc, catalog, name.as_str()),
    }
}

#[tactic(auto, unfolding(crate::specs::Schemas::created))]
fn create_schema(alloc: Global, catalog: &Catalog, name: &Str) -> Result<Changes, Stop>
    ensures { Gives (spec.created catalog.now name.now) result }
{
    check_acceptable(alloc, name.as_str())?;
    check_new(alloc, catalog.schemas(), name.as_str())?;
    let id = room_for(alloc, catalog.next_id(), 1)?;
    Ok(put_schema(alloc, SchemaId(id), name)?)
}

#[tactic(auto, unfolding(crate::specs::Schemas::renamed))]
fn rename_schema(alloc: Global, catalog: &Catalog, name: &str, new: &Str) -> Result<Changes, Stop>
    ensures { Gives (spec.renamed catalog.now name.now new.now) result }
{
    let id = schema_known(alloc, catalog.schemas(), name)?;
    check_new(alloc, catalog.schemas(), new.as_str())?;
    check_acceptable(alloc, new.as_str())?;
    Ok(put_schema(alloc, id, new)?)
}

#[tactic(auto, unfolding(crate::specs::Schemas::dropped))]
fn drop_schema(alloc: Global, catalog: &Catalog, name: &str) -> Result<Changes, Stop>
    ensures { Gives (spec.dropped catalog.now name.now) result }
{
    let id = schema_known(alloc, catalog.schemas(), name)?;
    check_empty(alloc, catalog.names(), id, name)?;
    Ok(with_touch_all(alloc, Change::DropSchema(id))?)
}

fn check_acceptable(alloc: Global, name: &str) -> Result<(), Stop>
    ensures { Answers (spec.acceptable name.now) result }
{
    if is_reserved(name) {
        return Err(refusal_naming(alloc, Code::UnacceptableSchemaName, name));
    }
    Ok(())
}

/// Tells whether a name begins with `pg_`.
fn is_reserved(name: &str) -> bool
    ensures { result ≡ spec.is_reserved name.now }
{
    match name.as_bytes().get(..3) {
        Some(front) => front == b"pg_".as_slice(),
        None => false,
    }
}

fn check_new(alloc: Global, schemas: &[SchemaRow], name: &str) -> Result<(), Stop>
    ensures { Answers (spec.new_schema schemas.now name.now) result }
{
    match schema_named(schemas, name) {
        Some(_) => Err(refusal_naming(alloc, Code::DuplicateSchema, name)),
        None => Ok(()),
    }
}

fn check_empty(alloc: Global, names: &[NameRow], id: SchemaId, name: &str) -> Result<(), Stop>
    ensures { Answers (spec.empty names.now id name.now) result }
{
    if has_object(names, id) {
        return Err(refusal_naming_two(alloc, Code::ObjectHasDependents, "schema", name));
    }
    Ok(())
}

fn has_object(names: &[NameRow], schema: SchemaId) -> bool
    ensures { result ≡ spec.has_object schema names.now }
{
    for row in names {
        if row.schema.0 == schema.0 {
            return true;
        }
    }
    false
}

fn put_schema(alloc: Global, id: SchemaId, name: &Str) -> Result<Changes, NoMemory>
    ensures { IfOk result (λ changes. steps changes ≡ spec.put_schema id name.now) }
{
    let name = name.copy(alloc)?;
    with_touch_all(alloc, Change::PutSchema(SchemaRow { id, name }))
}

fn with_touch_all(alloc: Global, change: Change) -> Result<Changes, NoMemory>
    ensures { IfOk result (λ changes. steps changes ≡ spec.with_touch_all change) }
{
    then(one(alloc, change)?, Change::TouchAll)
}
