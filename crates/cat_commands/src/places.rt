ghost use Rattle.q_value.specs.Answers.{Answers};
ghost use Rattle.cat_commands.specs.Places as spec;

use cat_names::{NameRow, SchemaRow, named_in, refusal_of, schema_named};
use q_base::{Code, SchemaId, Stop, refusal_naming};
use sql_tree::QName;
use std::alloc::Global;

/// Refused as 42P07, under the name as given, where the schema has an object of the name.
pub(crate) fn check_free(
    alloc: Global,
    names: &[NameRow],
    schema: SchemaId,
    name: &str,
) -> Result<(), Stop>
    ensures { Answers (spec.free names.now schema name.now name.now) result }
{
    match named_in(names, schema, name) {
        Some(_) => Err(refusal_naming(alloc, Code::DuplicateRelation, name)),
        None => Ok(()),
    }
}

/// The same for the name of a new object, which is shown as it was written.
pub(crate) fn check_place(
    alloc: Global,
    names: &[NameRow],
    schema: SchemaId,
    name: &QName,
) -> Result<(), Stop>
    ensures { Answers (spec.free names.now schema name.now.name (spec.written name.now)) result }
{
    match named_in(names, schema, name.name.as_str()) {
        Some(_) => Err(refusal_of(alloc, Code::DuplicateRelation, name)),
        None => Ok(()),
    }
}

/// The schema of a name, else 3F000.
pub(crate) fn schema_known(
    alloc: Global,
    schemas: &[SchemaRow],
    name: &str,
) -> Result<SchemaId, Stop>
    ensures { Answers (spec.schema_known schemas.now name.now) result }
{
    match schema_named(schemas, name) {
        Some(id) => Ok(id),
        None => Err(refusal_naming(alloc, Code::UnknownSchema, name)),
    }
}
