ghost use Rattle.std.specs.Prelude.{◌≡◌};
ghost use Rattle.q_value.specs.Answers.{Answers};
ghost use Rattle.cat_names.specs.Lookup as spec;

use crate::{NameRow, SchemaRow, refusal_of, schema_named};
use q_base::{Code, ObjId, SchemaId, SchemaList, Stop, refusal, refusal_naming};
use sql_tree::QName;
use std::alloc::Global;

/// The object of a name in a schema, or `None` where there is none.
pub fn named_in(names: &[NameRow], schema: SchemaId, name: &str) -> Option<ObjId>
    ensures { result ≡ spec.named_in names.now schema name.now }
{
    for row in names {
        if row.schema.0 == schema.0 && row.name.as_str() == name {
            return Some(row.id);
        }
    }
    None
}

/// The object that a name means: in the schema that is written before it, else in the first schema of the path
/// that has the name.
#[tactic(auto, unfolding(crate::specs::Lookup::found))]
pub fn found(
    name: &QName,
    path: &SchemaList,
    schemas: &[SchemaRow],
    names: &[NameRow],
) -> Option<ObjId>
    ensures { result ≡ spec.found name.now path.now schemas.now names.now }
{
    match &name.schema {
        Some(schema) => {
            let schema = schema_named(schemas, schema.as_str())?;
            named_in(names, schema, name.name.as_str())
        }
        None => first_found(name.name.as_str(), path.as_slice(), names),
    }
}

fn first_found(name: &str, path: &[SchemaId], names: &[NameRow]) -> Option<ObjId>
    ensures { result ≡ spec.first_found name.now path.now names.now }
{
    for schema in path {
        let found = named_in(names, *schema, name);
        if found.is_some() {
            return found;
        }
    }
    None
}

/// The object that a name means (PostgreSQL's manual, "The Schema Search Path"). Refused as 42P01, with the
/// name as written, where there is none.
#[tactic(auto, unfolding(crate::specs::Lookup::look_up))]
pub fn look_up(
    alloc: Global,
    name: &QName,
    path: &SchemaList,
    schemas: &[SchemaRow],
    names: &[NameRow],
) -> Result<ObjId, Stop>
    ensures { Answers (spec.look_up name.now path.now schemas.now names.now) result }
{
    match found(name, path, schemas, names) {
        Some(id) => Ok(id),
        None => Err(refusal_of(alloc, Code::UnknownRelation, name)),
    }
}

/// The schema in which an object of a name is made: the one that is written before it, else the first of the path.
/// Refused as 3F000 where the written schema isn't there, or where the path has none.
#[tactic(auto, unfolding(crate::specs::Lookup::place_for))]
pub fn place_for(
    alloc: Global,
    name: &QName,
    path: &SchemaList,
    schemas: &[SchemaRow],
) -> Result<SchemaId, Stop>
    ensures { Answers (spec.place_for name.now path.now schemas.now) result }
{
    match &name.schema {
        Some(schema) => match schema_named(schemas, schema.as_str()) {
            Some(id) => Ok(id),
            None => Err(refusal_naming(alloc, Code::UnknownSchema, schema.as_str())),
        },
        None => match path.as_slice().first() {
            Some(id) => Ok(*id),
            None => Err(refusal(alloc, Code::NoSchemaSelected)),
        },
    }
}
