ghost use Rattle.std.specs.Prelude.{◌≡◌, ◌↔◌, ◌≤◌, IfOk, OnOk, IsTrue, MatchOption, length, take};
ghost use Rattle.cat_names.specs.Paths as spec;

use crate::SchemaRow;
use q_base::{ListOf, NoMemory, SchemaId, SchemaList, Str};
use std::alloc::Global;

/// The schema of a name, or `None` where there is none.
pub fn schema_named(schemas: &[SchemaRow], name: &str) -> Option<SchemaId>
    ensures { result ≡ spec.schema_named schemas.now name.now }
{
    for schema in schemas {
        if schema.name.as_str() == name {
            return Some(schema.id);
        }
    }
    None
}

/// The schemas of a search path that exist, in order, each once (PostgreSQL's manual, "The Schema Search
/// Path", without the schema of temporary tables and without pg_catalog).
pub fn effective(alloc: Global, path: &[Str], schemas: &[SchemaRow]) -> Result<SchemaList, NoMemory>
    ensures { IfOk result (λ found. found ≡ spec.effective path.now schemas.now) }
{
    let mut found = ListOf::new(alloc);
    for name in path {
        add_once(&mut found, schema_named(schemas, name.as_str()))?;
    }
    Ok(found)
}

#[tactic(auto, unfolding(crate::specs::Paths::with_schema))]
fn add_once(found: &mut SchemaList, schema: Option<SchemaId>) -> Result<(), NoMemory>
    ensures { OnOk result (found.new ≡ spec.with_schema schema found.old) }
{
    match schema {
        Some(id) => {
            if is_listed(found.as_slice(), id) {
                Ok(())
            } else {
                found.push(id)
            }
        }
        None => Ok(()),
    }
}

fn is_listed(ids: &[SchemaId], id: SchemaId) -> bool
    ensures { result ≡ spec.is_listed id ids.now }
{
    for other in ids {
        if other.0 == id.0 {
            return true;
        }
    }
    false
}

/// Tells whether a search path's existing schemas are those of `kept`; it takes no memory.
pub fn same_effective(path: &[Str], schemas: &[SchemaRow], kept: &SchemaList) -> bool
    ensures { IsTrue result ↔ (spec.effective path.now schemas.now ≡ kept.now) }
{
    let kept = kept.as_slice();
    let mut count = 0;
    for name in path {
        match count_with(kept, count, schema_named(schemas, name.as_str())) {
            Some(more) => count = more,
            None => return false,
        }
    }
    count == kept.len()
}

/// How many schemas of `kept` were met once `schema` is, where `count` were before; `None` where it isn't the next of
/// them.
#[tactic(auto, unfolding(crate::specs::Paths::with_schema))]
fn count_with(kept: &[SchemaId], count: usize, schema: Option<SchemaId>) -> Option<usize>
    requires { count ≤ length kept.now }
    ensures { MatchOption result (spec.Differs kept.now count schema) (λ more. (more ≤ length kept.now) × (take more kept.now ≡ spec.with_schema schema (take count kept.now))) }
{
    match schema {
        Some(id) if !is_listed(&kept[..count], id) => match kept.get(count) {
            Some(next) if next.0 == id.0 => Some(count + 1),
            _ => None,
        },
        _ => Some(count),
    }
}
