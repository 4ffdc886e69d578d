ghost use Rattle.std.specs.Prelude.{◌≡◌, [], ◌∷◌, IfOk};
ghost use Rattle.q_base.specs.Stops.{StopsBy};
ghost use Rattle.cat_names.specs.Lookup as spec;

use q_base::{Code, NoMemory, Stop, Str, refusal_naming};
use sql_tree::QName;
use std::alloc::Global;

/// A name as it was written: with the schema and a dot before it where they were.
pub fn written(alloc: Global, name: &QName) -> Result<Str, NoMemory>
    ensures { IfOk result (λ text. text ≡ spec.written name.now) }
{
    match &name.schema {
        Some(schema) => joined(alloc, schema.as_str(), name.name.as_str()),
        None => name.name.copy(alloc),
    }
}

fn joined(alloc: Global, schema: &str, name: &str) -> Result<Str, NoMemory>
    ensures { IfOk result (λ text. text ≡ spec.joined schema.now name.now) }
{
    let mut text = String::from_str(alloc, schema)?;
    text.push_str(".")?;
    text.push_str(name)?;
    Ok(Str::new(text))
}

/// The refusal of a code whose text names an object as it was written.
pub fn refusal_of(alloc: Global, code: Code, name: &QName) -> Stop
    ensures { StopsBy (λ e. e ≡ record { code = code; args = spec.written name.now ∷ [] }) result }
{
    match written(alloc, name) {
        Ok(text) => refusal_naming(alloc, code, text.as_str()),
        Err(NoMemory) => Stop::NoMemory,
    }
}
