ghost use Rattle.std.specs.Prelude.{◌≡◌, []};
ghost use Rattle.std.specs.Option.{option_copied};
ghost use Rattle.q_value.specs.Answers.{Answers};
ghost use Rattle.expr_analysis.specs.Types as spec;

use q_base::{Code, ListOf, Stop, Str, Table, refusal, refusal_naming};
use q_value::{SqlType, TypeList};
use std::alloc::Global;

/// The names of types (PostgreSQL's manual, "Data Types").
const TYPE_NAMES: [(&str, SqlType); 10] = [
    ("bigint", SqlType::Int8),
    ("bool", SqlType::Bool),
    ("boolean", SqlType::Bool),
    ("int", SqlType::Int4),
    ("int2", SqlType::Int2),
    ("int4", SqlType::Int4),
    ("int8", SqlType::Int8),
    ("integer", SqlType::Int4),
    ("smallint", SqlType::Int2),
    ("text", SqlType::Text),
];

/// The type of a name, in small letters; `None` where no type has it.
pub fn type_named(name: &str) -> Option<SqlType>
    ensures { result ≡ spec.type_named name.now }
{
    let table: Table<'_, &str, SqlType, 10> = Table::new(&TYPE_NAMES);
    table.find(&name).copied()
}

/// The types that PREPARE declares. The first name of no type is 42704; more than 64 types are 54000.
#[tactic(auto, unfolding(crate::specs::Types::declared_types))]
pub fn declared_types(alloc: Global, names: &[Str]) -> Result<TypeList, Stop>
    ensures { Answers (spec.declared_types names.now) result }
{
    let types = named_types(alloc, names)?;
    if 64 < names.len() {
        return Err(refusal(alloc, Code::LimitExceeded));
    }
    Ok(types)
}

fn named_types(alloc: Global, names: &[Str]) -> Result<TypeList, Stop>
    ensures { Answers (spec.types_from [] names.now) result }
{
    let mut types = ListOf::new(alloc);
    for name in names {
        match type_named(name.as_str()) {
            Some(kind) => types.push(kind)?,
            None => return Err(refusal_naming(alloc, Code::UnknownType, name.as_str())),
        }
    }
    Ok(types)
}
