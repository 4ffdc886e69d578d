ghost use Rattle.std.specs.Prelude.{◌≡◌};
ghost use Rattle.q_value.specs.Answers.{Answers};
ghost use Rattle.cat_commands.specs.Types as spec;

use q_base::{Code, Stop, Table, refusal_naming};
use q_value::SqlType;
use std::alloc::Global;

/// The names of types (PostgreSQL's manual, "Data Types").
const TYPE_NAMES: [(&str, SqlType); 10] = [
    ("bigint", SqlType::Int8),
    ("bool", SqlType::Bool),
    ("boolean", SqlType::Bool),
    ("int", SqlType::Int4),
    ("int2", SqlType::Int2),
    ("int4", SqlType::Int4),
    ("int8", SqlType::Int8),
    ("integer", SqlType::Int4),
    ("smallint", SqlType::Int2),
    ("text", SqlType::Text),
];

/// The type of a name, in small letters; `None` where no type has it.
fn type_named(name: &str) -> Option<SqlType>
    ensures { result ≡ spec.type_named name.now }
{
    let table: Table<'_, &str, SqlType, 10> = Table::new(&TYPE_NAMES);
    table.find(&name).copied()
}

/// The type of a name, else 42704.
pub(crate) fn column_type(alloc: Global, name: &str) -> Result<SqlType, Stop>
    ensures { Answers (spec.column_type name.now) result }
{
    match type_named(name) {
        Some(kind) => Ok(kind),
        None => Err(refusal_naming(alloc, Code::UnknownType, name)),
    }
}

/// Integers to one another, integers and booleans to text, and every type to itself.
pub(crate) fn is_assignable(from: SqlType, to: SqlType) -> bool
    ensures { result ≡ spec.is_assignable from to }
{
    match (from, to) {
        (_, SqlType::Text) => true,
        (SqlType::Int2 | SqlType::Int4 | SqlType::Int8, SqlType::Bool) => false,
        (SqlType::Int2 | SqlType::Int4 | SqlType::Int8, _) => true,
        (SqlType::Bool, SqlType::Bool) => true,
        (SqlType::Bool | SqlType::Text, _) => false,
    }
}
