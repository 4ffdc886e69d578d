ghost use Rattle.std.specs.Prelude.{◌≡◌, IfOk};
ghost use Rattle.std.specs.Fmt.{signed_decimal};
ghost use Rattle.q_value.specs.Answers.{Answers};
ghost use Rattle.q_value.specs.Values.{IsOf};
ghost use Rattle.q_value.specs.Conversions.{converted, integer_converted, truth_text};

use crate::{SqlType, Value};
use q_base::{Code, NoMemory, Stop, Str, refusal};
use std::alloc::Global;

/// The value as it is assigned to a column or a parameter of type `to`: integers to one another,
/// integers and booleans to text, and every type and null to itself (PostgreSQL's manual, "Value
/// Storage"; the choice of conversions is this project's own).
///
/// Refused as 42804, without arguments, where there is no conversion: the caller knows both types and
/// the column. Refused as 22003 where a number is out of the range of `to`.
pub fn convert(alloc: Global, value: Value, to: SqlType) -> Result<Value, Stop>
    ensures converted { Answers (converted to value) result }
    ensures typed { IfOk result (IsOf to) }
{
    match (value, to) {
        (Value::Null, _) => Ok(Value::Null),
        (Value::Int2(number), _) => convert_integer(alloc, i64::from(number), to),
        (Value::Int4(number), _) => convert_integer(alloc, i64::from(number), to),
        (Value::Int8(number), _) => convert_integer(alloc, number, to),
        (Value::Text(text), SqlType::Text) => Ok(Value::Text(text)),
        (Value::Bool(truth), SqlType::Bool) => Ok(Value::Bool(truth)),
        (Value::Bool(truth), SqlType::Text) => {
            Ok(Value::Text(Str::from_text(alloc, truth_name(truth))?))
        }
        _ => Err(refusal(alloc, Code::ColumnTypeMismatch)),
    }
}

fn convert_integer(alloc: Global, number: i64, to: SqlType) -> Result<Value, Stop>
    ensures { Answers (integer_converted to number) result }
{
    let out_of_range = match to {
        SqlType::Int2 => Code::SmallintOutOfRange,
        SqlType::Int4 => Code::IntegerOutOfRange,
        SqlType::Int8 => Code::BigintOutOfRange,
        SqlType::Text => return Ok(Value::Text(integer_text(alloc, number)?)),
        SqlType::Bool => Code::ColumnTypeMismatch,
    };
    match Value::integer(number, to) {
        Some(value) => Ok(value),
        None => Err(refusal(alloc, out_of_range)),
    }
}

fn integer_text(alloc: Global, number: i64) -> Result<Str, NoMemory>
    ensures { IfOk result (λ text. text ≡ signed_decimal number) }
{
    Ok(Str::new(number.to_string(alloc)?))
}

fn truth_name(truth: bool) -> &'static str
    ensures { result.now ≡ truth_text truth }
{
    if truth { "true" } else { "false" }
}
