ghost use Rattle.std.specs.Prelude.{◌≡◌, IfOk};
ghost use Rattle.cat_commands.specs.Numbers as spec;

use q_base::{NoMemory, Stop, Str};
use q_value::{SqlType, Value, parse_value};
use sql_tree::Numeral;
use std::alloc::Global;

/// The number that a numeral writes; `None` where no bigint is that number.
pub(crate) fn number_of(alloc: Global, numeral: &Numeral) -> Result<Option<i64>, NoMemory>
    ensures { IfOk result (λ number. number ≡ spec.number_of numeral.now) }
{
    if numeral.negative {
        let text = with_minus(alloc, numeral.digits.as_str())?;
        bigint_of(alloc, text.as_str())
    } else {
        bigint_of(alloc, numeral.digits.as_str())
    }
}

#[tactic(auto, unfolding(crate::specs::Numbers::bigint_of))]
fn bigint_of(alloc: Global, text: &str) -> Result<Option<i64>, NoMemory>
    ensures { IfOk result (λ number. number ≡ spec.bigint_of text.now) }
{
    match parse_value(alloc, text, SqlType::Int8) {
        Ok(value) => Ok(value.number()),
        Err(Stop::Sql(_)) => Ok(None),
        Err(Stop::NoMemory) => Err(NoMemory),
    }
}

fn with_minus(alloc: Global, digits: &str) -> Result<Str, NoMemory>
    ensures { IfOk result (λ text. text ≡ spec.with_minus digits.now) }
{
    let mut text = String::from_str(alloc, "-")?;
    text.push_str(digits)?;
    Ok(Str::new(text))
}

/// A number as an integer, else a bigint (PostgreSQL's manual, "Numeric Constants").
pub(crate) fn narrowest(number: i64) -> Value
    ensures { result ≡ spec.narrowest number }
{
    match Value::integer(number, SqlType::Int4) {
        Some(narrow) => narrow,
        None => Value::Int8(number),
    }
}
