ghost use Rattle.std.specs.Prelude.{◌≡◌, IfOk};
ghost use Rattle.q_value.specs.Answers.{Answers};
ghost use Rattle.expr_analysis.specs.Numbers as spec;

use q_base::{Code, NoMemory, Stop, Str, refusal};
use q_value::{SqlType, Value, parse_value};
use query_tree::Target;
use sql_tree::Numeral;
use std::alloc::Global;

/// The number that digits write, with a minus before them or none; `None` where no bigint is that number.
pub fn number_of(alloc: Global, negative: bool, digits: &str) -> Result<Option<i64>, NoMemory>
    ensures { IfOk result (λ number. number ≡ spec.number_of negative digits.now) }
{
    if negative {
        let text = with_minus(alloc, digits)?;
        bigint_of(alloc, text.as_str())
    } else {
        bigint_of(alloc, digits)
    }
}

#[tactic(auto, unfolding(crate::specs::Numbers::bigint_of))]
fn bigint_of(alloc: Global, text: &str) -> Result<Option<i64>, NoMemory>
    ensures { IfOk result (λ number. number ≡ spec.bigint_of text.now) }
{
    match parse_value(alloc, text, SqlType::Int8) {
        Ok(value) => Ok(value.number()),
        Err(Stop::Sql(_)) => Ok(None),
        Err(Stop::NoMemory) => Err(NoMemory),
    }
}

fn with_minus(alloc: Global, digits: &str) -> Result<Str, NoMemory>
    ensures { IfOk result (λ text. text ≡ spec.with_minus digits.now) }
{
    let mut text = String::from_str(alloc, "-")?;
    text.push_str(digits)?;
    Ok(Str::new(text))
}

/// The digits without the zeros before them.
fn without_zeros(digits: &str) -> &str
    ensures { result.now ≡ spec.without_zeros digits.now }
{
    let mut rest = digits;
    while let Some(shorter) = rest.strip_prefix("0") {
        rest = shorter;
    }
    rest
}

/// A number as refusals show it: without zeros before it, also past bigint.
#[tactic(auto, unfolding(crate::specs::Numbers::shown_number))]
pub fn shown_number(alloc: Global, negative: bool, digits: &str) -> Result<Str, NoMemory>
    ensures { IfOk result (λ text. text ≡ spec.shown_number negative digits.now) }
{
    match number_of(alloc, negative, digits)? {
        Some(number) => Ok(Str::new(number.to_string(alloc)?)),
        None if negative => with_minus(alloc, without_zeros(digits)),
        None => Str::from_text(alloc, without_zeros(digits)),
    }
}

/// A number as a constant: an integer, else a bigint (PostgreSQL's manual, "Numeric Constants"), and past
/// that 22003, where PostgreSQL makes it a numeric.
#[tactic(auto, unfolding(crate::specs::Numbers::number_constant))]
pub fn number_constant(alloc: Global, numeral: &Numeral) -> Result<Target, Stop>
    ensures { Answers (spec.number_constant numeral.now) result }
{
    match number_of(alloc, numeral.negative, numeral.digits.as_str())? {
        Some(number) => Ok(narrowest(number)),
        None => Err(refusal(alloc, Code::BigintOutOfRange)),
    }
}

fn narrowest(number: i64) -> Target
    ensures { result ≡ spec.narrowest number }
{
    match Value::integer(number, SqlType::Int4) {
        Some(value) => Target::Const(SqlType::Int4, value),
        None => Target::Const(SqlType::Int8, Value::Int8(number)),
    }
}

/// A number as a bigint, past which it is 22003.
#[tactic(auto, unfolding(crate::specs::Numbers::bigint_constant))]
pub fn bigint_constant(alloc: Global, numeral: &Numeral) -> Result<Target, Stop>
    ensures { Answers (spec.bigint_constant numeral.now) result }
{
    match number_of(alloc, numeral.negative, numeral.digits.as_str())? {
        Some(number) => Ok(Target::Const(SqlType::Int8, Value::Int8(number))),
        None => Err(refusal(alloc, Code::BigintOutOfRange)),
    }
}
