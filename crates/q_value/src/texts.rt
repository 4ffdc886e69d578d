ghost use Rattle.std.specs.Prelude.{◌≡◌, IsTrue, IfOk, IfSome};
ghost use Rattle.q_value.specs.Answers.{Answers};
ghost use Rattle.q_value.specs.Values.{IsOf, integer_in};
ghost use Rattle.q_value.specs.Parse.{bare_text, is_integer, is_front_of, is_true, is_false, truth_of, integer_parsed, integer_of, parsed};
ghost use Rattle.std.specs.Char.{is_ascii_digit};
ghost use Rattle.std.specs.List.{list_all};
ghost use Rattle.std.specs.Str.Parse.{signed_digits_value, without_leading_sign};

use crate::{SqlType, Value};
use q_base::{Code, Stop, Str, refusal_naming_two};
use std::alloc::Global;

/// The value of type `to` that `text` writes, with blanks around it where `to` isn't text: an
/// optional sign and digits for an integer; for a boolean 1, on, 0, of, off, and each beginning of
/// true, yes, false and no, in any case (PostgreSQL's manual, "Numeric Types" and "Boolean Type").
///
/// Refused as 22P02 where it writes none, and as 22003 where its number is out of the type's range.
pub fn parse_value(alloc: Global, text: &str, to: SqlType) -> Result<Value, Stop>
    ensures parsed { Answers (parsed to text.now) result }
    ensures typed { IfOk result (IsOf to) }
{
    match to {
        SqlType::Int2 | SqlType::Int4 | SqlType::Int8 => parse_integer(alloc, text, to),
        SqlType::Text => Ok(Value::Text(Str::from_text(alloc, text)?)),
        SqlType::Bool => match truth(bare(text)) {
            Some(truth) => Ok(Value::Bool(truth)),
            None => Err(refusal_naming_two(alloc, Code::InvalidTextForType, to.name(), text)),
        },
    }
}

fn parse_integer(alloc: Global, text: &str, to: SqlType) -> Result<Value, Stop>
    ensures parsed { Answers (integer_parsed to text.now (integer_of (bare_text text.now))) result }
    ensures typed { IfOk result (IsOf to) }
{
    let bare = bare(text);
    if !is_number(bare.as_bytes()) {
        return Err(refusal_naming_two(alloc, Code::InvalidTextForType, to.name(), text));
    }
    match narrowed(bare, to) {
        Some(value) => Ok(value),
        None => Err(refusal_naming_two(alloc, Code::ValueOutOfRange, text, to.name())),
    }
}

/// The text without the blanks around it.
fn bare(text: &str) -> &str
    ensures { result.now ≡ bare_text text.now }
{
    text.trim_ascii()
}

fn is_number(bare: &[u8]) -> bool
    ensures { result ≡ is_integer bare.now }
{
    let digits = unsigned(bare);
    !digits.is_empty() && are_digits(digits)
}

fn unsigned(bare: &[u8]) -> &[u8]
    ensures { result.now ≡ without_leading_sign bare.now }
{
    match bare {
        [b'+' | b'-', digits @ ..] => digits,
        _ => bare,
    }
}

fn are_digits(digits: &[u8]) -> bool
    ensures { result ≡ list_all is_ascii_digit digits.now }
{
    digits.iter().all(|byte| byte.is_ascii_digit())
}

fn truth(bare: &str) -> Option<bool>
    ensures { result ≡ truth_of bare.now }
{
    if is_true_text(bare) {
        Some(true)
    } else if is_false_text(bare) {
        Some(false)
    } else {
        None
    }
}

fn is_true_text(bare: &str) -> bool
    ensures { result ≡ is_true bare.now }
{
    begins("true", bare)
        || begins("yes", bare)
        || bare.eq_ignore_ascii_case("on")
        || bare.eq_ignore_ascii_case("1")
}

fn is_false_text(bare: &str) -> bool
    ensures { result ≡ is_false bare.now }
{
    begins("false", bare)
        || begins("no", bare)
        || bare.eq_ignore_ascii_case("of")
        || bare.eq_ignore_ascii_case("off")
        || bare.eq_ignore_ascii_case("0")
}

/// Tells whether `bare` is the first letters of `word`, one at least, in any case.
fn begins(word: &str, bare: &str) -> bool
    ensures { result ≡ is_front_of word.now bare.now }
{
    match word.as_bytes().get(..bare.len()) {
        Some(front) => !bare.is_empty() && bare.as_bytes().eq_ignore_ascii_case(front),
        None => false,
    }
}

/// The number that `bare` writes, which is a sign or none and digits, as a value of type `to`.
fn narrowed(bare: &str, to: SqlType) -> Option<Value>
    requires { IsTrue (is_integer bare.now) }
    ensures value { result ≡ integer_in to (signed_digits_value 10 bare.now) }
    ensures typed { IfSome result (IsOf to) }
{
    match bare.parse::<i64>() {
        Ok(number) => Value::integer(number, to),
        Err(_) => None,
    }
}
