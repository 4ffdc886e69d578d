//! Numbers of rows:
//!
//! ```text
//! integer = ["-"] count
//! count   = NUMBER      -- at most 2147483647
//! ```

ghost use Rattle.std.specs.Prelude.{◌≡◌, ◌+◌, ◌-◌, ◌*◌, ◌≤◌, IfOk, IfSome};
ghost use Rattle.sql_expr.specs.Reading.{Reads};
ghost use Rattle.sql_reader_session.specs.Numbers as spec;

use q_base::{Code, Stop, refusal};
use sql_expr::{Cursor, eat_digits};
use sql_tokens::{Sign, Token};
use std::alloc::Global;

const GREATEST: u32 = 2_147_483_647;

/// A number without a sign. 42601 where none comes next, and for one past 2147483647.
#[tactic(auto, unfolding(crate::specs::Numbers::count))]
pub(crate) fn count(alloc: Global, cursor: &mut Cursor<'_>) -> Result<u32, Stop>
    ensures read { Reads (spec.count cursor.old) result cursor.new }
    ensures within { IfOk result (λ n. n ≤ 2147483647) }
{
    let Some(digits) = eat_digits(cursor) else {
        return Err(refusal(alloc, Code::SyntaxError));
    };
    match number_of(digits.as_str()) {
        Some(number) => Ok(number),
        None => Err(refusal(alloc, Code::SyntaxError)),
    }
}

/// A number with an optional minus before it. 42601 where none comes next, and for one past 2147483647 on
/// either side of 0.
#[tactic(auto, unfolding(crate::specs::Numbers::integer))]
pub(crate) fn integer(alloc: Global, cursor: &mut Cursor<'_>) -> Result<i32, Stop>
    ensures { Reads (spec.integer cursor.old) result cursor.new }
{
    let negative = cursor.eat_sign(Sign::Minus);
    let number = count(alloc, cursor)?;
    Ok(signed(negative, number))
}

fn signed(negative: bool, number: u32) -> i32
    requires { number ≤ 2147483647 }
    ensures { result ≡ spec.signed negative number }
{
    if negative {
        -(number as i32)
    } else {
        number as i32
    }
}

/// Whether a number or a minus comes next.
#[tactic(auto, unfolding(crate::specs::Numbers::begins_integer))]
fn begins_integer(cursor: &Cursor<'_>) -> bool
    ensures { result ≡ spec.begins_integer cursor.now }
{
    matches!(
        cursor.peek(),
        Some(Token::Number(_) | Token::Sign(Sign::Minus))
    )
}

/// An integer, where a number or a minus comes next.
#[tactic(auto, unfolding(crate::specs::Numbers::optional_integer))]
pub(crate) fn optional_integer(alloc: Global, cursor: &mut Cursor<'_>) -> Result<Option<i32>, Stop>
    ensures { Reads (spec.optional_integer cursor.old) result cursor.new }
{
    if begins_integer(cursor) {
        Ok(Some(integer(alloc, cursor)?))
    } else {
        Ok(None)
    }
}

/// The number that decimal digits write; `None` exactly where it is past 2147483647.
fn number_of(digits: &str) -> Option<u32>
    ensures number { result ≡ spec.number_of digits.now }
    ensures within { IfSome result (λ n. n ≤ 2147483647) }
{
    read_digits(digits.as_bytes())
}

fn read_digits(digits: &[u8]) -> Option<u32>
    ensures number { result ≡ spec.number_after 0 digits.now }
    ensures within { IfSome result (λ n. n ≤ 2147483647) }
{
    let mut number = 0;
    for digit in digits {
        match with_digit(number, *digit) {
            Some(next) => number = next,
            None => return None,
        }
    }
    Some(number)
}

fn with_digit(number: u32, digit: u8) -> Option<u32>
    ensures number { result ≡ spec.within (number * 10 + (digit - 48)) }
    ensures within { IfSome result (λ n. n ≤ 2147483647) }
{
    let next = number
        .checked_mul(10)?
        .checked_add(u32::from(digit.saturating_sub(b'0')))?;
    if next <= GREATEST { Some(next) } else { None }
}
