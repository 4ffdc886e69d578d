ghost use Rattle.std.specs.Prelude.{◌≡◌, Some, IfOk};
ghost use Rattle.std.specs.Option.{option_copied};
ghost use Rattle.sql_expr.specs.Literals as spec;
ghost use Rattle.sql_expr.specs.Reading.{Reads, taken};

use crate::Cursor;
use q_base::{Code, NoMemory, Stop, Str, refusal};
use sql_tokens::{Sign, Token};
use sql_tree::{Literal, Numeral};
use std::alloc::Global;

fn literal_of_word(word: &str) -> Option<Literal>
    ensures { result ≡ spec.literal_of_word word.now }
{
    if word == "null" {
        Some(Literal::Null)
    } else if word == "true" {
        Some(Literal::Bool(true))
    } else if word == "false" {
        Some(Literal::Bool(false))
    } else {
        None
    }
}

/// The constant that a token is: a number, a string, NULL, TRUE or FALSE.
pub(crate) fn literal_of(alloc: Global, token: &Token) -> Result<Option<Literal>, NoMemory>
    ensures { IfOk result (λ literal. literal ≡ spec.literal_of token.now) }
{
    match token {
        Token::Number(digits) => Ok(Some(Literal::Number(Numeral {
            negative: false,
            digits: digits.copy(alloc)?,
        }))),
        Token::Text(text) => Ok(Some(Literal::Text(text.copy(alloc)?))),
        Token::Word(word) => Ok(literal_of_word(word.as_str())),
        _ => Ok(None),
    }
}

/// Goes past a constant without a sign, if one comes next, and gives it.
#[tactic(auto, unfolding(crate::specs::Reading::taken))]
pub fn eat_literal(alloc: Global, cursor: &mut Cursor<'_>) -> Result<Option<Literal>, Stop>
    ensures { Reads (taken spec.literal_of cursor.old) result cursor.new }
{
    let Some(token) = cursor.peek() else {
        return Ok(None);
    };
    let Some(literal) = literal_of(alloc, token)? else {
        return Ok(None);
    };
    cursor.skip();
    Ok(Some(literal))
}

fn digits_of(token: &Token) -> Option<&Str>
    ensures { option_copied result ≡ spec.digits_of token.now }
{
    match token {
        Token::Number(digits) => Some(digits),
        _ => None,
    }
}

/// Goes past a number without a sign, if one comes next, and gives its digits.
#[tactic(auto, unfolding(crate::specs::Reading::taken))]
pub fn eat_digits<'a>(cursor: &mut Cursor<'a>) -> Option<&'a Str>
    ensures { taken spec.digits_of cursor.old ≡ Some (option_copied result, cursor.new) }
{
    let digits = digits_of(cursor.peek()?)?;
    cursor.skip();
    Some(digits)
}

fn param_of(token: &Token) -> Option<&Str>
    ensures { option_copied result ≡ spec.param_of token.now }
{
    match token {
        Token::Param(digits) => Some(digits),
        _ => None,
    }
}

/// Goes past a parameter, if one comes next, and gives its digits.
#[tactic(auto, unfolding(crate::specs::Reading::taken))]
pub fn eat_param<'a>(cursor: &mut Cursor<'a>) -> Option<&'a Str>
    ensures { taken spec.param_of cursor.old ≡ Some (option_copied result, cursor.new) }
{
    let digits = param_of(cursor.peek()?)?;
    cursor.skip();
    Some(digits)
}

/// A number with an optional minus before it. 42601 where none comes next.
#[tactic(auto, unfolding(crate::specs::Literals::numeral))]
pub fn numeral(alloc: Global, cursor: &mut Cursor<'_>) -> Result<Numeral, Stop>
    ensures { Reads (spec.numeral cursor.old) result cursor.new }
{
    let negative = cursor.eat_sign(Sign::Minus);
    match eat_digits(cursor) {
        Some(digits) => Ok(Numeral {
            negative,
            digits: digits.copy(alloc)?,
        }),
        None => Err(refusal(alloc, Code::SyntaxError)),
    }
}
