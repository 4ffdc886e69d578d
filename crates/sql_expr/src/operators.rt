ghost use Rattle.std.specs.Prelude.{◌≡◌, Some};
ghost use Rattle.sql_expr.specs.Operators as spec;
ghost use Rattle.sql_expr.specs.Reading.{taken};

use crate::Cursor;
use sql_tokens::{Sign, Token};
use sql_tree::{Arithmetic, Comparison};

fn comparison_of(token: &Token) -> Option<Comparison>
    ensures { result ≡ spec.comparison_of token.now }
{
    match token {
        Token::Sign(Sign::Equal) => Some(Comparison::Equal),
        Token::Sign(Sign::NotEqual) => Some(Comparison::NotEqual),
        Token::Sign(Sign::Less) => Some(Comparison::Less),
        Token::Sign(Sign::LessEqual) => Some(Comparison::LessEqual),
        Token::Sign(Sign::Greater) => Some(Comparison::Greater),
        Token::Sign(Sign::GreaterEqual) => Some(Comparison::GreaterEqual),
        _ => None,
    }
}

/// Goes past `= <> < <= > >=`, if one of them comes next.
#[tactic(auto, unfolding(crate::specs::Reading::taken))]
pub(crate) fn eat_comparison(cursor: &mut Cursor<'_>) -> Option<Comparison>
    ensures { taken spec.comparison_of cursor.old ≡ Some (result, cursor.new) }
{
    let operator = comparison_of(cursor.peek()?)?;
    cursor.skip();
    Some(operator)
}

fn additive_of(token: &Token) -> Option<Arithmetic>
    ensures { result ≡ spec.additive_of token.now }
{
    match token {
        Token::Sign(Sign::Plus) => Some(Arithmetic::Add),
        Token::Sign(Sign::Minus) => Some(Arithmetic::Subtract),
        _ => None,
    }
}

/// Goes past `+` or `-`, if one of them comes next.
#[tactic(auto, unfolding(crate::specs::Reading::taken))]
pub(crate) fn eat_additive(cursor: &mut Cursor<'_>) -> Option<Arithmetic>
    ensures { taken spec.additive_of cursor.old ≡ Some (result, cursor.new) }
{
    let operator = additive_of(cursor.peek()?)?;
    cursor.skip();
    Some(operator)
}

fn multiplicative_of(token: &Token) -> Option<Arithmetic>
    ensures { result ≡ spec.multiplicative_of token.now }
{
    match token {
        Token::Sign(Sign::Star) => Some(Arithmetic::Multiply),
        Token::Sign(Sign::Slash) => Some(Arithmetic::Divide),
        _ => None,
    }
}

/// Goes past `*` or `/`, if one of them comes next.
#[tactic(auto, unfolding(crate::specs::Reading::taken))]
pub(crate) fn eat_multiplicative(cursor: &mut Cursor<'_>) -> Option<Arithmetic>
    ensures { taken spec.multiplicative_of cursor.old ≡ Some (result, cursor.new) }
{
    let operator = multiplicative_of(cursor.peek()?)?;
    cursor.skip();
    Some(operator)
}
