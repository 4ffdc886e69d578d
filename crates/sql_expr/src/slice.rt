ghost use Rattle.std.specs.Prelude.{◌≡◌, ◌≤◌, [], length, drop, IfOk, IfErr};
ghost use Rattle.q_base.specs.Stops.{StopsBy};
ghost use Rattle.sql_expr.specs.Load.{load_of};
ghost use Rattle.sql_tree.specs.declared.expr.Expr.{Expr};
ghost use Rattle.sql_expr.specs.Reading.{Tokens};
ghost use Rattle.sql_expr.specs.Expressions as spec;
ghost use Rattle.sql_expr.specs.Ended.{is_ended, continues_by_word, continues_by_sign, where_ended, IsToldOf, IsLongest};
ghost use Rattle.sql_expr.specs.Grammar as grammar;

use crate::{Cursor, expression};
use q_base::{Code, NoMemory, Stop, refusal};
use sql_tokens::{Sign, Token};
use sql_tree::Expr;
use std::alloc::Global;

/// The longest expression that starts at token `at`, and the number of the token behind it: of `1 + )` that is `1`.
/// 42601 exactly where none starts there. It takes one reading more for each operator behind the expression.
///
/// The load of all the tokens, as `load` gives it, has to be at most 200, and `at` at most their number.
pub fn read_expr(alloc: Global, tokens: &[Token], at: usize) -> Result<(Expr, usize), Stop>
    requires load { load_of tokens.now ≤ 200 }
    requires within { at ≤ length tokens.now }
    ensures longest { IfOk result (λ read. (read.1 ≤ length tokens.now) × grammar.longest (drop at tokens.now) read.0 (drop read.1 tokens.now)) }
    ensures none { IfErr result (StopsBy (λ error. (error ≡ record { code = Code.SyntaxError; args = [] })
        × ((expr : Expr) (behind : Tokens) → grammar.expression (drop at tokens.now) expr behind → ⊥))) }
{
    match longest(alloc, &tokens[at..])? {
        Some((expr, length)) => Ok((expr, at + length)),
        None => Err(refusal(alloc, Code::SyntaxError)),
    }
}

/// The longest expression that begins the tokens, and how many of them it takes.
fn longest(alloc: Global, tokens: &[Token]) -> Result<Option<(Expr, usize)>, NoMemory>
    ensures { IfOk result (IsLongest tokens.now) }
{
    if let Some(read) = read_ended(alloc, tokens)? {
        return Ok(Some(read));
    }
    for turn in 0..tokens.len() {
        let cut = tokens.len() - 1 - turn;
        if !is_ended(&tokens[cut..]) {
            if let Some(read) = read_ended(alloc, &tokens[..cut])? {
                return Ok(Some(read));
            }
        }
    }
    Ok(None)
}

/// The expression that is read, where nothing behind it could have gone on with it, and how many tokens it takes.
fn read_ended(alloc: Global, tokens: &[Token]) -> Result<Option<(Expr, usize)>, NoMemory>
    ensures { IfOk result (IsToldOf tokens.now (where_ended (spec.expression tokens.now))) }
{
    let mut cursor = Cursor::new(tokens);
    match expression(alloc, &mut cursor) {
        Ok(expr) => {
            let length = tokens.len() - cursor.left();
            Ok(is_ended(&tokens[length..]).then_some((expr, length)))
        }
        Err(Stop::Sql(_)) => Ok(None),
        Err(Stop::NoMemory) => Err(NoMemory),
    }
}

/// Whether no token comes next that can go on with an expression.
fn is_ended(tokens: &[Token]) -> bool
    ensures { result ≡ is_ended tokens.now }
{
    match tokens {
        [Token::Word(word), ..] => !continues_by_word(word.as_str()),
        [Token::Sign(sign), ..] => !continues_by_sign(*sign),
        _ => true,
    }
}

fn continues_by_word(word: &str) -> bool
    ensures { result ≡ continues_by_word word.now }
{
    word == "or"
        || word == "and"
        || word == "is"
        || word == "not"
        || word == "in"
        || word == "between"
}

fn continues_by_sign(sign: Sign) -> bool
    ensures { result ≡ continues_by_sign sign }
{
    matches!(
        sign,
        Sign::Equal
            | Sign::NotEqual
            | Sign::Less
            | Sign::LessEqual
            | Sign::Greater
            | Sign::GreaterEqual
            | Sign::Plus
            | Sign::Minus
            | Sign::Star
            | Sign::Slash
            | Sign::LeftParen
            | Sign::Dot
    )
}
