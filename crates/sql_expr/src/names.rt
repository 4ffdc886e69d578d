ghost use Rattle.std.specs.Prelude.{◌≡◌, Some};
ghost use Rattle.std.specs.Option.{option_copied};
ghost use Rattle.sql_expr.specs.Names as spec;
ghost use Rattle.sql_expr.specs.Reading.{Reads};

use crate::Cursor;
use q_base::{Code, Stop, Str, Table, refusal};
use sql_tokens::Token;
use std::alloc::Global;

/// The words that are names only between quotes.
const RESERVED: [(&str, ()); 40] = [
    ("all", ()),
    ("and", ()),
    ("as", ()),
    ("asc", ()),
    ("between", ()),
    ("by", ()),
    ("create", ()),
    ("cross", ()),
    ("default", ()),
    ("desc", ()),
    ("distinct", ()),
    ("false", ()),
    ("for", ()),
    ("from", ()),
    ("group", ()),
    ("having", ()),
    ("in", ()),
    ("inner", ()),
    ("into", ()),
    ("is", ()),
    ("join", ()),
    ("limit", ()),
    ("not", ()),
    ("null", ()),
    ("offset", ()),
    ("on", ()),
    ("or", ()),
    ("order", ()),
    ("primary", ()),
    ("returning", ()),
    ("select", ()),
    ("set", ()),
    ("table", ()),
    ("to", ()),
    ("true", ()),
    ("union", ()),
    ("unique", ()),
    ("values", ()),
    ("where", ()),
    ("with", ()),
];

/// Whether a word is a name only between quotes. PostgreSQL reserves more words (its manual, "SQL Key
/// Words"); this list is this project's own.
pub fn is_reserved(word: &str) -> bool
    ensures { result ≡ spec.is_reserved word.now }
{
    let table: Table<'_, &str, (), 40> = Table::new(&RESERVED);
    table.find(&word).is_some()
}

/// The name that a token is.
fn name_of(token: &Token) -> Option<&Str>
    ensures { option_copied result ≡ spec.name_of token.now }
{
    match token {
        Token::Word(word) if !is_reserved(word.as_str()) => Some(word),
        Token::Quoted(name) => Some(name),
        _ => None,
    }
}

/// Whether a name comes next.
#[tactic(auto, unfolding(crate::specs::Names::sees_name))]
pub fn sees_name(cursor: &Cursor<'_>) -> bool
    ensures { result ≡ spec.sees_name cursor.now }
{
    match cursor.peek() {
        Some(token) => name_of(token).is_some(),
        None => false,
    }
}

/// Goes past a name, if it comes next, and gives it.
#[tactic(auto, unfolding(crate::specs::Reading::taken))]
pub fn eat_name<'a>(cursor: &mut Cursor<'a>) -> Option<&'a Str>
    ensures name { spec.given_name cursor.old ≡ Some (option_copied result, cursor.new) }
{
    let name = name_of(cursor.peek()?)?;
    cursor.skip();
    Some(name)
}

/// A name. 42601 where none comes next.
pub fn name(alloc: Global, cursor: &mut Cursor<'_>) -> Result<Str, Stop>
    ensures { Reads (spec.name cursor.old) result cursor.new }
{
    match eat_name(cursor) {
        Some(name) => Ok(name.copy(alloc)?),
        None => Err(refusal(alloc, Code::SyntaxError)),
    }
}
