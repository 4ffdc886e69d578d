ghost use Rattle.std.specs.Prelude.{◌≡◌};
ghost use Rattle.std.specs.Option.{option_copied};
ghost use Rattle.sql_tokens.specs.Tokens.{Gives, Takes, token_at, backslash_at, word_at, identifier_of, quoted_at, text_at, content_at, after_character, number_at, param_at, sign_at, long_sign, short_sign};

use super::Place;
use super::characters::{Class, begins_word, folded_text, split_run, text_of};
use crate::{Sign, Token};
use q_base::{Code, Stop, Str, refusal, refusal_naming};
use std::alloc::Global;

/// The most bytes of an identifier, as PostgreSQL's NAMEDATALEN less one.
const MAX_IDENTIFIER: usize = 63;

/// The longest token that the characters begin with, and the characters after it.
#[tactic(auto, unfolding(crate::specs::Tokens::token_at))]
pub(crate) fn read_token<'a>(
    alloc: Global,
    place: Place,
    characters: &'a [char],
) -> Result<(Token, &'a [char]), Stop>
    ensures { Takes (token_at place characters.now) result }
{
    let [first, more @ ..] = characters else {
        return Err(refusal(alloc, Code::SyntaxError));
    };
    match *first {
        '\\' if place.is_start() => read_backslash(alloc, more),
        '\'' => read_text(alloc, more),
        '"' => read_quoted(alloc, more),
        '$' => read_param(alloc, more),
        first if begins_word(first) => read_word(alloc, characters),
        first if first.is_ascii_digit() => read_number(alloc, characters),
        _ => read_sign(alloc, characters),
    }
}

/// The letters of a backslash command, after its `\`.
#[tactic(auto, unfolding(crate::specs::Tokens::backslash_at))]
fn read_backslash(alloc: Global, characters: &[char]) -> Result<(Token, &[char]), Stop>
    ensures { Takes (backslash_at characters.now) result }
{
    let (letters, rest) = split_run(Class::Letter, characters);
    Ok((Token::Backslash(text_of(alloc, letters)?), rest))
}

#[tactic(auto, unfolding(crate::specs::Tokens::word_at))]
fn read_word(alloc: Global, characters: &[char]) -> Result<(Token, &[char]), Stop>
    ensures { Takes (word_at characters.now) result }
{
    let (word, rest) = split_run(Class::InWord, characters);
    let name = identifier(alloc, folded_text(alloc, word)?)?;
    Ok((Token::Word(name), rest))
}

/// The name, unless it is too long for an identifier.
#[tactic(auto, unfolding(crate::specs::Tokens::identifier_of))]
fn identifier(alloc: Global, name: Str) -> Result<Str, Stop>
    ensures { Gives (identifier_of name) result }
{
    if name.as_str().len() > MAX_IDENTIFIER {
        return Err(refusal_naming(alloc, Code::IdentifierTooLong, name.as_str()));
    }
    Ok(name)
}

/// A quoted identifier, after the quote that begins it.
#[tactic(auto, unfolding(crate::specs::Tokens::quoted_at))]
fn read_quoted(alloc: Global, characters: &[char]) -> Result<(Token, &[char]), Stop>
    ensures { Takes (quoted_at characters.now) result }
{
    let (content, rest) = read_content(alloc, '"', characters)?;
    if content.as_str().is_empty() {
        return Err(refusal(alloc, Code::SyntaxError));
    }
    let name = identifier(alloc, content)?;
    Ok((Token::Quoted(name), rest))
}

/// A string, after the quote that begins it.
#[tactic(auto, unfolding(crate::specs::Tokens::text_at))]
fn read_text(alloc: Global, characters: &[char]) -> Result<(Token, &[char]), Stop>
    ensures { Takes (text_at characters.now) result }
{
    let (content, rest) = read_content(alloc, '\'', characters)?;
    Ok((Token::Text(content), rest))
}

/// The characters up to the quote that stands alone, with doubled quotes made single, and the
/// characters after it.
#[tactic(auto, unfolding(crate::specs::Tokens::content_at))]
fn read_content(alloc: Global, quote: char, characters: &[char]) -> Result<(Str, &[char]), Stop>
    ensures { Takes (content_at quote characters.now) result }
{
    let mut content = String::new(alloc);
    let mut rest = characters;
    while let [first, more @ ..] = rest {
        let Some(after) = after_character(quote, *first, more) else {
            return Ok((Str::new(content), more));
        };
        content.push(*first)?;
        rest = after;
    }
    Err(refusal(alloc, Code::SyntaxError))
}

/// The characters after `first` in a quoted content, where a doubled quote is one character; none
/// where it is the quote that ends the content.
fn after_character<'a>(quote: char, first: char, more: &'a [char]) -> Option<&'a [char]>
    ensures { option_copied result ≡ after_character quote first more.now }
{
    if first != quote {
        return Some(more);
    }
    match more {
        [second, rest @ ..] if *second == quote => Some(rest),
        _ => None,
    }
}

/// A run of digits that no letter and no `_` follows directly.
#[tactic(auto, unfolding(crate::specs::Tokens::number_at))]
fn read_number(alloc: Global, characters: &[char]) -> Result<(Token, &[char]), Stop>
    ensures { Takes (number_at characters.now) result }
{
    let (digits, rest) = split_run(Class::Digit, characters);
    if let [next, ..] = rest
        && (next.is_ascii_alphabetic() || *next == '_')
    {
        return Err(refusal(alloc, Code::SyntaxError));
    }
    Ok((Token::Number(text_of(alloc, digits)?), rest))
}

/// A parameter's digits, after its `$`.
#[tactic(auto, unfolding(crate::specs::Tokens::param_at))]
fn read_param(alloc: Global, characters: &[char]) -> Result<(Token, &[char]), Stop>
    ensures { Takes (param_at characters.now) result }
{
    let (digits, rest) = split_run(Class::Digit, characters);
    if digits.is_empty() {
        return Err(refusal(alloc, Code::SyntaxError));
    }
    Ok((Token::Param(text_of(alloc, digits)?), rest))
}

#[tactic(auto, unfolding(crate::specs::Tokens::sign_at))]
fn read_sign(alloc: Global, characters: &[char]) -> Result<(Token, &[char]), Stop>
    ensures { Takes (sign_at characters.now) result }
{
    if let [first, second, more @ ..] = characters
        && let Some(sign) = long_sign(*first, *second)
    {
        return Ok((Token::Sign(sign), more));
    }
    if let [first, more @ ..] = characters
        && let Some(sign) = short_sign(*first)
    {
        return Ok((Token::Sign(sign), more));
    }
    Err(refusal(alloc, Code::SyntaxError))
}

/// The sign of two characters.
fn long_sign(first: char, second: char) -> Option<Sign>
    ensures { result ≡ long_sign first second }
{
    match (first, second) {
        ('<', '>') | ('!', '=') => Some(Sign::NotEqual),
        ('<', '=') => Some(Sign::LessEqual),
        ('>', '=') => Some(Sign::GreaterEqual),
        _ => None,
    }
}

/// The sign of one character.
fn short_sign(c: char) -> Option<Sign>
    ensures { result ≡ short_sign c }
{
    match c {
        '=' => Some(Sign::Equal),
        '<' => Some(Sign::Less),
        '>' => Some(Sign::Greater),
        '+' => Some(Sign::Plus),
        '-' => Some(Sign::Minus),
        '*' => Some(Sign::Star),
        '/' => Some(Sign::Slash),
        '(' => Some(Sign::LeftParen),
        ')' => Some(Sign::RightParen),
        ',' => Some(Sign::Comma),
        '.' => Some(Sign::Dot),
        _ => None,
    }
}
