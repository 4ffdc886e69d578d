ghost use Rattle.std.specs.Prelude.{◌≡◌, ◌++◌, MatchResult, IfOk, OnOk, option_to_list, length, chars};
ghost use Rattle.q_base.specs.Stops.{StopsBy};
ghost use Rattle.sql_tokens.specs.declared.lexer.Place.TheVariants as the_place;
ghost use Rattle.sql_tokens.specs.Spelling.{TextSpells};
ghost use Rattle.sql_tokens.specs.Tokens.{Gives, Takes, Passes, has_comments, is_start, behind, behind_piece, after_comment, after_gap, piece_at, tokens_from, tokens_of};

use crate::{Token, TokenList};
use q_base::{Code, ListOf, NoMemory, Stop, refusal};
use std::alloc::Global;

mod characters;
mod comments;
mod pieces;

use characters::is_blank;
use comments::{after_block, after_line};
use pieces::read_token;

/// Where in a command's text a token or a comment may stand.
#[derive(Clone, Copy)]
pub enum Place {
    /// Before the first token: the only place of a `\`.
    Start,
    /// After the first token of a command without a `\`.
    Later,
    /// After the `\`, where `--` and `/*` begin no comment.
    BackslashLine,
}

impl Place {
    /// Whether a `--` or a `/*` begins a comment here.
    fn has_comments(self) -> bool
        ensures { result ≡ has_comments self }
    {
        match self {
            Place::Start | Place::Later => true,
            Place::BackslashLine => false,
        }
    }

    fn is_start(self) -> bool
        ensures { result ≡ is_start self }
    {
        match self {
            Place::Start => true,
            Place::Later | Place::BackslashLine => false,
        }
    }

    /// The place behind a token that stands here.
    fn behind(self, token: &Token) -> Place
        ensures { result ≡ behind self token.now }
    {
        match (self, token) {
            (Place::BackslashLine, _) | (_, Token::Backslash(_)) => Place::BackslashLine,
            _ => Place::Later,
        }
    }
}

/// The tokens of a command's text, in order, or the first refusal in the text.
///
/// 42601 is an unended string, quoted identifier or block comment, an empty quoted identifier, a
/// number with an ASCII letter or `_` directly after it, a `$` without digits, and any other
/// character that begins no token. 42622, which names it, is a word or a quoted identifier longer
/// than 63 bytes. The tokens are PostgreSQL's (its manual, "Lexical Structure"), but for backslash
/// commands, the characters that an operator may have, and 42622, where PostgreSQL cuts the name.
#[tactic(auto, unfolding(crate::specs::Tokens::tokens_of))]
pub fn tokens(alloc: Global, text: &str) -> Result<TokenList, Stop>
    ensures exact { MatchResult result (λ ts. tokens_of text.now ≡ Ok ts) (StopsBy (λ e. tokens_of text.now ≡ Err e)) }
    ensures spelt { MatchResult result (λ ts. TextSpells text.now (Ok ts)) (StopsBy (λ e. TextSpells text.now (Err e))) }
{
    let characters = characters_of(alloc, text)?;
    read_tokens(alloc, characters.as_slice())
}

#[tactic(auto, using(std::proofs::lemmas::Str::chars_from_encodes))]
fn characters_of(alloc: Global, text: &str) -> Result<Vec<char>, NoMemory>
    ensures { IfOk result (λ characters. characters.items ≡ chars text.now) }
{
    Ok(text.chars().collect(alloc)?)
}

#[tactic(auto, unfolding(crate::specs::Tokens::tokens_from))]
fn read_tokens(alloc: Global, characters: &[char]) -> Result<TokenList, Stop>
    ensures { Gives (tokens_from (length characters.now) the_place.Start characters.now) result }
{
    let mut found = ListOf::new(alloc);
    let mut place = Place::Start;
    let mut rest = characters;
    // Each turn takes at least one character.
    for _turn in 0..characters.len() {
        if rest.is_empty() {
            return Ok(found);
        }
        let (token, after) = read_piece(alloc, place, rest)?;
        rest = after;
        place = add_piece(&mut found, place, token)?;
    }
    Ok(found)
}

/// Appends the token, if there is one, and gives the place behind it.
fn add_piece(found: &mut TokenList, place: Place, token: Option<Token>) -> Result<Place, NoMemory>
    ensures place { IfOk result (λ p. p ≡ behind_piece place token) }
    ensures found { OnOk result (found.new ≡ found.old ++ option_to_list token) }
{
    let Some(token) = token else {
        return Ok(place);
    };
    let behind = place.behind(&token);
    found.push(token)?;
    Ok(behind)
}

/// Takes a token, or a blank or a comment, which is no token.
#[tactic(auto, unfolding(crate::specs::Tokens::piece_at))]
fn read_piece<'a>(
    alloc: Global,
    place: Place,
    characters: &'a [char],
) -> Result<(Option<Token>, &'a [char]), Stop>
    ensures { Takes (piece_at place characters.now) result }
{
    match after_gap(alloc, place, characters)? {
        Some(rest) => Ok((None, rest)),
        None => {
            let (token, rest) = read_token(alloc, place, characters)?;
            Ok((Some(token), rest))
        }
    }
}

/// The characters after the blank or the comment that they begin with.
#[tactic(auto, unfolding(crate::specs::Tokens::after_gap))]
fn after_gap<'a>(
    alloc: Global,
    place: Place,
    characters: &'a [char],
) -> Result<Option<&'a [char]>, Stop>
    ensures { Passes (after_gap place characters.now) result }
{
    match characters {
        [first, more @ ..] if is_blank(*first) => Ok(Some(more)),
        [_, ..] if place.has_comments() => after_comment(alloc, characters),
        _ => Ok(None),
    }
}

/// The characters after the comment that they begin with.
#[tactic(auto, unfolding(crate::specs::Tokens::after_comment))]
fn after_comment(alloc: Global, characters: &[char]) -> Result<Option<&[char]>, Stop>
    ensures { Passes (after_comment characters.now) result }
{
    match characters {
        ['-', '-', more @ ..] => Ok(Some(after_line(more))),
        ['/', '*', more @ ..] => match after_block(more) {
            Some(rest) => Ok(Some(rest)),
            None => Err(refusal(alloc, Code::SyntaxError)),
        },
        _ => Ok(None),
    }
}
