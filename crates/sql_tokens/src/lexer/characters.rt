ghost use Rattle.std.specs.Prelude.{◌≡◌, IfOk, map, encode_utf8_all};
ghost use Rattle.std.specs.Char.{to_ascii_lowercase};
ghost use Rattle.sql_tokens.specs.Tokens.{is_in, begins_word, is_blank, run_of, after_run};

use q_base::{NoMemory, Str};
use std::alloc::Global;

/// A set of characters with which a token or a comment goes on.
#[derive(Clone, Copy)]
pub(crate) enum Class {
    /// ASCII digits.
    Digit,
    /// ASCII letters.
    Letter,
    /// What a word goes on with.
    InWord,
    /// All but the line feed.
    InLine,
}

impl Class {
    pub(crate) fn has(self, c: char) -> bool
        ensures { result ≡ is_in self c }
    {
        match self {
            Class::Digit => c.is_ascii_digit(),
            Class::Letter => c.is_ascii_alphabetic(),
            Class::InWord => begins_word(c) || c.is_ascii_digit() || c == '$',
            Class::InLine => c != '\n',
        }
    }
}

/// Whether a word may begin with `c`.
pub(crate) fn begins_word(c: char) -> bool
    ensures { result ≡ begins_word c }
{
    c.is_ascii_alphabetic() || c == '_' || !c.is_ascii()
}

/// Space, tab, line feed, form feed and carriage return.
pub(crate) fn is_blank(c: char) -> bool
    ensures { result ≡ is_blank c }
{
    c == ' ' || c == '\t' || c == '\n' || c == '\x0C' || c == '\r'
}

/// The characters up to the first that isn't in the class, and those from it on.
pub(crate) fn split_run(class: Class, characters: &[char]) -> (&[char], &[char])
    ensures front { result.0.now ≡ run_of class characters.now }
    ensures back { result.1.now ≡ after_run class characters.now }
{
    for (at, c) in characters.iter().enumerate() {
        if !class.has(*c) {
            return characters.split_at(at);
        }
    }
    characters.split_at(characters.len())
}

/// The text of the characters.
pub(crate) fn text_of(alloc: Global, characters: &[char]) -> Result<Str, NoMemory>
    ensures { IfOk result (λ text. text ≡ encode_utf8_all characters.now) }
{
    let text: String = characters.iter().copied().collect(alloc)?;
    Ok(Str::new(text))
}

/// The text of the characters, with ASCII letters made small.
pub(crate) fn folded_text(alloc: Global, characters: &[char]) -> Result<Str, NoMemory>
    ensures { IfOk result (λ text. text ≡ encode_utf8_all (map to_ascii_lowercase characters.now)) }
{
    let text: String = characters
        .iter()
        .map(|c| c.to_ascii_lowercase())
        .collect(alloc)?;
    Ok(Str::new(text))
}
