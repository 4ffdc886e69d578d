use q_base::{ListOf, Str};

/// A token of a command's text.
#[derive(Debug, Drop)]
pub enum Token {
    /// A keyword or an unquoted name, its ASCII letters folded to lower case.
    Word(Str),
    /// The content of a quoted identifier, its doubled quotes made single.
    Quoted(Str),
    /// The content of a string, its doubled quotes made single.
    Text(Str),
    /// The digits of a number.
    Number(Str),
    /// The digits of a parameter.
    Param(Str),
    Sign(Sign),
    /// The letters directly after the `\` that begins a backslash command.
    Backslash(Str),
}

/// The signs; `!=` is read as `<>`.
#[derive(Clone, Copy, Debug, PartialEq, Eq)]
pub enum Sign {
    Equal,
    NotEqual,
    Less,
    LessEqual,
    Greater,
    GreaterEqual,
    Plus,
    Minus,
    Star,
    Slash,
    LeftParen,
    RightParen,
    Comma,
    Dot,
}

/// The tokens of a text, in order.
pub type TokenList = ListOf<Token>;
