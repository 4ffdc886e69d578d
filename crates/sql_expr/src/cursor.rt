ghost use Rattle.std.specs.Prelude.{◌≡◌, length, drop, Some, slice_get};
ghost use Rattle.std.specs.Option.{option_copied};
ghost use Rattle.sql_expr.specs.Reading as spec;
ghost use Rattle.sql_expr.specs.Reading.{Reads};

use q_base::{Code, Stop, refusal};
use sql_tokens::{Sign, Token};
use std::alloc::Global;
use std::marker::Model;

/// A place in a list of tokens, which contracts see as the tokens from there on.
#[derive(Drop)]
pub struct Cursor<'a> {
    rest: &'a [Token],
}

impl<'a> Model for Cursor<'a> {
    ghost use Rattle.std.specs.Prelude.{List};
    ghost use Rattle.sql_tokens.specs.declared.token.Token.{Token};

    ghost Value = { List Token };

    ghost view = { λ cursor. cursor.rest.now };
}

impl<'a> Cursor<'a> {
    /// The place before the first of the tokens.
    pub fn new(tokens: &'a [Token]) -> Cursor<'a>
        ensures { result ≡ tokens.now }
    {
        Cursor { rest: tokens }
    }

    /// How many tokens are left.
    pub fn left(&self) -> usize
        ensures { result ≡ length self.now }
    {
        self.rest.len()
    }

    /// The next token, which isn't passed; `None` where none is left.
    pub fn peek(&self) -> Option<&'a Token>
        ensures { option_copied result ≡ slice_get self.now 0 }
    {
        self.rest.first()
    }

    /// Goes past the next token, if there is one.
    pub fn skip(&mut self)
        ensures { self.new ≡ drop 1 self.old }
    {
        if let [_, rest @ ..] = self.rest {
            self.rest = rest;
        }
    }

    /// The place behind the next token, if there is one.
    pub fn past_next(&self) -> Cursor<'a>
        ensures { result ≡ drop 1 self.now }
    {
        match self.rest {
            [_, rest @ ..] => Cursor { rest },
            [] => Cursor { rest: &[] },
        }
    }

    /// Whether the word, given in small letters, comes next. A quoted identifier is no word.
    #[tactic(auto, unfolding(crate::specs::Reading::sees_word))]
    pub fn sees_word(&self, word: &str) -> bool
        ensures { result ≡ spec.sees_word word.now self.now }
    {
        match self.peek() {
            Some(Token::Word(next)) => next.as_str() == word,
            _ => false,
        }
    }

    /// Goes past the word, if it comes next, and says whether it did.
    pub fn eat_word(&mut self, word: &str) -> bool
        ensures { spec.eat_word word.now self.old ≡ Some (result, self.new) }
    {
        let found = self.sees_word(word);
        if found {
            self.skip();
        }
        found
    }

    /// Goes past the word; 42601 where it doesn't come next.
    pub fn expect_word(&mut self, alloc: Global, word: &str) -> Result<(), Stop>
        ensures { Reads (spec.expect_word word.now self.old) result self.new }
    {
        if self.eat_word(word) {
            Ok(())
        } else {
            Err(refusal(alloc, Code::SyntaxError))
        }
    }

    /// Whether the sign comes next.
    #[tactic(auto, unfolding(crate::specs::Reading::sees_sign))]
    pub fn sees_sign(&self, sign: Sign) -> bool
        ensures { result ≡ spec.sees_sign sign self.now }
    {
        match self.peek() {
            Some(Token::Sign(next)) => *next == sign,
            _ => false,
        }
    }

    /// Goes past the sign, if it comes next, and says whether it did.
    pub fn eat_sign(&mut self, sign: Sign) -> bool
        ensures { spec.eat_sign sign self.old ≡ Some (result, self.new) }
    {
        let found = self.sees_sign(sign);
        if found {
            self.skip();
        }
        found
    }

    /// Goes past the sign; 42601 where it doesn't come next.
    pub fn expect_sign(&mut self, alloc: Global, sign: Sign) -> Result<(), Stop>
        ensures { Reads (spec.expect_sign sign self.old) result self.new }
    {
        if self.eat_sign(sign) {
            Ok(())
        } else {
            Err(refusal(alloc, Code::SyntaxError))
        }
    }
}
