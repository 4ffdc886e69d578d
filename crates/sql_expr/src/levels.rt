ghost use Rattle.std.specs.Prelude.{◌≡◌, ◌≤◌, [], ◌∷◌, sum};
ghost use Rattle.sql_expr.specs.Load.{effect_of, effect_of_word, after, load_of};
ghost use Rattle.sql_expr.specs.Levels as spec;

use sql_tokens::{Sign, Token};
use std::marker::Model;

/// What a token does to the levels of a command.
#[derive(Clone, Copy)]
enum Effect {
    Opens,
    Closes,
    Weighs,
    Separates,
    Nothing,
}

fn effect_of(token: &Token) -> Effect
    ensures { result ≡ effect_of token.now }
{
    match token {
        Token::Sign(Sign::LeftParen) => Effect::Opens,
        Token::Sign(Sign::RightParen) => Effect::Closes,
        Token::Sign(Sign::Plus | Sign::Minus | Sign::Star | Sign::Slash) => Effect::Weighs,
        Token::Sign(Sign::Comma) => Effect::Separates,
        Token::Word(word) => effect_of_word(word.as_str()),
        _ => Effect::Nothing,
    }
}

fn effect_of_word(word: &str) -> Effect
    ensures { result ≡ effect_of_word word.now }
{
    if word == "not" {
        Effect::Weighs
    } else if word == "and" || word == "or" {
        Effect::Separates
    } else {
        Effect::Nothing
    }
}

/// The weights of the levels that are open, whose sum is at most 201.
#[derive(Drop)]
struct Levels {
    /// The weights of the levels around the innermost, the nearest first, behind the places that are free.
    outer: [u8; 200],
    free: usize,
    /// The weight of the innermost level.
    weight: u8,
    sum: u8,
}

impl Model for Levels {
    ghost use Rattle.std.specs.Prelude.{ℕ, List};

    ghost Value = { List ℕ };

    ghost use Rattle.sql_expr.specs.Levels.{levels_of, IsSound};

    ghost view = { levels_of };

    ghost invariant = { IsSound };
}

impl Levels {
    /// The command itself.
    fn new() -> Levels
        ensures { result ≡ 1 ∷ [] }
    {
        Levels {
            outer: [0; 200],
            free: 200,
            weight: 1,
            sum: 1,
        }
    }

    fn sum(&self) -> u8
        ensures { result ≡ sum self.now }
    {
        self.sum
    }

    fn open(&mut self)
        requires { sum self.old ≤ 200 }
        ensures { self.new ≡ spec.opened self.old }
    {
        self.free -= 1;
        self.outer[self.free] = self.weight;
        self.weight = 1;
        self.sum += 1;
    }

    fn close(&mut self)
        ensures { self.new ≡ spec.closed self.old }
    {
        if self.free < 200 {
            self.sum -= self.weight;
            self.weight = self.outer[self.free];
            self.free += 1;
        }
    }

    fn weigh(&mut self)
        requires { sum self.old ≤ 200 }
        ensures { self.new ≡ spec.weighed self.old }
    {
        self.weight += 1;
        self.sum += 1;
    }

    fn separate(&mut self)
        ensures { self.new ≡ spec.separated self.old }
    {
        self.sum -= self.weight - 1;
        self.weight = 1;
    }

    fn take(&mut self, effect: Effect)
        requires { sum self.old ≤ 200 }
        ensures { self.new ≡ after effect self.old }
    {
        match effect {
            Effect::Opens => self.open(),
            Effect::Closes => self.close(),
            Effect::Weighs => self.weigh(),
            Effect::Separates => self.separate(),
            Effect::Nothing => {}
        }
    }
}

/// A number that bounds the depth of the tree of a command, cut at 201. It is the greatest sum, over
/// all tokens, of the weights of the levels that are open there: of the command itself and of each
/// parenthesis. A level weighs one more than it has tokens `+ - * / NOT` directly in it since its
/// last comma, AND or OR. This measure is this project's own.
#[tactic(auto, unfolding(crate::specs::Load::greatest, crate::specs::Load::load_of))]
pub fn load(tokens: &[Token]) -> u64
    ensures { result ≡ load_of tokens.now }
{
    let mut levels = Levels::new();
    let mut most = 0;
    for token in tokens {
        levels.take(effect_of(token));
        most = levels.sum().max(most);
        if most > 200 {
            return 201;
        }
    }
    u64::from(most)
}
