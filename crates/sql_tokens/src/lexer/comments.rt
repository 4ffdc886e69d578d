ghost use Rattle.std.specs.Prelude.{◌≡◌, ◌<◌, ◌+◌, ◌^◌, ◌≤◌, length, IfSome};
ghost use Rattle.std.specs.Option.{option_copied};
ghost use Rattle.sql_tokens.specs.declared.lexer.characters.Class.TheVariants as class;
ghost use Rattle.sql_tokens.specs.Tokens.{after_run, after_block, block_turn};

use super::characters::{Class, split_run};

/// The characters from the line feed on, or none where the text ends before it.
pub(crate) fn after_line(characters: &[char]) -> &[char]
    ensures { result.now ≡ after_run class.InLine characters.now }
{
    split_run(Class::InLine, characters).1
}

/// The characters after the `*/` of a block comment whose `/*` stands before them. Comments nest.
#[tactic(auto, unfolding(crate::specs::Tokens::after_block), using(crate::proofs::TokensLemmas::after_block_open, crate::proofs::TokensLemmas::after_block_ended))]
pub(crate) fn after_block(characters: &[char]) -> Option<&[char]>
    ensures { option_copied result ≡ after_block 0 characters.now }
{
    let mut nested: usize = 0;
    let mut rest = characters;
    while !rest.is_empty() {
        let (open, after) = block_turn(nested, rest);
        rest = after;
        match open {
            Some(open) => nested = open,
            None => return Some(rest),
        }
    }
    None
}

/// Takes a `/*`, a `*/` or one other character in a block comment in which `nested` others are open,
/// and counts those open behind it: none where the comment itself has ended.
#[tactic(auto, unfolding(crate::specs::Tokens::block_turn))]
fn block_turn(nested: usize, characters: &[char]) -> (Option<usize>, &[char])
    requires few { nested + length characters.now < 2 ^ 64 }
    requires some { 0 < length characters.now }
    ensures open { result.0 ≡ (block_turn nested characters.now).0 }
    ensures rest { result.1.now ≡ (block_turn nested characters.now).1 }
    ensures few { IfSome result.0 (λ n. n + length result.1.now ≤ nested + length characters.now) }
    ensures shorter { length result.1.now < length characters.now }
{
    match characters {
        ['*', '/', more @ ..] => (nested.checked_sub(1), more),
        ['/', '*', more @ ..] => (Some(nested + 1), more),
        [_, more @ ..] => (Some(nested), more),
        [] => (None, characters),
    }
}
