//! Laws of this crate's definitions, for who reads them: no function cites them.
ghost use Rattle.std.specs.Prelude.{◌≡◌, ◌↔◌, ℕ, List, [], ◌∷◌, Ok};
ghost use Rattle.sql_tokens.specs.declared.lexer.Place.{Place};
ghost use Rattle.sql_tokens.specs.declared.token.Token.{Token};
ghost use Rattle.sql_tokens.specs.Spelling.{Spells, TextSpells};
ghost use Rattle.sql_tokens.specs.Tokens.{Outcome, all_tokens, first_and_others, tokens_of};

/// The tokens of characters are that of their first piece, if it has one, and then those of the
/// characters after it, to the last: the count of characters in the definition cuts nothing off.
pub fn pieces()
    ensures none { (place : Place) → all_tokens place [] ≡ Ok [] }
    ensures some { (place : Place) (c : ℕ) (cs : List ℕ) → all_tokens place (c ∷ cs) ≡ first_and_others place (c ∷ cs) }
{}

/// Characters spell no more than one list of tokens or one refusal, and what a text spells is what
/// the definition by steps finds in it.
pub fn spelling()
    ensures once { (place : Place) (cs : List ℕ) (first second : Outcome (List Token)) → Spells place cs first → Spells place cs second → first ≡ second }
    ensures exact { (text : List ℕ) (given : Outcome (List Token)) → TextSpells text given ↔ (tokens_of text ≡ given) }
{}
