//! Laws of this crate's definitions.
ghost use Rattle.std.specs.Prelude.{◌≡◌, ◌↔◌, List, Result};
ghost use Rattle.q_base.specs.declared.errors.SqlError.{SqlError};
ghost use Rattle.sql_tokens.specs.declared.token.Token.{Token};
ghost use Rattle.sql_tree.specs.declared.command.Command.{Command};
ghost use Rattle.sql_reader.specs.Grammar.{IsRead, SpellsAll};
ghost use Rattle.sql_reader.specs.Commands.{command_read};
ghost use Rattle.sql_reader.specs.Examples.{Examples};

/// A list of tokens spells at most one command.
pub fn one_command()
    ensures { (tokens : List Token) (first second : Command) → SpellsAll tokens first → SpellsAll tokens second → first ≡ second }
{}

/// A list of tokens is read as one command or one refusal.
pub fn one_reading()
    ensures exact { (tokens : List Token) (read : Result Command SqlError) → IsRead tokens read ↔ (command_read tokens ≡ read) }
    ensures once { (tokens : List Token) (first second : Result Command SqlError) → IsRead tokens first → IsRead tokens second → first ≡ second }
{}

/// Ten texts with the command that each spells, among them words that are keyword in one place and name in another,
/// and five texts that spell none.
pub fn examples()
    ensures { Examples }
{}
