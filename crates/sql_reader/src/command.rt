ghost use Rattle.std.specs.Prelude.{◌≡◌, Some, Ok, Err, MatchResult};
ghost use Rattle.q_base.specs.Stops.{StopsBy};
ghost use Rattle.sql_expr.specs.Reading.{Reads};
ghost use Rattle.sql_reader.specs.Grammar.{IsRead};
ghost use Rattle.sql_reader.specs.Commands as spec;

use crate::leading::{CatalogWord, Keyword, SessionWord, keyword_of};
use q_base::{Code, Stop, refusal};
use sql_expr::{Cursor, load};
use sql_reader_catalog::{alter, analyze, create, drop_object, truncate};
use sql_reader_query::statement_command;
use sql_reader_session::{
    abort, backslash_line, begin, close, commit, deallocate, declare, discard, execute, explain,
    fetch, move_cursor, prepare, release, reset, rollback, savepoint, set, show, start,
};
use sql_tokens::Token;
use sql_tree::Command;
use std::alloc::Global;

/// The command that the tokens spell, all of them. 54001 exactly where their load passes 200, and else 42601
/// exactly where they spell none.
///
/// PostgreSQL also refuses expressions that are nested too deeply with 54001 (its manual, max_stack_depth);
/// this measure of them is this project's own.
pub fn read_command(alloc: Global, tokens: &[Token]) -> Result<Command, Stop>
    ensures { MatchResult result
        (λ command. IsRead tokens.now (Ok command))
        (StopsBy (λ error. IsRead tokens.now (Err error))) }
{
    command_by_steps(alloc, tokens)
}

/// The same as the reading functions have it.
fn command_by_steps(alloc: Global, tokens: &[Token]) -> Result<Command, Stop>
    ensures { MatchResult result
        (λ command. spec.command_read tokens.now ≡ Ok command)
        (StopsBy (λ error. spec.command_read tokens.now ≡ Err error)) }
{
    if load(tokens) > 200 {
        return Err(refusal(alloc, Code::StackDepthExceeded));
    }
    whole_command(alloc, tokens)
}

#[tactic(auto, unfolding(crate::specs::Commands::command_of))]
fn whole_command(alloc: Global, tokens: &[Token]) -> Result<Command, Stop>
    ensures { MatchResult result
        (λ command. spec.command_of tokens.now ≡ Some command)
        (StopsBy (λ error. spec.or_syntax_error (spec.command_of tokens.now) ≡ Err error)) }
{
    let mut cursor = Cursor::new(tokens);
    let command = command(alloc, &mut cursor)?;
    if cursor.left() > 0 {
        return Err(refusal(alloc, Code::SyntaxError));
    }
    Ok(command)
}

/// The command at the front of the tokens.
#[tactic(auto, unfolding(crate::specs::Commands::command))]
fn command(alloc: Global, cursor: &mut Cursor<'_>) -> Result<Command, Stop>
    ensures { Reads (spec.command cursor.old) result cursor.new }
{
    match cursor.peek() {
        Some(Token::Word(word)) => from_word(alloc, cursor, word.as_str()),
        Some(Token::Backslash(letters)) => {
            cursor.skip();
            backslash_line(alloc, cursor, letters.as_str())
        }
        _ => Err(refusal(alloc, Code::SyntaxError)),
    }
}

/// The command whose first token is the word.
#[tactic(auto, unfolding(crate::specs::Commands::from_word))]
fn from_word(alloc: Global, cursor: &mut Cursor<'_>, word: &str) -> Result<Command, Stop>
    ensures { Reads (spec.from_word word.now cursor.old) result cursor.new }
{
    match keyword_of(word) {
        Some(Keyword::Statement) => statement_command(alloc, cursor),
        Some(Keyword::Session(word)) => {
            cursor.skip();
            behind_session_word(alloc, cursor, word)
        }
        Some(Keyword::Catalog(word)) => {
            cursor.skip();
            behind_catalog_word(alloc, cursor, word)
        }
        None => Err(refusal(alloc, Code::SyntaxError)),
    }
}

fn behind_session_word(
    alloc: Global,
    cursor: &mut Cursor<'_>,
    word: SessionWord,
) -> Result<Command, Stop>
    ensures { Reads (spec.behind_session_word word cursor.old) result cursor.new }
{
    match word {
        SessionWord::Prepare => prepare(alloc, cursor),
        SessionWord::Execute => execute(alloc, cursor),
        SessionWord::Explain => explain(alloc, cursor),
        SessionWord::Deallocate => deallocate(alloc, cursor),
        SessionWord::Discard => discard(alloc, cursor),
        SessionWord::Declare => declare(alloc, cursor),
        SessionWord::Fetch => fetch(alloc, cursor),
        SessionWord::Move => move_cursor(alloc, cursor),
        SessionWord::Close => close(alloc, cursor),
        SessionWord::Begin => Ok(begin(cursor)),
        SessionWord::Start => start(alloc, cursor),
        SessionWord::Commit => Ok(commit(cursor)),
        SessionWord::Rollback => rollback(alloc, cursor),
        SessionWord::Abort => Ok(abort(cursor)),
        SessionWord::Savepoint => savepoint(alloc, cursor),
        SessionWord::Release => release(alloc, cursor),
        SessionWord::Set => set(alloc, cursor),
        SessionWord::Reset => reset(alloc, cursor),
        SessionWord::Show => show(alloc, cursor),
    }
}

fn behind_catalog_word(
    alloc: Global,
    cursor: &mut Cursor<'_>,
    word: CatalogWord,
) -> Result<Command, Stop>
    ensures { Reads (spec.behind_catalog_word word cursor.old) result cursor.new }
{
    match word {
        CatalogWord::Create => create(alloc, cursor),
        CatalogWord::Drop => drop_object(alloc, cursor),
        CatalogWord::Alter => alter(alloc, cursor),
        CatalogWord::Truncate => truncate(alloc, cursor),
        CatalogWord::Analyze => analyze(alloc, cursor),
    }
}
