//! The commands on cursors, behind their leading words:
//!
//! ```text
//! declare    = name {SCROLL | NO SCROLL | INSENSITIVE | ASENSITIVE} CURSOR [hold] FOR select
//! hold       = (WITH | WITHOUT) HOLD
//! fetch_tree = [motion] [FROM | IN] name
//! close      = ALL | name
//! ```

ghost use Rattle.std.specs.Prelude.{◌≡◌, Some};
ghost use Rattle.sql_expr.specs.Reading.{Reads, taken};
ghost use Rattle.sql_reader_session.specs.Cursors as spec;

use crate::keywords::eat_either;
use crate::motions::optional_motion;
use q_base::Stop;
use sql_expr::{Cursor, name};
use sql_reader_query::select;
use sql_tokens::Token;
use sql_tree::{Command, CursorOptions, DeclareTree, FetchTree, Statement};
use std::alloc::Global;

/// The options of DECLARE.
#[derive(Clone, Copy)]
pub enum CursorOption {
    Scroll,
    NoScroll,
    Insensitive,
    Asensitive,
}

/// What stands behind DECLARE: the cursor's name, its options, CURSOR, perhaps WITH or WITHOUT HOLD, FOR and a query
/// (PostgreSQL's manual, DECLARE). The options may be written in any order and several times; which of them can't stand
/// together isn't judged here. 42601 where the tokens don't go on so.
#[tactic(auto, unfolding(crate::specs::Cursors::declare))]
pub fn declare(alloc: Global, cursor: &mut Cursor<'_>) -> Result<Command, Stop>
    ensures { Reads (spec.declare cursor.old) result cursor.new }
{
    let name = name(alloc, cursor)?;
    let options = cursor_options(alloc, cursor)?;
    let hold = cursor_for(alloc, cursor)?;
    let query = Statement::Select(select(alloc, cursor)?);
    Ok(Command::Declare(DeclareTree {
        name,
        options,
        hold,
        query,
    }))
}

#[tactic(auto, unfolding(crate::specs::Cursors::cursor_options))]
fn cursor_options(alloc: Global, cursor: &mut Cursor<'_>) -> Result<CursorOptions, Stop>
    ensures { Reads (spec.cursor_options cursor.old) result cursor.new }
{
    let mut options = CursorOptions {
        scroll: false,
        no_scroll: false,
        insensitive: false,
        asensitive: false,
    };
    for _turn in 0..cursor.left() {
        match cursor_option(alloc, cursor)? {
            Some(option) => options = with_option(options, option),
            None => return Ok(options),
        }
    }
    Ok(options)
}

fn with_option(options: CursorOptions, option: CursorOption) -> CursorOptions
    ensures { result ≡ spec.with_option options option }
{
    match option {
        CursorOption::Scroll => CursorOptions {
            scroll: true,
            ..options
        },
        CursorOption::NoScroll => CursorOptions {
            no_scroll: true,
            ..options
        },
        CursorOption::Insensitive => CursorOptions {
            insensitive: true,
            ..options
        },
        CursorOption::Asensitive => CursorOptions {
            asensitive: true,
            ..options
        },
    }
}

/// An option, if one comes next.
#[tactic(auto, unfolding(crate::specs::Cursors::cursor_option))]
fn cursor_option(alloc: Global, cursor: &mut Cursor<'_>) -> Result<Option<CursorOption>, Stop>
    ensures { Reads (spec.cursor_option cursor.old) result cursor.new }
{
    if cursor.eat_word("no") {
        cursor.expect_word(alloc, "scroll")?;
        return Ok(Some(CursorOption::NoScroll));
    }
    Ok(eat_option(cursor))
}

fn option_of_word(word: &str) -> Option<CursorOption>
    ensures { result ≡ spec.option_of_word word.now }
{
    if word == "scroll" {
        Some(CursorOption::Scroll)
    } else if word == "insensitive" {
        Some(CursorOption::Insensitive)
    } else if word == "asensitive" {
        Some(CursorOption::Asensitive)
    } else {
        None
    }
}

fn option_of(token: &Token) -> Option<CursorOption>
    ensures { result ≡ spec.option_of token.now }
{
    match token {
        Token::Word(word) => option_of_word(word.as_str()),
        _ => None,
    }
}

/// Goes past an option of one word, if one comes next.
#[tactic(auto, unfolding(sql_expr::specs::Reading::taken))]
fn eat_option(cursor: &mut Cursor<'_>) -> Option<CursorOption>
    ensures { taken spec.option_of cursor.old ≡ Some (result, cursor.new) }
{
    let option = option_of(cursor.peek()?)?;
    cursor.skip();
    Some(option)
}

/// CURSOR, WITH HOLD or WITHOUT HOLD or neither, and FOR; whether it is WITH HOLD.
#[tactic(auto, unfolding(crate::specs::Cursors::cursor_for))]
fn cursor_for(alloc: Global, cursor: &mut Cursor<'_>) -> Result<bool, Stop>
    ensures { Reads (spec.cursor_for cursor.old) result cursor.new }
{
    cursor.expect_word(alloc, "cursor")?;
    let hold = hold(alloc, cursor)?;
    cursor.expect_word(alloc, "for")?;
    Ok(hold)
}

/// Whether WITH HOLD is written.
#[tactic(auto, unfolding(crate::specs::Cursors::hold))]
fn hold(alloc: Global, cursor: &mut Cursor<'_>) -> Result<bool, Stop>
    ensures { Reads (spec.hold cursor.old) result cursor.new }
{
    if cursor.eat_word("with") {
        cursor.expect_word(alloc, "hold")?;
        return Ok(true);
    }
    if cursor.eat_word("without") {
        cursor.expect_word(alloc, "hold")?;
        return Ok(false);
    }
    Ok(false)
}

/// A motion and a cursor. Directly behind FETCH or MOVE the words of a motion are directions; behind
/// these, a cursor may have such a name.
#[tactic(auto, unfolding(crate::specs::Cursors::fetch_tree))]
fn fetch_tree(alloc: Global, cursor: &mut Cursor<'_>) -> Result<FetchTree, Stop>
    ensures { Reads (spec.fetch_tree cursor.old) result cursor.new }
{
    let motion = optional_motion(alloc, cursor)?;
    eat_either(cursor, "from", "in");
    let name = name(alloc, cursor)?;
    Ok(FetchTree {
        motion,
        cursor: name,
    })
}

/// What stands behind FETCH: a motion, or none for NEXT, perhaps FROM or IN, and the cursor's name (PostgreSQL's manual,
/// FETCH). 42601 where the tokens don't go on so, and for a count past 2147483647 on either side of 0.
#[tactic(auto, unfolding(crate::specs::Cursors::fetch))]
pub fn fetch(alloc: Global, cursor: &mut Cursor<'_>) -> Result<Command, Stop>
    ensures { Reads (spec.fetch cursor.old) result cursor.new }
{
    Ok(Command::Fetch(fetch_tree(alloc, cursor)?))
}

/// What stands behind MOVE, which is what stands behind FETCH (PostgreSQL's manual, MOVE). 42601 as there.
#[tactic(auto, unfolding(crate::specs::Cursors::move_cursor))]
pub fn move_cursor(alloc: Global, cursor: &mut Cursor<'_>) -> Result<Command, Stop>
    ensures { Reads (spec.move_cursor cursor.old) result cursor.new }
{
    Ok(Command::Move(fetch_tree(alloc, cursor)?))
}

/// What stands behind CLOSE: ALL or a cursor's name (PostgreSQL's manual, CLOSE). 42601 where neither does.
#[tactic(auto, unfolding(crate::specs::Cursors::close))]
pub fn close(alloc: Global, cursor: &mut Cursor<'_>) -> Result<Command, Stop>
    ensures { Reads (spec.close cursor.old) result cursor.new }
{
    if cursor.eat_word("all") {
        return Ok(Command::CloseAll);
    }
    Ok(Command::Close(name(alloc, cursor)?))
}
