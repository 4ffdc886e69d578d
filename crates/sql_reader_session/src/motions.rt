//! Where FETCH and MOVE go (PostgreSQL's manual, "FETCH"):
//!
//! ```text
//! motion = NEXT | PRIOR | FIRST | LAST | ABSOLUTE integer | RELATIVE integer | integer | ALL
//!        | (FORWARD | BACKWARD) [integer | ALL]
//! ```

ghost use Rattle.std.specs.Prelude.{◌≡◌, Some};
ghost use Rattle.sql_expr.specs.Reading.{Reads, taken};
ghost use Rattle.sql_reader_session.specs.Motions as spec;

use crate::numbers::{integer, optional_integer};
use q_base::Stop;
use sql_expr::Cursor;
use sql_tokens::Token;
use sql_tree::Motion;
use std::alloc::Global;

/// The words with which a motion begins.
#[derive(Clone, Copy)]
pub enum Direction {
    Next,
    Prior,
    First,
    Last,
    Absolute,
    Relative,
    All,
    Forward,
    Backward,
}

/// A motion, or NEXT where none is written. Its words are directions here and never the cursor's name.
#[tactic(auto, unfolding(crate::specs::Motions::optional_motion))]
pub(crate) fn optional_motion(alloc: Global, cursor: &mut Cursor<'_>) -> Result<Motion, Stop>
    ensures { Reads (spec.optional_motion cursor.old) result cursor.new }
{
    if let Some(count) = optional_integer(alloc, cursor)? {
        return Ok(Motion::Count(count));
    }
    match eat_direction(cursor) {
        Some(direction) => directed(alloc, cursor, direction),
        None => Ok(Motion::Next),
    }
}

fn direction_of_word(word: &str) -> Option<Direction>
    ensures { result ≡ spec.direction_of_word word.now }
{
    if word == "next" {
        Some(Direction::Next)
    } else if word == "prior" {
        Some(Direction::Prior)
    } else if word == "first" {
        Some(Direction::First)
    } else if word == "last" {
        Some(Direction::Last)
    } else if word == "absolute" {
        Some(Direction::Absolute)
    } else if word == "relative" {
        Some(Direction::Relative)
    } else if word == "all" {
        Some(Direction::All)
    } else if word == "forward" {
        Some(Direction::Forward)
    } else if word == "backward" {
        Some(Direction::Backward)
    } else {
        None
    }
}

fn direction_of(token: &Token) -> Option<Direction>
    ensures { result ≡ spec.direction_of token.now }
{
    match token {
        Token::Word(word) => direction_of_word(word.as_str()),
        _ => None,
    }
}

/// Goes past a direction, if one comes next.
#[tactic(auto, unfolding(sql_expr::specs::Reading::taken))]
fn eat_direction(cursor: &mut Cursor<'_>) -> Option<Direction>
    ensures { taken spec.direction_of cursor.old ≡ Some (result, cursor.new) }
{
    let direction = direction_of(cursor.peek()?)?;
    cursor.skip();
    Some(direction)
}

/// The motion of which the direction was read.
fn directed(alloc: Global, cursor: &mut Cursor<'_>, direction: Direction) -> Result<Motion, Stop>
    ensures { Reads (spec.directed direction cursor.old) result cursor.new }
{
    match direction {
        Direction::Next => Ok(Motion::Next),
        Direction::Prior => Ok(Motion::Prior),
        Direction::First => Ok(Motion::First),
        Direction::Last => Ok(Motion::Last),
        Direction::Absolute => Ok(Motion::Absolute(integer(alloc, cursor)?)),
        Direction::Relative => Ok(Motion::Relative(integer(alloc, cursor)?)),
        Direction::All => Ok(Motion::All),
        Direction::Forward => forward(alloc, cursor),
        Direction::Backward => backward(alloc, cursor),
    }
}

/// The motion of which FORWARD was read.
#[tactic(auto, unfolding(crate::specs::Motions::forward))]
fn forward(alloc: Global, cursor: &mut Cursor<'_>) -> Result<Motion, Stop>
    ensures { Reads (spec.forward cursor.old) result cursor.new }
{
    if cursor.eat_word("all") {
        return Ok(Motion::ForwardAll);
    }
    Ok(Motion::Forward(optional_integer(alloc, cursor)?))
}

/// The motion of which BACKWARD was read.
#[tactic(auto, unfolding(crate::specs::Motions::backward))]
fn backward(alloc: Global, cursor: &mut Cursor<'_>) -> Result<Motion, Stop>
    ensures { Reads (spec.backward cursor.old) result cursor.new }
{
    if cursor.eat_word("all") {
        return Ok(Motion::BackwardAll);
    }
    Ok(Motion::Backward(optional_integer(alloc, cursor)?))
}
