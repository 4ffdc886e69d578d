//! The commands on transaction blocks and savepoints, behind their leading words:
//!
//! ```text
//! begin, commit, abort = work
//! start                = TRANSACTION
//! rollback             = work [TO savepoint_name]
//! savepoint            = name
//! release              = savepoint_name
//! work                 = [WORK | TRANSACTION]
//! savepoint_name       = [SAVEPOINT] name
//! ```

ghost use Rattle.std.specs.Prelude.{◌≡◌, Some};
ghost use Rattle.sql_expr.specs.Reading.{Reads};
ghost use Rattle.sql_reader_session.specs.Blocks as spec;

use crate::keywords::{eat_before_name, eat_either};
use q_base::{Stop, Str};
use sql_expr::{Cursor, name};
use sql_tree::Command;
use std::alloc::Global;

/// Goes past WORK or TRANSACTION, if one of them comes next.
fn eat_work(cursor: &mut Cursor<'_>) -> bool
    ensures { spec.eat_work cursor.old ≡ Some (result, cursor.new) }
{
    eat_either(cursor, "work", "transaction")
}

/// The name of a savepoint. SAVEPOINT before it is the keyword exactly where a name stands behind it.
#[tactic(auto, unfolding(crate::specs::Blocks::savepoint_name))]
fn savepoint_name(alloc: Global, cursor: &mut Cursor<'_>) -> Result<Str, Stop>
    ensures { Reads (spec.savepoint_name cursor.old) result cursor.new }
{
    eat_before_name(cursor, "savepoint");
    name(alloc, cursor)
}

/// What may stand behind BEGIN: WORK, TRANSACTION or nothing, so it refuses nothing (PostgreSQL's manual, BEGIN).
#[tactic(auto, unfolding(crate::specs::Blocks::begin))]
pub fn begin(cursor: &mut Cursor<'_>) -> Command
    ensures { spec.begin cursor.old ≡ Some (result, cursor.new) }
{
    eat_work(cursor);
    Command::Begin
}

/// What stands behind START: TRANSACTION (PostgreSQL's manual, START TRANSACTION). 42601 where it doesn't.
#[tactic(auto, unfolding(crate::specs::Blocks::start))]
pub fn start(alloc: Global, cursor: &mut Cursor<'_>) -> Result<Command, Stop>
    ensures { Reads (spec.start cursor.old) result cursor.new }
{
    cursor.expect_word(alloc, "transaction")?;
    Ok(Command::StartTransaction)
}

/// What may stand behind COMMIT or END, which mean the same: WORK, TRANSACTION or nothing, so it refuses nothing
/// (PostgreSQL's manual, COMMIT and END).
#[tactic(auto, unfolding(crate::specs::Blocks::commit))]
pub fn commit(cursor: &mut Cursor<'_>) -> Command
    ensures { spec.commit cursor.old ≡ Some (result, cursor.new) }
{
    eat_work(cursor);
    Command::Commit
}

/// What stands behind ROLLBACK: WORK, TRANSACTION or nothing, and then perhaps TO and a savepoint's name (PostgreSQL's
/// manual, ROLLBACK and ROLLBACK TO SAVEPOINT). 42601 where no name stands behind TO.
#[tactic(auto, unfolding(crate::specs::Blocks::rollback))]
pub fn rollback(alloc: Global, cursor: &mut Cursor<'_>) -> Result<Command, Stop>
    ensures { Reads (spec.rollback cursor.old) result cursor.new }
{
    eat_work(cursor);
    if !cursor.eat_word("to") {
        return Ok(Command::Rollback);
    }
    Ok(Command::RollbackTo(savepoint_name(alloc, cursor)?))
}

/// What may stand behind ABORT, which is ROLLBACK without a savepoint: WORK, TRANSACTION or nothing, so it refuses
/// nothing (PostgreSQL's manual, ABORT).
#[tactic(auto, unfolding(crate::specs::Blocks::abort))]
pub fn abort(cursor: &mut Cursor<'_>) -> Command
    ensures { spec.abort cursor.old ≡ Some (result, cursor.new) }
{
    eat_work(cursor);
    Command::Rollback
}

/// What stands behind SAVEPOINT: the name of the new savepoint (PostgreSQL's manual, SAVEPOINT). 42601 where none does.
#[tactic(auto, unfolding(crate::specs::Blocks::savepoint))]
pub fn savepoint(alloc: Global, cursor: &mut Cursor<'_>) -> Result<Command, Stop>
    ensures { Reads (spec.savepoint cursor.old) result cursor.new }
{
    Ok(Command::Savepoint(name(alloc, cursor)?))
}

/// What stands behind RELEASE: perhaps SAVEPOINT, and a savepoint's name (PostgreSQL's manual, RELEASE SAVEPOINT).
/// 42601 where no name does.
#[tactic(auto, unfolding(crate::specs::Blocks::release))]
pub fn release(alloc: Global, cursor: &mut Cursor<'_>) -> Result<Command, Stop>
    ensures { Reads (spec.release cursor.old) result cursor.new }
{
    Ok(Command::Release(savepoint_name(alloc, cursor)?))
}
