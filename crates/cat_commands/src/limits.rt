ghost use Rattle.q_value.specs.Answers.{Answers};
ghost use Rattle.cat_commands.specs.Limits as spec;

use q_base::{Code, Stop, refusal};
use std::alloc::Global;

/// How many objects and schemas are ever made in a session; public is one of them.
const MOST_OBJECTS: usize = 65_536;

/// How many columns a table or view has at most.
pub(crate) const MOST_COLUMNS: usize = 128;

/// How many columns an index has at most.
pub(crate) const MOST_KEY_COLUMNS: usize = 8;

/// The id of the next object or schema, where so many more may be made; else 54000. Ids are given from 1 on.
pub(crate) fn room_for(alloc: Global, next: u32, count: usize) -> Result<u32, Stop>
    ensures { Answers (spec.room_for next count) result }
{
    match (next as usize).checked_add(count) {
        Some(after) if after <= MOST_OBJECTS + 1 => Ok(next),
        _ => Err(refusal(alloc, Code::LimitExceeded)),
    }
}

/// 54000 where there are more than `most`.
pub(crate) fn check_within(alloc: Global, most: usize, count: usize) -> Result<(), Stop>
    ensures { Answers (spec.within most count) result }
{
    if most < count {
        return Err(refusal(alloc, Code::LimitExceeded));
    }
    Ok(())
}
