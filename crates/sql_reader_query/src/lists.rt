ghost use Rattle.sql_expr.specs.Reading.{Parser, Reads};
ghost use Rattle.sql_reader_query.specs.Lists.{listed};

use q_base::{Code, ListOf, Stop, refusal};
use sql_expr::Cursor;
use sql_tokens::Sign;
use std::alloc::Global;

/// What stands between the commas of a list.
pub(crate) trait Element: Drop {
    /// How an element is read.
    ghost reading: { Parser Self };

    fn read(alloc: Global, cursor: &mut Cursor<'_>) -> Result<Self, Stop>
        ensures { Reads (reading cursor.old) result cursor.new };
}

/// One element or more, with commas between them.
#[tactic(auto, unfolding(crate::specs::Lists::listed))]
pub(crate) fn list_of<T: Element>(alloc: Global, cursor: &mut Cursor<'_>) -> Result<ListOf<T>, Stop>
    ensures { Reads (listed T.reading cursor.old) result cursor.new }
{
    let mut found = ListOf::new(alloc);
    for _turn in 0..cursor.left() {
        found.push(T::read(alloc, cursor)?)?;
        if !cursor.eat_sign(Sign::Comma) {
            return Ok(found);
        }
    }
    Err(refusal(alloc, Code::SyntaxError))
}
