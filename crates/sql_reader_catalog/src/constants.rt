ghost use Rattle.sql_expr.specs.Reading.{Reads};
ghost use Rattle.sql_reader_catalog.specs.Constants as spec;

use q_base::Stop;
use sql_expr::{Cursor, eat_literal, numeral};
use sql_tree::Literal;
use std::alloc::Global;

/// A constant, such as stands behind DEFAULT: `["-"] NUMBER | STRING | NULL | TRUE | FALSE`. 42601 where none
/// comes next.
#[tactic(auto, unfolding(crate::specs::Constants::constant))]
pub fn constant(alloc: Global, cursor: &mut Cursor<'_>) -> Result<Literal, Stop>
    ensures { Reads (spec.constant cursor.old) result cursor.new }
{
    match eat_literal(alloc, cursor)? {
        Some(literal) => Ok(literal),
        None => Ok(Literal::Number(numeral(alloc, cursor)?)),
    }
}
