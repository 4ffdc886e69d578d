ghost use Rattle.std.specs.Prelude.{◌≡◌};
ghost use Rattle.std.specs.Option.{option_copied};
ghost use Rattle.q_base.specs.Stops.{StopsBy};
ghost use Rattle.q_value.specs.Answers.{Answers};
ghost use Rattle.cat_commands.specs.Defaults as spec;

use crate::numbers::{narrowest, number_of};
use crate::refusals::refusal_naming_three;
use crate::types::is_assignable;
use q_base::{Code, Stop, refusal};
use q_value::{SqlType, Value, convert, parse_value};
use sql_tree::{Literal, Numeral};
use std::alloc::Global;

/// The default that a literal gives a column: none where nothing or NULL is written. A text is read as the column's
/// type (22P02, 22003); a number is an integer, else a bigint (past that 22003), and is assigned to the column, as a
/// boolean is (42804, 22003).
pub(crate) fn default_of(
    alloc: Global,
    literal: &Option<Literal>,
    column: &str,
    kind: SqlType,
) -> Result<Option<Value>, Stop>
    ensures { Answers (spec.default_of literal.now column.now kind) result }
{
    match literal {
        Some(literal) => default_written(alloc, literal, column, kind),
        None => Ok(None),
    }
}

#[tactic(auto, unfolding(crate::specs::Defaults::default_written))]
pub(crate) fn default_written(
    alloc: Global,
    literal: &Literal,
    column: &str,
    kind: SqlType,
) -> Result<Option<Value>, Stop>
    ensures { Answers (spec.default_written literal.now column.now kind) result }
{
    match literal {
        Literal::Null => Ok(None),
        Literal::Text(text) => default_text(alloc, text.as_str(), kind),
        Literal::Bool(truth) => assigned(alloc, column, kind, Value::Bool(*truth)),
        Literal::Number(numeral) => default_number(alloc, numeral, column, kind),
    }
}

fn default_text(alloc: Global, text: &str, kind: SqlType) -> Result<Option<Value>, Stop>
    ensures { Answers (spec.default_text text.now kind) result }
{
    Ok(Some(parse_value(alloc, text, kind)?))
}

fn default_number(
    alloc: Global,
    numeral: &Numeral,
    column: &str,
    kind: SqlType,
) -> Result<Option<Value>, Stop>
    ensures { Answers (spec.default_number numeral.now column.now kind) result }
{
    match number_of(alloc, numeral)? {
        Some(number) => assigned(alloc, column, kind, narrowest(number)),
        None => Err(refusal(alloc, Code::BigintOutOfRange)),
    }
}

/// A value as a column is given it; 42804 names the column and both types.
#[tactic(auto, unfolding(crate::specs::Defaults::assigned))]
fn assigned(alloc: Global, column: &str, kind: SqlType, value: Value) -> Result<Option<Value>, Stop>
    ensures { Answers (spec.assigned column.now kind value) result }
{
    match value.kind() {
        Some(source) if !is_assignable(source, kind) => Err(mismatch(alloc, column, kind, source)),
        _ => Ok(Some(convert(alloc, value, kind)?)),
    }
}

/// 42804: an expression's type can't be assigned to the column's.
pub(crate) fn mismatch(alloc: Global, column: &str, kind: SqlType, source: SqlType) -> Stop
    ensures { StopsBy (λ e. e ≡ spec.mismatch column.now kind source) result }
{
    refusal_naming_three(
        alloc,
        Code::ColumnTypeMismatch,
        column,
        kind.name(),
        source.name(),
    )
}
