//! COLUMN, which is a keyword in ALTER TABLE and may also be a column's name. It is the keyword where the
//! command can be read so to its end, and else the name; the tokens next behind it are enough to tell.

ghost use Rattle.std.specs.Prelude.{◌≡◌, Some};
ghost use Rattle.sql_reader_catalog.specs.Keywords as spec;

use sql_expr::{Cursor, sees_name};

/// Goes past COLUMN behind ADD, where it is the keyword: where two names follow, those of a column and its type.
pub(crate) fn skip_column_before_definition(cursor: &mut Cursor<'_>)
    ensures { spec.skip_column_before_definition cursor.old ≡ Some (tt, cursor.new) }
{
    if is_column_before_definition(cursor) {
        cursor.skip();
    }
}

fn is_column_before_definition(cursor: &Cursor<'_>) -> bool
    ensures { result ≡ spec.is_column_before_definition cursor.now }
{
    let follow = cursor.past_next();
    cursor.sees_word("column") && sees_name(&follow) && sees_name(&follow.past_next())
}

/// Goes past COLUMN behind DROP and RENAME, where it is the keyword: where a name follows.
pub(crate) fn skip_column_before_name(cursor: &mut Cursor<'_>)
    ensures { spec.skip_column_before_name cursor.old ≡ Some (tt, cursor.new) }
{
    if cursor.sees_word("column") && sees_name(&cursor.past_next()) {
        cursor.skip();
    }
}

/// Goes past COLUMN behind the inner ALTER, where it is the keyword: where a name follows and behind that a
/// change of a column.
pub(crate) fn skip_column_before_change(cursor: &mut Cursor<'_>)
    ensures { spec.skip_column_before_change cursor.old ≡ Some (tt, cursor.new) }
{
    let follow = cursor.past_next();
    if cursor.sees_word("column") && sees_name(&follow) && sees_change(&follow.past_next()) {
        cursor.skip();
    }
}

/// Whether a change of a column begins: TYPE with a name, SET, or DROP with DEFAULT or NOT.
#[tactic(auto, unfolding(crate::specs::Keywords::sees_change))]
fn sees_change(cursor: &Cursor<'_>) -> bool
    ensures { result ≡ spec.sees_change cursor.now }
{
    let follow = cursor.past_next();
    if cursor.sees_word("type") {
        sees_name(&follow)
    } else if cursor.sees_word("drop") {
        follow.sees_word("default") || follow.sees_word("not")
    } else {
        cursor.sees_word("set")
    }
}
