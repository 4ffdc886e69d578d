ghost use Rattle.std.specs.Prelude.{◌≡◌, Some};
ghost use Rattle.sql_reader_session.specs.Keywords as spec;

use sql_expr::{Cursor, sees_name};

/// Goes past the word, if it comes next and a name stands behind it, and says whether it did. Elsewhere
/// the word is a name itself.
pub(crate) fn eat_before_name(cursor: &mut Cursor<'_>, word: &str) -> bool
    ensures { spec.eat_before_name word.now cursor.old ≡ Some (result, cursor.new) }
{
    let found = cursor.sees_word(word) && sees_name(&cursor.past_next());
    if found {
        cursor.skip();
    }
    found
}

/// Goes past one of two words, if one of them comes next, and says whether it did.
pub(crate) fn eat_either(cursor: &mut Cursor<'_>, first: &str, second: &str) -> bool
    ensures { spec.eat_either first.now second.now cursor.old ≡ Some (result, cursor.new) }
{
    cursor.eat_word(first) || cursor.eat_word(second)
}
