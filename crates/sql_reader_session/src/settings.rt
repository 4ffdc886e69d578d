//! The commands on settings, behind their leading words:
//!
//! ```text
//! set         = [SESSION | LOCAL] name (TO | "=") (DEFAULT | list(setting))
//! setting     = name | STRING | ["-"] NUMBER | ON | TRUE | FALSE
//! reset, show = name
//! ```

ghost use Rattle.std.specs.Prelude.{◌≡◌, Some, IfOk};
ghost use Rattle.std.specs.Option.{option_copied};
ghost use Rattle.sql_expr.specs.Reading.{Reads, taken};
ghost use Rattle.sql_reader_session.specs.Settings as spec;

use crate::keywords::eat_before_name;
use q_base::{Code, ListOf, NoMemory, SetValue, Setting, SettingList, Stop, Str, refusal};
use sql_expr::{Cursor, is_reserved, name, numeral};
use sql_tokens::{Sign, Token};
use sql_tree::{Command, Numeral, SetTree};
use std::alloc::Global;

/// Whether a word is a setting's value: ON, TRUE and FALSE are, though they are no names.
fn is_setting_word(word: &str) -> bool
    ensures { result ≡ spec.is_setting_word word.now }
{
    word == "on" || word == "true" || word == "false" || !is_reserved(word)
}

/// The text that a token gives a setting, but for a number.
fn text_of(token: &Token) -> Option<&Str>
    ensures { option_copied result ≡ spec.text_of token.now }
{
    match token {
        Token::Word(word) if is_setting_word(word.as_str()) => Some(word),
        Token::Quoted(name) => Some(name),
        Token::Text(text) => Some(text),
        _ => None,
    }
}

/// Goes past a setting's value, if one comes next that isn't a number, and gives its text.
#[tactic(auto, unfolding(sql_expr::specs::Reading::taken))]
fn eat_text<'a>(cursor: &mut Cursor<'a>) -> Option<&'a Str>
    ensures { taken spec.text_of cursor.old ≡ Some (option_copied result, cursor.new) }
{
    let text = text_of(cursor.peek()?)?;
    cursor.skip();
    Some(text)
}

/// A number's digits with its minus, if it has one, directly before them.
fn numeral_text(alloc: Global, number: Numeral) -> Result<Str, NoMemory>
    ensures { IfOk result (λ text. text ≡ spec.numeral_text number) }
{
    let Numeral { negative, digits } = number;
    if !negative {
        return Ok(digits);
    }
    let mut text = String::from_str(alloc, "-")?;
    text.push_str(digits.as_str())?;
    Ok(Str::new(text))
}

/// A setting's value. 42601 where none comes next.
#[tactic(auto, unfolding(crate::specs::Settings::setting))]
fn setting(alloc: Global, cursor: &mut Cursor<'_>) -> Result<Setting, Stop>
    ensures { Reads (spec.setting cursor.old) result cursor.new }
{
    if let Some(text) = eat_text(cursor) {
        return Ok(Setting {
            text: text.copy(alloc)?,
            number: false,
        });
    }
    let number = numeral(alloc, cursor)?;
    Ok(Setting {
        text: numeral_text(alloc, number)?,
        number: true,
    })
}

/// Values with commas between them.
#[tactic(auto, unfolding(crate::specs::Settings::settings))]
fn settings(alloc: Global, cursor: &mut Cursor<'_>) -> Result<SettingList, Stop>
    ensures { Reads (spec.settings cursor.old) result cursor.new }
{
    let mut found = ListOf::new(alloc);
    for _turn in 0..cursor.left() {
        found.push(setting(alloc, cursor)?)?;
        if !cursor.eat_sign(Sign::Comma) {
            return Ok(found);
        }
    }
    Err(refusal(alloc, Code::SyntaxError))
}

/// DEFAULT, or a list of values.
#[tactic(auto, unfolding(crate::specs::Settings::set_value))]
fn set_value(alloc: Global, cursor: &mut Cursor<'_>) -> Result<SetValue, Stop>
    ensures { Reads (spec.set_value cursor.old) result cursor.new }
{
    if cursor.eat_word("default") {
        return Ok(SetValue::Default);
    }
    Ok(SetValue::List(settings(alloc, cursor)?))
}

/// Goes past SESSION or LOCAL, if one of them comes next and a name stands behind it, and says whether it
/// was LOCAL.
#[tactic(auto, unfolding(crate::specs::Settings::scope))]
fn eat_scope(cursor: &mut Cursor<'_>) -> bool
    ensures { spec.scope cursor.old ≡ Some (result, cursor.new) }
{
    if eat_before_name(cursor, "local") {
        return true;
    }
    eat_before_name(cursor, "session");
    false
}

/// 42601 where neither TO nor `=` comes next.
#[tactic(auto, unfolding(crate::specs::Settings::expect_to))]
fn expect_to(alloc: Global, cursor: &mut Cursor<'_>) -> Result<(), Stop>
    ensures { Reads (spec.expect_to cursor.old) result cursor.new }
{
    if cursor.eat_word("to") {
        return Ok(());
    }
    cursor.expect_sign(alloc, Sign::Equal)
}

/// What stands behind SET: perhaps SESSION or LOCAL, a setting's name, TO or `=`, and DEFAULT or a list of values
/// (PostgreSQL's manual, SET). Neither the name nor the values are judged here. 42601 where the tokens don't go on so.
#[tactic(auto, unfolding(crate::specs::Settings::set))]
pub fn set(alloc: Global, cursor: &mut Cursor<'_>) -> Result<Command, Stop>
    ensures { Reads (spec.set cursor.old) result cursor.new }
{
    let local = eat_scope(cursor);
    let name = name(alloc, cursor)?;
    expect_to(alloc, cursor)?;
    let value = set_value(alloc, cursor)?;
    Ok(Command::Set(SetTree { name, local, value }))
}

/// What stands behind RESET: a setting's name, which isn't judged here (PostgreSQL's manual, RESET). 42601 where none does.
#[tactic(auto, unfolding(crate::specs::Settings::reset))]
pub fn reset(alloc: Global, cursor: &mut Cursor<'_>) -> Result<Command, Stop>
    ensures { Reads (spec.reset cursor.old) result cursor.new }
{
    Ok(Command::Reset(name(alloc, cursor)?))
}

/// What stands behind SHOW: a setting's name, which isn't judged here (PostgreSQL's manual, SHOW). 42601 where none does.
#[tactic(auto, unfolding(crate::specs::Settings::show))]
pub fn show(alloc: Global, cursor: &mut Cursor<'_>) -> Result<Command, Stop>
    ensures { Reads (spec.show cursor.old) result cursor.new }
{
    Ok(Command::Show(name(alloc, cursor)?))
}
