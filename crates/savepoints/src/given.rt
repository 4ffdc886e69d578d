ghost use Rattle.std.specs.Prelude.{◌≡◌, IfOk};
ghost use Rattle.std.specs.Str.{bytes_eq};
ghost use Rattle.q_value.specs.Answers.{Answers};
ghost use Rattle.q_value.specs.Parse.{bare_text, integer_of, truth_of};
ghost use Rattle.savepoints.specs.Given as spec;

use q_base::{Code, ListOf, Mode, NoMemory, SetValue, Setting, Stop, Str, refusal_naming_two};
use q_value::{SqlType, Value, parse_value};
use std::alloc::Global;

/// A setting.
#[derive(Clone, Copy, Debug, PartialEq, Eq)]
pub enum Name {
    SearchPath,
    PlanCacheMode,
    Switch(Switch),
}

/// A setting that is on or off, which lets the planner take nodes of a kind.
#[derive(Clone, Copy, Debug, PartialEq, Eq)]
pub enum Switch {
    Seqscan,
    Indexscan,
    Hashjoin,
    Nestloop,
    Sort,
}

/// The names of schemas, in the order in which they are searched.
pub type Path = ListOf<Str>;

/// A value for one setting.
#[derive(Debug, Drop)]
pub enum Given {
    Path(Path),
    Choice(Choice),
}

/// A value for a setting other than search_path.
#[derive(Clone, Copy, Debug, PartialEq, Eq)]
pub enum Choice {
    Mode(Mode),
    Switch(Switch, bool),
}

/// The setting of a name.
pub fn named(name: &str) -> Option<Name>
    ensures { result ≡ spec.named name.now }
{
    match name {
        "search_path" => Some(Name::SearchPath),
        "plan_cache_mode" => Some(Name::PlanCacheMode),
        "enable_seqscan" => Some(Name::Switch(Switch::Seqscan)),
        "enable_indexscan" => Some(Name::Switch(Switch::Indexscan)),
        "enable_hashjoin" => Some(Name::Switch(Switch::Hashjoin)),
        "enable_nestloop" => Some(Name::Switch(Switch::Nestloop)),
        "enable_sort" => Some(Name::Switch(Switch::Sort)),
        _ => None,
    }
}

/// The value that a setting is given: its default, or the one that is written. Refused as 22023 where
/// it can't have that one.
pub fn value_given(
    alloc: Global,
    name: &str,
    setting: Name,
    value: &SetValue,
    default_mode: Mode,
) -> Result<Given, Stop>
    ensures { Answers (spec.value_given name.now setting value.now default_mode) result }
{
    match value {
        SetValue::Default => Ok(default_of(alloc, setting, default_mode)?),
        SetValue::List(written) => from_written(alloc, name, setting, written.as_slice()),
    }
}

fn default_of(alloc: Global, setting: Name, default_mode: Mode) -> Result<Given, NoMemory>
    ensures { IfOk result (λ given. given ≡ spec.default_of setting default_mode) }
{
    match setting {
        Name::SearchPath => Ok(Given::Path(default_path(alloc)?)),
        Name::PlanCacheMode => Ok(Given::Choice(Choice::Mode(default_mode))),
        Name::Switch(switch) => Ok(Given::Choice(Choice::Switch(switch, true))),
    }
}

/// The path that a session begins with.
pub fn default_path(alloc: Global) -> Result<Path, NoMemory>
    ensures { IfOk result (λ path. path ≡ spec.default_path) }
{
    let mut path = ListOf::new(alloc);
    path.push(Str::from_text(alloc, "public")?)?;
    Ok(path)
}

fn from_written(
    alloc: Global,
    name: &str,
    setting: Name,
    written: &[Setting],
) -> Result<Given, Stop>
    ensures { Answers (spec.from_written name.now setting written.now) result }
{
    if setting == Name::SearchPath {
        return Ok(Given::Path(path_of(alloc, written)?));
    }
    match only_choice(alloc, setting, written)? {
        Some(choice) => Ok(Given::Choice(choice)),
        None => Err(refusal_naming_two(alloc, Code::InvalidSettingValue, name, bad_text(written))),
    }
}

fn path_of(alloc: Global, written: &[Setting]) -> Result<Path, NoMemory>
    ensures { IfOk result (λ path. path ≡ spec.path_of written.now) }
{
    let mut path = ListOf::new(alloc);
    for one in written {
        path.push(one.text.copy(alloc)?)?;
    }
    Ok(path)
}

/// The value to name where none can be taken: of several the second.
fn bad_text(written: &[Setting]) -> &str
    ensures { result.now ≡ spec.bad_text written.now }
{
    match written {
        [_, second, ..] => second.text.as_str(),
        [only] => only.text.as_str(),
        [] => "",
    }
}

fn only_choice(
    alloc: Global,
    setting: Name,
    written: &[Setting],
) -> Result<Option<Choice>, NoMemory>
    ensures { IfOk result (λ choice. choice ≡ spec.only_choice setting written.now) }
{
    match written {
        [only] => choice_of(alloc, setting, only),
        _ => Ok(None),
    }
}

fn choice_of(alloc: Global, setting: Name, written: &Setting) -> Result<Option<Choice>, NoMemory>
    ensures { IfOk result (λ choice. choice ≡ spec.choice_of setting written.now) }
{
    match setting {
        Name::SearchPath => Ok(None),
        Name::PlanCacheMode => Ok(mode_of(written).map(Choice::Mode)),
        Name::Switch(switch) => {
            let truth = truth_of(alloc, written)?;
            Ok(truth.map(|on| Choice::Switch(switch, on)))
        }
    }
}

fn mode_of(written: &Setting) -> Option<Mode>
    ensures { result ≡ spec.mode_of written.now }
{
    let text = written.text.as_str();
    if written.number {
        None
    } else if text.eq_ignore_ascii_case("auto") {
        Some(Mode::Auto)
    } else if text.eq_ignore_ascii_case("force_generic_plan") {
        Some(Mode::Generic)
    } else if text.eq_ignore_ascii_case("force_custom_plan") {
        Some(Mode::Custom)
    } else {
        None
    }
}

/// Whether a value means on or off, if it means either.
fn truth_of(alloc: Global, written: &Setting) -> Result<Option<bool>, NoMemory>
    ensures { IfOk result (λ truth. truth ≡ spec.switch_truth written.now) }
{
    let text = written.text.as_str();
    if written.number {
        number_truth(alloc, text)
    } else if is_bare(text) {
        text_truth(alloc, text)
    } else {
        Ok(None)
    }
}

/// Whether a text has no blanks around it.
fn is_bare(text: &str) -> bool
    ensures { result ≡ bytes_eq (bare_text text.now) text.now }
{
    text.trim_ascii() == text
}

fn text_truth(alloc: Global, text: &str) -> Result<Option<bool>, NoMemory>
    ensures { IfOk result (λ truth. truth ≡ truth_of (bare_text text.now)) }
{
    match parse_value(alloc, text, SqlType::Bool) {
        Ok(Value::Bool(truth)) => Ok(Some(truth)),
        Ok(_) | Err(Stop::Sql(_)) => Ok(None),
        Err(Stop::NoMemory) => Err(NoMemory),
    }
}

#[tactic(auto, using(crate::proofs::Numbers::number_of_parsed))]
fn number_truth(alloc: Global, text: &str) -> Result<Option<bool>, NoMemory>
    ensures { IfOk result (λ truth. truth ≡ spec.number_truth (integer_of (bare_text text.now))) }
{
    match parse_value(alloc, text, SqlType::Int8) {
        Ok(value) => Ok(zero_or_one(value.number())),
        Err(Stop::Sql(_)) => Ok(None),
        Err(Stop::NoMemory) => Err(NoMemory),
    }
}

fn zero_or_one(number: Option<i64>) -> Option<bool>
    ensures { result ≡ spec.number_truth number }
{
    match number {
        Some(0) => Some(false),
        Some(1) => Some(true),
        _ => None,
    }
}
