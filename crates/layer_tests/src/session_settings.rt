ghost use Rattle.std.specs.Prelude.{OnOk};
ghost use Rattle.savepoints.specs.Settings.{KeepsMarks};

use q_base::{ListOf, Mode, NoMemory, SetValue, Setting, SqlError, Stop, Str};
use savepoints::Settings;
use std::alloc::Global;
use std::test::Fail;

/// A setting, the values written after SET, and what SHOW prints then or why SET is refused. A `#` stands
/// before a number, and no value is DEFAULT.
const SET: [(&str, &[&str], &str); 29] = [
    (
        "search_path",
        &["A b", "x", "#1", "#-2", "true", "select", "", "q\"q"],
        "\"A b\", x, \"1\", \"-2\", \"true\", \"select\", \"\", \"q\"\"q\"",
    ),
    (
        "search_path",
        &["9a", "_z9", "é", "selects"],
        "\"9a\", _z9, \"é\", selects",
    ),
    ("search_path", &[], "public"),
    (
        "plan_cache_mode",
        &["FORCE_Custom_plan"],
        "force_custom_plan",
    ),
    ("plan_cache_mode", &["Auto"], "auto"),
    ("plan_cache_mode", &[], "force_generic_plan"),
    ("plan_cache_mode", &["#1"], "22023 plan_cache_mode 1"),
    ("plan_cache_mode", &[" auto"], "22023 plan_cache_mode  auto"),
    (
        "plan_cache_mode",
        &["auto", "generic"],
        "22023 plan_cache_mode generic",
    ),
    ("enable_seqscan", &["oF"], "off"),
    ("enable_seqscan", &["On"], "on"),
    ("enable_indexscan", &["faLs"], "off"),
    ("enable_indexscan", &["y"], "on"),
    ("enable_hashjoin", &["0"], "off"),
    ("enable_hashjoin", &["1"], "on"),
    ("enable_nestloop", &["#-0"], "off"),
    (
        "enable_nestloop",
        &["#00000000000000000000000000000000000001"],
        "on",
    ),
    ("enable_sort", &["nO"], "off"),
    ("enable_sort", &[], "on"),
    ("enable_sort", &[" on"], "22023 enable_sort  on"),
    ("enable_sort", &["on "], "22023 enable_sort on "),
    ("enable_sort", &["o"], "22023 enable_sort o"),
    ("enable_sort", &[""], "22023 enable_sort "),
    ("enable_sort", &["#2"], "22023 enable_sort 2"),
    ("enable_sort", &["#-01"], "22023 enable_sort -01"),
    (
        "enable_sort",
        &["#99999999999999999999"],
        "22023 enable_sort 99999999999999999999",
    ),
    ("enable_sort", &["zz", "off"], "22023 enable_sort off"),
    ("enable_sorts", &["on"], "42704 enable_sorts"),
    ("", &[], "42704 "),
];

fn value_of(alloc: Global, texts: &[&str]) -> Result<SetValue, NoMemory> {
    if texts.is_empty() {
        return Ok(SetValue::Default);
    }
    let mut written = ListOf::new(alloc);
    for text in texts {
        let digits = text.strip_prefix("#");
        written.push(Setting {
            text: Str::from_text(alloc, digits.unwrap_or(text))?,
            number: digits.is_some(),
        })?;
    }
    Ok(SetValue::List(written))
}

/// What SHOW prints.
fn shown(alloc: Global, settings: &Settings, name: &str) -> Result<Vec<u8>, Fail> {
    let mut out = Vec::new(alloc);
    settings.text(name, &mut out)?;
    Ok(out)
}

/// The SQLSTATE and the arguments.
fn shown_refusal(alloc: Global, error: &SqlError) -> Result<Vec<u8>, NoMemory> {
    let mut out = Vec::from_slice(alloc, error.code.sqlstate().as_bytes())?;
    for argument in error.args.as_slice() {
        out.push(b' ')?;
        out.extend_from_slice(argument.as_str().as_bytes())?;
    }
    Ok(out)
}

/// What SHOW prints after SET, or the refusal with its arguments.
fn set_and_show(
    alloc: Global,
    settings: &mut Settings,
    name: &str,
    texts: &[&str],
) -> Result<Vec<u8>, Fail> {
    let value = value_of(alloc, texts)?;
    match settings.set(name, &value, false) {
        Ok(()) => shown(alloc, settings, name),
        Err(Stop::Sql(error)) => Ok(shown_refusal(alloc, &error)?),
        Err(Stop::NoMemory) => Ok(Vec::new(alloc)),
    }
}

#[test]
fn settings_take_what_they_can_have(rt: HostRuntime) -> Result<(), Fail> {
    let mut settings = Settings::new(rt.alloc(), Mode::Generic)?;
    for (name, texts, expected) in &SET {
        let out = set_and_show(rt.alloc(), &mut settings, name, texts)?;
        assert_eq!(rt; out.as_slice(), expected.as_bytes());
    }
    Ok(())
}

fn set(
    alloc: Global,
    settings: &mut Settings,
    name: &str,
    text: &str,
    local: bool,
) -> Result<(), Fail>
    ensures { OnOk result (KeepsMarks settings.old settings.new) }
{
    Ok(settings.set(name, &value_of(alloc, &[text])?, local)?)
}

/// Whether two settings are shown so.
fn shows(alloc: Global, settings: &Settings, path: &str, sort: &str) -> Result<bool, Fail> {
    let path_is = shown(alloc, settings, "search_path")?.as_slice() == path.as_bytes();
    Ok(path_is && shown(alloc, settings, "enable_sort")?.as_slice() == sort.as_bytes())
}

/// The changes of a block behind one that has ended, and then those behind a savepoint taken back.
fn change(alloc: Global, settings: &mut Settings) -> Result<(), Fail> {
    set(alloc, settings, "search_path", "a", false)?;
    settings.commit();
    set(alloc, settings, "search_path", "b", true)?;
    set(alloc, settings, "enable_sort", "off", true)?;
    let savepoint = settings.mark();
    set(alloc, settings, "search_path", "c", false)?;
    set(alloc, settings, "enable_sort", "on", false)?;
    settings.rollback_to(savepoint);
    Ok(())
}

#[test]
fn changes_end_and_are_taken_back(rt: HostRuntime) -> Result<(), Fail> {
    let mut settings = Settings::new(rt.alloc(), Mode::Auto)?;
    change(rt.alloc(), &mut settings)?;
    assert!(rt; shows(rt.alloc(), &settings, "b", "off")?);
    settings.commit();
    assert!(rt; shows(rt.alloc(), &settings, "a", "on")?);
    Ok(())
}
