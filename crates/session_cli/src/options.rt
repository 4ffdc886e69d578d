ghost use Rattle.std.specs.Prelude.{◌≡◌, ◌≢◌, [], false, IfOk, map, option_map, Err, None, Some};
ghost use Rattle.std.specs.String.{string_bytes};
ghost use Rattle.clap.specs.Words.{app_of, fault_of, first_value, found_of, kind_of, matches_of, rows_of};
ghost use Rattle.clap.specs.declared.error.kind.ErrorKind.TheVariants as kind;
ghost use Rattle.session_cli.specs.declared.options.WordsError.TheVariants as words_error;
ghost use Rattle.session_cli.specs.Words as asked;

use clap::error::ErrorKind;
use clap::{Arg, ArgAction, ArgMatches, Command, Error};
use q_base::Mode;
use std::alloc::{AllocError, Global};

/// What the words ask for.
#[derive(Clone, Copy, Debug, PartialEq, Eq)]
pub struct Options {
    /// Whether the first refused command ends the run.
    pub stop: bool,
    /// The default of plan_cache_mode.
    pub mode: Mode,
}

/// Why the words ask for nothing.
#[derive(Clone, Copy, Debug, PartialEq, Eq)]
pub enum WordsError {
    NoMemory,
    /// They are refused.
    Usage,
}

/// What the words after the program's name ask for: `--stop`, `--mode` with the name of a mode, and
/// `--make`, which isn't built yet and is refused.
pub fn read_words(alloc: Global, words: &[String]) -> Result<Options, WordsError>
    ensures read { IfOk result (λ options. asked.options_of (map string_bytes words.now) ≡ Some options) }
    ensures refused { result ≡ Err words_error.Usage → asked.options_of (map string_bytes words.now) ≡ None }
{
    let matches = match parsed(alloc, words) {
        Ok(matches) => matches,
        Err(error) => return Err(error),
    };
    match options_in(&matches) {
        Some(options) => Ok(options),
        None => Err(WordsError::Usage),
    }
}

#[tactic(auto, unfolding(crate::specs::Words::options_in), using(crate::proofs::WordsLemmas::first_value_of_rows))]
fn options_in(matches: &ArgMatches<'_>) -> Option<Options>
    ensures { result ≡ asked.options_in (rows_of (found_of matches.now)) }
{
    if matches.get_str("make").is_some() {
        return None;
    }
    let mode = mode_named(matches.get_str("mode"))?;
    let stop = is_on(matches.get_str("stop"));
    Some(Options { stop, mode })
}

fn is_on(text: Option<&str>) -> bool
    ensures { result ≡ asked.is_on (option_map (λ t. t.now) text.entry) }
{
    match text {
        Some(text) => text == "true",
        None => false,
    }
}

fn mode_named(text: Option<&str>) -> Option<Mode>
    ensures { result ≡ asked.mode_named (option_map (λ t. t.now) text.entry) }
{
    match text {
        None => Some(Mode::Auto),
        Some("auto") => Some(Mode::Auto),
        Some("force_generic_plan") => Some(Mode::Generic),
        Some("force_custom_plan") => Some(Mode::Custom),
        Some(_) => None,
    }
}

fn parsed<'a>(alloc: Global, words: &'a [String]) -> Result<ArgMatches<'a>, WordsError>
    ensures taken { IfOk result (λ matches. (fault_of asked.app (map string_bytes words.entry.now) ≡ []) × (rows_of (found_of matches) ≡ matches_of asked.app (map string_bytes words.entry.now))) }
    ensures refused { result ≡ Err words_error.Usage → asked.is_none_of (fault_of asked.app (map string_bytes words.entry.now)) ≡ false }
{
    let Ok(command) = command_line(alloc) else {
        return Err(WordsError::NoMemory);
    };
    match command.try_get_matches_from(words) {
        Ok(matches) => Ok(matches),
        Err(error) => Err(cause_of(&error)),
    }
}

fn cause_of(error: &Error) -> WordsError
    ensures { result ≡ words_error.Usage → kind_of error.now ≢ kind.OutOfMemory }
{
    match error.kind() {
        ErrorKind::OutOfMemory => WordsError::NoMemory,
        _ => WordsError::Usage,
    }
}

fn command_line<'a>(alloc: Global) -> Result<Command<'a>, AllocError>
    ensures { IfOk result (λ command. app_of command ≡ asked.app) }
{
    let stop = Arg::new(alloc, "stop")
        .long("stop")
        .action(ArgAction::SetTrue);
    let mode = Arg::new(alloc, "mode").long("mode").action(ArgAction::Set);
    let make = Arg::new(alloc, "make").long("make").action(ArgAction::Set);
    let command = Command::new(alloc, "toasterglen")
        .no_binary_name(true)
        .disable_help_flag(true);
    command.arg(stop)?.arg(mode)?.arg(make)
}
