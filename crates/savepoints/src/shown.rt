ghost use Rattle.std.specs.Prelude.{◌≡◌, ◌++◌, OnOk};
ghost use Rattle.savepoints.specs.Shown as spec;

use crate::given::Switch;
use q_base::{Mode, NoMemory, Str, Switches};
use sql_expr::is_reserved;

/// What SHOW prints for a mode.
pub fn mode_word(mode: Mode) -> &'static str
    ensures { result.now ≡ spec.mode_word mode }
{
    match mode {
        Mode::Auto => "auto",
        Mode::Generic => "force_generic_plan",
        Mode::Custom => "force_custom_plan",
    }
}

/// What SHOW prints for a setting that is on or off.
pub fn switch_word(on: bool) -> &'static str
    ensures { result.now ≡ spec.switch_word on }
{
    if on { "on" } else { "off" }
}

/// Whether a setting is on.
pub fn is_on(switch: Switch, switches: Switches) -> bool
    ensures { result ≡ spec.is_on switch switches }
{
    match switch {
        Switch::Seqscan => switches.seqscan,
        Switch::Indexscan => switches.indexscan,
        Switch::Hashjoin => switches.hashjoin,
        Switch::Nestloop => switches.nestloop,
        Switch::Sort => switches.sort,
    }
}

/// Appends the names of a path, each quoted where it has to be.
pub fn append_path(path: &[Str], out: &mut Vec<u8>) -> Result<(), NoMemory>
    ensures { OnOk result (out.new.items ≡ out.old.items ++ spec.shown_path path.now) }
{
    match path {
        [] => Ok(()),
        [first, more @ ..] => {
            append_name(first.as_str(), out)?;
            append_more(more, out)
        }
    }
}

fn append_more(names: &[Str], out: &mut Vec<u8>) -> Result<(), NoMemory>
    ensures { OnOk result (out.new.items ≡ out.old.items ++ spec.shown_more names.now) }
{
    for name in names {
        append(b", ", out)?;
        append_name(name.as_str(), out)?;
    }
    Ok(())
}

fn append_name(name: &str, out: &mut Vec<u8>) -> Result<(), NoMemory>
    ensures { OnOk result (out.new.items ≡ out.old.items ++ spec.shown_name name.now) }
{
    if is_plain(name) {
        append(name.as_bytes(), out)
    } else {
        append(b"\"", out)?;
        append_doubled(name.as_bytes(), out)?;
        append(b"\"", out)
    }
}

/// Appends bytes, each quote among them twice.
fn append_doubled(bytes: &[u8], out: &mut Vec<u8>) -> Result<(), NoMemory>
    ensures { OnOk result (out.new.items ≡ out.old.items ++ spec.doubled bytes.now) }
{
    for byte in bytes {
        if *byte == b'"' {
            append(b"\"\"", out)?;
        } else {
            out.push(*byte)?;
        }
    }
    Ok(())
}

/// Whether a name is shown without quotes.
#[tactic(auto, unfolding(crate::specs::Shown::is_plain))]
fn is_plain(name: &str) -> bool
    ensures { result ≡ spec.is_plain name.now }
{
    begins_name(name.as_bytes()) && has_name_bytes(name.as_bytes()) && !is_reserved(name)
}

fn begins_name(bytes: &[u8]) -> bool
    ensures { result ≡ spec.begins_name bytes.now }
{
    match bytes {
        [first, ..] => !first.is_ascii_digit(),
        [] => false,
    }
}

fn has_name_bytes(bytes: &[u8]) -> bool
    ensures { result ≡ spec.has_name_bytes bytes.now }
{
    bytes.iter().all(|byte| is_name_byte(*byte))
}

fn is_name_byte(byte: u8) -> bool
    ensures { result ≡ spec.is_name_byte byte }
{
    byte.is_ascii_lowercase() || byte.is_ascii_digit() || byte == b'_'
}

/// Appends bytes as they are.
pub fn append(bytes: &[u8], out: &mut Vec<u8>) -> Result<(), NoMemory>
    ensures { OnOk result (out.new.items ≡ out.old.items ++ bytes.now) }
{
    out.extend_from_slice(bytes)?;
    Ok(())
}
