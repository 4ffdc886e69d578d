ghost use Rattle.std.specs.Prelude.{◌≡◌, ◌++◌, IfOk, OnOk};
ghost use Rattle.result_text.specs.Messages as spec;

use crate::append::append;
use q_base::{NoMemory, SqlError, Str};

/// Appends what is printed for a refusal, the line `ERROR:  code: text` of its SQLSTATE and its text, as psql
/// begins it under VERBOSITY verbose (`pqBuildErrorMessage3` in fe-protocol3.c of PostgreSQL).
#[tactic(auto, unfolding(crate::specs::Messages::error_line))]
pub fn error_text(error: &SqlError, out: &mut Vec<u8>) -> Result<(), NoMemory>
    ensures { OnOk result (out.new.items ≡ out.old.items ++ spec.error_line error.now) }
{
    append(b"ERROR:  ", out)?;
    append_message(error, out)
}

/// Appends what is printed for a warning, which comes before the tag: as a refusal's line, with `WARNING:`.
#[tactic(auto, unfolding(crate::specs::Messages::warning_line))]
pub fn warning_text(warning: &SqlError, out: &mut Vec<u8>) -> Result<(), NoMemory>
    ensures { OnOk result (out.new.items ≡ out.old.items ++ spec.warning_line warning.now) }
{
    append(b"WARNING:  ", out)?;
    append_message(warning, out)
}

/// Appends the SQLSTATE and the text, whose template takes the arguments in order.
#[tactic(auto, unfolding(crate::specs::Messages::message))]
fn append_message(error: &SqlError, out: &mut Vec<u8>) -> Result<(), NoMemory>
    ensures { OnOk result (out.new.items ≡ out.old.items ++ spec.message error.now) }
{
    append(error.code.sqlstate().as_bytes(), out)?;
    append(b": ", out)?;
    append_filled(error.code.template().as_bytes(), error.args.as_slice(), out)?;
    append(b"\n", out)
}

fn append_filled(template: &[u8], arguments: &[Str], out: &mut Vec<u8>) -> Result<(), NoMemory>
    ensures { OnOk result (out.new.items ≡ out.old.items ++ spec.filled template.now arguments.now) }
{
    let mut left = arguments;
    for byte in template {
        left = append_byte(*byte, left, out)?;
    }
    Ok(())
}

// Appends what one byte of a template prints, and gives the arguments that are left.
fn append_byte<'a>(byte: u8, arguments: &'a [Str], out: &mut Vec<u8>) -> Result<&'a [Str], NoMemory>
    ensures bytes { OnOk result (out.new.items ≡ out.old.items ++ spec.printed byte arguments.now) }
    ensures left { IfOk result (λ left. left.now ≡ spec.left_after byte arguments.now) }
{
    if byte != b'%' {
        out.push(byte)?;
        return Ok(arguments);
    }
    match arguments {
        [first, more @ ..] => {
            append(first.as_str().as_bytes(), out)?;
            Ok(more)
        }
        [] => Ok(arguments),
    }
}
