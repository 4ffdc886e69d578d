ghost use Rattle.std.specs.Prelude.{◌≡◌, ◌++◌, OnOk};
ghost use Rattle.std.specs.Fmt.{signed_decimal};
ghost use Rattle.q_value.specs.Print.{printed};

use crate::Value;
use q_base::NoMemory;
use std::io::Write;

/// Appends the text of a value as psql prints it: nothing for null, `t` or `f` for a boolean, and
/// integers in decimal.
pub fn value_text(value: &Value, out: &mut Vec<u8>) -> Result<(), NoMemory>
    ensures { OnOk result (out.new.items ≡ out.old.items ++ printed value.now) }
{
    match value {
        Value::Null => Ok(()),
        Value::Int2(number) => append_integer(i64::from(*number), out),
        Value::Int4(number) => append_integer(i64::from(*number), out),
        Value::Int8(number) => append_integer(*number, out),
        Value::Text(text) => append(text.as_str().as_bytes(), out),
        Value::Bool(true) => append(b"t", out),
        Value::Bool(false) => append(b"f", out),
    }
}

fn append(bytes: &[u8], out: &mut Vec<u8>) -> Result<(), NoMemory>
    ensures { OnOk result (out.new.items ≡ out.old.items ++ bytes.now) }
{
    out.extend_from_slice(bytes)?;
    Ok(())
}

fn append_integer(number: i64, out: &mut Vec<u8>) -> Result<(), NoMemory>
    ensures { OnOk result (out.new.items ≡ out.old.items ++ signed_decimal number) }
{
    match write!(out, "{number}") {
        Ok(()) => Ok(()),
        Err(_) => Err(NoMemory),
    }
}
