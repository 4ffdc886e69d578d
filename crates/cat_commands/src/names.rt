ghost use Rattle.std.specs.Prelude.{◌≡◌};
ghost use Rattle.q_value.specs.Answers.{Answers};
ghost use Rattle.cat_commands.specs.Names as spec;

use q_base::{Code, Stop, Str, refusal_naming};
use std::alloc::Global;

/// Tells whether a name is among others.
pub(crate) fn is_named(names: &[Str], name: &str) -> bool
    ensures { result ≡ spec.is_named name.now names.now }
{
    for other in names {
        if other.as_str() == name {
            return true;
        }
    }
    false
}

/// 42701 for the first name that stood before.
pub(crate) fn check_unrepeated(alloc: Global, names: &[Str]) -> Result<(), Stop>
    ensures { Answers (spec.unrepeated names.now) result }
{
    for place in 0..names.len() {
        if is_named(&names[..place], names[place].as_str()) {
            return Err(refusal_naming(alloc, Code::ColumnSpecifiedTwice, names[place].as_str()));
        }
    }
    Ok(())
}
