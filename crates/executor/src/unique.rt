ghost use Rattle.std.specs.Prelude.{◌≡◌};
ghost use Rattle.executor.specs.Uniques as spec;

use q_base::{NoMemory, SlotId};
use q_value::Row;
use row_index::{Index, KeyRange};

/// Whether a key is new among those seen, to which it is added.
pub(crate) fn is_new(seen: &mut Index, key: Row) -> Result<bool, NoMemory>
    ensures { spec.Notes key seen.old seen.new result }
{
    let range = key_range(key);
    if seen.after(&range, None).is_some() {
        return Ok(false);
    }
    seen.add(range.equal, SlotId(0))?;
    Ok(true)
}

/// The keys that begin with a key.
pub(crate) fn key_range(key: Row) -> KeyRange
    ensures { result ≡ spec.key_range key }
{
    KeyRange {
        equal: key,
        low: None,
        high: None,
    }
}
