//! Laws of this crate's definitions.
ghost use Rattle.std.specs.Cmp.{IsTotalOrder};
ghost use Rattle.row_index.specs.Order.{entry_cmp, keys_cmp};

use q_value::laws;

/// The order of keys is total up to its ties, and so is that of entries.
pub fn orders()
    ensures keys { IsTotalOrder keys_cmp }
    ensures entries { IsTotalOrder entry_cmp }
{
    laws::orders();
}
