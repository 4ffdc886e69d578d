//! Laws of this crate's definitions, for the crates above.
ghost use Rattle.std.specs.Prelude.{◌≡◌, Bool, false};
ghost use Rattle.std.specs.Cmp.{IsTotalOrder};
ghost use Rattle.q_value.specs.declared.value.Value.{Value};
ghost use Rattle.q_value.specs.Order.{key_cmp, sort_cmp};

/// The order of keys is total up to its ties, and so is each order of a sort. Ascending with nulls
/// last, a sort goes by the order of keys.
pub fn orders()
    ensures keys { IsTotalOrder key_cmp }
    ensures sorts { (desc nulls_first : Bool) → IsTotalOrder (sort_cmp desc nulls_first) }
    ensures plain { (left right : Value) → sort_cmp false false left right ≡ key_cmp left right }
{}
