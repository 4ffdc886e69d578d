ghost use Rattle.std.specs.Prelude.{◌≡◌, ◌+◌, ◌*◌};
ghost use Rattle.cost_units.specs.Capped.{capped};

/// The greatest cost and the greatest product of numbers of rows: what would be more ends here.
pub const CEILING: u64 = 1_000_000_000_000_000;

/// The sum, at most `CEILING`.
pub fn capped_sum(left: u64, right: u64) -> u64
    ensures { result ≡ capped (left + right) }
{
    at_most_ceiling(left.saturating_add(right))
}

/// The product, at most `CEILING`.
pub fn capped_product(left: u64, right: u64) -> u64
    ensures { result ≡ capped (left * right) }
{
    at_most_ceiling(left.saturating_mul(right))
}

fn at_most_ceiling(number: u64) -> u64
    ensures { result ≡ capped number }
{
    if number < CEILING { number } else { CEILING }
}
