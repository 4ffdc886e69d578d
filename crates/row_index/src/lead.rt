ghost use Rattle.std.specs.Prelude.{◌≡◌};
ghost use Rattle.row_index.specs.Leads.{key_lead};

use q_value::Value;

/// The lead of a key: a number by which most keys are told apart without a look at their values, as by
/// the abbreviated keys of PostgreSQL's sorts. A key of a lesser lead comes first; many keys may have one
/// lead.
pub(crate) fn lead_of(key: &[Value]) -> i64
    ensures { result ≡ key_lead key.now }
{
    match key.first() {
        None => i64::MIN,
        Some(value) => value.number().unwrap_or(i64::MAX),
    }
}
