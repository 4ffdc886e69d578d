ghost use Rattle.std.specs.Prelude.{◌≡◌};
ghost use Rattle.query_tree.specs.Evaluation as spec;
ghost use Rattle.q_scalar.specs.Held.{value_in};

use q_value::Value;

/// A value that is lent from a tree, a row or the parameters, or that was made on the way. None that is
/// made takes memory: texts are only lent.
#[derive(Drop)]
pub enum Held<'a> {
    Lent(&'a Value),
    Made(Value),
}

impl<'a> Held<'a> {
    pub fn value(&self) -> &Value
        ensures { result.now ≡ value_in self.now }
    {
        match self {
            Held::Lent(value) => value,
            Held::Made(value) => value,
        }
    }

    /// The truth value, where what is no boolean counts as unknown.
    pub fn truth(&self) -> Option<bool>
        ensures { result ≡ spec.truth_in (value_in self.now) }
    {
        match self.value() {
            Value::Bool(truth) => Some(*truth),
            _ => None,
        }
    }
}

/// A truth value, unknown as null.
pub fn truth_held<'a>(truth: Option<bool>) -> Held<'a>
    ensures { value_in result ≡ spec.truth_value truth }
{
    match truth {
        Some(truth) => Held::Made(Value::Bool(truth)),
        None => Held::Made(Value::Null),
    }
}

/// The value at a place of a row, null past its end.
pub fn held_at<'a>(row: &'a [Value], place: usize) -> Held<'a>
    ensures { value_in result ≡ spec.value_at row.now place }
{
    match row.get(place) {
        Some(value) => Held::Lent(value),
        None => Held::Made(Value::Null),
    }
}

/// The value of `$number`.
pub fn held_param<'a>(params: &'a [Value], number: u32) -> Held<'a>
    ensures { value_in result ≡ spec.param_value params.now number }
{
    match number.checked_sub(1) {
        Some(place) => held_at(params, place as usize),
        None => Held::Made(Value::Null),
    }
}
