ghost use Rattle.std.specs.Prelude.{◌≡◌};
ghost use Rattle.query_tree.specs.Evaluation as spec;

/// AND of two truth values, of which `None` is unknown.
pub fn both(left: Option<bool>, right: Option<bool>) -> Option<bool>
    ensures { result ≡ spec.both left right }
{
    match (left, right) {
        (Some(false), _) | (_, Some(false)) => Some(false),
        (Some(true), Some(true)) => Some(true),
        _ => None,
    }
}

/// OR of two truth values.
pub fn either(left: Option<bool>, right: Option<bool>) -> Option<bool>
    ensures { result ≡ spec.either left right }
{
    match (left, right) {
        (Some(true), _) | (_, Some(true)) => Some(true),
        (Some(false), Some(false)) => Some(false),
        _ => None,
    }
}

/// NOT of a truth value.
pub fn negation(truth: Option<bool>) -> Option<bool>
    ensures { result ≡ spec.negation truth }
{
    match truth {
        Some(truth) => Some(!truth),
        None => None,
    }
}
