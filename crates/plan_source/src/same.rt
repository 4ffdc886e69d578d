ghost use Rattle.std.specs.Prelude.{◌≡◌};
ghost use Rattle.plan_source.specs.Same as spec;

use query_tree::{ResultColumn, ResultType};

/// Tells whether two statements give columns of the same names and types in the same order, or both give no rows.
pub fn is_same_result(left: &ResultType, right: &ResultType) -> bool
    ensures { result ≡ spec.is_same_result left.now right.now }
{
    match (&left.columns, &right.columns) {
        (Some(left), Some(right)) => are_same_columns(left.as_slice(), right.as_slice()),
        (None, None) => true,
        _ => false,
    }
}

fn are_same_columns(left: &[ResultColumn], right: &[ResultColumn]) -> bool
    ensures { result ≡ spec.are_same_columns left.now right.now }
{
    if left.len() != right.len() {
        return false;
    }
    agree(left, right)
}

fn agree(left: &[ResultColumn], right: &[ResultColumn]) -> bool
    ensures { result ≡ spec.agree_from 0 left.now right.now }
{
    for at in 0..left.len() {
        if !is_same_at(at, &left[at], right) {
            return false;
        }
    }
    true
}

/// Whether a column is the one at a place of the others.
#[tactic(auto, unfolding(crate::specs::Same::is_same_at))]
fn is_same_at(at: usize, left: &ResultColumn, right: &[ResultColumn]) -> bool
    ensures { result ≡ spec.is_same_at at left.now right.now }
{
    match right.get(at) {
        Some(right) => is_same_column(left, right),
        None => false,
    }
}

fn is_same_column(left: &ResultColumn, right: &ResultColumn) -> bool
    ensures { result ≡ spec.is_same_column left.now right.now }
{
    left.kind == right.kind && left.name.as_str() == right.name.as_str()
}
