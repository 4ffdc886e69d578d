ghost use Rattle.std.specs.Prelude.{◌≡◌};
ghost use Rattle.cost_units.specs.Tests as spec;

use query_tree::{ColumnPlace, CompareOp, Cond, Target};
use std::marker::Model;

/// A comparison of a column with a constant or a parameter, as if the column stood on the left.
#[derive(Drop)]
pub struct ColumnTest<'a> {
    pub column: ColumnPlace,
    pub op: CompareOp,
    /// A constant or a parameter.
    pub value: &'a Target,
}

impl<'a> Model for ColumnTest<'a> {
    ghost use Rattle.cost_units.specs.Tests.{Test};
    ghost use Rattle.std.specs.Coded.{codes};
    ghost use Rattle.query_tree.specs.contracts.target.Target as target;

    ghost Value = { Test };

    ghost coded = { Prim.hlevel (codes, target.the_row.coded) };

    ghost view = { λ test. record { column = test.column; op = test.op; value = test.value.now } };
}

/// The condition as a comparison of a column with a constant or a parameter by `= < <= > >=`, whichever side the
/// column stands on; `None` where it is another condition.
pub fn column_test(cond: &Cond) -> Option<ColumnTest<'_>>
    ensures { result ≡ spec.column_test cond.now }
{
    let Target::Compare(op, left, right) = cond else {
        return None;
    };
    match (left.get(), right.get()) {
        (Target::Column(_, column), value) => test_of(*column, *op, value),
        (value, Target::Column(_, column)) => test_of(*column, mirrored(*op), value),
        _ => None,
    }
}

fn test_of(column: ColumnPlace, op: CompareOp, value: &Target) -> Option<ColumnTest<'_>>
    ensures { result ≡ spec.test_of column op value.now }
{
    if op != CompareOp::NotEqual && is_value(value) {
        Some(ColumnTest { column, op, value })
    } else {
        None
    }
}

fn is_value(target: &Target) -> bool
    ensures { result ≡ spec.is_value target.now }
{
    matches!(target, Target::Const(_, _) | Target::Param(_, _))
}

/// The operator with its sides exchanged.
fn mirrored(op: CompareOp) -> CompareOp
    ensures { result ≡ spec.mirrored op }
{
    match op {
        CompareOp::Less => CompareOp::Greater,
        CompareOp::LessEqual => CompareOp::GreaterEqual,
        CompareOp::Greater => CompareOp::Less,
        CompareOp::GreaterEqual => CompareOp::LessEqual,
        CompareOp::Equal | CompareOp::NotEqual => op,
    }
}

/// The two columns of a condition `column = column`, in the order of the text.
pub fn columns_equal(cond: &Cond) -> Option<(ColumnPlace, ColumnPlace)>
    ensures { result ≡ spec.columns_equal cond.now }
{
    let Target::Compare(CompareOp::Equal, left, right) = cond else {
        return None;
    };
    match (left.get(), right.get()) {
        (Target::Column(_, left), Target::Column(_, right)) => Some((*left, *right)),
        _ => None,
    }
}
