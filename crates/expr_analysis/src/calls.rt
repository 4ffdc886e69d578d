//! How many calls of functions are written, on which the cost of an aggregation rests.

ghost use Rattle.std.specs.Prelude.{◌≡◌, map};
ghost use Rattle.expr_analysis.specs.Calls as spec;

use sql_tree::{Expr, OrderItem, OutputItem, Select};

#[cycle(calls)]
fn calls_in(written: &Expr) -> usize
    ensures { result ≡ spec.calls written.now }
{
    match written {
        Expr::Literal(_) | Expr::Param(_) | Expr::Column(_) => 0,
        Expr::CallStar(_) => 1,
        Expr::Call(_, argument) => calls_in(argument.get()).saturating_add(1),
        Expr::Minus(inner) | Expr::IsNull(inner, _) | Expr::Not(inner) => calls_in(inner.get()),
        Expr::Arithmetic(_, left, right) | Expr::Comparison(_, left, right) => {
            calls_in(left.get()).saturating_add(calls_in(right.get()))
        }
        Expr::InList(inner, values, _) => {
            calls_in(inner.get()).saturating_add(calls_in_each(values.as_slice()))
        }
        Expr::Between(inner, low, high, _) => {
            let bounds = calls_in(low.get()).saturating_add(calls_in(high.get()));
            calls_in(inner.get()).saturating_add(bounds)
        }
        Expr::And(parts) | Expr::Or(parts) => calls_in_each(parts.as_slice()),
    }
}

#[cycle(calls)]
fn calls_in_each(written: &[Expr]) -> usize
    ensures { result ≡ spec.total 0 (map spec.calls written.now) }
{
    let mut count = 0_usize;
    for part in written {
        count = count.saturating_add(calls_in(part));
    }
    count
}

fn calls_in_outputs(written: &[OutputItem]) -> usize
    ensures { result ≡ spec.total 0 (map spec.calls_of_output written.now) }
{
    let mut count = 0_usize;
    for item in written {
        count = count.saturating_add(calls_in_output(item));
    }
    count
}

fn calls_in_output(item: &OutputItem) -> usize
    ensures { result ≡ spec.calls_of_output item.now }
{
    match item {
        OutputItem::Expr(written, _) => calls_in(written),
        OutputItem::All | OutputItem::AllOf(_) => 0,
    }
}

fn calls_in_order(written: &[OrderItem]) -> usize
    ensures { result ≡ spec.total 0 (map spec.calls_of_key written.now) }
{
    let mut count = 0_usize;
    for key in written {
        count = count.saturating_add(calls_in(&key.expr));
    }
    count
}

fn calls_in_optional(written: &Option<Expr>) -> usize
    ensures { result ≡ spec.calls_of_optional written.now }
{
    match written {
        Some(written) => calls_in(written),
        None => 0,
    }
}

/// The calls in the select list, HAVING and ORDER BY; past what a `usize` holds, its greatest number.
#[tactic(auto, unfolding(crate::specs::Calls::calls_of_select))]
pub fn calls_in_select(written: &Select) -> usize
    ensures { result ≡ spec.calls_of_select written.now }
{
    let listed = calls_in_outputs(written.core.outputs.as_slice());
    let grouping = calls_in_optional(&written.grouping.having);
    let order = calls_in_order(written.order.as_slice());
    listed.saturating_add(grouping).saturating_add(order)
}
