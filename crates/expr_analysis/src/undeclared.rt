//! Whether a parameter without a declared type is written, without which no reading has to settle types.

ghost use Rattle.std.specs.Prelude.{◌≡◌, map};
ghost use Rattle.expr_analysis.specs.Undeclared as spec;

use sql_tree::{
    DeleteTree, Expr, FromChain, InsertTree, Join, NewRow, NewValue, OrderItem, OutputItem,
    RowCount, Select, UpdateTree,
};

/// The number that digits write, or the greatest one of a `usize` past that.
fn number_in(digits: &str) -> usize
    ensures { result ≡ spec.number_from 0 digits.now }
{
    let mut number = 0_usize;
    for digit in digits.as_bytes() {
        let unit = (*digit as usize).saturating_sub(48);
        number = number.saturating_mul(10).saturating_add(unit);
    }
    number
}

/// Tells whether a parameter is none of the first `declared`, by its digits.
fn is_undeclared(declared: usize, digits: &str) -> bool
    ensures { result ≡ spec.is_undeclared declared digits.now }
{
    declared < number_in(digits)
}

/// Tells whether such a parameter stands in an expression.
#[cycle(undeclared)]
fn has_undeclared(declared: usize, written: &Expr) -> bool
    ensures { result ≡ spec.has_undeclared declared written.now }
{
    match written {
        Expr::Literal(_) | Expr::Column(_) | Expr::CallStar(_) => false,
        Expr::Param(digits) => is_undeclared(declared, digits.as_str()),
        Expr::Call(_, inner) | Expr::Minus(inner) | Expr::IsNull(inner, _) | Expr::Not(inner) =>
            has_undeclared(declared, inner.get()),
        Expr::Arithmetic(_, left, right) | Expr::Comparison(_, left, right) => {
            has_undeclared(declared, left.get()) || has_undeclared(declared, right.get())
        }
        Expr::InList(inner, values, _) => {
            has_undeclared(declared, inner.get()) || any_undeclared(declared, values.as_slice())
        }
        Expr::Between(inner, low, high, _) => {
            has_undeclared(declared, inner.get())
                || has_undeclared(declared, low.get())
                || has_undeclared(declared, high.get())
        }
        Expr::And(parts) | Expr::Or(parts) => any_undeclared(declared, parts.as_slice()),
    }
}

#[cycle(undeclared)]
fn any_undeclared(declared: usize, written: &[Expr]) -> bool
    ensures { result ≡ spec.any_of (map (spec.has_undeclared declared) written.now) }
{
    for part in written {
        if has_undeclared(declared, part) {
            return true;
        }
    }
    false
}

fn in_optional(declared: usize, written: &Option<Expr>) -> bool
    ensures { result ≡ spec.in_optional declared written.now }
{
    match written {
        Some(written) => has_undeclared(declared, written),
        None => false,
    }
}

fn in_outputs(declared: usize, written: &[OutputItem]) -> bool
    ensures { result ≡ spec.any_of (map (spec.in_output declared) written.now) }
{
    for item in written {
        if let OutputItem::Expr(written, _) = item
            && has_undeclared(declared, written)
        {
            return true;
        }
    }
    false
}

fn in_joins(declared: usize, written: &[Join]) -> bool
    ensures { result ≡ spec.any_of (map (spec.in_join declared) written.now) }
{
    for join in written {
        if let Join::Inner(_, condition) = join
            && has_undeclared(declared, condition)
        {
            return true;
        }
    }
    false
}

fn in_chains(declared: usize, written: &[FromChain]) -> bool
    ensures { result ≡ spec.any_of (map (spec.in_chain declared) written.now) }
{
    for chain in written {
        if in_joins(declared, chain.joins.as_slice()) {
            return true;
        }
    }
    false
}

fn in_keys(declared: usize, written: &[OrderItem]) -> bool
    ensures { result ≡ spec.any_of (map (spec.in_key declared) written.now) }
{
    for key in written {
        if has_undeclared(declared, &key.expr) {
            return true;
        }
    }
    false
}

fn in_count(declared: usize, written: &Option<RowCount>) -> bool
    ensures { result ≡ spec.in_count declared written.now }
{
    match written {
        Some(RowCount::Param(digits)) => is_undeclared(declared, digits.as_str()),
        Some(RowCount::Number(_)) | Some(RowCount::Null) | None => false,
    }
}

fn in_value(declared: usize, written: &NewValue) -> bool
    ensures { result ≡ spec.in_value declared written.now }
{
    match written {
        NewValue::Expr(written) => has_undeclared(declared, written),
        NewValue::Default => false,
    }
}

fn in_row(declared: usize, written: &[NewValue]) -> bool
    ensures { result ≡ spec.any_of (map (spec.in_value declared) written.now) }
{
    for value in written {
        if in_value(declared, value) {
            return true;
        }
    }
    false
}

fn in_rows(declared: usize, written: &[NewRow]) -> bool
    ensures { result ≡ spec.any_of (map (spec.in_row declared) written.now) }
{
    for row in written {
        if in_row(declared, row.as_slice()) {
            return true;
        }
    }
    false
}

/// Tells whether a SELECT has a parameter that is none of the first `declared`.
#[tactic(auto, unfolding(crate::specs::Undeclared::in_select))]
pub fn undeclared_in_select(declared: usize, written: &Select) -> bool
    ensures { result ≡ spec.in_select declared written.now }
{
    in_outputs(declared, written.core.outputs.as_slice())
        || in_chains(declared, written.core.from.as_slice())
        || in_optional(declared, &written.core.condition)
        || in_optional(declared, &written.grouping.having)
        || in_keys(declared, written.order.as_slice())
        || in_count(declared, &written.limits.limit)
        || in_count(declared, &written.limits.offset)
}

/// The same of an INSERT.
#[tactic(auto, unfolding(crate::specs::Undeclared::in_insert))]
pub fn undeclared_in_insert(declared: usize, written: &InsertTree) -> bool
    ensures { result ≡ spec.in_insert declared written.now }
{
    in_rows(declared, written.rows.as_slice()) || in_outputs(declared, written.returning.as_slice())
}

/// The same of an UPDATE.
pub fn undeclared_in_update(declared: usize, written: &UpdateTree) -> bool
    ensures { result ≡ spec.in_update declared written.now }
{
    for assignment in written.assignments.as_slice() {
        if in_value(declared, &assignment.value) {
            return true;
        }
    }
    in_optional(declared, &written.condition) || in_outputs(declared, written.returning.as_slice())
}

/// The same of a DELETE.
#[tactic(auto, unfolding(crate::specs::Undeclared::in_delete))]
pub fn undeclared_in_delete(declared: usize, written: &DeleteTree) -> bool
    ensures { result ≡ spec.in_delete declared written.now }
{
    in_optional(declared, &written.condition) || in_outputs(declared, written.returning.as_slice())
}
