//! The nodes of the tree, each of its parts.

ghost use Rattle.std.specs.Prelude.{◌≡◌, IfOk};

use q_base::{NoMemory, Str};
use sql_tree::{Arithmetic, Comparison, Expr};
use sqlite_items::{Boxed, Items};
use std::alloc::Global;

fn boxed(alloc: Global, expr: Expr) -> Result<Boxed<Expr>, NoMemory>
    ensures { IfOk result (λ tree. tree ≡ expr) }
{
    Ok(Boxed::new(alloc, expr)?)
}

pub(crate) fn call(alloc: Global, function: Str, argument: Expr) -> Result<Expr, NoMemory>
    ensures { IfOk result (λ expr. expr ≡ Expr.Call function argument) }
{
    Ok(Expr::Call(function, Boxed::new(alloc, argument)?))
}

pub(crate) fn minus(alloc: Global, operand: Expr) -> Result<Expr, NoMemory>
    ensures { IfOk result (λ expr. expr ≡ Expr.Minus operand) }
{
    Ok(Expr::Minus(Boxed::new(alloc, operand)?))
}

pub(crate) fn arithmetic(
    alloc: Global,
    operator: Arithmetic,
    left: Expr,
    right: Expr,
) -> Result<Expr, NoMemory>
    ensures { IfOk result (λ expr. expr ≡ Expr.Arithmetic operator left right) }
{
    let left = or_drop!(boxed(alloc, left), right);
    Ok(Expr::Arithmetic(operator, left, Boxed::new(alloc, right)?))
}

pub(crate) fn comparison(
    alloc: Global,
    operator: Comparison,
    left: Expr,
    right: Expr,
) -> Result<Expr, NoMemory>
    ensures { IfOk result (λ expr. expr ≡ Expr.Comparison operator left right) }
{
    let left = or_drop!(boxed(alloc, left), right);
    Ok(Expr::Comparison(operator, left, Boxed::new(alloc, right)?))
}

pub(crate) fn is_null(alloc: Global, operand: Expr, negated: bool) -> Result<Expr, NoMemory>
    ensures { IfOk result (λ expr. expr ≡ Expr.IsNull operand negated) }
{
    Ok(Expr::IsNull(Boxed::new(alloc, operand)?, negated))
}

pub(crate) fn in_list(
    alloc: Global,
    operand: Expr,
    values: Items<Expr>,
    negated: bool,
) -> Result<Expr, NoMemory>
    ensures { IfOk result (λ expr. expr ≡ Expr.InList operand values negated) }
{
    Ok(Expr::InList(Boxed::new(alloc, operand)?, values, negated))
}

pub(crate) fn between(
    alloc: Global,
    operand: Expr,
    low: Expr,
    high: Expr,
    negated: bool,
) -> Result<Expr, NoMemory>
    ensures { IfOk result (λ expr. expr ≡ Expr.Between operand low high negated) }
{
    let operand = or_drop!(boxed(alloc, operand), low, high);
    let low = or_drop!(boxed(alloc, low), high);
    Ok(Expr::Between(operand, low, Boxed::new(alloc, high)?, negated))
}

pub(crate) fn not(alloc: Global, operand: Expr) -> Result<Expr, NoMemory>
    ensures { IfOk result (λ expr. expr ≡ Expr.Not operand) }
{
    Ok(Expr::Not(Boxed::new(alloc, operand)?))
}
