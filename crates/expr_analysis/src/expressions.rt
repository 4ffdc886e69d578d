ghost use Rattle.std.specs.Prelude.{◌≡◌, [], ◌∷◌, map, IfOk};
ghost use Rattle.q_value.specs.Answers.{Answers};
ghost use Rattle.sql_tree.specs.declared.expr.Expr.{out-Expr};
ghost use Rattle.expr_analysis.specs.Analysis.{Does};
ghost use Rattle.expr_analysis.specs.Sights.{sight};
ghost use Rattle.expr_analysis.specs.Expressions as spec;

use crate::aggregates::{called, called_star};
use crate::node::{Node, condition_of, literal, typed};
use crate::operators::{
    Operands, arithmetic, beside_if, boxed, compare_node, comparison, minus, pair_typed,
};
use crate::params::param;
use crate::scope::{Scope, column};
use crate::state::{Allowed, State};
use q_base::{ListOf, NoMemory, Stop};
use q_value::{SqlType, Value};
use query_tree::{CompareOp, Target};
use sql_tree::{Arithmetic, Comparison, Expr};
use sqlite_items::{Boxed, Items};
use std::alloc::Global;

/// Operands in order, typed or not yet.
pub(crate) type NodeList = ListOf<Node>;

/// An operand of another expression. The first reading passes over its refusal.
#[cycle(expr)]
pub fn operand(
    alloc: Global,
    state: &mut State,
    scope: Scope<'_>,
    allowed: Allowed,
    written: &Expr,
) -> Result<Node, Stop>
    ensures { Does (spec.operand (spec.meaning written.now) (sight scope.entry) allowed state.old) result state.new }
{
    match expression(alloc, state, scope, allowed, written) {
        Err(Stop::Sql(_)) if state.first => Ok(Node::Refused),
        found => found,
    }
}

/// An expression, or its first refusal: operands come first, from left to right.
#[cycle(expr)]
pub fn expression(
    alloc: Global,
    state: &mut State,
    scope: Scope<'_>,
    allowed: Allowed,
    written: &Expr,
) -> Result<Node, Stop>
    ensures { Does (spec.meaning written.now (sight scope.entry) allowed state.old) result state.new }
{
    match written {
        Expr::Literal(constant) => literal(alloc, constant),
        Expr::Param(digits) => param(alloc, state, digits.as_str()),
        Expr::Column(name) => column(alloc, scope, name),
        Expr::Call(function, argument) => {
            let argument = operand(alloc, state, scope, inside(allowed), argument.get())?;
            called(
                alloc,
                state,
                scope.width,
                allowed,
                function.as_str(),
                argument,
            )
        }
        Expr::CallStar(function) => called_star(
            alloc,
            state,
            scope.width,
            allowed,
            function.as_str(),
        ),
        Expr::Minus(inner) => {
            let inner = operand(alloc, state, scope, allowed, inner.get())?;
            minus(alloc, allowed, inner)
        }
        Expr::Arithmetic(op, left, right) => {
            let left = operand(alloc, state, scope, allowed, left.get())?;
            arithmetic_with(alloc, state, scope, allowed, *op, left, right.get())
        }
        Expr::Comparison(op, left, right) => {
            let left = operand(alloc, state, scope, allowed, left.get())?;
            compare_to(alloc, state, scope, allowed, *op, left, right.get())
        }
        Expr::IsNull(inner, negated) => {
            let inner = operand(alloc, state, scope, allowed, inner.get())?;
            null_test(alloc, inner, *negated)
        }
        Expr::InList(_, _, negated) => {
            let whole = membership(alloc, state, scope, allowed, written)?;
            negated_if(alloc, *negated, whole)
        }
        Expr::Between(_, _, _, negated) => {
            let whole = range(alloc, state, scope, allowed, written)?;
            negated_if(alloc, *negated, whole)
        }
        Expr::Not(inner) => {
            let inner = operand(alloc, state, scope, allowed, inner.get())?;
            negation(alloc, inner)
        }
        Expr::And(parts) => {
            let parts = operands(alloc, state, scope, allowed, parts.as_slice())?;
            conjunction(alloc, parts)
        }
        Expr::Or(parts) => {
            let parts = operands(alloc, state, scope, allowed, parts.as_slice())?;
            disjunction(alloc, parts)
        }
    }
}

/// Arithmetic on what was found and an expression.
#[cycle(expr)]
fn arithmetic_with(
    alloc: Global,
    state: &mut State,
    scope: Scope<'_>,
    allowed: Allowed,
    op: Arithmetic,
    left: Node,
    right: &Expr,
) -> Result<Node, Stop>
    ensures { Does (spec.arithmetic_with op left (spec.meaning right.now) (sight scope.entry) allowed state.old) result state.new }
{
    match operand(alloc, state, scope, allowed, right) {
        Ok(right) => arithmetic(alloc, state, allowed, op, left, right),
        Err(stop) => {
            drop(left);
            Err(stop)
        }
    }
}

/// A comparison of what was found with an expression.
#[cycle(expr)]
fn compare_to(
    alloc: Global,
    state: &mut State,
    scope: Scope<'_>,
    allowed: Allowed,
    op: Comparison,
    left: Node,
    right: &Expr,
) -> Result<Node, Stop>
    ensures { Does (spec.compare_to op left (spec.meaning right.now) (sight scope.entry) allowed state.old) result state.new }
{
    match operand(alloc, state, scope, allowed, right) {
        Ok(right) => comparison(alloc, state, op, left, right),
        Err(stop) => {
            drop(left);
            Err(stop)
        }
    }
}

/// A comparison that is an operand of another expression.
#[cycle(expr)]
fn compared_to(
    alloc: Global,
    state: &mut State,
    scope: Scope<'_>,
    allowed: Allowed,
    op: Comparison,
    left: Node,
    right: &Expr,
) -> Result<Node, Stop>
    ensures { Does (spec.operand (spec.compare_to op left (spec.meaning right.now)) (sight scope.entry) allowed state.old) result state.new }
{
    match compare_to(alloc, state, scope, allowed, op, left, right) {
        Err(Stop::Sql(_)) if state.first => Ok(Node::Refused),
        found => found,
    }
}

/// IN before its negation. An operand with a type is analysed once; one without is a constant or a parameter
/// alone, and takes a type of its own beside each value.
#[cycle(expr)]
fn membership(
    alloc: Global,
    state: &mut State,
    scope: Scope<'_>,
    allowed: Allowed,
    written: &Expr,
) -> Result<Node, Stop>
    ensures { Does (spec.membership_in (out-Expr written.now) (sight scope.entry) allowed state.old) result state.new }
{
    let Expr::InList(inner, values, _) = written else {
        return Ok(Node::Refused);
    };
    let [first, others @ ..] = values.as_slice() else {
        return Ok(Node::Refused);
    };
    let left = operand(alloc, state, scope, allowed, inner.get())?;
    if others.is_empty() {
        return compared_to(alloc, state, scope, allowed, Comparison::Equal, left, first);
    }
    several(alloc, state, scope, allowed, left, written)
}

/// IN with several values.
#[cycle(expr)]
fn several(
    alloc: Global,
    state: &mut State,
    scope: Scope<'_>,
    allowed: Allowed,
    left: Node,
    written: &Expr,
) -> Result<Node, Stop>
    ensures { Does (spec.several_in left (out-Expr written.now) (sight scope.entry) allowed state.old) result state.new }
{
    let Expr::InList(_, values, _) = written else {
        drop(left);
        return Ok(Node::Refused);
    };
    match left {
        Node::Typed(left) => {
            let kind = left.kind();
            match values_beside(alloc, state, scope, allowed, kind, values.as_slice()) {
                Ok(values) => Ok(Node::Typed(member_of(alloc, left, values)?)),
                Err(stop) => {
                    drop(left);
                    Err(stop)
                }
            }
        }
        left => any_equal(alloc, state, scope, allowed, left, written),
    }
}

/// What an operand of the type is compared with, but for what the first reading passes over.
#[cycle(expr)]
fn values_beside(
    alloc: Global,
    state: &mut State,
    scope: Scope<'_>,
    allowed: Allowed,
    kind: SqlType,
    values: &[Expr],
) -> Result<Items<Target>, Stop>
    ensures { Does (spec.values_beside kind [] (map spec.meaning values.now) (sight scope.entry) allowed state.old) result state.new }
{
    let mut found = Items::new(alloc);
    for value in values {
        let op = Comparison::Equal;
        if let Some(value) = value_beside(alloc, state, scope, allowed, op, kind, value)? {
            found.push(value)?;
        }
    }
    Ok(found)
}

/// What an operand of the type is compared with; `None` for a refusal that the first reading passes over.
#[cycle(expr)]
fn value_beside(
    alloc: Global,
    state: &mut State,
    scope: Scope<'_>,
    allowed: Allowed,
    op: Comparison,
    kind: SqlType,
    written: &Expr,
) -> Result<Option<Target>, Stop>
    ensures { Does (spec.value_beside op kind (spec.meaning written.now) (sight scope.entry) allowed state.old) result state.new }
{
    let node = operand(alloc, state, scope, allowed, written)?;
    beside_if(alloc, state, op, kind, node)
}

/// IN at an operand without a type, which was analysed for the first value and is analysed anew for the others.
#[cycle(expr)]
fn any_equal(
    alloc: Global,
    state: &mut State,
    scope: Scope<'_>,
    allowed: Allowed,
    left: Node,
    written: &Expr,
) -> Result<Node, Stop>
    ensures { Does (spec.any_equal_in left (out-Expr written.now) (sight scope.entry) allowed state.old) result state.new }
{
    match written {
        Expr::InList(_, values, _) if let [first, ..] = values.as_slice() => {
            let refused = left.is_refused();
            let op = Comparison::Equal;
            let one = compared_to(alloc, state, scope, allowed, op, left, first)?;
            let found = others_equal(alloc, state, scope, allowed, refused, one, written)?;
            any_of(alloc, found)
        }
        _ => {
            drop(left);
            Ok(Node::Refused)
        }
    }
}

/// The comparisons of IN behind the first.
#[cycle(expr)]
fn others_equal(
    alloc: Global,
    state: &mut State,
    scope: Scope<'_>,
    allowed: Allowed,
    refused: bool,
    one: Node,
    written: &Expr,
) -> Result<NodeList, Stop>
    ensures { Does (spec.others_equal_in refused one (out-Expr written.now) (sight scope.entry) allowed state.old) result state.new }
{
    let mut found = ListOf::new(alloc);
    found.push(one)?;
    match written {
        Expr::InList(inner, values, _) if let [_, others @ ..] = values.as_slice() => {
            for value in others {
                let left = once_more(alloc, state, scope, allowed, refused, inner.get())?;
                let op = Comparison::Equal;
                found.push(compared_to(alloc, state, scope, allowed, op, left, value)?)?;
            }
            Ok(found)
        }
        _ => Ok(found),
    }
}

/// An operand without a type once more; a refused one isn't analysed again, as it may be of any length.
#[cycle(expr)]
fn once_more(
    alloc: Global,
    state: &mut State,
    scope: Scope<'_>,
    allowed: Allowed,
    refused: bool,
    written: &Expr,
) -> Result<Node, Stop>
    ensures { Does (spec.once_more refused (spec.meaning written.now) (sight scope.entry) allowed state.old) result state.new }
{
    if refused {
        Ok(Node::Refused)
    } else {
        operand(alloc, state, scope, allowed, written)
    }
}

/// BETWEEN before its negation, by the same rule as IN.
#[cycle(expr)]
fn range(
    alloc: Global,
    state: &mut State,
    scope: Scope<'_>,
    allowed: Allowed,
    written: &Expr,
) -> Result<Node, Stop>
    ensures { Does (spec.range_in (out-Expr written.now) (sight scope.entry) allowed state.old) result state.new }
{
    let Expr::Between(inner, _, _, _) = written else {
        return Ok(Node::Refused);
    };
    match operand(alloc, state, scope, allowed, inner.get())? {
        Node::Typed(left) => {
            match bounds_beside(alloc, state, scope, allowed, left.kind(), written) {
                Ok(bounds) => Ok(Node::Typed(between_of(alloc, left, bounds)?)),
                Err(stop) => {
                    drop(left);
                    Err(stop)
                }
            }
        }
        left => both_compared(alloc, state, scope, allowed, left, written),
    }
}

/// The bounds of BETWEEN at an operand of the type.
#[cycle(expr)]
fn bounds_beside(
    alloc: Global,
    state: &mut State,
    scope: Scope<'_>,
    allowed: Allowed,
    kind: SqlType,
    written: &Expr,
) -> Result<Bounds, Stop>
    ensures { Does (spec.bounds_in kind (out-Expr written.now) (sight scope.entry) allowed state.old) result state.new }
{
    let Expr::Between(_, low, high, _) = written else {
        return Ok(Bounds {
            low: None,
            high: None,
        });
    };
    let op = Comparison::GreaterEqual;
    let low = value_beside(alloc, state, scope, allowed, op, kind, low.get())?;
    let op = Comparison::LessEqual;
    match value_beside(alloc, state, scope, allowed, op, kind, high.get()) {
        Ok(high) => Ok(Bounds { low, high }),
        Err(stop) => {
            drop(low);
            Err(stop)
        }
    }
}

/// BETWEEN at an operand without a type, which is analysed anew for the second bound.
#[cycle(expr)]
fn both_compared(
    alloc: Global,
    state: &mut State,
    scope: Scope<'_>,
    allowed: Allowed,
    left: Node,
    written: &Expr,
) -> Result<Node, Stop>
    ensures { Does (spec.both_compared_in left (out-Expr written.now) (sight scope.entry) allowed state.old) result state.new }
{
    let Expr::Between(_, low, _, _) = written else {
        drop(left);
        return Ok(Node::Refused);
    };
    let refused = left.is_refused();
    let op = Comparison::GreaterEqual;
    let low = compared_to(alloc, state, scope, allowed, op, left, low.get())?;
    match second_compared(alloc, state, scope, allowed, refused, written) {
        Ok(high) => both_of(alloc, low, high),
        Err(stop) => {
            drop(low);
            Err(stop)
        }
    }
}

/// The second comparison of BETWEEN.
#[cycle(expr)]
fn second_compared(
    alloc: Global,
    state: &mut State,
    scope: Scope<'_>,
    allowed: Allowed,
    refused: bool,
    written: &Expr,
) -> Result<Node, Stop>
    ensures { Does (spec.second_compared_in refused (out-Expr written.now) (sight scope.entry) allowed state.old) result state.new }
{
    let Expr::Between(inner, _, high, _) = written else {
        return Ok(Node::Refused);
    };
    let left = once_more(alloc, state, scope, allowed, refused, inner.get())?;
    let op = Comparison::LessEqual;
    compared_to(alloc, state, scope, allowed, op, left, high.get())
}

/// All operands of AND or OR, before the first is judged.
#[cycle(expr)]
fn operands(
    alloc: Global,
    state: &mut State,
    scope: Scope<'_>,
    allowed: Allowed,
    written: &[Expr],
) -> Result<NodeList, Stop>
    ensures { Does (spec.operands (map spec.meaning written.now) (sight scope.entry) allowed state.old) result state.new }
{
    let mut found = ListOf::new(alloc);
    for part in written {
        found.push(operand(alloc, state, scope, allowed, part)?)?;
    }
    Ok(found)
}

/// Within the argument of an aggregate.
fn inside(allowed: Allowed) -> Allowed
    ensures { result ≡ spec.inside allowed }
{
    Allowed {
        aggregates: false,
        arithmetic: allowed.arithmetic,
        in_aggregate: true,
    }
}

#[tactic(auto, unfolding(crate::specs::Expressions::null_test))]
fn null_test(alloc: Global, operand: Node, negated: bool) -> Result<Node, Stop>
    ensures { Answers (spec.null_test operand negated) result }
{
    let operand = typed(alloc, operand, SqlType::Text)?;
    Ok(Node::Typed(Target::IsNull(Boxed::new(alloc, operand)?, negated)))
}

#[tactic(auto, unfolding(crate::specs::Expressions::negation))]
fn negation(alloc: Global, operand: Node) -> Result<Node, Stop>
    ensures { Answers (spec.negation operand) result }
{
    let operand = condition_of(alloc, operand, "NOT")?;
    Ok(Node::Typed(Target::Not(Boxed::new(alloc, operand)?)))
}

/// The negation of an IN or BETWEEN, where it is one.
#[tactic(auto, unfolding(crate::specs::Expressions::negated_if))]
fn negated_if(alloc: Global, negated: bool, whole: Node) -> Result<Node, Stop>
    ensures { Answers (spec.negated_if negated whole) result }
{
    if !negated {
        return Ok(whole);
    }
    let whole = typed(alloc, whole, SqlType::Bool)?;
    Ok(Node::Typed(Target::Not(Boxed::new(alloc, whole)?)))
}

/// IN as the OR of its comparisons.
#[tactic(auto, unfolding(crate::specs::Expressions::any_of))]
fn any_of(alloc: Global, found: NodeList) -> Result<Node, Stop>
    ensures { Answers (spec.any_of found) result }
{
    Ok(Node::Typed(Target::Or(truths(alloc, found)?)))
}

/// The comparisons as booleans.
#[tactic(auto, unfolding(crate::specs::Expressions::truths))]
fn truths(alloc: Global, found: NodeList) -> Result<Items<Target>, Stop>
    ensures { Answers (spec.truths found) result }
{
    let mut all = Items::new(alloc);
    for node in found.into_vec() {
        match typed(alloc, node, SqlType::Bool) {
            Ok(target) => all.push(target)?,
            Err(stop) => return Err(stop),
        }
    }
    Ok(all)
}

/// BETWEEN as the AND of its two comparisons.
#[tactic(auto, unfolding(crate::specs::Expressions::both_of))]
fn both_of(alloc: Global, low: Node, high: Node) -> Result<Node, Stop>
    ensures { Answers (spec.both_of low high) result }
{
    let Operands { left, right } = pair_typed(alloc, low, high, SqlType::Bool)?;
    Ok(Node::Typed(Target::And(two(alloc, left, right)?)))
}

/// The bounds of BETWEEN, but for what the first reading passes over.
#[derive(Drop)]
pub struct Bounds {
    pub low: Option<Target>,
    pub high: Option<Target>,
}

/// IN at an operand that stands once.
#[tactic(auto, unfolding(crate::specs::Expressions::member_of))]
fn member_of(alloc: Global, left: Target, values: Items<Target>) -> Result<Target, NoMemory>
    ensures { IfOk result (λ target. target ≡ spec.member_of left values) }
{
    if values.as_slice().is_empty() {
        drop(left);
        drop(values);
        return Ok(Target::Const(SqlType::Bool, Value::Null));
    }
    Ok(Target::In(Boxed::new(alloc, left)?, values))
}

/// BETWEEN at an operand that stands once.
#[tactic(auto, unfolding(crate::specs::Expressions::between_of))]
fn between_of(alloc: Global, left: Target, bounds: Bounds) -> Result<Target, NoMemory>
    ensures { IfOk result (λ target. target ≡ spec.between_of left bounds) }
{
    let Bounds { low, high } = bounds;
    match (low, high) {
        (Some(low), Some(high)) => between_both(alloc, left, low, high),
        (Some(low), None) => {
            compare_node(
                alloc,
                CompareOp::GreaterEqual,
                Operands { left, right: low },
            )
        }
        (None, Some(high)) => {
            compare_node(alloc, CompareOp::LessEqual, Operands { left, right: high })
        }
        (None, None) => {
            drop(left);
            Ok(Target::Const(SqlType::Bool, Value::Null))
        }
    }
}

fn between_both(alloc: Global, left: Target, low: Target, high: Target) -> Result<Target, NoMemory>
    ensures { IfOk result (λ target. target ≡ Target.Between left low high) }
{
    let (left, low) = boxed(alloc, Operands { left, right: low })?;
    Ok(Target::Between(left, low, Boxed::new(alloc, high)?))
}

fn two(alloc: Global, first: Target, second: Target) -> Result<Items<Target>, NoMemory>
    ensures { IfOk result (λ items. items ≡ first ∷ second ∷ []) }
{
    let mut items = Items::new(alloc);
    items.push(first)?;
    items.push(second)?;
    Ok(items)
}

#[tactic(auto, unfolding(crate::specs::Expressions::conjunction))]
fn conjunction(alloc: Global, parts: NodeList) -> Result<Node, Stop>
    ensures { Answers (spec.conjunction parts) result }
{
    Ok(Node::Typed(Target::And(conditions(alloc, parts, "AND")?)))
}

#[tactic(auto, unfolding(crate::specs::Expressions::disjunction))]
fn disjunction(alloc: Global, parts: NodeList) -> Result<Node, Stop>
    ensures { Answers (spec.disjunction parts) result }
{
    Ok(Node::Typed(Target::Or(conditions(alloc, parts, "OR")?)))
}

/// The operands of AND or OR, which are booleans.
#[tactic(auto, unfolding(crate::specs::Expressions::conditions))]
fn conditions(alloc: Global, parts: NodeList, name: &str) -> Result<Items<Target>, Stop>
    ensures { Answers (spec.conditions name.now parts) result }
{
    let mut all = Items::new(alloc);
    for part in parts.into_vec() {
        match condition_of(alloc, part, name) {
            Ok(target) => all.push(target)?,
            Err(stop) => return Err(stop),
        }
    }
    Ok(all)
}
