ghost use Rattle.std.specs.Prelude.{◌≡◌, IfOk};
ghost use Rattle.q_value.specs.Answers.{Answers};
ghost use Rattle.expr_analysis.specs.Analysis.{Does};
ghost use Rattle.expr_analysis.specs.Operators as spec;

use crate::node::{Node, give, typed};
use crate::refusals::refusal_naming_three;
use crate::state::{Allowed, State};
use q_base::{Code, NoMemory, Stop, refusal, refusal_naming};
use q_scalar::{Op, find_op};
use q_value::SqlType;
use query_tree::{ArithmeticOp, CompareOp, Target};
use sql_tree::{Arithmetic, Comparison};
use sqlite_items::Boxed;
use std::alloc::Global;

/// The two operands of an operator, typed.
#[derive(Drop)]
pub struct Operands {
    pub left: Target,
    pub right: Target,
}

fn compare_op(written: Comparison) -> CompareOp
    ensures { result ≡ spec.compare_op written }
{
    match written {
        Comparison::Equal => CompareOp::Equal,
        Comparison::NotEqual => CompareOp::NotEqual,
        Comparison::Less => CompareOp::Less,
        Comparison::LessEqual => CompareOp::LessEqual,
        Comparison::Greater => CompareOp::Greater,
        Comparison::GreaterEqual => CompareOp::GreaterEqual,
    }
}

fn compare_sign(written: Comparison) -> &'static str
    ensures { result.now ≡ spec.compare_sign written }
{
    match written {
        Comparison::Equal => "=",
        Comparison::NotEqual => "<>",
        Comparison::Less => "<",
        Comparison::LessEqual => "<=",
        Comparison::Greater => ">",
        Comparison::GreaterEqual => ">=",
    }
}

/// The comparison as the table of operators knows it.
fn compare_key(written: Comparison) -> Op
    ensures { result ≡ spec.compare_key written }
{
    match written {
        Comparison::Equal => Op::Equal,
        Comparison::NotEqual => Op::NotEqual,
        Comparison::Less => Op::Less,
        Comparison::LessEqual => Op::LessEqual,
        Comparison::Greater => Op::Greater,
        Comparison::GreaterEqual => Op::GreaterEqual,
    }
}

/// The arithmetic as the table of operators knows it.
fn arithmetic_key(written: Arithmetic) -> Op
    ensures { result ≡ spec.arithmetic_key written }
{
    match written {
        Arithmetic::Add => Op::Add,
        Arithmetic::Subtract => Op::Subtract,
        Arithmetic::Multiply => Op::Multiply,
        Arithmetic::Divide => Op::Divide,
    }
}

fn arithmetic_op(written: Arithmetic) -> ArithmeticOp
    ensures { result ≡ spec.arithmetic_op written }
{
    match written {
        Arithmetic::Add => ArithmeticOp::Add,
        Arithmetic::Subtract => ArithmeticOp::Subtract,
        Arithmetic::Multiply => ArithmeticOp::Multiply,
        Arithmetic::Divide => ArithmeticOp::Divide,
    }
}

fn arithmetic_sign(written: Arithmetic) -> &'static str
    ensures { result.now ≡ spec.arithmetic_sign written }
{
    match written {
        Arithmetic::Add => "+",
        Arithmetic::Subtract => "-",
        Arithmetic::Multiply => "*",
        Arithmetic::Divide => "/",
    }
}

/// The operands of an operator, where one without a type takes that of the other.
#[tactic(auto, unfolding(crate::specs::Operators::paired))]
fn paired(alloc: Global, state: &mut State, left: Node, right: Node) -> Result<Operands, Stop>
    ensures { Does (spec.paired left right state.old) result state.new }
{
    match (left, right) {
        (Node::Typed(left), right) => {
            let right = give(alloc, state, right, left.kind());
            before(left, right)
        }
        (left, Node::Typed(right)) => {
            let left = give(alloc, state, left, right.kind());
            after(left, right)
        }
        (left, right) => texts(alloc, state, left, right),
    }
}

/// Both operands, where the second isn't refused.
fn before(left: Target, right: Result<Target, Stop>) -> Result<Operands, Stop>
    ensures { spec.Beside (λ right. spec.pair left right) right result }
{
    match right {
        Ok(right) => Ok(Operands { left, right }),
        Err(stop) => {
            drop(left);
            Err(stop)
        }
    }
}

/// Both operands, where the first isn't refused.
fn after(left: Result<Target, Stop>, right: Target) -> Result<Operands, Stop>
    ensures { spec.Beside (λ left. spec.pair left right) left result }
{
    match left {
        Ok(left) => Ok(Operands { left, right }),
        Err(stop) => {
            drop(right);
            Err(stop)
        }
    }
}

/// Two operands without a type are texts. A refused one gives a parameter beside it no type.
#[tactic(auto, unfolding(crate::specs::Operators::texts))]
fn texts(alloc: Global, state: &mut State, left: Node, right: Node) -> Result<Operands, Stop>
    ensures { Does (spec.texts left right state.old) result state.new }
{
    if left.is_refused() || right.is_refused() {
        pair_typed(alloc, left, right, SqlType::Text)
    } else {
        pair_given(alloc, state, left, right)
    }
}

/// Both operands with a type, where they have none.
pub(crate) fn pair_typed(
    alloc: Global,
    left: Node,
    right: Node,
    kind: SqlType,
) -> Result<Operands, Stop>
    ensures { Answers (spec.pair_typed kind left right) result }
{
    match typed(alloc, left, kind) {
        Ok(left) => before(left, typed(alloc, right, kind)),
        Err(stop) => {
            drop(right);
            Err(stop)
        }
    }
}

/// As `pair_typed` at texts, in a place that gives a parameter its type.
fn pair_given(alloc: Global, state: &mut State, left: Node, right: Node) -> Result<Operands, Stop>
    ensures { Does (spec.pair_given left right state.old) result state.new }
{
    match give(alloc, state, left, SqlType::Text) {
        Ok(left) => before(left, give(alloc, state, right, SqlType::Text)),
        Err(stop) => {
            drop(right);
            Err(stop)
        }
    }
}

/// A comparison: 42883 where its operands can't be compared.
#[tactic(auto, unfolding(crate::specs::Operators::comparison))]
pub(crate) fn comparison(
    alloc: Global,
    state: &mut State,
    op: Comparison,
    left: Node,
    right: Node,
) -> Result<Node, Stop>
    ensures { Does (spec.comparison op left right state.old) result state.new }
{
    let operands = paired(alloc, state, left, right)?;
    compared(alloc, op, operands)
}

/// What an operand of the type is compared with, by the same cause.
#[tactic(auto, unfolding(crate::specs::Operators::beside))]
fn beside(
    alloc: Global,
    state: &mut State,
    op: Comparison,
    kind: SqlType,
    node: Node,
) -> Result<Target, Stop>
    ensures { Does (spec.beside op kind node state.old) result state.new }
{
    let target = give(alloc, state, node, kind)?;
    let found = target.kind();
    match find_op(compare_key(op), kind, found) {
        Some(_) => Ok(target),
        None => {
            drop(target);
            Err(no_operator(alloc, compare_sign(op), kind, found))
        }
    }
}

/// The same, or `None` for a refusal that the first reading passes over.
#[tactic(auto, unfolding(crate::specs::Operators::beside_if))]
pub(crate) fn beside_if(
    alloc: Global,
    state: &mut State,
    op: Comparison,
    kind: SqlType,
    node: Node,
) -> Result<Option<Target>, Stop>
    ensures { Does (spec.beside_if op kind node state.old) result state.new }
{
    match beside(alloc, state, op, kind, node) {
        Ok(target) => Ok(Some(target)),
        Err(Stop::Sql(_)) if state.first => Ok(None),
        Err(stop) => Err(stop),
    }
}

#[tactic(auto, unfolding(crate::specs::Operators::compared))]
fn compared(alloc: Global, op: Comparison, operands: Operands) -> Result<Node, Stop>
    ensures { Answers (spec.compared op operands) result }
{
    let left = operands.left.kind();
    let right = operands.right.kind();
    match find_op(compare_key(op), left, right) {
        Some(_) => Ok(Node::Typed(compare_node(alloc, compare_op(op), operands)?)),
        None => {
            drop(operands);
            Err(no_operator(alloc, compare_sign(op), left, right))
        }
    }
}

fn no_operator(alloc: Global, sign: &str, left: SqlType, right: SqlType) -> Stop
    ensures { spec.StopsByNone sign.now left right result }
{
    refusal_naming_three(
        alloc,
        Code::UnknownOperator,
        left.name(),
        sign,
        right.name(),
    )
}

pub(crate) fn compare_node(
    alloc: Global,
    op: CompareOp,
    operands: Operands,
) -> Result<Target, NoMemory>
    ensures { IfOk result (λ target. target ≡ Target.Compare op operands.left operands.right) }
{
    let (left, right) = boxed(alloc, operands)?;
    Ok(Target::Compare(op, left, right))
}

pub(crate) fn boxed(
    alloc: Global,
    operands: Operands,
) -> Result<(Boxed<Target>, Boxed<Target>), NoMemory>
    ensures { IfOk result (λ pair. (pair.0 ≡ operands.left) × (pair.1 ≡ operands.right)) }
{
    let Operands { left, right } = operands;
    let left = Boxed::new(alloc, left)?;
    Ok((left, Boxed::new(alloc, right)?))
}

/// Arithmetic: 42725 where neither operand has a type, 42883 where one is no integer, then 0A000 by its place.
#[tactic(auto, unfolding(crate::specs::Operators::arithmetic))]
pub(crate) fn arithmetic(
    alloc: Global,
    state: &mut State,
    allowed: Allowed,
    op: Arithmetic,
    left: Node,
    right: Node,
) -> Result<Node, Stop>
    ensures { Does (spec.arithmetic allowed op left right state.old) result state.new }
{
    if !left.is_typed() && !right.is_typed() {
        drop(left);
        drop(right);
        let sign = arithmetic_sign(op);
        return Err(refusal_naming_three(
            alloc,
            Code::AmbiguousOperator,
            "unknown",
            sign,
            "unknown",
        ));
    }
    let operands = paired(alloc, state, left, right)?;
    computed(alloc, allowed, op, operands)
}

#[tactic(auto, unfolding(crate::specs::Operators::computed))]
fn computed(
    alloc: Global,
    allowed: Allowed,
    op: Arithmetic,
    operands: Operands,
) -> Result<Node, Stop>
    ensures { Answers (spec.computed allowed op operands) result }
{
    let left = operands.left.kind();
    let right = operands.right.kind();
    let Some(row) = find_op(arithmetic_key(op), left, right) else {
        drop(operands);
        return Err(no_operator(alloc, arithmetic_sign(op), left, right));
    };
    if !has_arithmetic(allowed) {
        drop(operands);
        return Err(refusal(alloc, Code::ArithmeticNotSupported));
    }
    Ok(Node::Typed(arithmetic_node(alloc, arithmetic_op(op), row.result, operands)?))
}

/// Within the argument of an aggregate the aggregate alone judges arithmetic.
fn has_arithmetic(allowed: Allowed) -> bool
    ensures { result ≡ spec.has_arithmetic allowed }
{
    allowed.arithmetic || allowed.in_aggregate
}

fn arithmetic_node(
    alloc: Global,
    op: ArithmeticOp,
    kind: SqlType,
    operands: Operands,
) -> Result<Target, NoMemory>
    ensures { IfOk result (λ target. target ≡ Target.Arithmetic op kind operands.left operands.right) }
{
    let (left, right) = boxed(alloc, operands)?;
    Ok(Target::Arithmetic(op, kind, left, right))
}

/// A unary minus, by the same causes.
#[tactic(auto, unfolding(crate::specs::Operators::minus))]
pub(crate) fn minus(alloc: Global, allowed: Allowed, operand: Node) -> Result<Node, Stop>
    ensures { Answers (spec.minus allowed operand) result }
{
    let Node::Typed(operand) = operand else {
        return Err(refusal_naming(alloc, Code::AmbiguousMinus, "unknown"));
    };
    let kind = operand.kind();
    match kind {
        SqlType::Int2 | SqlType::Int4 | SqlType::Int8 => {}
        SqlType::Text | SqlType::Bool => {
            drop(operand);
            return Err(refusal_naming(alloc, Code::UnknownMinus, kind.name()));
        }
    }
    if !has_arithmetic(allowed) {
        drop(operand);
        return Err(refusal(alloc, Code::ArithmeticNotSupported));
    }
    Ok(Node::Typed(Target::Negate(kind, Boxed::new(alloc, operand)?)))
}
