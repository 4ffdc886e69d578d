ghost use Rattle.std.specs.Prelude.{◌≡◌};
ghost use Rattle.q_value.specs.Answers.{Answers};
ghost use Rattle.expr_analysis.specs.Analysis.{Does};
ghost use Rattle.expr_analysis.specs.Nodes as spec;

use crate::numbers::number_constant;
use crate::state::{Known, State};
use q_base::{Code, Stop, Str, refusal_naming_two};
use q_value::{SqlType, Value, parse_value};
use query_tree::Target;
use sql_tree::Literal;
use std::alloc::Global;

/// An expression, typed or not yet.
#[derive(Drop)]
pub enum Node {
    Typed(Target),
    /// A string, which takes the type that its place gives it.
    Text(Str),
    /// NULL, or a parameter without a type.
    Null,
    /// The first use of a parameter without a declared type, by its place from 0.
    First(usize),
    /// A refused operand, which the first reading passes over.
    Refused,
}

impl Node {
    pub fn is_typed(&self) -> bool
        ensures { result ≡ spec.is_typed self.now }
    {
        match self {
            Node::Typed(_) => true,
            Node::Text(_) | Node::Null | Node::First(_) | Node::Refused => false,
        }
    }

    pub fn is_refused(&self) -> bool
        ensures { result ≡ spec.is_refused self.now }
    {
        match self {
            Node::Refused => true,
            Node::Typed(_) | Node::Text(_) | Node::Null | Node::First(_) => false,
        }
    }
}

#[tactic(auto, unfolding(crate::specs::Nodes::literal))]
pub fn literal(alloc: Global, written: &Literal) -> Result<Node, Stop>
    ensures { Answers (spec.literal written.now) result }
{
    match written {
        Literal::Number(numeral) => Ok(Node::Typed(number_constant(alloc, numeral)?)),
        Literal::Text(text) => Ok(Node::Text(text.copy(alloc)?)),
        Literal::Null => Ok(Node::Null),
        Literal::Bool(truth) => Ok(Node::Typed(Target::Const(SqlType::Bool, Value::Bool(*truth)))),
    }
}

/// The node with a type where it has none: 22P02, 22003.
#[tactic(auto, unfolding(crate::specs::Nodes::typed))]
pub fn typed(alloc: Global, node: Node, kind: SqlType) -> Result<Target, Stop>
    ensures { Answers (spec.typed kind node) result }
{
    match node {
        Node::Typed(target) => Ok(target),
        Node::Text(text) => Ok(Target::Const(kind, text_value(alloc, text, kind)?)),
        Node::Null | Node::First(_) | Node::Refused => Ok(Target::Const(kind, Value::Null)),
    }
}

fn text_value(alloc: Global, text: Str, kind: SqlType) -> Result<Value, Stop>
    ensures { Answers (spec.parsed kind text) result }
{
    match kind {
        SqlType::Text => Ok(Value::Text(text)),
        SqlType::Int2 | SqlType::Int4 | SqlType::Int8 | SqlType::Bool => {
            parse_value(alloc, text.as_str(), kind)
        }
    }
}

/// As `typed`, in a place that gives a parameter its type.
#[tactic(auto, unfolding(crate::specs::Nodes::given))]
pub fn give(alloc: Global, state: &mut State, node: Node, kind: SqlType) -> Result<Target, Stop>
    ensures { Does (spec.given kind node state.old) result state.new }
{
    if let Node::First(place) = &node {
        state.known.set(*place, Known::Typed(kind));
    }
    typed(alloc, node, kind)
}

/// The node in the place of a condition of AND, OR, NOT or a clause: 42804 where it is no boolean.
#[tactic(auto, unfolding(crate::specs::Nodes::condition_of))]
pub fn condition_of(alloc: Global, node: Node, name: &str) -> Result<Target, Stop>
    ensures { Answers (spec.condition_of name.now node) result }
{
    let target = typed(alloc, node, SqlType::Bool)?;
    match target.kind() {
        SqlType::Bool => Ok(target),
        other => {
            drop(target);
            Err(refusal_naming_two(alloc, Code::ArgumentNotBoolean, name, other.name()))
        }
    }
}
