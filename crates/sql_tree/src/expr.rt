use crate::ColumnRef;
use q_base::{ListOf, Str};
use sqlite_items::{Boxed, Items};

/// The operators of arithmetic: `+ - * /`.
#[derive(Clone, Copy, Debug, PartialEq, Eq)]
pub enum Arithmetic {
    Add,
    Subtract,
    Multiply,
    Divide,
}

/// The operators of comparison: `= <> < <= > >=`.
#[derive(Clone, Copy, Debug, PartialEq, Eq)]
pub enum Comparison {
    Equal,
    NotEqual,
    Less,
    LessEqual,
    Greater,
    GreaterEqual,
}

/// A number as it was written, which may be larger than any type holds.
#[derive(Drop)]
pub struct Numeral {
    /// A minus stands directly before the number.
    pub negative: bool,
    pub digits: Str,
}

/// A constant as it was written.
#[derive(Drop)]
pub enum Literal {
    Number(Numeral),
    Text(Str),
    Null,
    Bool(bool),
}

/// An expression. Parentheses leave nothing behind but the nesting of the nodes: `a AND b AND c` is one
/// list of three, and `a AND (b AND c)` is a list of two, of which the second is a list of two.
#[derive(Drop)]
pub enum Expr {
    Literal(Literal),
    /// `$n`, as its digits.
    Param(Str),
    Column(ColumnRef),
    /// A function of one argument, as its name and the argument.
    Call(Str, Boxed<Expr>),
    /// A function of `*`, as its name.
    CallStar(Str),
    /// A minus before an operand that isn't a number.
    Minus(Boxed<Expr>),
    Arithmetic(Arithmetic, Boxed<Expr>, Boxed<Expr>),
    Comparison(Comparison, Boxed<Expr>, Boxed<Expr>),
    /// The operand, and whether it is IS NOT NULL.
    IsNull(Boxed<Expr>, bool),
    /// The operand, the list behind IN, and whether it is NOT IN.
    InList(Boxed<Expr>, Items<Expr>, bool),
    /// The operand, the lower and the upper bound, and whether it is NOT BETWEEN.
    Between(Boxed<Expr>, Boxed<Expr>, Boxed<Expr>, bool),
    Not(Boxed<Expr>),
    /// Two operands or more.
    And(Items<Expr>),
    /// Two operands or more.
    Or(Items<Expr>),
}

/// The arguments of EXECUTE.
pub type ExprList = ListOf<Expr>;
