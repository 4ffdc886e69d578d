ghost use Rattle.std.specs.Prelude.{◌≡◌};
ghost use Rattle.q_scalar.specs.Operators.{op_row};

use q_base::Table;
use q_value::SqlType;

/// The operators of two operands: `= <> < <= > >=` and `+ - * /`.
#[derive(Clone, Copy, Debug, PartialEq, Eq, PartialOrd, Ord)]
pub enum Op {
    Equal,
    NotEqual,
    Less,
    LessEqual,
    Greater,
    GreaterEqual,
    Add,
    Subtract,
    Multiply,
    Divide,
}

/// What an operator does with operands of two types (in PostgreSQL a row of pg_operator).
#[derive(Clone, Copy, Debug, PartialEq, Eq)]
pub struct OpRow {
    /// The type in which the operands are compared or computed.
    pub common: SqlType,
    /// The type of the result.
    pub result: SqlType,
}

/// The operator of that sign for operands of two types, or `None` where there is none: comparisons take two
/// integers of any types, two texts or two booleans; arithmetic takes two integers, and gives the wider
/// of their types (PostgreSQL's manual, "Comparison Functions and Operators" and "Mathematical Functions and
/// Operators", within this project's types).
pub fn find_op(op: Op, left: SqlType, right: SqlType) -> Option<OpRow>
    ensures { result ≡ op_row op left right }
{
    let table: Table<(Op, SqlType, SqlType), OpRow, 102> = Table::new(&OPERATORS);
    table.find(&(op, left, right)).copied()
}

const SMALLINT: OpRow = OpRow {
    common: SqlType::Int2,
    result: SqlType::Int2,
};

const INTEGER: OpRow = OpRow {
    common: SqlType::Int4,
    result: SqlType::Int4,
};

const BIGINT: OpRow = OpRow {
    common: SqlType::Int8,
    result: SqlType::Int8,
};

const OF_SMALLINTS: OpRow = OpRow {
    common: SqlType::Int2,
    result: SqlType::Bool,
};

const OF_INTEGERS: OpRow = OpRow {
    common: SqlType::Int4,
    result: SqlType::Bool,
};

const OF_BIGINTS: OpRow = OpRow {
    common: SqlType::Int8,
    result: SqlType::Bool,
};

const OF_TEXTS: OpRow = OpRow {
    common: SqlType::Text,
    result: SqlType::Bool,
};

const OF_BOOLEANS: OpRow = OpRow {
    common: SqlType::Bool,
    result: SqlType::Bool,
};

/// The rows of some comparisons and of some operators of arithmetic, in the order of their keys.
macro_rules! rows {
    ([$($comparison:ident),*], [$($arithmetic:ident),*]) => {
        [
            $(
                ((Op::$comparison, SqlType::Int2, SqlType::Int2), OF_SMALLINTS),
                ((Op::$comparison, SqlType::Int2, SqlType::Int4), OF_INTEGERS),
                ((Op::$comparison, SqlType::Int2, SqlType::Int8), OF_BIGINTS),
                ((Op::$comparison, SqlType::Int4, SqlType::Int2), OF_INTEGERS),
                ((Op::$comparison, SqlType::Int4, SqlType::Int4), OF_INTEGERS),
                ((Op::$comparison, SqlType::Int4, SqlType::Int8), OF_BIGINTS),
                ((Op::$comparison, SqlType::Int8, SqlType::Int2), OF_BIGINTS),
                ((Op::$comparison, SqlType::Int8, SqlType::Int4), OF_BIGINTS),
                ((Op::$comparison, SqlType::Int8, SqlType::Int8), OF_BIGINTS),
                ((Op::$comparison, SqlType::Text, SqlType::Text), OF_TEXTS),
                ((Op::$comparison, SqlType::Bool, SqlType::Bool), OF_BOOLEANS),
            )*
            $(
                ((Op::$arithmetic, SqlType::Int2, SqlType::Int2), SMALLINT),
                ((Op::$arithmetic, SqlType::Int2, SqlType::Int4), INTEGER),
                ((Op::$arithmetic, SqlType::Int2, SqlType::Int8), BIGINT),
                ((Op::$arithmetic, SqlType::Int4, SqlType::Int2), INTEGER),
                ((Op::$arithmetic, SqlType::Int4, SqlType::Int4), INTEGER),
                ((Op::$arithmetic, SqlType::Int4, SqlType::Int8), BIGINT),
                ((Op::$arithmetic, SqlType::Int8, SqlType::Int2), BIGINT),
                ((Op::$arithmetic, SqlType::Int8, SqlType::Int4), BIGINT),
                ((Op::$arithmetic, SqlType::Int8, SqlType::Int8), BIGINT),
            )*
        ]
    };
}

const OPERATORS: [((Op, SqlType, SqlType), OpRow); 102] = rows!(
    [Equal, NotEqual, Less, LessEqual, Greater, GreaterEqual],
    [Add, Subtract, Multiply, Divide]
);
