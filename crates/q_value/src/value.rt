ghost use Rattle.std.specs.Prelude.{◌≡◌, IfOk, IfSome};
ghost use Rattle.q_value.specs.Values.{type_name, kind_of, IsOf, number_of, integer_in};

use q_base::{Code, ListOf, NoMemory, Str};
use std::alloc::Global;

/// The types of values (PostgreSQL's manual, "Data Types"): smallint, integer, bigint, text, boolean.
#[derive(Clone, Copy, Debug, PartialEq, Eq, PartialOrd, Ord)]
pub enum SqlType {
    Int2,
    Int4,
    Int8,
    Text,
    Bool,
}

impl SqlType {
    /// The name that PostgreSQL prints for the type (its manual, "Data Types").
    pub fn name(self) -> &'static str
        ensures { result.now ≡ type_name self }
    {
        match self {
            SqlType::Int2 => "smallint",
            SqlType::Int4 => "integer",
            SqlType::Int8 => "bigint",
            SqlType::Text => "text",
            SqlType::Bool => "boolean",
        }
    }
}

/// Types in order, such as those of a statement's parameters.
pub type TypeList = ListOf<SqlType>;

/// A value of one of the types, or null, which is of any.
#[derive(Debug, Drop)]
pub enum Value {
    Null,
    Int2(i16),
    Int4(i32),
    Int8(i64),
    Text(Str),
    Bool(bool),
}

impl Value {
    /// A second owner of the same value.
    pub fn copy(&self, alloc: Global) -> Result<Value, NoMemory>
        ensures { IfOk result (λ value. value ≡ self.now) }
    {
        Ok(match self {
            Value::Null => Value::Null,
            Value::Int2(number) => Value::Int2(*number),
            Value::Int4(number) => Value::Int4(*number),
            Value::Int8(number) => Value::Int8(*number),
            Value::Text(text) => Value::Text(text.copy(alloc)?),
            Value::Bool(truth) => Value::Bool(*truth),
        })
    }

    /// The type of the value, or `None` for null, which is of any.
    pub fn kind(&self) -> Option<SqlType>
        ensures { result ≡ kind_of self.now }
    {
        match self {
            Value::Null => None,
            Value::Int2(_) => Some(SqlType::Int2),
            Value::Int4(_) => Some(SqlType::Int4),
            Value::Int8(_) => Some(SqlType::Int8),
            Value::Text(_) => Some(SqlType::Text),
            Value::Bool(_) => Some(SqlType::Bool),
        }
    }

    /// The number of a value of an integer type, or `None` for another value.
    pub fn number(&self) -> Option<i64>
        ensures { result ≡ number_of self.now }
    {
        match self {
            Value::Int2(number) => Some(i64::from(*number)),
            Value::Int4(number) => Some(i64::from(*number)),
            Value::Int8(number) => Some(*number),
            Value::Null | Value::Text(_) | Value::Bool(_) => None,
        }
    }

    /// `number` as a value of an integer type, or `None` where it is out of the type's range or the
    /// type is none of integers.
    pub fn integer(number: i64, to: SqlType) -> Option<Value>
        ensures value { result ≡ integer_in to number }
        ensures typed { IfSome result (IsOf to) }
    {
        match to {
            SqlType::Int2 if -32_768 <= number && number <= 32_767 => {
                Some(Value::Int2(number as i16))
            }
            SqlType::Int4 if -2_147_483_648 <= number && number <= 2_147_483_647 => {
                Some(Value::Int4(number as i32))
            }
            SqlType::Int8 => Some(Value::Int8(number)),
            SqlType::Int2 | SqlType::Int4 | SqlType::Text | SqlType::Bool => None,
        }
    }
}

/// A row: one value for each of its columns.
pub type Row = ListOf<Value>;

/// Rows in order.
pub type Rows = ListOf<Row>;

/// What a query gives at one place of its answer: a row, or the fault that ends it.
#[derive(Debug, Drop)]
pub enum Outcome {
    Row(Row),
    Fault(Code),
}

/// Outcomes in order.
pub type OutcomeList = ListOf<Outcome>;
