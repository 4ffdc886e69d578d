ghost use Rattle.std.specs.Prelude.{◌≡◌, map, IfOk};
ghost use Rattle.query_tree.specs.Targets.{target_kind, any_of, is_fallible};

use q_base::{ColId, ListOf, NoMemory};
use q_value::{SqlType, Value};
use sqlite_items::{Boxed, Items};
use std::alloc::Global;

/// The operators of comparison: `= <> < <= > >=`.
#[derive(Clone, Copy, Debug, PartialEq, Eq)]
pub enum CompareOp {
    Equal,
    NotEqual,
    Less,
    LessEqual,
    Greater,
    GreaterEqual,
}

/// The operators of arithmetic: `+ - * /`.
#[derive(Clone, Copy, Debug, PartialEq, Eq)]
pub enum ArithmeticOp {
    Add,
    Subtract,
    Multiply,
    Divide,
}

/// Which column a target reads (in PostgreSQL a Var). The item and the column are what it means, by which it
/// is compared and printed; the place is where its value stands in the row over which it is evaluated.
#[derive(Clone, Copy, Debug, PartialEq, Eq)]
pub struct ColumnPlace {
    /// The item, counted from 0 in the order of FROM.
    pub item: usize,
    /// The id of a table's column, or the number of a view's column from 0.
    pub column: ColId,
    /// In the row of a query's product: the columns of the items before, and then `column`.
    pub place: usize,
}

/// Which aggregate a target reads (in PostgreSQL an Aggref).
#[derive(Clone, Copy, Debug, PartialEq, Eq)]
pub struct AggregatePlace {
    /// The place in the query's list of aggregates.
    pub number: usize,
    /// In the row of a group: the columns of all items, and then `number`.
    pub place: usize,
}

/// A typed expression: one variant for each form that analysis gives. Operands stand as they were written.
#[derive(Drop)]
pub enum Target {
    /// A constant of a type, null among them.
    Const(SqlType, Value),
    /// `$n` by its number, from 1.
    Param(SqlType, u32),
    Column(SqlType, ColumnPlace),
    Aggregate(SqlType, AggregatePlace),
    /// Two integers, and the type of the result, the wider of theirs.
    Arithmetic(ArithmeticOp, SqlType, Boxed<Target>, Boxed<Target>),
    /// A minus before an integer, whose type it keeps.
    Negate(SqlType, Boxed<Target>),
    Compare(CompareOp, Boxed<Target>, Boxed<Target>),
    /// The operand, and whether it is IS NOT NULL.
    IsNull(Boxed<Target>, bool),
    Not(Boxed<Target>),
    /// Two operands or more.
    And(Items<Target>),
    /// Two operands or more.
    Or(Items<Target>),
    /// `x IN (a, b)`, which is `x = a OR x = b` with the operand evaluated once; two values or more.
    In(Boxed<Target>, Items<Target>),
    /// `x BETWEEN a AND b`, which is `x >= a AND x <= b` with the operand evaluated once.
    Between(Boxed<Target>, Boxed<Target>, Boxed<Target>),
}

/// Targets in order, such as a select list.
pub type TargetList = ListOf<Target>;

/// A condition: a target of type boolean.
pub type Cond = Target;

/// Conditions that hold together, in the order of the text.
pub type CondList = ListOf<Cond>;

impl Target {
    /// The type of the target's values.
    pub fn kind(&self) -> SqlType
        ensures { result ≡ target_kind self.now }
    {
        match self {
            Target::Const(kind, _)
            | Target::Param(kind, _)
            | Target::Column(kind, _)
            | Target::Aggregate(kind, _)
            | Target::Arithmetic(_, kind, _, _)
            | Target::Negate(kind, _) => *kind,
            Target::Compare(_, _, _)
            | Target::IsNull(_, _)
            | Target::Not(_)
            | Target::And(_)
            | Target::Or(_)
            | Target::In(_, _)
            | Target::Between(_, _, _) => SqlType::Bool,
        }
    }

    /// Tells whether the target holds arithmetic, without which it can't fault.
    #[cycle(fallible)]
    pub fn is_fallible(&self) -> bool
        ensures { result ≡ is_fallible self.now }
    {
        match self {
            Target::Const(_, _)
            | Target::Param(_, _)
            | Target::Column(_, _)
            | Target::Aggregate(_, _) => false,
            Target::Arithmetic(_, _, _, _) | Target::Negate(_, _) => true,
            Target::Compare(_, left, right) => {
                left.get().is_fallible() || right.get().is_fallible()
            }
            Target::IsNull(operand, _) | Target::Not(operand) => operand.get().is_fallible(),
            Target::And(operands) | Target::Or(operands) => any_fallible(operands.as_slice()),
            Target::In(operand, values) => {
                operand.get().is_fallible() || any_fallible(values.as_slice())
            }
            Target::Between(operand, low, high) => {
                operand.get().is_fallible() || low.get().is_fallible() || high.get().is_fallible()
            }
        }
    }

    /// A second owner of the same target.
    #[cycle(copy)]
    pub fn copy(&self, alloc: Global) -> Result<Target, NoMemory>
        ensures { IfOk result (λ target. target ≡ self.now) }
    {
        match self {
            Target::Const(kind, value) => Ok(Target::Const(*kind, value.copy(alloc)?)),
            Target::Param(kind, number) => Ok(Target::Param(*kind, *number)),
            Target::Column(kind, column) => Ok(Target::Column(*kind, *column)),
            Target::Aggregate(kind, aggregate) => Ok(Target::Aggregate(*kind, *aggregate)),
            Target::Arithmetic(op, kind, left, right) => {
                let left = copy_boxed(alloc, left)?;
                let right = copy_boxed(alloc, right)?;
                Ok(Target::Arithmetic(*op, *kind, left, right))
            }
            Target::Negate(kind, operand) => {
                Ok(Target::Negate(*kind, copy_boxed(alloc, operand)?))
            }
            Target::Compare(op, left, right) => {
                let left = copy_boxed(alloc, left)?;
                let right = copy_boxed(alloc, right)?;
                Ok(Target::Compare(*op, left, right))
            }
            Target::IsNull(operand, negated) => {
                Ok(Target::IsNull(copy_boxed(alloc, operand)?, *negated))
            }
            Target::Not(operand) => Ok(Target::Not(copy_boxed(alloc, operand)?)),
            Target::And(operands) => Ok(Target::And(copy_operands(alloc, operands)?)),
            Target::Or(operands) => Ok(Target::Or(copy_operands(alloc, operands)?)),
            Target::In(operand, values) => {
                let operand = copy_boxed(alloc, operand)?;
                let values = copy_operands(alloc, values)?;
                Ok(Target::In(operand, values))
            }
            Target::Between(operand, low, high) => {
                let operand = copy_boxed(alloc, operand)?;
                let low = copy_boxed(alloc, low)?;
                let high = copy_boxed(alloc, high)?;
                Ok(Target::Between(operand, low, high))
            }
        }
    }
}

#[cycle(fallible)]
fn any_fallible(targets: &[Target]) -> bool
    ensures { result ≡ any_of (map is_fallible targets.now) }
{
    for target in targets {
        if target.is_fallible() {
            return true;
        }
    }
    false
}

#[cycle(copy)]
fn copy_boxed(alloc: Global, target: &Boxed<Target>) -> Result<Boxed<Target>, NoMemory>
    ensures { IfOk result (λ copy. copy ≡ target.now) }
{
    Ok(Boxed::new(alloc, target.get().copy(alloc)?)?)
}

#[cycle(copy)]
fn copy_operands(alloc: Global, targets: &Items<Target>) -> Result<Items<Target>, NoMemory>
    ensures { IfOk result (λ copies. copies ≡ targets.now) }
{
    let mut copies = Items::new(alloc);
    for target in targets.as_slice() {
        copies.push(target.copy(alloc)?)?;
    }
    Ok(copies)
}
