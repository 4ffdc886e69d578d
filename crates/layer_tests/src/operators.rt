use q_base::{Code, ColId, NoMemory};
use q_scalar::{EvalStop, Op, OpRow, eval_cond, eval_fallible, eval_target, find_op};
use q_value::{SqlType, Value};
use query_tree::{ArithmeticOp, ColumnPlace, CompareOp, Target};
use sqlite_items::Boxed;
use std::alloc::Global;
use std::test::Fail;

/// The first value of a row.
fn column() -> Target {
    Target::Column(
        SqlType::Int8,
        ColumnPlace {
            item: 0,
            column: ColId(0),
            place: 0,
        },
    )
}

/// A bigint in the row, over another one as the parameter.
fn quotient(alloc: Global) -> Result<Target, NoMemory> {
    let left = Boxed::new(alloc, column())?;
    let right = Boxed::new(alloc, Target::Param(SqlType::Int8, 1))?;
    Ok(Target::Arithmetic(ArithmeticOp::Divide, SqlType::Int8, left, right))
}

fn compared(alloc: Global, left: Target, right: Target) -> Result<Target, NoMemory> {
    let left = Boxed::new(alloc, left)?;
    Ok(Target::Compare(CompareOp::Less, left, Boxed::new(alloc, right)?))
}

#[test]
fn operators_are_found(rt: HostRuntime) {
    let row = OpRow {
        common: SqlType::Int8,
        result: SqlType::Int8,
    };
    assert_eq!(rt;
        find_op(Op::Divide, SqlType::Int2, SqlType::Int8),
        Some(row)
    );
    assert_eq!(rt; find_op(Op::Less, SqlType::Text, SqlType::Int4), None);
}

/// The row of -7 over a parameter, or the fault.
fn divided(alloc: Global, by: i64) -> Result<Option<i64>, EvalStop> {
    let value = eval_target(
        alloc,
        &quotient(alloc)?,
        &[Value::Int8(-7)],
        &[Value::Int8(by)],
    )?;
    Ok(value.number())
}

/// The operators over the edges of their types are in `examples/operators_*.sql`.
#[test]
fn targets_are_evaluated(rt: HostRuntime) {
    assert!(rt; matches!(divided(rt.alloc(), 2), Ok(Some(-3))));
    assert!(rt;
        matches!(
            divided(rt.alloc(), 0),
            Err(EvalStop::Fault(Code::DivisionByZero))
        )
    );
}

/// Whether -7 in the row is below the parameter 0.
fn is_below(alloc: Global) -> Result<Option<bool>, NoMemory> {
    let cond = compared(alloc, column(), Target::Param(SqlType::Int8, 1))?;
    Ok(eval_cond(&cond, &[Value::Int8(-7)], &[Value::Int8(0)]))
}

/// Whether -7 / 0 is below -7, by both readings of a condition.
fn faulty(alloc: Global) -> Result<(Result<Option<bool>, Code>, Option<bool>), NoMemory> {
    let cond = compared(alloc, quotient(alloc)?, column())?;
    let (row, params) = ([Value::Int8(-7)], [Value::Int8(0)]);
    let answer = eval_fallible(&cond, &row, &params);
    Ok((answer, eval_cond(&cond, &row, &params)))
}

#[test]
fn conditions_are_evaluated(rt: HostRuntime) -> Result<(), Fail> {
    assert_eq!(rt; is_below(rt.alloc())?, Some(true));
    let (answer, unknown) = faulty(rt.alloc())?;
    assert_eq!(rt; answer, Err(Code::DivisionByZero));
    assert_eq!(rt; unknown, None);
    Ok(())
}
