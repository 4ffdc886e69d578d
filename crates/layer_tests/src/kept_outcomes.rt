use holdable_store::RowBuffer;
use q_base::{Code, ListOf, NoMemory};
use q_value::{Outcome, Value};
use std::alloc::Global;
use std::test::Fail;

fn row(alloc: Global, number: i32) -> Result<Outcome, NoMemory> {
    let mut row = ListOf::new(alloc);
    row.push(Value::Int4(number))?;
    Ok(Outcome::Row(row))
}

/// The number of the row at a position.
fn number_at(buffer: &RowBuffer, position: u64) -> Option<i64> {
    match buffer.get(position) {
        Some(Outcome::Row(row)) => row.as_slice().first()?.number(),
        _ => None,
    }
}

/// The rows 20 and 30 and a fault, from position 2 on.
fn sample(alloc: Global) -> Result<RowBuffer, NoMemory> {
    let mut buffer = RowBuffer::new(alloc, 2);
    for number in [20, 30] {
        buffer.push(row(alloc, number)?)?;
    }
    buffer.push(Outcome::Fault(Code::DivisionByZero))?;
    Ok(buffer)
}

/// The first position at which an outcome is kept below 9, and the one behind the last.
fn kept(buffer: &RowBuffer) -> Option<(u64, u64)> {
    let first = (0..9_u64).find(|position| buffer.get(*position).is_some())?;
    let end = (first..9).find(|position| buffer.get(*position).is_none())?;
    Some((first, end))
}

#[test]
fn outcomes_are_kept_by_position(rt: HostRuntime) -> Result<(), Fail> {
    let mut buffer = sample(rt.alloc())?;
    assert_eq!(rt; kept(&buffer), Some((2, 5)));
    assert_eq!(rt; number_at(&buffer, 2), Some(20));
    assert_eq!(rt; number_at(&buffer, 3), Some(30));
    buffer.drop_before(3);
    assert_eq!(rt; kept(&buffer), Some((3, 5)));
    assert_eq!(rt; number_at(&buffer, 3), Some(30));
    Ok(())
}

#[test]
fn dropped_positions_come_no_more(rt: HostRuntime) -> Result<(), Fail> {
    let mut buffer = sample(rt.alloc())?;
    buffer.drop_before(9);
    assert_eq!(rt; kept(&buffer), None);
    buffer.push(row(rt.alloc(), 50)?)?;
    assert_eq!(rt; number_at(&buffer, 5), Some(50));
    Ok(())
}

#[test]
fn no_position_passes_the_last(rt: HostRuntime) -> Result<(), Fail> {
    let mut buffer = RowBuffer::new(rt.alloc(), 1 << 62);
    buffer.push(row(rt.alloc(), 1)?)?;
    assert_eq!(rt; buffer.push(row(rt.alloc(), 2)?), Err(NoMemory));
    assert_eq!(rt; number_at(&buffer, 1 << 62), Some(1));
    Ok(())
}
