ghost use Rattle.std.specs.Prelude.{◌<◌};

use q_base::{ListOf, NoMemory, SlotId, Str};
use q_value::Value;
use row_index::{Edge, Index, Key, KeyRange};
use std::alloc::Global;
use std::test::Fail;

fn key(alloc: Global, first: Value, second: Value) -> Result<Key, NoMemory> {
    let mut key = ListOf::new(alloc);
    key.push(first)?;
    key.push(second)?;
    Ok(key)
}

/// A number as an edge, and whether it is within.
fn edge(edge: Option<(i64, bool)>) -> Option<Edge> {
    let (number, included) = edge?;
    Some(Edge {
        value: Value::Int8(number),
        included,
    })
}

/// The keys whose first value lies within edges.
fn between(alloc: Global, low: Option<Edge>, high: Option<Edge>) -> KeyRange {
    KeyRange {
        equal: ListOf::new(alloc),
        low,
        high,
    }
}

/// The keys whose first value is this one, and whose second value lies within edges.
fn second_between(
    alloc: Global,
    first: Value,
    low: Option<Edge>,
    high: Option<Edge>,
) -> Result<KeyRange, NoMemory> {
    let mut equal = ListOf::new(alloc);
    equal.push(first)?;
    Ok(KeyRange { equal, low, high })
}

/// The slots of a range's entries, one after another.
fn slots(alloc: Global, index: &Index, range: &KeyRange) -> Result<Vec<u64>, NoMemory> {
    let mut slots = Vec::new(alloc);
    let mut last = None;
    for _turn in 0..10_000 {
        match index.after(range, last) {
            Some(entry) => {
                slots.push(entry.slot.0)?;
                last = Some(entry);
            }
            None => return Ok(slots),
        }
    }
    Ok(slots)
}

fn add(
    alloc: Global,
    index: &mut Index,
    first: Value,
    second: Value,
    slot: u64,
) -> Result<(), NoMemory> {
    index.add(key(alloc, first, second)?, SlotId(slot))
}

fn add_others(alloc: Global, index: &mut Index) -> Result<(), NoMemory> {
    let text = Value::Text(Str::from_text(alloc, "a")?);
    add(alloc, index, Value::Null, Value::Int4(1), 1)?;
    add(alloc, index, Value::Bool(false), Value::Int4(1), 2)?;
    add(alloc, index, text, Value::Null, 3)?;
    add(alloc, index, Value::Int4(-2), Value::Int4(5), 8)
}

fn add_sevens(alloc: Global, index: &mut Index) -> Result<(), NoMemory> {
    add(alloc, index, Value::Int4(7), Value::Null, 4)?;
    add(alloc, index, Value::Int8(7), Value::Int4(9), 5)?;
    add(alloc, index, Value::Int2(7), Value::Int4(3), 7)?;
    add(alloc, index, Value::Int4(7), Value::Int8(3), 6)?;
    add(alloc, index, Value::Int8(7), Value::Int8(9), 5)
}

/// Entries of two values, added out of order.
fn sample(alloc: Global) -> Result<Index, NoMemory> {
    let mut index = Index::new(alloc);
    add_others(alloc, &mut index)?;
    add_sevens(alloc, &mut index)?;
    Ok(index)
}

/// Whether these are the slots of a range's entries.
fn has(alloc: Global, index: &Index, range: &KeyRange, expected: &[u64]) -> Result<bool, NoMemory> {
    Ok(slots(alloc, index, range)?.as_slice() == expected)
}

/// Edges of the first value, as a number and whether it is within, and the slots between them.
const BETWEEN: [(Option<(i64, bool)>, Option<(i64, bool)>, &[u64]); 5] = [
    (None, None, &[8, 6, 7, 5, 4, 3, 2, 1]),
    (Some((7, true)), None, &[6, 7, 5, 4, 3, 2]),
    (Some((7, false)), None, &[3, 2]),
    (None, Some((7, true)), &[8, 6, 7, 5, 4]),
    (None, Some((7, false)), &[8]),
];

#[test]
fn entries_stand_in_order(rt: HostRuntime) -> Result<(), Fail> {
    let index = sample(rt.alloc())?;
    for (low, high, expected) in &BETWEEN {
        let range = between(rt.alloc(), edge(*low), edge(*high));
        assert!(rt; has(rt.alloc(), &index, &range, expected)?);
    }
    Ok(())
}

/// The slots of the entries whose first value is 7 and whose second one is above 3 and up to 9.
fn three_to_nine(alloc: Global, index: &Index) -> Result<Vec<u64>, NoMemory> {
    let (low, high) = (edge(Some((3, false))), edge(Some((9, true))));
    let range = second_between(alloc, Value::Int8(7), low, high)?;
    slots(alloc, index, &range)
}

/// The slots of the entries whose first value is 7.
fn sevens(alloc: Global, index: &Index) -> Result<Vec<u64>, NoMemory> {
    let range = second_between(alloc, Value::Int2(7), None, None)?;
    slots(alloc, index, &range)
}

#[test]
fn entries_of_one_value_are_found(rt: HostRuntime) -> Result<(), Fail> {
    let mut index = sample(rt.alloc())?;
    let found = three_to_nine(rt.alloc(), &index)?;
    assert_eq!(rt; found.as_slice(), [5].as_slice());
    let found = sevens(rt.alloc(), &index)?;
    assert_eq!(rt; found.as_slice(), [6, 7, 5, 4].as_slice());
    remove_two(rt.alloc(), &mut index)?;
    let found = sevens(rt.alloc(), &index)?;
    assert_eq!(rt; found.as_slice(), [7, 5, 4].as_slice());
    Ok(())
}

/// Takes an entry out, and another one that isn't there.
fn remove_two(alloc: Global, index: &mut Index) -> Result<(), NoMemory> {
    index.remove(&key(alloc, Value::Int2(7), Value::Int2(3))?, SlotId(6));
    index.remove(&key(alloc, Value::Int4(7), Value::Null)?, SlotId(9));
    Ok(())
}

/// More than one group has room for.
const COUNT: u64 = 9_000;

fn number_key(alloc: Global, number: u64) -> Result<Key, NoMemory>
    requires { number < 10000 }
{
    key(alloc, Value::Int8(number as i64), Value::Null)
}

/// The index of the numbers below `COUNT`, added out of order.
fn numbers(alloc: Global) -> Result<Index, NoMemory> {
    let mut index = Index::new(alloc);
    for turn in 0..COUNT {
        let number = turn * 7 % COUNT;
        index.add(number_key(alloc, number)?, SlotId(number))?;
    }
    Ok(index)
}

fn remove_first(alloc: Global, index: &mut Index) -> Result<(), NoMemory> {
    for number in 0..8_900 {
        index.remove(&number_key(alloc, number)?, SlotId(number));
    }
    Ok(())
}

/// Whether the slots of all entries are those from `first` on.
fn all_from(alloc: Global, index: &Index, first: u64) -> Result<bool, NoMemory> {
    let all = between(alloc, None, None);
    Ok(slots(alloc, index, &all)?.iter().copied().eq(first..COUNT))
}

#[test]
fn many_entries_are_kept(rt: HostRuntime) -> Result<(), Fail> {
    let alloc = rt.alloc();
    let mut index = numbers(alloc)?;
    assert!(rt; all_from(alloc, &index, 0)?);
    remove_first(alloc, &mut index)?;
    assert!(rt; all_from(alloc, &index, 8_900)?);
    Ok(())
}
