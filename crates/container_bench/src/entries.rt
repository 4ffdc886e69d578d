use crate::report::{Failed, report, scattered};
use q_base::{ListOf, NoMemory, SlotId};
use q_value::Value;
use row_index::{Index, Key, KeyRange};
use std::alloc::Global;
use std::time::CpuClock;

/// Adds entries in no order, goes through all of them in order, and removes them.
pub fn run(rt: &HostRuntime, count: u32) -> Result<(), Failed> {
    let mut index = Index::new(rt.alloc());
    let start = rt.thread_cpu_time()?;
    add(rt.alloc(), &mut index, count)?;
    report(rt, "add", count, start)?;
    let start = rt.thread_cpu_time()?;
    let found = walk(rt.alloc(), &index, count);
    report(rt, "after", found, start)?;
    let start = rt.thread_cpu_time()?;
    remove(rt.alloc(), &mut index, count)?;
    report(rt, "remove", count, start)
}

fn key_of(alloc: Global, number: u32) -> Result<Key, NoMemory> {
    let mut key = ListOf::new(alloc);
    key.push(Value::Int8(i64::from(scattered(number))))?;
    Ok(key)
}

fn add(alloc: Global, index: &mut Index, count: u32) -> Result<(), NoMemory> {
    for number in 0..count {
        index.add(key_of(alloc, number)?, SlotId(u64::from(number)))?;
    }
    Ok(())
}

/// Goes from entry to entry, and answers how many were found.
fn walk(alloc: Global, index: &Index, count: u32) -> u32 {
    let whole = KeyRange {
        equal: ListOf::new(alloc),
        low: None,
        high: None,
    };
    let mut last = None;
    let mut found = 0u32;
    for _number in 0..count {
        last = index.after(&whole, last);
        if last.is_some() {
            found = found.wrapping_add(1);
        }
    }
    found
}

fn remove(alloc: Global, index: &mut Index, count: u32) -> Result<(), NoMemory> {
    for number in 0..count {
        index.remove(&key_of(alloc, number)?, SlotId(u64::from(number)));
    }
    Ok(())
}
