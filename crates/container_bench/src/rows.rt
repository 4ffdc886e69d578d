ghost use Rattle.std.specs.Prelude.{◌≡◌, ◌<◌, ◌≤◌, ◌+◌, ◌^◌, [], OnOk, length};
ghost use Rattle.row_versions.specs.Marks.{Mark};
ghost use Rattle.row_versions.specs.State.{IsAdded, Stands};
ghost use Rattle.row_versions.specs.Stored.{slots_of};

use crate::report::{Failed, report, scattered};
use q_base::{ListOf, NoMemory, ObjId, SlotId, Stop};
use q_value::{Row, Value};
use row_versions::{Heaps, Snap, laws};
use std::alloc::Global;
use std::time::CpuClock;

const TABLE: ObjId = ObjId(1);

/// Inserts rows, goes through them, reads and updates each, takes the updates back, and prunes what
/// more updates leave.
pub fn run(rt: &HostRuntime, count: u32) -> Result<(), Failed> {
    let mut heaps = Heaps::new(rt.alloc())?;
    heaps.add_table(TABLE)?;
    let start = rt.thread_cpu_time()?;
    insert(rt.alloc(), &mut heaps, count)?;
    report(rt, "insert", count, start)?;
    read(rt, &mut heaps, count)?;
    change(rt, &mut heaps, count)
}

fn read(rt: &HostRuntime, heaps: &mut Heaps, count: u32) -> Result<(), Failed>
    requires { heaps.old.newest < 2 ^ 32 }
    ensures newest { heaps.new.newest ≡ heaps.old.newest + 1 }
    ensures pins { heaps.new.pins ≡ heaps.old.pins }
{
    let snap = heaps.advance();
    let start = rt.thread_cpu_time()?;
    let found = walk(heaps, snap, count);
    report(rt, "next_slot", found, start)?;
    let start = rt.thread_cpu_time()?;
    let found = look_up(heaps, snap, count);
    report(rt, "visible", found, start)
}

fn change(rt: &HostRuntime, heaps: &mut Heaps, count: u32) -> Result<(), Failed>
    requires early { heaps.old.newest < 2 ^ 33 }
    requires unpinned { heaps.old.pins ≡ [] }
{
    let mark = heaps.mark();
    let start = rt.thread_cpu_time()?;
    update(rt.alloc(), heaps, count)?;
    report(rt, "supersede", count, start)?;
    let start = rt.thread_cpu_time()?;
    heaps.rollback_to(mark);
    report(rt, "rollback_to", count, start)?;
    update(rt.alloc(), heaps, count)?;
    let start = rt.thread_cpu_time()?;
    heaps.forget();
    heaps.prune();
    report(rt, "prune", count, start)
}

fn row_of(alloc: Global, number: u32) -> Result<Row, NoMemory> {
    let mut row = ListOf::new(alloc);
    row.push(Value::Int8(i64::from(number)))?;
    Ok(row)
}

fn insert(alloc: Global, heaps: &mut Heaps, count: u32) -> Result<(), Stop>
    requires added { IsAdded heaps.old TABLE }
    requires empty { slots_of TABLE heaps.old.tables ≡ [] }
    ensures newest { OnOk result (heaps.new.newest ≡ heaps.old.newest) }
    ensures pins { OnOk result (heaps.new.pins ≡ heaps.old.pins) }
{
    for number in 0..count {
        heaps.insert(TABLE, row_of(alloc, number)?)?;
    }
    Ok(())
}

/// Goes from slot to slot, and answers how many show a row.
fn walk(heaps: &Heaps, snap: Snap, count: u32) -> u32 {
    let mut from = SlotId(0);
    let mut found = 0u32;
    for _number in 0..count {
        let Some(slot) = heaps.next_slot(TABLE, from, snap) else {
            return found;
        };
        found = found.wrapping_add(1);
        from = SlotId(slot.0.saturating_add(1));
    }
    found
}

/// Reads the slots in no order, and answers how many show a row.
fn look_up(heaps: &Heaps, snap: Snap, count: u32) -> u32 {
    let mut found = 0u32;
    for number in 0..count {
        let slot = SlotId(u64::from(scattered(number) % count));
        if heaps.visible(TABLE, slot, snap).is_some() {
            found = found.wrapping_add(1);
        }
    }
    found
}

/// Puts a newer version into each slot that shows a row, each after a snapshot of its own.
fn update(alloc: Global, heaps: &mut Heaps, count: u32) -> Result<(), NoMemory>
    requires { heaps.old.newest < 2 ^ 40 }
    ensures newest { OnOk result (heaps.new.newest ≤ heaps.old.newest + count) }
    ensures pins { OnOk result (heaps.new.pins ≡ heaps.old.pins) }
    ensures marks { OnOk result ((mark : Mark) → Stands heaps.old mark → Stands heaps.new mark) }
{
    for number in 0..count {
        update_one(alloc, heaps, number)?;
    }
    Ok(())
}

fn update_one(alloc: Global, heaps: &mut Heaps, number: u32) -> Result<(), NoMemory>
    requires { heaps.old.newest < 2 ^ 41 }
    ensures newest { OnOk result (heaps.new.newest ≡ heaps.old.newest + 1) }
    ensures pins { OnOk result (heaps.new.pins ≡ heaps.old.pins) }
    ensures marks { OnOk result ((mark : Mark) → Stands heaps.old mark → Stands heaps.new mark) }
{
    let snap = heaps.advance();
    let slot = SlotId(u64::from(number));
    if heaps.visible(TABLE, slot, snap).is_some() {
        laws::shown_by_rows();
        heaps.supersede(TABLE, slot, row_of(alloc, number)?)?;
    }
    Ok(())
}
