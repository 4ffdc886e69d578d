ghost use Rattle.std.specs.Prelude.{IsTrue, OnOk, IfOk, All, Contains, IsSome, ◌<◌, ◌^◌, length};
ghost use Rattle.row_versions.specs.State.{IsAdded, KeepsMarks, shown};
ghost use Rattle.row_versions.specs.Stored.{slots_of};

use super::{Heaps, Snap};
use crate::snaps::{HeapMark, Pin};
use q_base::{ListOf, NoMemory, ObjId, SlotId};
use q_value::{Row, Value};
use std::alloc::Global;
use std::process::Abort;
use std::test::Fail;

const TABLE: ObjId = ObjId(7);

const OTHER: ObjId = ObjId(9);

fn row(alloc: Global, number: i32) -> Result<Row, NoMemory> {
    let mut row = ListOf::new(alloc);
    row.push(Value::Int4(number))?;
    Ok(row)
}

fn number_of(row: Option<&Row>) -> Option<i32> {
    match row {
        Some(row) => match row.as_slice() {
            [Value::Int4(number)] => Some(*number),
            _ => None,
        },
        None => None,
    }
}

/// The numbers that the first five slots show.
fn numbers(heaps: &Heaps, table: ObjId, snap: Snap) -> [Option<i32>; 5] {
    [
        number_of(heaps.visible(table, SlotId(0), snap)),
        number_of(heaps.visible(table, SlotId(1), snap)),
        number_of(heaps.visible(table, SlotId(2), snap)),
        number_of(heaps.visible(table, SlotId(3), snap)),
        number_of(heaps.visible(table, SlotId(4), snap)),
    ]
}

fn is_ready(heaps: &Heaps, table: ObjId) -> bool
    ensures added { IsTrue result → IsAdded heaps.now table }
    ensures few { IsTrue result → length (slots_of table heaps.now.tables) < 2 ^ 62 }
{
    if heaps.tables.find(table).is_none() {
        return false;
    }
    match heaps.tables.heap_of(table) {
        Some(heap) => heap.len() < 100,
        None => false,
    }
}

fn is_live(heaps: &Heaps, table: ObjId, slot: SlotId) -> bool
    ensures { IsTrue result → IsSome (shown heaps.now table slot.0 heaps.now.newest) }
{
    let newest = Snap {
        moment: heaps.moment,
    };
    heaps.visible(table, slot, newest).is_some()
}

fn is_early(heaps: &Heaps) -> bool
    ensures { IsTrue result → heaps.now.newest < 2 ^ 62 }
{
    heaps.moment < 1000
}

fn are_older(heaps: &Heaps, mark: HeapMark) -> bool
    ensures { IsTrue result → All (λ pin. pin < mark.moment) heaps.now.pins }
{
    heaps.pins.iter().all(|pin| *pin < mark.moment)
}

fn is_held(heaps: &Heaps, pin: &Pin) -> bool
    ensures { IsTrue result → Contains heaps.now.pins pin.now }
{
    for held in &heaps.pins {
        if *held == pin.moment {
            return true;
        }
    }
    false
}

/// Inserts a row where that may be done.
fn put(
    rt: &impl Abort,
    alloc: Global,
    heaps: &mut Heaps,
    table: ObjId,
    number: i32,
) -> Result<SlotId, Fail>
    ensures { OnOk result (KeepsMarks heaps.old heaps.new) }
{
    assert!(rt; is_ready(heaps, table));
    Ok(heaps.insert(table, row(alloc, number)?)?)
}

fn replace(
    rt: &impl Abort,
    alloc: Global,
    heaps: &mut Heaps,
    slot: u64,
    number: i32,
) -> Result<(), Fail>
    ensures { OnOk result (KeepsMarks heaps.old heaps.new) }
{
    assert!(rt; is_live(heaps, TABLE, SlotId(slot)));
    heaps.supersede(TABLE, SlotId(slot), row(alloc, number)?)?;
    Ok(())
}

fn delete(rt: &impl Abort, heaps: &mut Heaps, slot: u64) -> Result<(), Fail>
    ensures { OnOk result (KeepsMarks heaps.old heaps.new) }
{
    assert!(rt; is_live(heaps, TABLE, SlotId(slot)));
    heaps.end(TABLE, SlotId(slot))?;
    Ok(())
}

/// What is changed after a mark is taken back, and the slots given since are not given again.
fn change_and_go_back(
    rt: &impl Abort,
    alloc: Global,
    heaps: &mut Heaps,
    old: Snap,
) -> Result<(), Fail> {
    let mark = heaps.mark();
    put(rt, alloc, heaps, TABLE, 13)?;
    delete(rt, heaps, 1)?;
    replace(rt, alloc, heaps, 2, 22)?;
    assert!(rt; is_early(heaps));
    let changed = heaps.advance();
    assert_eq!(rt;
        numbers(heaps, TABLE, changed),
        [None, None, Some(22), Some(13), None]
    );
    assert!(rt; are_older(heaps, mark));
    heaps.rollback_to(mark);
    assert!(rt; is_early(heaps));
    let restored = heaps.advance();
    assert_eq!(rt;
        numbers(heaps, TABLE, restored),
        [None, Some(21), Some(12), None, None]
    );
    assert_eq!(rt;
        numbers(heaps, TABLE, old),
        [Some(10), Some(11), Some(12), None, None]
    );
    let slot = put(rt, alloc, heaps, TABLE, 14)?;
    assert_eq!(rt; slot, SlotId(4));
    Ok(())
}

/// Each slot keeps the versions that the newest snapshot or a pinned one shows.
fn prune_and_unpin(rt: &impl Abort, heaps: &mut Heaps, old: Snap, pin: Pin) -> Result<(), Fail> {
    heaps.forget();
    heaps.prune();
    assert_eq!(rt;
        numbers(heaps, TABLE, old),
        [Some(10), Some(11), Some(12), None, None]
    );
    assert_eq!(rt; number_of(heaps.version(TABLE, SlotId(1), 0)), Some(11));
    assert_eq!(rt; number_of(heaps.version(TABLE, SlotId(1), 1)), Some(21));
    assert!(rt; heaps.version(TABLE, SlotId(1), 2).is_none());
    assert!(rt; heaps.version(TABLE, SlotId(3), 0).is_none());
    assert!(rt; is_held(heaps, &pin));
    heaps.unpin(pin);
    heaps.forget();
    heaps.prune();
    assert!(rt; heaps.version(TABLE, SlotId(0), 0).is_none());
    assert_eq!(rt; number_of(heaps.version(TABLE, SlotId(1), 0)), Some(21));
    assert!(rt; heaps.version(TABLE, SlotId(1), 1).is_none());
    Ok(())
}

#[test]
fn snapshots_stay_through_changes_rollback_and_pruning(rt: HostRuntime) -> Result<(), Fail> {
    let alloc = rt.alloc();
    let mut heaps = Heaps::new(alloc)?;
    heaps.add_table(TABLE)?;
    heaps.add_table(OTHER)?;
    put(&rt, alloc, &mut heaps, TABLE, 10)?;
    put(&rt, alloc, &mut heaps, TABLE, 11)?;
    put(&rt, alloc, &mut heaps, OTHER, 90)?;
    put(&rt, alloc, &mut heaps, TABLE, 12)?;
    assert!(rt; is_early(&heaps));
    let old = heaps.advance();
    let pin = heaps.pin(old)?;
    replace(&rt, alloc, &mut heaps, 1, 21)?;
    delete(&rt, &mut heaps, 0)?;
    assert!(rt; is_early(&heaps));
    let newer = heaps.advance();
    assert_eq!(rt;
        numbers(&heaps, TABLE, old),
        [Some(10), Some(11), Some(12), None, None]
    );
    assert_eq!(rt;
        numbers(&heaps, TABLE, newer),
        [None, Some(21), Some(12), None, None]
    );
    assert_eq!(rt;
        numbers(&heaps, OTHER, newer),
        [Some(90), None, None, None, None]
    );
    change_and_go_back(&rt, alloc, &mut heaps, old)?;
    prune_and_unpin(&rt, &mut heaps, old, pin)?;
    assert!(rt; is_early(&heaps));
    let last = heaps.advance();
    assert_eq!(rt;
        numbers(&heaps, TABLE, last),
        [None, Some(21), Some(12), None, Some(14)]
    );
    assert_eq!(rt; heaps.next_slot(TABLE, SlotId(0), last), Some(SlotId(1)));
    assert_eq!(rt; heaps.next_slot(TABLE, SlotId(3), last), Some(SlotId(4)));
    assert_eq!(rt; heaps.next_slot(TABLE, SlotId(5), last), None);
    Ok(())
}
