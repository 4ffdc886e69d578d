use cat_core::{Catalog, Def, Entry};
use executor::{IndexRow, Stores, has_key, key_of};
use q_base::{Code, ColId, NoMemory, ObjId, SlotId, Stop, refusal_naming};
use q_value::{Row, Value};
use row_index::{Index, IndexPlace, Key, KeyRange};
use row_versions::Heaps;
use std::alloc::Global;

/// Refuses slots of which one has in a unique index the key of another row, by 23505 with the index's name: the first
/// such index in order of making. Keys with a null are never equal. The slots have their entries.
pub(crate) fn check_unique(
    alloc: Global,
    stores: &Stores,
    catalog: &Catalog,
    table: ObjId,
    slots: &[SlotId],
) -> Result<(), Stop> {
    let entries = catalog.indexes_of(alloc, table)?;
    for entry in entries.as_slice() {
        check_index(alloc, stores, entry, slots)?;
    }
    Ok(())
}

fn check_index(
    alloc: Global,
    stores: &Stores,
    entry: &Entry,
    slots: &[SlotId],
) -> Result<(), Stop> {
    if !is_unique(entry) {
        return Ok(());
    }
    let Some(index) = stores.indexes.find(entry.id) else {
        return Ok(());
    };
    if has_double(alloc, &stores.heaps, index, slots)? {
        return Err(refusal_naming(alloc, Code::DuplicateKey, entry.name.as_str()));
    }
    Ok(())
}

fn is_unique(entry: &Entry) -> bool {
    match &entry.def {
        Def::Index(index) => index.unique,
        _ => false,
    }
}

/// Whether one of the slots has the key of another row.
fn has_double(
    alloc: Global,
    heaps: &Heaps,
    index: &IndexRow,
    slots: &[SlotId],
) -> Result<bool, NoMemory> {
    for slot in slots {
        if is_double(alloc, heaps, index, *slot)? {
            return Ok(true);
        }
    }
    Ok(false)
}

fn is_double(
    alloc: Global,
    heaps: &Heaps,
    index: &IndexRow,
    slot: SlotId,
) -> Result<bool, NoMemory> {
    let Some(row) = heaps.newest_row(index.table, slot) else {
        return Ok(false);
    };
    match whole_key(alloc, index.columns.as_slice(), row)? {
        Some(key) => Ok(is_elsewhere(heaps, index, &key_range(alloc, key), slot)),
        None => Ok(false),
    }
}

/// The key of a row, or `None` where it has a null.
pub(crate) fn whole_key(
    alloc: Global,
    columns: &[ColId],
    row: &Row,
) -> Result<Option<Key>, NoMemory> {
    match key_of(alloc, columns, row)? {
        Some(key) if !has_null(key.as_slice()) => Ok(Some(key)),
        _ => Ok(None),
    }
}

fn has_null(values: &[Value]) -> bool {
    for value in values {
        if let Value::Null = value {
            return true;
        }
    }
    false
}

/// The range of a key alone.
pub(crate) fn key_range(_alloc: Global, key: Key) -> KeyRange {
    KeyRange {
        equal: key,
        low: None,
        high: None,
    }
}

/// Whether another live row than that of the slot has the range's key.
fn is_elsewhere(heaps: &Heaps, index: &IndexRow, range: &KeyRange, slot: SlotId) -> bool {
    let mut last: Option<&IndexPlace> = None;
    for _turn in 0..usize::MAX {
        let Some(place) = index.index.after(range, last) else {
            return false;
        };
        if place.slot.0 != slot.0 && holds(heaps, index, range, place.slot) {
            return true;
        }
        last = Some(place);
    }
    false
}

/// Whether the newest version of a slot has the range's key.
fn holds(heaps: &Heaps, index: &IndexRow, range: &KeyRange, slot: SlotId) -> bool {
    match heaps.newest_row(index.table, slot) {
        Some(row) => has_key(index.columns.as_slice(), row, range.equal.as_slice()),
        None => false,
    }
}

/// Whether an index has an entry of a key.
pub(crate) fn has_entry(index: &Index, range: &KeyRange) -> bool {
    index.after(range, None).is_some()
}
