use crate::columns::after;
use crate::entries::end_row;
use crate::unique::{has_entry, key_range, whole_key};
use cat_core::{Def, Entry, IndexDef};
use executor::{IndexRow, Stores, key_of};
use q_base::{Code, ColId, ColList, ListOf, NoMemory, ObjId, SlotId, Stop, refusal_naming};
use q_value::Row;
use row_index::Index;
use row_versions::Heaps;
use std::alloc::Global;

/// Builds an index over the live rows of its table, behind the other indexes. Refused as 23505, with its name, where
/// it is unique and two rows have one key without nulls; then the indexes are as before.
pub fn build_index(alloc: Global, stores: &mut Stores, index: &Entry) -> Result<(), Stop> {
    let Def::Index(def) = &index.def else {
        return Ok(());
    };
    match entries_of(alloc, &stores.heaps, def)? {
        Some(entries) => {
            let columns = copy_columns(alloc, def.columns.as_slice())?;
            stores.indexes.push(IndexRow {
                id: index.id,
                table: def.table,
                columns,
                index: entries,
            })?;
            Ok(())
        }
        None => Err(refusal_naming(alloc, Code::UniqueIndexRefused, index.name.as_str())),
    }
}

fn copy_columns(alloc: Global, columns: &[ColId]) -> Result<ColList, NoMemory> {
    Ok(ListOf::from_vec(columns.to_vec(alloc)?))
}

/// An entry for each live row of an index's table, or `None` where the index is unique and two rows have one key
/// without nulls.
fn entries_of(alloc: Global, heaps: &Heaps, def: &IndexDef) -> Result<Option<Index>, NoMemory> {
    let mut entries = Index::new(alloc);
    let mut from = SlotId(0);
    for _turn in 0..u64::MAX {
        let Some(slot) = heaps.next_live(def.table, from) else {
            return Ok(Some(entries));
        };
        if let Some(row) = heaps.newest_row(def.table, slot) {
            if !add_row(alloc, &mut entries, def, slot, row)? {
                return Ok(None);
            }
        }
        from = after(slot);
    }
    Ok(Some(entries))
}

/// Gives a row its entry, unless the index is unique and another row has its key, without nulls.
fn add_row(
    alloc: Global,
    entries: &mut Index,
    def: &IndexDef,
    slot: SlotId,
    row: &Row,
) -> Result<bool, NoMemory> {
    let columns = def.columns.as_slice();
    if def.unique && is_taken(alloc, entries, columns, row)? {
        return Ok(false);
    }
    if let Some(key) = key_of(alloc, columns, row)? {
        entries.add(key, slot)?;
    }
    Ok(true)
}

fn is_taken(
    alloc: Global,
    entries: &Index,
    columns: &[ColId],
    row: &Row,
) -> Result<bool, NoMemory> {
    match whole_key(alloc, columns, row)? {
        Some(key) => Ok(has_entry(entries, &key_range(alloc, key))),
        None => Ok(false),
    }
}

/// Deletes each live row of a table, as TRUNCATE and DROP TABLE do.
pub fn clear_table(stores: &mut Stores, table: ObjId) -> Result<(), NoMemory> {
    let mut from = SlotId(0);
    for _turn in 0..u64::MAX {
        let Some(slot) = stores.heaps.next_live(table, from) else {
            return Ok(());
        };
        end_row(&mut stores.heaps, table, slot)?;
        from = after(slot);
    }
    Ok(())
}
