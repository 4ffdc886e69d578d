ghost use Rattle.std.specs.Prelude.{◌≡◌, [], ◌∷◌, ◌++◌, OnOk};
ghost use Rattle.std.specs.Option.{option_copied};
ghost use Rattle.executor.specs.Scans as spec;

use q_base::{ColId, ColList, NoMemory, ObjId, SlotId};
use q_value::{Row, Value, order_values};
use row_index::{Index, Key};
use row_versions::Heaps;
use std::alloc::Global;
use std::marker::Model;

/// An index as it is stored, with the table and the columns for which it was made.
#[derive(Drop)]
pub struct IndexRow {
    pub id: ObjId,
    pub table: ObjId,
    pub columns: ColList,
    pub index: Index,
}

/// The indexes, in order of making.
#[derive(Drop)]
pub struct IndexList {
    rows: Vec<IndexRow>,
}

impl Model for IndexList {
    ghost use Rattle.std.specs.Prelude.{List};
    ghost use Rattle.executor.specs.declared.stores.IndexRow.{IndexRow};

    ghost Value = { List IndexRow };

    ghost view = { λ list. list.rows.items };
}

impl IndexList {
    /// No indexes.
    pub fn new(alloc: Global) -> IndexList
        ensures { result ≡ [] }
    {
        IndexList {
            rows: Vec::new(alloc),
        }
    }

    /// Appends an index.
    pub fn push(&mut self, row: IndexRow) -> Result<(), NoMemory>
        ensures { OnOk result (self.new ≡ self.old ++ row ∷ []) }
    {
        self.rows.push(row)?;
        Ok(())
    }

    /// The indexes, in order of making.
    pub fn as_slice(&self) -> &[IndexRow]
        ensures { result.now ≡ self.now }
    {
        self.rows.as_slice()
    }

    /// The index of an id.
    pub fn find(&self, id: ObjId) -> Option<&IndexRow>
        ensures { option_copied result ≡ spec.index_of id self.now }
    {
        find_index(self.rows.as_slice(), id)
    }

    /// Puts an entry into the index at a place of the list, unless it is there.
    pub fn add_entry(&mut self, at: usize, key: Key, slot: SlotId) -> Result<(), NoMemory> {
        if at < self.rows.len() {
            let row = &mut self.rows[at];
            row.index.add(key, slot)?;
        }
        Ok(())
    }

    /// Takes an entry out of the index at a place of the list, where it is there.
    pub fn remove_entry(&mut self, at: usize, key: &Key, slot: SlotId) {
        if at < self.rows.len() {
            let row = &mut self.rows[at];
            row.index.remove(key, slot);
        }
    }

    /// Takes the index of an id out of the list, where it is there.
    pub fn remove(&mut self, id: ObjId) {
        if let Some(at) = self.place_of(id) {
            if at < self.rows.len() {
                let _ = self.rows.remove(at);
            }
        }
    }

    fn place_of(&self, id: ObjId) -> Option<usize> {
        for at in 0..self.rows.len() {
            if self.rows[at].id == id {
                return Some(at);
            }
        }
        None
    }
}

/// The stored rows of all tables, and the indexes over them. Indexes aren't rolled back: an entry counts only where
/// the slot shows a row that has the entry's key.
#[derive(Drop)]
pub struct Stores {
    pub heaps: Heaps,
    pub indexes: IndexList,
}

/// An entry that may have to go.
#[derive(Drop)]
struct Doubtful {
    /// The place of the index in the list.
    at: usize,
    key: Key,
    slot: SlotId,
}

impl Stores {
    /// Drops the versions that neither the newest snapshot nor a pinned one shows, with the entries of those keys that
    /// no kept version of their slot has. Nothing is dropped while a change can be taken back, until `forget`.
    pub fn prune(&mut self, alloc: Global) -> Result<(), NoMemory> {
        if !self.heaps.is_settled() {
            return Ok(());
        }
        let doubtful = self.doubtful(alloc)?;
        self.heaps.prune();
        self.drop_entries(alloc, doubtful.as_slice())
    }

    /// The entries of the slots that may have a version to drop.
    fn doubtful(&self, alloc: Global) -> Result<Vec<Doubtful>, NoMemory> {
        let mut doubtful = Vec::new(alloc);
        for number in 0..self.heaps.stale_len() {
            if let Some((table, slot)) = self.heaps.stale_at(number) {
                self.doubt_slot(alloc, table, slot, &mut doubtful)?;
            }
        }
        Ok(doubtful)
    }

    fn doubt_slot(
        &self,
        alloc: Global,
        table: ObjId,
        slot: SlotId,
        doubtful: &mut Vec<Doubtful>,
    ) -> Result<(), NoMemory> {
        for at in 0..self.indexes.rows.len() {
            if self.indexes.rows[at].table == table {
                self.doubt_keys(alloc, at, slot, doubtful)?;
            }
        }
        Ok(())
    }

    /// Notes the entries of all versions of a slot in one index.
    fn doubt_keys(
        &self,
        alloc: Global,
        at: usize,
        slot: SlotId,
        doubtful: &mut Vec<Doubtful>,
    ) -> Result<(), NoMemory> {
        let Some(index) = self.indexes.rows.get(at) else {
            return Ok(());
        };
        for number in 0..usize::MAX {
            let Some(row) = self.heaps.version(index.table, slot, number) else {
                return Ok(());
            };
            if let Some(key) = key_of(alloc, index.columns.as_slice(), row)? {
                doubtful.push(Doubtful { at, key, slot })?;
            }
        }
        Ok(())
    }

    fn drop_entries(&mut self, alloc: Global, doubtful: &[Doubtful]) -> Result<(), NoMemory> {
        for entry in doubtful {
            if !self.keeps(alloc, entry)? {
                self.indexes.remove_entry(entry.at, &entry.key, entry.slot);
            }
        }
        Ok(())
    }

    /// Whether a version of the entry's slot has its key.
    fn keeps(&self, _alloc: Global, entry: &Doubtful) -> Result<bool, NoMemory> {
        let Some(index) = self.indexes.rows.get(entry.at) else {
            return Ok(false);
        };
        for number in 0..usize::MAX {
            let Some(row) = self.heaps.version(index.table, entry.slot, number) else {
                return Ok(false);
            };
            if has_key(index.columns.as_slice(), row, entry.key.as_slice()) {
                return Ok(true);
            }
        }
        Ok(false)
    }
}

/// The values of a row in the columns of an index, or `None` where a column lies past the row's end.
pub fn key_of(alloc: Global, columns: &[ColId], row: &Row) -> Result<Option<Key>, NoMemory> {
    let row = row.as_slice();
    let mut key = Key::new(alloc);
    for column in columns {
        match row.get(column.0 as usize) {
            Some(value) => key.push(value.copy(alloc)?)?,
            None => return Ok(None),
        }
    }
    Ok(Some(key))
}

/// Whether a row has a key: in each column of the index the value of the key there.
pub fn has_key(columns: &[ColId], row: &Row, key: &[Value]) -> bool
    ensures { result ≡ spec.has_key columns.now row.now key.now }
{
    has_values(columns, row.as_slice(), key)
}

fn has_values(columns: &[ColId], row: &[Value], key: &[Value]) -> bool
    ensures { result ≡ spec.has_key columns.now row.now key.now }
{
    for at in 0..columns.len() {
        if !has_at(at, &columns[at], row, key) {
            return false;
        }
    }
    true
}

/// Whether a row has the value at a place of the key, in the column for that place.
#[tactic(auto, unfolding(crate::specs::Scans::has_at))]
fn has_at(at: usize, column: &ColId, row: &[Value], key: &[Value]) -> bool
    ensures { result ≡ spec.has_at at column.now row.now key.now }
{
    same_values(row.get(column.0 as usize), key.get(at))
}

/// Whether both values are there and equal, or both null.
#[tactic(auto, unfolding(crate::specs::Scans::same_values))]
fn same_values(left: Option<&Value>, right: Option<&Value>) -> bool
    ensures { result ≡ spec.same_values (option_copied left.entry) (option_copied right.entry) }
{
    match (left, right) {
        (Some(left), Some(right)) => order_values(left, right, false, false).is_eq(),
        _ => false,
    }
}

fn find_index(rows: &[IndexRow], id: ObjId) -> Option<&IndexRow>
    ensures { option_copied result ≡ spec.index_of id rows.now }
{
    for row in rows {
        if row.id.0 == id.0 {
            return Some(row);
        }
    }
    None
}
