ghost use Rattle.std.specs.Prelude.{◌≡◌, ◌↔◌, ◌≤◌, ◌^◌, ◌-◌, IsTrue, IfOk, is_some, length, filter, nat_eq, [], if◌then◌else◌};
ghost use Rattle.cat_core.specs.Stamps.{stamp_in};
ghost use Rattle.cat_undo.specs.Marked as marked;
ghost use Rattle.cat_undo.specs.Store as spec;

use crate::now::Now;
use cat_core::{Catalog, Change, Changes, Stamps, Undo};
use q_base::{NoMemory, ObjId, Stamp, Touched};
use std::alloc::Global;

/// A state of the catalog to which a rollback may go back.
#[derive(Clone, Copy)]
pub struct CatMark {
    // How many steps there were to take back.
    changes: usize,
    // The last stamp that was handed out.
    stamps: u64,
}

/// The catalog of a session, with the stamps of its objects and with what takes its changes back.
///
/// A stamp tells whether an object changed: whoever kept one compares it. So an object whose change is taken back gets a
/// new stamp, and no stamp is handed out twice (PostgreSQL sends invalidation messages in both cases, inval.c).
#[derive(Drop)]
pub struct CatStore {
    alloc: Global,
    held: Now,
    // What takes each step back, the last at the end.
    log: Vec<Undo>,
}

impl CatStore {
    /// The catalog of a new session, in which the schema public is alone.
    pub fn new(alloc: Global) -> Result<CatStore, NoMemory> {
        Ok(CatStore {
            alloc,
            held: Now::new(alloc)?,
            log: Vec::new(alloc),
        })
    }

    /// The catalog of now.
    pub fn catalog(&self) -> &Catalog
        ensures { result.now ≡ self.now.held.catalog }
    {
        &self.held.catalog
    }

    /// The stamps of now.
    pub fn stamps(&self) -> &Stamps
        ensures { result.now ≡ self.now.held.stamps }
    {
        &self.held.stamps
    }

    /// The stamp of an object, or `None` where it isn't there.
    pub fn stamp_of(&self, id: ObjId) -> Option<Stamp>
        ensures { result ≡ stamp_in self.now.held.stamps.rows id }
    {
        self.held.stamps.of(id)
    }

    /// The stamp of the last change that concerned every object.
    pub fn stamp_of_all(&self) -> Stamp
        ensures { result ≡ self.now.held.stamps.all }
    {
        self.held.stamps.all()
    }

    /// Whether an object is there.
    pub fn has(&self, id: ObjId) -> bool
        ensures { result ≡ is_some (stamp_in self.now.held.stamps.rows id) }
    {
        self.held.has(id)
    }

    /// Names the catalog of now. The mark stands until `forget` or a rollback to an earlier one.
    pub fn mark(&self) -> CatMark
        ensures { result ≡ record { changes = length self.now.log.items; stamps = self.now.held.last_stamp } }
    {
        CatMark {
            changes: self.log.len(),
            stamps: self.held.last_stamp,
        }
    }

    /// Whether a mark may stand: so many steps can be taken back, and so many stamps were handed out.
    pub fn stands(&self, mark: CatMark) -> bool
        ensures { IsTrue result ↔ (mark.changes ≤ length self.now.log.items) × (mark.stamps ≤ self.now.held.last_stamp) }
    {
        mark.changes <= self.log.len() && mark.stamps <= self.held.last_stamp
    }

    /// Makes changes in order. A new object and each that is touched get the next stamp, and so does the stamp of all.
    /// `marks` is told of each touch and drop, but for objects that these changes made. A change that doesn't fit, as
    /// a drop of what isn't there, is left out. Where memory is refused, the changes before it stay until a rollback.
    pub fn apply<T: Touched>(&mut self, changes: Changes, marks: &mut T) -> Result<(), NoMemory> {
        let told = self.held.catalog.next_id();
        for change in changes.into_vec() {
            self.make(change, told, marks)?;
        }
        Ok(())
    }

    fn make<T: Touched>(
        &mut self,
        change: Change,
        told: u32,
        marks: &mut T,
    ) -> Result<(), NoMemory> {
        self.log.reserve(1)?;
        if let Some(undo) = step(self.alloc, &mut self.held, change, told, marks)? {
            self.log.push_reserved(undo);
        }
        Ok(())
    }

    /// Gives an object the next stamp and tells `marks` of it. It does nothing where the object isn't there.
    pub fn touch<T: Touched>(&mut self, id: ObjId, marks: &mut T)
        ensures state { self.new.held ≡ marked.touched id self.old.held }
        ensures told { marks.new ≡ (if marked.is_told id (2 ^ 32 - 1) self.old.held then T.hear marks.old id else marks.old) }
        ensures log { self.new.log ≡ self.old.log }
    {
        self.held.touch(id, u32::MAX, marks);
    }

    /// Gives the catalog as a whole the next stamp, and tells `marks`.
    pub fn touch_all<T: Touched>(&mut self, marks: &mut T)
        ensures state { self.new.held ≡ marked.touched_all self.old.held }
        ensures told { marks.new ≡ T.hear_all marks.old }
        ensures log { self.new.log ≡ self.old.log }
    {
        self.held.touch_all(marks);
    }

    /// Restores the entries and schemas of a mark. An object of the mark whose stamp has changed since, or that is
    /// absent now, gets the next stamp and is told to `marks`, in ascending order of ids; one that is there now and not in
    /// the mark goes and is told. Where the stamp of all has changed since, it gets the next stamp last, and
    /// `touched_all` is told. No id and no stamp is free again.
    pub fn rollback_to<T: Touched>(&mut self, mark: CatMark, marks: &mut T)
        ensures state { spec.RolledBack mark self.old self.new }
        ensures told { marks.new ≡ spec.all_heard T.hear_all mark.stamps self.old.held (spec.heard T.hear (spec.told_back mark self.old) marks.old) }
    {
        let count = self.log.len().saturating_sub(mark.changes);
        self.take_back(count);
        self.held.settle(mark.stamps, marks);
    }

    // Takes so many steps back, the last first.
    fn take_back(&mut self, count: usize)
        ensures { spec.IsBack count self.old self.new }
    {
        for _turn in 0..count {
            self.take_last_back();
        }
    }

    fn take_last_back(&mut self)
        ensures { spec.IsBack 1 self.old self.new }
    {
        if let Some(undo) = self.log.pop() {
            self.held.catalog.take_back(undo);
        }
    }

    /// Gives up what takes changes back, as COMMIT does; where nothing can be taken back, all stays as it is.
    pub fn forget(&mut self)
        ensures slots { self.new.held.catalog.slots ≡ (if nat_eq (length self.old.log.items) 0 then self.old.held.catalog.slots else filter (λ slot. is_some slot.entry) self.old.held.catalog.slots) }
        ensures rows { self.new.held.stamps.rows ≡ (if nat_eq (length self.old.log.items) 0 then self.old.held.stamps.rows else filter (λ row. is_some row.stamp) self.old.held.stamps.rows) }
        ensures next_id { self.new.held.catalog.next_id ≡ self.old.held.catalog.next_id }
        ensures all { self.new.held.stamps.all ≡ self.old.held.stamps.all }
        ensures last_stamp { self.new.held.last_stamp ≡ self.old.held.last_stamp }
        ensures log { self.new.log.items ≡ [] }
    {
        if self.log.is_empty() {
            return;
        }
        self.held.catalog.forget();
        self.held.stamps.forget();
        self.log.truncate(0);
    }
}

// Makes a change, and answers what takes it back.
fn step<T: Touched>(
    alloc: Global,
    now: &mut Now,
    change: Change,
    told: u32,
    marks: &mut T,
) -> Result<Option<Undo>, NoMemory>
    ensures { IfOk result (λ undo. marks.new ≡ marked.told_of change (is_some undo) told now.old T.hear T.hear_all marks.old) }
{
    match change {
        Change::PutEntry(entry) => now.put(alloc, entry),
        Change::DropEntry(id) => Ok(now.drop_entry(id, told, marks)),
        Change::PutSchema(row) => now.catalog.put_schema(row),
        Change::DropSchema(id) => Ok(now.catalog.drop_schema(id)),
        Change::Touch(id) => {
            now.touch(id, told, marks);
            Ok(None)
        }
        Change::TouchAll => {
            now.touch_all(marks);
            Ok(None)
        }
    }
}
