ghost use Rattle.std.specs.Prelude.{◌≡◌, ◌&&◌, nat_lt, is_some, length, IfSome, None, if◌then◌else◌};
ghost use Rattle.cat_core.specs.Stamps.{stamp_in, with_stamp};
ghost use Rattle.cat_undo.specs.Marked as spec;
ghost use Rattle.cat_undo.specs.Restored as restored;

use cat_core::{Catalog, Entry, Stamps, Undo};
use q_base::{NoMemory, ObjId, Stamp, Touched};
use std::alloc::Global;
use std::rc::Rc;

/// The catalog of now, with its stamps.
#[derive(Drop)]
pub(crate) struct Now {
    pub(crate) catalog: Catalog,
    pub(crate) stamps: Stamps,
    /// The last stamp that was handed out.
    pub(crate) last_stamp: u64,
}

impl Now {
    /// The schema public alone.
    pub(crate) fn new(alloc: Global) -> Result<Now, NoMemory> {
        Ok(Now {
            catalog: Catalog::new(alloc)?,
            stamps: Stamps::new(alloc),
            last_stamp: 0,
        })
    }

    /// Whether an object is there.
    pub(crate) fn has(&self, id: ObjId) -> bool
        ensures { result ≡ is_some (stamp_in self.now.stamps.rows id) }
    {
        self.stamps.of(id).is_some()
    }

    /// Makes an object, which gets the next stamp, or puts the entry in place of that of its id, which keeps its own.
    pub(crate) fn put(
        &mut self,
        alloc: Global,
        entry: Rc<Entry>,
    ) -> Result<Option<Undo>, NoMemory> {
        match self.catalog.put(alloc, entry)? {
            Some(Undo::Made(id)) => self.begin(id),
            undo => Ok(undo),
        }
    }

    // Gives an object that was just made its first stamp, or takes it back.
    fn begin(&mut self, id: ObjId) -> Result<Option<Undo>, NoMemory> {
        let stamp = self.next_stamp();
        match self.stamps.add(id, stamp) {
            Ok(()) => Ok(Some(Undo::Made(id))),
            Err(NoMemory) => {
                self.catalog.take_back(Undo::Made(id));
                Err(NoMemory)
            }
        }
    }

    /// Drops an object, which has no stamp from then on, and tells `marks` of it where its id is below `told`.
    pub(crate) fn drop_entry<T: Touched>(
        &mut self,
        id: ObjId,
        told: u32,
        marks: &mut T,
    ) -> Option<Undo>
        ensures stamp { IfSome result (λ _. self.new.stamps ≡ record self.old.stamps { rows = with_stamp id None self.old.stamps.rows }) }
        ensures told { marks.new ≡ (if is_some result && nat_lt id.0 told then T.hear marks.old id else marks.old) }
        ensures last_stamp { self.new.last_stamp ≡ self.old.last_stamp }
    {
        let undo = self.catalog.drop_entry(id)?;
        self.stamps.give(id, None);
        if id.0 < told {
            marks.touched(id);
        }
        Some(undo)
    }

    /// Gives an object the next stamp, and tells `marks` of it where its id is below `told`.
    pub(crate) fn touch<T: Touched>(&mut self, id: ObjId, told: u32, marks: &mut T)
        ensures state { self.new ≡ spec.touched id self.old }
        ensures told { marks.new ≡ (if spec.is_told id told self.old then T.hear marks.old id else marks.old) }
    {
        if !self.has(id) {
            return;
        }
        let stamp = self.next_stamp();
        self.stamps.give(id, Some(stamp));
        if id.0 < told {
            marks.touched(id);
        }
    }

    /// Gives the catalog as a whole the next stamp, and tells `marks`.
    pub(crate) fn touch_all<T: Touched>(&mut self, marks: &mut T)
        ensures state { self.new ≡ spec.touched_all self.old }
        ensures told { marks.new ≡ T.hear_all marks.old }
    {
        let stamp = self.next_stamp();
        self.stamps.give_all(stamp);
        marks.touched_all();
    }

    /// Gives each object whose entry was taken back its stamp: that of now where it was handed out no later than
    /// `copied`, else the next; none where the object is gone. `marks` is told of each that changed, and last the same
    /// of the stamp of all.
    pub(crate) fn settle<T: Touched>(&mut self, copied: u64, marks: &mut T)
        ensures state { self.new ≡ restored.all_settled copied (restored.settled (length self.old.stamps.rows) copied self.old) }
        ensures told { marks.new ≡ restored.all_heard T.hear_all copied self.old (restored.heard T.hear (restored.told_settled (length self.old.stamps.rows) copied self.old) marks.old) }
    {
        for place in 0..self.stamps.rows().len() {
            self.settle_at(place, copied, marks);
        }
        if copied < self.stamps.all().0 {
            self.touch_all(marks);
        }
    }

    fn settle_at<T: Touched>(&mut self, place: usize, copied: u64, marks: &mut T)
        ensures state { self.new ≡ restored.settled_at place copied self.old }
        ensures told { marks.new ≡ restored.heard T.hear (restored.told_at place self.old.catalog.slots copied self.old.last_stamp self.old.stamps.rows) marks.old }
    {
        let Some(row) = self.stamps.rows().get(place) else {
            return;
        };
        let id = row.id;
        let stamp = row.stamp;
        let there = self.catalog.entry(id).is_some();
        match self.new_stamp(there, copied, stamp) {
            Some(new) => {
                self.stamps.give_at(place, new);
                marks.touched(id);
            }
            None => {}
        }
    }

    // The stamp that an object of the restored catalog gets, where it gets another.
    fn new_stamp(&mut self, there: bool, copied: u64, stamp: Option<Stamp>) -> Option<Option<Stamp>>
        ensures stamp { result ≡ restored.new_stamp there copied self.old.last_stamp stamp }
        ensures state { self.new ≡ record self.old { last_stamp = restored.last_with (restored.new_stamp there copied self.old.last_stamp stamp) self.old.last_stamp } }
    {
        match stamp {
            Some(_) if !there => Some(None),
            None if !there => None,
            Some(stamp) if stamp.0 <= copied => None,
            _ => Some(Some(self.next_stamp())),
        }
    }

    // Hands out the next stamp.
    fn next_stamp(&mut self) -> Stamp
        ensures stamp { result.0 ≡ spec.next self.old.last_stamp }
        ensures state { self.new ≡ record self.old { last_stamp = spec.next self.old.last_stamp } }
    {
        self.last_stamp = self.last_stamp.saturating_add(1);
        Stamp(self.last_stamp)
    }
}
