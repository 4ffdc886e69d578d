ghost use Rattle.std.specs.Prelude.{◌≡◌, ◌↔◌, ◌+◌, ◌<◌, ◌^◌, IsTrue, [], true, false, map, is_some, Some, None, IfOk, OnOk, OnErr, IsSome};
ghost use Rattle.std.specs.Option.{option_map};
ghost use Rattle.plan_invalid.specs.declared.source.SourceId.{SourceId};
ghost use Rattle.plan_invalid.specs.Sources.{source_of, is_marked, marked, told, told_all, all_marked, Changes};

use crate::index::{Index, mark_watchers, relist, unlist};
use crate::source::{Source, SourceId, mark, mark_all, renew};
use q_base::{IdList, ListOf, NoMemory, ObjId, Touched};
use slab::Slab;
use std::alloc::Global;
use std::collections::BTreeSet;
use std::marker::Model;

/// The most ids that are given: 2^62.
const MOST_GIVEN: u64 = 4_611_686_018_427_387_904;

/// Which cached sources are marked: those of which an object that they use, or everything, changed
/// since they were analysed last. PostgreSQL marks them in PlanCacheRelCallback and ResetPlanCache
/// (plancache.c), which walk over all saved plans; here an index leads from an object to the
/// sources that watch it.
#[derive(Drop)]
pub struct Marks {
    alloc: Global,
    sources: Slab<Source>,
    watchers: Index,
    // How many ids were given.
    given: u64,
}

impl Model for Marks {
    ghost use Rattle.plan_invalid.specs.Sources.{Sources};
    ghost use Rattle.plan_invalid.specs.Index.{IsIndex};

    ghost Value = { Sources };

    ghost view = { λ m. record { slots = m.sources.slots; given = m.given } };

    ghost invariant = { λ m. IsIndex m.sources.slots m.watchers };
}

impl Marks {
    /// No sources.
    pub fn new(alloc: Global) -> Marks
        ensures { result ≡ record { slots = []; given = 0 } }
    {
        Marks {
            alloc,
            sources: Slab::new(alloc),
            watchers: BTreeSet::new(alloc),
            given: 0,
        }
    }

    /// Whether fewer than 2^62 ids were given, so that `add_source` may give one more.
    pub fn has_room(&self) -> bool
        ensures { IsTrue result ↔ (self.now.given < 2 ^ 62) }
    {
        self.given < MOST_GIVEN
    }

    /// A new source, which is marked and watches nothing. Only where fewer than 2^62 ids were given.
    pub fn add_source(&mut self) -> Result<SourceId, NoMemory>
        requires { self.old.given < 2 ^ 62 }
        ensures added { IfOk result (λ id. Changes self.old self.new id (Some (record { generation = self.old.given; uses = []; marked = true }))) }
        ensures was_new { IfOk result (λ id. (id.generation ≡ self.old.given) × (source_of self.old id ≡ None)) }
        ensures given { OnOk result (self.new.given ≡ self.old.given + 1) }
        ensures err { OnErr result (self.new ≡ self.old) }
    {
        let generation = self.given;
        let key = self.sources.insert(Source {
            generation,
            uses: ListOf::new(self.alloc),
            marked: true,
        })?;
        self.given += 1;
        Ok(SourceId { key, generation })
    }

    /// Makes the source watch `uses` in place of what it watched, and unmarks it, as after an analysis
    /// that found these objects. Only for a source that was added here and not removed since.
    pub fn watch(&mut self, source: SourceId, uses: &IdList) -> Result<(), NoMemory>
        requires { IsSome (source_of self.old source) }
        ensures ok { OnOk result (Changes self.old self.new source (Some (record { generation = source.generation; uses = uses.now; marked = false }))) }
        ensures given { self.new.given ≡ self.old.given }
        ensures err { OnErr result (self.new ≡ self.old) }
    {
        let uses = uses.as_slice();
        let watched = uses.to_vec(self.alloc)?;
        let Some(found) = self.sources.get(source.key) else {
            unreachable!()
        };
        relist(&mut self.watchers, source.key, found.uses.as_slice(), uses)?;
        renew(&mut self.sources, source.key, ListOf::from_vec(watched));
        Ok(())
    }

    /// Marks the source, as where its analysis failed. An id of a removed source changes nothing.
    pub fn mark_one(&mut self, source: SourceId)
        ensures marked { Changes self.old self.new source (option_map marked (source_of self.old source)) }
        ensures given { self.new.given ≡ self.old.given }
    {
        if self.has(source) {
            mark(&mut self.sources, source.key);
        }
    }

    /// Marks the sources that watch `id`, in time that goes by their number.
    pub fn hit(&mut self, id: ObjId)
        ensures all { self.new ≡ told_all self.old id }
        ensures each { (source : SourceId) → source_of self.new source ≡ option_map (told id) (source_of self.old source) }
    {
        mark_watchers(&mut self.sources, &self.watchers, id);
    }

    /// Marks all sources.
    pub fn hit_all(&mut self)
        ensures all { self.new ≡ all_marked self.old }
        ensures each { (source : SourceId) → source_of self.new source ≡ option_map marked (source_of self.old source) }
    {
        mark_all(&mut self.sources);
    }

    /// Whether the source is marked; the id of a removed source is for good.
    pub fn is_marked(&self, source: SourceId) -> bool
        ensures { result ≡ is_marked (source_of self.now source) }
    {
        match self.sources.get(source.key) {
            Some(found) if found.generation == source.generation => found.marked,
            _ => true,
        }
    }

    /// Removes the source, with all that it watches. Its id names no source from then on.
    pub fn remove(&mut self, source: SourceId)
        ensures removed { Changes self.old self.new source None }
        ensures given { self.new.given ≡ self.old.given }
    {
        if !self.has(source) {
            return;
        }
        if let Some(removed) = self.sources.try_remove(source.key) {
            unlist(&mut self.watchers, source.key, removed.uses.as_slice(), &[]);
        }
    }

    /// Whether the id names a source: one that was added here and not removed since.
    pub fn has(&self, source: SourceId) -> bool
        ensures named { IsTrue result ↔ IsSome (source_of self.now source) }
        ensures has { result ≡ is_some (source_of self.now source) }
    {
        match self.sources.get(source.key) {
            Some(found) => found.generation == source.generation,
            None => false,
        }
    }
}

impl Touched for Marks {
    ghost use Rattle.plan_invalid.specs.Sources.{told_all, all_marked};

    ghost hear = { told_all };

    ghost hear_all = { all_marked };

    fn touched(&mut self, id: ObjId) {
        self.hit(id);
    }

    fn touched_all(&mut self) {
        self.hit_all();
    }
}
