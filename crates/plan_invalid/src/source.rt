ghost use Rattle.std.specs.Prelude.{◌≡◌, map, slice_set};
ghost use Rattle.std.specs.Option.{option_map};
ghost use Rattle.plan_invalid.specs.Sources.{at_key, marked, watching};

use q_base::{ListOf, ObjId};
use slab::Slab;

/// Names one source for good: the id of a removed source is never given again.
#[derive(Clone, Copy, Debug, PartialEq, Eq)]
pub struct SourceId {
    pub(crate) key: usize,
    pub(crate) generation: u64,
}

// A source under its key.
#[derive(Drop)]
pub(crate) struct Source {
    // How many ids were given before this source's.
    pub(crate) generation: u64,
    // The objects that it watches.
    pub(crate) uses: ListOf<ObjId>,
    pub(crate) marked: bool,
}

// Marks the source under `key`, if there is one.
pub(crate) fn mark(sources: &mut Slab<Source>, key: usize)
    ensures slots { sources.new.slots ≡ slice_set sources.old.slots key (option_map marked (at_key sources.old.slots key)) }
{
    if let Some(source) = sources.get_mut(key) {
        source.marked = true;
    }
}

// Unmarks the source under `key`, if there is one, and gives it the objects that it watches from now on.
pub(crate) fn renew(sources: &mut Slab<Source>, key: usize, uses: ListOf<ObjId>)
    ensures { sources.new.slots ≡ slice_set sources.old.slots key (option_map (watching uses) (at_key sources.old.slots key)) }
{
    if let Some(source) = sources.get_mut(key) {
        source.uses = uses;
        source.marked = false;
    }
}

// Marks all sources.
pub(crate) fn mark_all(sources: &mut Slab<Source>)
    ensures { sources.new.slots ≡ map (option_map marked) sources.old.slots }
{
    for key in 0..sources.capacity() {
        mark(sources, key);
    }
}
