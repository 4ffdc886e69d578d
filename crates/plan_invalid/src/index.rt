ghost use Rattle.std.specs.Prelude.{◌≡◌, [], ◌∷◌, ℕ, ◌==◌, ◌&&◌, ◌||◌, true, map, OnOk, OnErr, if◌then◌else◌};
ghost use Rattle.std.specs.Option.{option_map};
ghost use Rattle.q_base.specs.declared.ids.ObjId.{ObjId};
ghost use Rattle.plan_invalid.specs.Sources.{is_among, told};
ghost use Rattle.plan_invalid.specs.Index.{is_listed, IsIndex, ListsMore, ListsSome, ListsLess};

use crate::source::{Source, mark};
use q_base::{NoMemory, ObjId};
use slab::Slab;
use std::collections::BTreeSet;

// Each watched object with the keys of the sources that watch it, and no other pair: so it stays as
// small as what is watched.
pub(crate) type Index = BTreeSet<(ObjId, usize)>;

// Lists `key` under `id` too.
fn list_one(watchers: &mut Index, key: usize, id: ObjId) -> Result<(), NoMemory>
    ensures ok { OnOk result (ListsMore watchers.old watchers.new key (id ∷ [])) }
    ensures err { OnErr result (watchers.new.keys ≡ watchers.old.keys) }
{
    watchers.insert((id, key))?;
    Ok(())
}

// Lists `key` under `id` no more, unless `id` is among `kept`.
fn unlist_one(watchers: &mut Index, key: usize, id: ObjId, kept: &[ObjId])
    ensures { ListsLess watchers.old watchers.new key (id ∷ []) kept.now }
{
    if kept.contains(&id) {
        return;
    }
    watchers.remove(&(id, key));
}

// Lists `key` under `ids` too, or under some of them where memory is refused.
fn list(watchers: &mut Index, key: usize, ids: &[ObjId]) -> Result<(), NoMemory>
    ensures ok { OnOk result (ListsMore watchers.old watchers.new key ids.now) }
    ensures err { OnErr result (ListsSome watchers.old watchers.new key ids.now) }
{
    for id in ids {
        list_one(watchers, key, *id)?;
    }
    Ok(())
}

// Lists `key` under those of `ids` no more that are not among `kept`.
pub(crate) fn unlist(watchers: &mut Index, key: usize, ids: &[ObjId], kept: &[ObjId])
    ensures { ListsLess watchers.old watchers.new key ids.now kept.now }
{
    for id in ids {
        unlist_one(watchers, key, *id, kept);
    }
}

// Lists `key`, which was listed under `earlier`, under `ids` instead.
pub(crate) fn relist(
    watchers: &mut Index,
    key: usize,
    earlier: &[ObjId],
    ids: &[ObjId],
) -> Result<(), NoMemory>
    requires { (id : ObjId) → is_listed watchers.old id key ≡ is_among earlier.now id }
    ensures ok { OnOk result ((id : ObjId) (other : ℕ) → is_listed watchers.new id other ≡ (if other == key then is_among ids.now id else is_listed watchers.old id other)) }
    ensures err { OnErr result ((id : ObjId) (other : ℕ) → is_listed watchers.new id other ≡ is_listed watchers.old id other) }
{
    match list(watchers, key, ids) {
        Ok(()) => {
            unlist(watchers, key, earlier, ids);
            Ok(())
        }
        Err(error) => {
            unlist(watchers, key, ids, earlier);
            Err(error)
        }
    }
}

// Marks the sources that are listed under `id`.
pub(crate) fn mark_watchers(sources: &mut Slab<Source>, watchers: &Index, id: ObjId)
    requires { IsIndex sources.old.slots watchers.now }
    ensures { sources.new.slots ≡ map (option_map (told id)) sources.old.slots }
{
    let end = sources.capacity();
    for pair in watchers.range((id, 0)..(id, end)) {
        mark(sources, pair.1);
    }
}
