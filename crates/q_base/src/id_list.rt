ghost use Rattle.std.specs.Prelude.{◌≡◌, [], OnOk, OnErr};
ghost use Rattle.q_base.specs.IdLists.{HasOneMore, IsAscending, with_id};

use crate::{NoMemory, ObjId};
use std::alloc::Global;
use std::marker::Model;

/// Ids of objects in ascending order, none twice.
#[derive(Debug, Drop)]
pub struct IdList {
    ids: Vec<ObjId>,
}

impl Model for IdList {
    ghost use Rattle.std.specs.Prelude.{List};
    ghost use Rattle.q_base.specs.declared.ids.ObjId.{ObjId};
    ghost use Rattle.q_base.specs.IdLists.{IsAscending};

    ghost Value = { List ObjId };

    ghost view = { λ list. list.ids.items };

    ghost invariant = { λ list. IsAscending list.ids.items };
}

impl IdList {
    /// The empty list, which takes no memory.
    pub fn new(alloc: Global) -> IdList
        ensures { result ≡ [] }
    {
        IdList {
            ids: Vec::new(alloc),
        }
    }

    /// The ids, in ascending order.
    pub fn as_slice(&self) -> &[ObjId]
        ensures ids { result.now ≡ self.now }
        ensures ascending { IsAscending self.now }
    {
        self.ids.as_slice()
    }

    /// Puts `id` at its place, or leaves the list as it was where `id` is there already or where
    /// memory is refused.
    pub fn push(&mut self, id: ObjId) -> Result<(), NoMemory>
        ensures ok { OnOk result (self.new ≡ with_id id self.old) }
        ensures members { OnOk result (HasOneMore id self.old self.new) }
        ensures err { OnErr result (self.new ≡ self.old) }
    {
        if let Err(place) = self.ids.binary_search(&id) {
            self.ids.insert(place, id)?;
        }
        Ok(())
    }
}
