//! Changes of rows: INSERT, UPDATE and DELETE, written out or prepared.

ghost use Rattle.session_core.specs.State.{Does, Unstated};

use super::Machine;
use crate::printed::rows_and_tag;
use dml::{Changed, delete_slots, insert_rows, update_slots};
use plan_tree::Plan;
use q_base::Stop;
use q_value::Value;
use query_tree::{Bound, ResultType};
use result_text::Tag;

impl Machine {
    /// Changes the rows of a table by a plan, and prints what RETURNING gives and how many rows were changed. Of a
    /// refused command nothing is left.
    pub(crate) fn change_rows(
        &mut self,
        chosen: &Plan,
        params: &[Value],
        shape: &ResultType,
        out: &mut Vec<u8>,
    ) -> Result<(), Stop>
        ensures { Does Unstated out.old.items out.new.items self.new result }
    {
        let mark = self.stores.heaps.mark();
        match self.changed(chosen, params) {
            Ok(changed) => {
                let tag = tag_of(chosen.bound.as_ref());
                let Changed { count, returned } = changed;
                Ok(rows_and_tag(self.alloc, shape, &returned, tag, count, out)?)
            }
            Err(stop) => {
                self.undo_rows(mark);
                Err(stop)
            }
        }
    }

    fn changed(&mut self, chosen: &Plan, params: &[Value]) -> Result<Changed, Stop> {
        let snap = self.snapshot()?;
        let alloc = self.alloc;
        let catalog = self.defined.catalog();
        let stores = &mut self.stores;
        match chosen.bound.as_ref() {
            Bound::Insert(_) => insert_rows(alloc, stores, catalog, chosen, params, snap),
            Bound::Update(_) => update_slots(alloc, stores, catalog, chosen, params, snap),
            Bound::Delete(_) | Bound::Select(_) => {
                delete_slots(alloc, stores, catalog, chosen, params, snap)
            }
        }
    }
}

fn tag_of(bound: &Bound) -> Tag {
    match bound {
        Bound::Insert(_) => Tag::Insert,
        Bound::Update(_) => Tag::Update,
        Bound::Delete(_) | Bound::Select(_) => Tag::Delete,
    }
}
