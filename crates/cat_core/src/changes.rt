use crate::Entry;
use cat_names::SchemaRow;
use q_base::{ListOf, ObjId, SchemaId};
use std::rc::Rc;

/// One change of the catalog.
#[derive(Drop)]
pub enum Change {
    /// Makes an object, or puts another entry in place of that of its id.
    PutEntry(Rc<Entry>),
    DropEntry(ObjId),
    /// Makes a schema, or gives that of its id another name.
    PutSchema(SchemaRow),
    DropSchema(SchemaId),
    /// Gives an object the next stamp.
    Touch(ObjId),
    /// Gives the whole catalog the next stamp, as changes of schemas do.
    TouchAll,
}

/// Changes, in the order in which they are made.
pub type Changes = ListOf<Change>;
