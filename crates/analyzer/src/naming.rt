//! Which objects the relation names of a statement mean.

use cat_core::Catalog;
use cat_names::{look_up, refusal_of};
use q_base::{Code, ListOf, ObjId, SchemaList, Stop};
use sql_tree::QName;
use std::alloc::Global;

/// The objects of a statement's relation names, in text order.
pub type NameIds = ListOf<ObjId>;

/// How the relation names of a statement find their objects.
#[derive(Clone, Copy)]
pub enum Names<'a> {
    /// Along the schemas of the search path.
    Path(&'a SchemaList),
    /// As an earlier analysis found them.
    Kept(&'a NameIds),
}

/// The object of the relation name at a place, counted from 0 among those of the statement: 42P01 where there is
/// none.
pub(crate) fn object_of(
    alloc: Global,
    names: Names<'_>,
    catalog: &Catalog,
    place: usize,
    written: &QName,
) -> Result<ObjId, Stop> {
    match names {
        Names::Path(path) => look_up(alloc, written, path, catalog.schemas(), catalog.names()),
        Names::Kept(ids) => match ids.as_slice().get(place) {
            Some(id) => Ok(*id),
            None => Err(refusal_of(alloc, Code::UnknownRelation, written)),
        },
    }
}
