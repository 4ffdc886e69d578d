use q_base::{ObjId, SchemaId, Str};

/// A schema of the catalog.
#[derive(Drop)]
pub struct SchemaRow {
    pub id: SchemaId,
    pub name: Str,
}

/// The name of a table, view or index, which is that of no other object of its schema.
#[derive(Drop)]
pub struct NameRow {
    pub schema: SchemaId,
    pub name: Str,
    pub id: ObjId,
}
