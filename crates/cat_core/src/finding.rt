ghost use Rattle.std.specs.Prelude.{◌≡◌};
ghost use Rattle.std.specs.Option.{option_copied};
ghost use Rattle.sql_tree.specs.declared.catalog.ObjectKind.TheVariants as kinds;
ghost use Rattle.q_value.specs.Answers.{Answers};
ghost use Rattle.cat_core.specs.Finding as spec;

use crate::{Catalog, Column, Def, Entry};
use cat_names::{found, refusal_of};
use q_base::{Code, ColId, ObjId, SchemaList, Stop};
use sql_tree::{ObjectKind, QName};
use std::alloc::Global;

/// The table that a name means. Refused as 42P01 where it means nothing, as 42809 where it means something else.
pub fn find_table(
    alloc: Global,
    catalog: &Catalog,
    path: &SchemaList,
    name: &QName,
) -> Result<ObjId, Stop>
    ensures { Answers (spec.find_object catalog.now path.now name.now kinds.Table) result }
{
    find_object(alloc, catalog, path, name, ObjectKind::Table)
}

/// The view that a name means. Refused as 42P01 where it means nothing, as 42809 where it means something else.
pub fn find_view(
    alloc: Global,
    catalog: &Catalog,
    path: &SchemaList,
    name: &QName,
) -> Result<ObjId, Stop>
    ensures { Answers (spec.find_object catalog.now path.now name.now kinds.View) result }
{
    find_object(alloc, catalog, path, name, ObjectKind::View)
}

/// The index that a name means. Refused as 42704 where it means nothing, as 42809 where it means something else.
pub fn find_index(
    alloc: Global,
    catalog: &Catalog,
    path: &SchemaList,
    name: &QName,
) -> Result<ObjId, Stop>
    ensures { Answers (spec.find_object catalog.now path.now name.now kinds.Index) result }
{
    find_object(alloc, catalog, path, name, ObjectKind::Index)
}

/// The object of a kind that a name means. Where it means nothing, refused as 42P01, of an index as 42704; where it
/// means an object of another kind, as 42809.
pub fn find_object(
    alloc: Global,
    catalog: &Catalog,
    path: &SchemaList,
    name: &QName,
    kind: ObjectKind,
) -> Result<ObjId, Stop>
    ensures { Answers (spec.find_object catalog.now path.now name.now kind) result }
{
    match found(name, path, catalog.schemas(), catalog.names()) {
        Some(id) if is_of_kind(catalog, id, kind) => Ok(id),
        Some(_) => Err(refusal_of(alloc, other_kind(kind), name)),
        None => Err(refusal_of(alloc, absent(kind), name)),
    }
}

fn absent(kind: ObjectKind) -> Code
    ensures { result ≡ spec.absent kind }
{
    match kind {
        ObjectKind::Table | ObjectKind::View => Code::UnknownRelation,
        ObjectKind::Index => Code::UnknownIndex,
    }
}

fn other_kind(kind: ObjectKind) -> Code
    ensures { result ≡ spec.other_kind kind }
{
    match kind {
        ObjectKind::Table => Code::NotATable,
        ObjectKind::View => Code::NotAView,
        ObjectKind::Index => Code::NotAnIndex,
    }
}

fn is_of_kind(catalog: &Catalog, id: ObjId, kind: ObjectKind) -> bool
    ensures { result ≡ spec.is_of_kind catalog.now.slots id kind }
{
    match catalog.entry(id) {
        Some(entry) => entry.def.kind() == kind,
        None => false,
    }
}

/// The column of a name.
pub fn column_named<'a>(columns: &'a [Column], name: &str) -> Option<&'a Column>
    ensures { option_copied result ≡ spec.column_named columns.now name.now }
{
    for column in columns {
        if column.name.as_str() == name {
            return Some(column);
        }
    }
    None
}

impl Def {
    /// Which kind of object it is.
    pub fn kind(&self) -> ObjectKind
        ensures { result ≡ spec.kind_of self.now }
    {
        match self {
            Def::Table(_) => ObjectKind::Table,
            Def::View(_) => ObjectKind::View,
            Def::Index(_) => ObjectKind::Index,
        }
    }
}

impl Entry {
    /// The columns of a table; none of a view or an index.
    pub fn columns(&self) -> &[Column]
        ensures { result.now ≡ spec.columns_in self.now.def }
    {
        match &self.def {
            Def::Table(table) => table.columns.as_slice(),
            Def::View(_) | Def::Index(_) => &[],
        }
    }

    /// The column of a table that has the name.
    pub fn column_id(&self, name: &str) -> Option<ColId>
        ensures { result ≡ spec.id_of (spec.column_named (spec.columns_in self.now.def) name.now) }
    {
        match column_named(self.columns(), name) {
            Some(column) => Some(column.id),
            None => None,
        }
    }

    /// The object whose use bars changes of this one: an index's table, and else the object itself.
    pub fn owner(&self) -> ObjId
        ensures { result ≡ spec.owner self.now }
    {
        match &self.def {
            Def::Index(index) => index.table,
            Def::Table(_) | Def::View(_) => self.id,
        }
    }
}
