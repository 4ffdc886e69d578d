ghost use Rattle.std.specs.Prelude.{◌≡◌, filter, is_some, IfOk, OnErr, IfSome, IfNone, None};
ghost use Rattle.std.specs.Option.{option_copied};
ghost use Rattle.cat_core.specs.Steps as spec;
ghost use Rattle.cat_core.specs.Finding as of;

use crate::shelf::Shelf;
use crate::slots::Slots;
use crate::{Def, Entry, EntryList};
use cat_names::{NameRow, SchemaRow};
use q_base::{ListOf, NoMemory, ObjId, SchemaId, Str};
use std::alloc::Global;
use std::marker::Model;
use std::rc::Rc;

/// The schemas, and the tables, views and indexes. Schemas and objects take their ids from one count, which no step
/// sets back.
#[derive(Drop)]
pub struct Catalog {
    schemas: Shelf<SchemaRow>,
    // One for each object.
    names: Shelf<NameRow>,
    objects: Slots,
    next_id: u32,
}

impl Model for Catalog {
    ghost use Rattle.cat_core.specs.Steps.{CatalogState};
    ghost use Rattle.cat_core.specs.contracts.slots.Slot as slot_contract;
    ghost use Rattle.std.specs.Coded.{codes};

    ghost Value = { CatalogState };

    ghost coded = { Prim.hlevel (codes, slot_contract.the_row.coded) };

    ghost view = { λ c. record { schemas = c.schemas; names = c.names; slots = c.objects.slots; next_id = c.next_id } };
}

/// What takes a step of the catalog back.
#[derive(Drop)]
pub enum Undo {
    /// An object was made.
    Made(ObjId),
    /// An object has another entry than this, and a name at this place in place of that of the row.
    Replaced(ObjId, Rc<Entry>, usize, NameRow),
    /// An object was dropped, which had this entry, and a name at this place.
    Dropped(ObjId, Rc<Entry>, usize),
    SchemaMade,
    /// The schema at a place has another name than this row's.
    SchemaRenamed(usize, SchemaRow),
    /// The schema at a place was dropped.
    SchemaDropped(usize),
}

impl Catalog {
    /// The catalog of a new session: the schema public alone.
    pub fn new(alloc: Global) -> Result<Catalog, NoMemory> {
        let mut schemas = Shelf::new(alloc);
        schemas.add(SchemaRow {
            id: SchemaId(1),
            name: Str::new(String::from_str(alloc, "public")?),
        })?;
        Ok(Catalog {
            schemas,
            names: Shelf::new(alloc),
            objects: Slots::new(alloc),
            next_id: 2,
        })
    }

    /// The schemas, each once.
    pub fn schemas(&self) -> &[SchemaRow]
        ensures { result.now ≡ self.now.schemas }
    {
        self.schemas.as_slice()
    }

    /// The names, one for each object.
    pub fn names(&self) -> &[NameRow]
        ensures { result.now ≡ self.now.names }
    {
        self.names.as_slice()
    }

    /// The object of an id, or `None` where there is none.
    pub fn entry(&self, id: ObjId) -> Option<&Rc<Entry>>
        ensures { option_copied result ≡ spec.entry_in self.now.slots id }
    {
        self.objects.entry(id)
    }

    /// The id that the next object or schema gets.
    pub fn next_id(&self) -> u32
        ensures { result ≡ self.now.next_id }
    {
        self.next_id
    }

    /// The tables, in order of making.
    pub fn tables(&self, alloc: Global) -> Result<EntryList, NoMemory>
        ensures { IfOk result (λ found. of.entries found ≡ of.tables self.now.slots) }
    {
        let mut found = ListOf::new(alloc);
        for slot in self.objects.as_slice() {
            match &slot.entry {
                Some(entry) if is_table(entry) => found.push(entry.clone()?)?,
                _ => {}
            }
        }
        Ok(found)
    }

    /// The views, in order of making.
    pub fn views(&self, alloc: Global) -> Result<EntryList, NoMemory>
        ensures { IfOk result (λ found. of.entries found ≡ of.views self.now.slots) }
    {
        let mut found = ListOf::new(alloc);
        for slot in self.objects.as_slice() {
            match &slot.entry {
                Some(entry) if is_view(entry) => found.push(entry.clone()?)?,
                _ => {}
            }
        }
        Ok(found)
    }

    /// The indexes of a table, in order of making.
    pub fn indexes_of(&self, alloc: Global, table: ObjId) -> Result<EntryList, NoMemory>
        ensures { IfOk result (λ found. of.entries found ≡ of.indexes_of table self.now.slots) }
    {
        let mut found = ListOf::new(alloc);
        for slot in self.objects.as_slice() {
            match &slot.entry {
                Some(entry) if is_index_of(entry, table) => found.push(entry.clone()?)?,
                _ => {}
            }
        }
        Ok(found)
    }

    /// Makes an object that has the next id, or puts the entry in place of that of its id. `None` where neither is
    /// so; then, and where memory is refused, all is as it was.
    pub fn put(&mut self, alloc: Global, entry: Rc<Entry>) -> Result<Option<Undo>, NoMemory>
        ensures back { IfOk result (λ undo. spec.StepsBy undo self.old.slots self.new.slots) }
    {
        let row = name_row(alloc, &entry)?;
        let id = entry.id;
        match self.objects.entry(id) {
            Some(_) => Ok(self.replace(id, entry, row)),
            None => self.make(id, entry, row),
        }
    }

    fn make(&mut self, id: ObjId, entry: Rc<Entry>, row: NameRow) -> Result<Option<Undo>, NoMemory>
        requires { spec.entry_in self.old.slots id ≡ None }
        ensures { IfOk result (λ undo. spec.StepsBy undo self.old.slots self.new.slots) }
    {
        if id.0 < self.next_id || u32::MAX <= id.0 {
            return Ok(None);
        }
        self.names.add(row)?;
        match self.objects.add(id, entry) {
            Ok(()) => {
                self.next_id = id.0.saturating_add(1);
                Ok(Some(Undo::Made(id)))
            }
            Err(NoMemory) => {
                self.names.take_added();
                Err(NoMemory)
            }
        }
    }

    fn replace(&mut self, id: ObjId, entry: Rc<Entry>, row: NameRow) -> Option<Undo>
        ensures { spec.StepsBy result self.old.slots self.new.slots }
    {
        let name = self.name_place(id)?;
        let row = self.names.replace(name, row)?;
        match self.objects.give(id, Some(entry)) {
            Some(was) => Some(Undo::Replaced(id, was, name, row)),
            None => {
                let _entry = self.objects.give(id, None);
                None
            }
        }
    }

    /// Drops an object. `None`, and all as it was, where there is none of this id.
    pub fn drop_entry(&mut self, id: ObjId) -> Option<Undo>
        ensures dropped { IfSome result (λ _. self.new.slots ≡ spec.with_entry id None self.old.slots) }
        ensures back { spec.StepsBy result self.old.slots self.new.slots }
        ensures next_id { self.new.next_id ≡ self.old.next_id }
    {
        let name = self.name_place(id)?;
        match self.objects.give(id, None) {
            Some(was) => {
                self.names.take_out(name);
                Some(Undo::Dropped(id, was, name))
            }
            None => None,
        }
    }

    /// Makes a schema that has the next id, or gives that of its id another name. `None` where neither is so; then, and
    /// where memory is refused, all is as it was.
    pub fn put_schema(&mut self, row: SchemaRow) -> Result<Option<Undo>, NoMemory> {
        match self.schema_place(row.id) {
            Some(place) => match self.schemas.replace(place, row) {
                Some(was) => Ok(Some(Undo::SchemaRenamed(place, was))),
                None => Ok(None),
            },
            None if self.next_id <= row.id.0 => {
                let next_id = row.id.0.saturating_add(1);
                self.schemas.add(row)?;
                self.next_id = next_id;
                Ok(Some(Undo::SchemaMade))
            }
            None => Ok(None),
        }
    }

    /// Drops a schema. `None`, and all as it was, where there is none of this id.
    pub fn drop_schema(&mut self, id: SchemaId) -> Option<Undo> {
        let place = self.schema_place(id)?;
        self.schemas.take_out(place);
        Some(Undo::SchemaDropped(place))
    }

    /// Takes back the step that gave `undo`, once the later ones were taken back. No id is free again.
    pub fn take_back(&mut self, undo: Undo)
        ensures slots { self.new.slots ≡ spec.taken_back undo self.old.slots }
        ensures next_id { self.new.next_id ≡ self.old.next_id }
    {
        match undo {
            Undo::Made(id) => {
                let _made = self.objects.give(id, None);
                self.names.take_added();
            }
            Undo::Replaced(id, was, name, row) => {
                let _now = self.objects.give(id, Some(was));
                let _row = self.names.replace(name, row);
            }
            Undo::Dropped(id, was, name) => {
                let _none = self.objects.give(id, Some(was));
                self.names.put_back(name);
            }
            Undo::SchemaMade => self.schemas.take_added(),
            Undo::SchemaRenamed(place, was) => {
                let _row = self.schemas.replace(place, was);
            }
            Undo::SchemaDropped(place) => self.schemas.put_back(place),
        }
    }

    /// Gives up what only taking steps back needs. No step before this is taken back then.
    pub fn forget(&mut self)
        ensures slots { self.new.slots ≡ filter (λ slot. is_some slot.entry) self.old.slots }
        ensures next_id { self.new.next_id ≡ self.old.next_id }
    {
        self.objects.forget();
        self.names.forget();
        self.schemas.forget();
    }

    fn name_place(&self, id: ObjId) -> Option<usize> {
        for (place, row) in self.names.as_slice().iter().enumerate() {
            if row.id.0 == id.0 {
                return Some(place);
            }
        }
        None
    }

    fn schema_place(&self, id: SchemaId) -> Option<usize> {
        for (place, row) in self.schemas.as_slice().iter().enumerate() {
            if row.id.0 == id.0 {
                return Some(place);
            }
        }
        None
    }
}

fn name_row(alloc: Global, entry: &Entry) -> Result<NameRow, NoMemory> {
    Ok(NameRow {
        schema: entry.schema,
        name: entry.name.copy(alloc)?,
        id: entry.id,
    })
}

fn is_table(entry: &Entry) -> bool
    ensures { result ≡ of.is_table entry.now }
{
    matches!(entry.def, Def::Table(_))
}

fn is_view(entry: &Entry) -> bool
    ensures { result ≡ of.is_view entry.now }
{
    matches!(entry.def, Def::View(_))
}

fn is_index_of(entry: &Entry, table: ObjId) -> bool
    ensures { result ≡ of.is_index_of table entry.now }
{
    match &entry.def {
        Def::Index(index) => index.table.0 == table.0,
        _ => false,
    }
}
