ghost use Rattle.std.specs.Prelude.{◌≡◌, IfOk};
ghost use Rattle.cat_commands.specs.Steps as spec;

use cat_core::{Change, Changes, Def, Entry};
use q_base::{ListOf, NoMemory, ObjId, SchemaId, Str};
use std::alloc::Global;
use std::rc::Rc;

/// The change that puts an entry.
pub(crate) fn put(
    alloc: Global,
    id: ObjId,
    schema: SchemaId,
    name: &str,
    def: Def,
) -> Result<Change, NoMemory>
    ensures { IfOk result (λ change. spec.step change ≡ spec.put id schema name.now def) }
{
    let name = Str::from_text(alloc, name)?;
    let entry = Rc::new(
        alloc,
        Entry {
            id,
            schema,
            name,
            def,
        },
    )?;
    Ok(Change::PutEntry(entry))
}

/// One change.
pub(crate) fn one(alloc: Global, change: Change) -> Result<Changes, NoMemory>
    ensures { IfOk result (λ changes. spec.steps changes ≡ spec.one change) }
{
    let mut changes = ListOf::new(alloc);
    changes.push(change)?;
    Ok(changes)
}

/// Changes, and then another.
pub(crate) fn then(changes: Changes, change: Change) -> Result<Changes, NoMemory>
    ensures { IfOk result (λ all. spec.steps all ≡ spec.then changes change) }
{
    let mut all = changes;
    all.push(change)?;
    Ok(all)
}

/// The changes that put an entry in place of that of its id, and touch it.
pub(crate) fn put_touched(
    alloc: Global,
    id: ObjId,
    schema: SchemaId,
    name: &str,
    def: Def,
) -> Result<Changes, NoMemory>
    ensures { IfOk result (λ changes. spec.steps changes ≡ spec.put_touched id schema name.now def) }
{
    let put = put(alloc, id, schema, name, def)?;
    then(one(alloc, put)?, Change::Touch(id))
}
