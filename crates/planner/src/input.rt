ghost use Rattle.std.specs.Prelude.{◌≡◌};
ghost use Rattle.std.specs.Option.{option_copied};
ghost use Rattle.planner.specs.Conditions as spec;

use cat_core::{Catalog, Def, TableDef};
use q_base::{ObjId, Switches};

/// What a statement is planned by: statistics and indexes stand in the catalog.
#[derive(Clone, Copy)]
pub struct PlanInput<'a> {
    pub catalog: &'a Catalog,
    pub switches: Switches,
}

/// The table of an id.
pub fn table_of(catalog: &Catalog, id: ObjId) -> Option<&TableDef>
    ensures { option_copied result ≡ spec.table_of catalog.now.slots id }
{
    match &catalog.entry(id)?.def {
        Def::Table(table) => Some(table),
        _ => None,
    }
}
