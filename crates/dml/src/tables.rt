ghost use Rattle.std.specs.Prelude.{◌≡◌};
ghost use Rattle.std.specs.Option.{option_copied};
ghost use Rattle.dml.specs.Rows as spec;

use cat_core::{Catalog, Def, TableDef};
use q_base::ObjId;

/// The table of an id, or `None` where there is none.
pub(crate) fn table_of(catalog: &Catalog, id: ObjId) -> Option<&TableDef>
    ensures { option_copied result ≡ spec.table_in catalog.now.slots id }
{
    match &catalog.entry(id)?.def {
        Def::Table(table) => Some(table),
        _ => None,
    }
}
