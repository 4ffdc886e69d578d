ghost use Rattle.std.specs.Prelude.{◌≡◌, IfOk};

use crate::Column;
use q_base::NoMemory;
use q_value::Value;
use query_tree::Copies;
use std::alloc::Global;

impl Copies for Column {
    fn copy(&self, alloc: Global) -> Result<Column, NoMemory> {
        Ok(Column {
            id: self.id,
            name: self.name.copy(alloc)?,
            kind: self.kind,
            not_null: self.not_null,
            default_value: copy_value(alloc, &self.default_value)?,
        })
    }
}

/// A second owner of the same value, where there is one.
fn copy_value(alloc: Global, value: &Option<Value>) -> Result<Option<Value>, NoMemory>
    ensures { IfOk result (λ copy. copy ≡ value.now) }
{
    match value {
        Some(value) => Ok(Some(value.copy(alloc)?)),
        None => Ok(None),
    }
}
