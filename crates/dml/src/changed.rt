ghost use Rattle.std.specs.Prelude.{◌≡◌, [], IfOk, length};
ghost use Rattle.std.specs.Option.{option_copied};
ghost use Rattle.q_value.specs.Answers.{Answers};
ghost use Rattle.dml.specs.Rows as spec;

use crate::values::values_of;
use q_base::{NoMemory, ObjId, SlotId, Stop};
use q_value::{Row, Rows, Value};
use query_tree::{Target, TargetList};
use row_versions::Heaps;
use std::alloc::Global;

/// What a statement that changes rows did: how many it changed, and what RETURNING gives of each, in order of
/// insertion.
#[derive(Drop)]
pub struct Changed {
    pub count: u64,
    pub returned: Rows,
}

impl Changed {
    /// No row.
    pub(crate) fn nothing(alloc: Global) -> Changed
        ensures { result ≡ spec.nothing }
    {
        Changed {
            count: 0,
            returned: Rows::new(alloc),
        }
    }
}

/// What RETURNING gives of the rows of slots as they are now: nothing where it has no targets.
pub(crate) fn returned_of(
    alloc: Global,
    heaps: &Heaps,
    table: ObjId,
    slots: &[SlotId],
    targets: &TargetList,
    params: &[Value],
) -> Result<Rows, Stop>
    ensures { Answers (spec.returned heaps.now table slots.now targets.now params.now) result }
{
    if targets.as_slice().is_empty() {
        return Ok(Rows::new(alloc));
    }
    rows_of(alloc, heaps, table, slots, targets.as_slice(), params)
}

fn rows_of(
    alloc: Global,
    heaps: &Heaps,
    table: ObjId,
    slots: &[SlotId],
    targets: &[Target],
    params: &[Value],
) -> Result<Rows, Stop>
    ensures { Answers (spec.returned_from [] heaps.now table slots.now targets.now params.now) result }
{
    let mut rows = Rows::new(alloc);
    for slot in slots {
        let row = heaps.newest_row(table, *slot);
        add_values(alloc, &mut rows, row, targets, params)?;
    }
    Ok(rows)
}

/// Appends the values of targets over a row, where there is one.
fn add_values(
    alloc: Global,
    rows: &mut Rows,
    row: Option<&Row>,
    targets: &[Target],
    params: &[Value],
) -> Result<(), Stop>
    ensures { spec.Leaves (spec.with_values rows.old (option_copied row.entry) targets.now params.now) result rows.new }
{
    let Some(row) = row else {
        return Ok(());
    };
    let values = values_of(alloc, targets, row.as_slice(), params)?;
    rows.push(values)?;
    Ok(())
}

/// How many slots there are.
pub(crate) fn count_of(slots: &[SlotId]) -> u64
    ensures { result ≡ length slots.now }
{
    slots.len() as u64
}

/// A second owner of the same row.
pub(crate) fn copy_of(alloc: Global, row: &[Value]) -> Result<Row, NoMemory>
    ensures { IfOk result (λ copy. copy ≡ row.now) }
{
    let mut copy = Vec::with_capacity(alloc, row.len())?;
    for value in row {
        copy.push(value.copy(alloc)?)?;
    }
    Ok(Row::from_vec(copy))
}
