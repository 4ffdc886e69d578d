ghost use Rattle.std.specs.Prelude.{◌≡◌, [], map, IfOk};
ghost use Rattle.q_base.specs.declared.ids.SlotId.{SlotId as Place};
ghost use Rattle.plan_tree.specs.declared.node.Node.{out-Node};
ghost use Rattle.executor.specs.Lists.{kept};
ghost use Rattle.executor.specs.Plans as plans;
ghost use Rattle.executor.specs.Scans.{scan_of, along_of, seq_left, index_left};
ghost use Rattle.executor.specs.Slots.{slots_from, numbers_of, AreAscending};

use crate::index_scan::IndexState;
use crate::scan::SeqState;
use crate::start::{index_started, seq_started};
use crate::stores::Stores;
use plan_tree::{Node, Plan, Scan};
use q_base::{NoMemory, SlotId, SlotList};
use q_value::Value;
use row_versions::Snap;
use std::alloc::Global;

/// The slots of the rows of a scan, ascending: that of a plan of an UPDATE or DELETE, or of a plan that is a scan of
/// one table. All conditions of the scan are true on these rows. Other plans have none.
pub fn run_slots(
    alloc: Global,
    plan: &Plan,
    params: &[Value],
    stores: &Stores,
    snap: Snap,
) -> Result<SlotList, NoMemory>
    ensures { IfOk result (λ slots. AreAscending (plans.changed_list stores.now snap params.now plan.now) slots) }
{
    match &plan.block.node {
        Node::Update(_, scan) | Node::Delete(_, scan) => {
            scan_slots(alloc, scan.get(), params, stores, snap)
        }
        node => scan_slots(alloc, node, params, stores, snap),
    }
}

fn scan_slots(
    alloc: Global,
    node: &Node,
    params: &[Value],
    stores: &Stores,
    snap: Snap,
) -> Result<SlotList, NoMemory>
    ensures { IfOk result (λ slots. AreAscending (plans.scan_list (scan_of stores.now snap) (along_of stores.now snap) params.now (out-Node node.now)) slots) }
{
    match node {
        Node::SeqScan(_, scan) => first_slots(alloc, scan, params, stores, snap),
        Node::IndexScan(_, scan, along) => {
            let scan = index_started(alloc, scan, along, params)?;
            index_slots(alloc, scan, params, stores, snap)
        }
        _ => Ok(SlotList::new(alloc)),
    }
}

fn first_slots(
    alloc: Global,
    scan: &Scan,
    params: &[Value],
    stores: &Stores,
    snap: Snap,
) -> Result<SlotList, NoMemory>
    ensures { IfOk result (λ slots. AreAscending (kept scan.now.conds params.now (scan_of stores.now snap scan.now.table 0)) slots) }
{
    seq_slots(alloc, seq_started(alloc, scan)?, params, stores, snap)
}

fn seq_slots(
    alloc: Global,
    scan: SeqState,
    params: &[Value],
    stores: &Stores,
    snap: Snap,
) -> Result<SlotList, NoMemory>
    ensures { IfOk result (λ slots. slots ≡ slots_from [] (seq_left stores.now snap params.now scan)) }
{
    let mut scan = scan;
    let mut slots = SlotList::new(alloc);
    while let Some((slot, _)) = scan.advance(stores, params, snap) {
        slots.push(SlotId(slot))?;
    }
    Ok(slots)
}

fn index_slots(
    alloc: Global,
    scan: IndexState,
    params: &[Value],
    stores: &Stores,
    snap: Snap,
) -> Result<SlotList, NoMemory>
    ensures { IfOk result (λ slots. AreAscending (index_left stores.now snap params.now scan) slots) }
{
    let mut numbers = index_numbers(alloc, scan, params, stores, snap)?;
    numbers.sort_unstable();
    numbered(alloc, numbers.as_slice())
}

/// The slots of the rows, in the order of the index.
fn index_numbers(
    alloc: Global,
    scan: IndexState,
    params: &[Value],
    stores: &Stores,
    snap: Snap,
) -> Result<Vec<u64>, NoMemory>
    ensures { IfOk result (λ numbers. numbers.items ≡ numbers_of (index_left stores.now snap params.now scan)) }
{
    let mut scan = scan;
    let mut slots: Vec<u64> = Vec::new(alloc);
    while let Some((slot, _)) = scan.advance(alloc, stores, params, snap)? {
        slots.push(slot)?;
    }
    Ok(slots)
}

fn numbered(alloc: Global, numbers: &[u64]) -> Result<SlotList, NoMemory>
    ensures { IfOk result (λ slots. map (λ (slot : Place). slot.0) slots ≡ numbers.now) }
{
    let mut slots = SlotList::new(alloc);
    for number in numbers {
        slots.push(SlotId(*number))?;
    }
    Ok(slots)
}
