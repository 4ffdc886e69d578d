ghost use Rattle.std.specs.Prelude.{◌≡◌, ◌+◌};

use crate::above::with_check;
use crate::block::query_block;
use crate::changed::{Change, all_changed};
use crate::conditions::{Parted, part_conditions};
use crate::input::PlanInput;
use crate::items::{conds_at, relation_facts};
use crate::joins::{Making, joined_node, layout_of};
use crate::scans::{ItemFacts, Wanted};
use crate::search::Step;
use crate::sets::single;
use cost_units::insert_cost;
use plan_tree::{Block, Estimate, Node, Plan};
use q_base::{NoMemory, Work};
use q_value::Value;
use query_tree::{Bound, Cond, Relation, TargetList};
use sqlite_items::Boxed;
use std::alloc::Global;
use std::rc::Rc;
use std::sync::ledger::Ledger;

/// A plan of least cost of a statement whose views are rewritten: a generic one, or a custom one with the values of
/// the parameters as constants. Counts one plan, whatever blocks it has.
pub fn plan<L: Ledger>(
    alloc: Global,
    bound: &Rc<Bound>,
    params: Option<&[Value]>,
    input: &PlanInput<'_>,
    work: &mut Work<L>,
) -> Result<Rc<Plan>, NoMemory>
    ensures count { work.new ≡ record work.old { plans = work.old.plans + 1 } }
{
    work.count_plan();
    let block = statement_block(alloc, bound, params, *input)?;
    let plan = Plan {
        bound: bound.clone()?,
        block,
    };
    Ok(Rc::new(alloc, plan)?)
}

fn statement_block(
    alloc: Global,
    bound: &Bound,
    params: Option<&[Value]>,
    input: PlanInput<'_>,
) -> Result<Block, NoMemory> {
    match bound {
        Bound::Select(query) => query_block(alloc, query, params, input),
        Bound::Insert(insert) => Ok(without_targets(
            alloc,
            Node::Insert(inserted(insert.rows.as_slice().len() as u64)),
        )),
        Bound::Update(update) => {
            let scan = changed_rows(alloc, &update.table, update.conds.as_slice(), params, input)?;
            let estimate = scan.estimate();
            let node = Node::Update(estimate, Boxed::new(alloc, scan)?);
            Ok(without_targets(alloc, node))
        }
        Bound::Delete(delete) => {
            let scan = changed_rows(alloc, &delete.table, delete.conds.as_slice(), params, input)?;
            let estimate = scan.estimate();
            let node = Node::Delete(estimate, Boxed::new(alloc, scan)?);
            Ok(without_targets(alloc, node))
        }
    }
}

fn without_targets(alloc: Global, node: Node) -> Block {
    Block {
        node,
        targets: TargetList::new(alloc),
    }
}

fn inserted(tuples: u64) -> Estimate {
    Estimate {
        cost: insert_cost(tuples),
        rows: tuples,
    }
}

/// The least scan of the rows that a statement changes.
fn changed_rows(
    alloc: Global,
    table: &Relation,
    conds: &[Cond],
    params: Option<&[Value]>,
    input: PlanInput<'_>,
) -> Result<Node, NoMemory> {
    let parted = part_conditions(alloc, &[], conds, params, input)?;
    let wanted = Wanted { keys: &[], item: 0 };
    let own = conds_at(parted.own.as_slice(), 0);
    let facts = relation_facts(alloc, table, own, wanted, input)?;
    scanned(alloc, &parted, facts)
}

fn scanned(alloc: Global, parted: &Parted, facts: ItemFacts) -> Result<Node, NoMemory> {
    let step = Step {
        cost: 0,
        item: 0,
        scan: facts.least.scan,
        is_hash: false,
    };
    let facts = vec![in alloc; facts]?;
    let path = [(single(0), step)];
    let layout = layout_of(alloc, facts.as_slice(), &path)?;
    let change = Change {
        params: None,
        offsets: layout.offsets.as_slice(),
        width: layout.width,
    };
    let making = Making {
        items: facts.as_slice(),
        parted,
        rows: &[],
        change,
    };
    let node = joined_node(alloc, making, &path, &mut [])?;
    let conds = all_changed(alloc, parted.fallible.as_slice(), change)?;
    with_check(alloc, node, conds)
}
