ghost use Rattle.std.specs.Prelude.{◌≡◌, None, take, IfOk};
ghost use Rattle.std.specs.Option.{option_map};
ghost use Rattle.executor.specs.Uniques.{numbered};
ghost use Rattle.executor.specs.declared.stores.Stores.{Stores as Tables};
ghost use Rattle.executor.specs.Cuts.{skipped, windowed};
ghost use Rattle.executor.specs.Lists.{projected};
ghost use Rattle.executor.specs.Rest.{left_at};
ghost use Rattle.executor.specs.Plans as plans;
ghost use Rattle.executor.specs.Starts as starts;
ghost use Rattle.executor.specs.Runs.{projection, run_rest as rest_at};
ghost use Rattle.executor.specs.Yields.{Yields, YieldsFirst, Skips};

use crate::cut::{Window, window_of};
use crate::found::{Found, project};
use crate::next::next;
use crate::start::started;
use crate::state::State;
use crate::stores::Stores;
use plan_tree::{Node, Plan};
use q_base::{NoMemory, SlotId, Work};
use q_scalar::EvalStop;
use q_value::{Outcome, Row, RowFeed, Value};
use query_tree::{Copies, Target, TargetList};
use row_index::laws;
use row_versions::Snap;
use std::alloc::Global;
use std::rc::Rc;
use std::sync::ledger::Ledger;

/// A plan that runs, with the values of its parameters, at one snapshot.
#[derive(Drop)]
pub struct Run {
    state: State,
    targets: TargetList,
    window: Window,
    params: Row,
    snap: Snap,
    /// Where the row given last stands, of a plan that reads one table and neither joins nor groups.
    last: Option<u64>,
    ended: bool,
}

impl Run {
    /// A run that has looked at no row yet. The plan is of a SELECT; of another statement it gives no rows.
    pub fn start(alloc: Global, plan: Rc<Plan>, params: Row, snap: Snap) -> Result<Run, NoMemory>
        ensures rest { IfOk result (λ run. (stores : Tables) → rest_at run stores ≡ plans.plan_list stores snap params plan.value) }
        ensures snap { IfOk result (λ run. run.snap ≡ snap) }
        ensures last { IfOk result (λ run. run.last ≡ None) }
    {
        laws::orders();
        Run::begun(alloc, plan, params, snap)
    }

    fn begun(alloc: Global, plan: Rc<Plan>, params: Row, snap: Snap) -> Result<Run, NoMemory>
        ensures rest { IfOk result (λ run. (stores : Tables) → rest_at run stores ≡ starts.walk_list stores snap params plan.value) }
        ensures snap { IfOk result (λ run. run.snap ≡ snap) }
        ensures last { IfOk result (λ run. run.last ≡ None) }
    {
        let node = &plan.block.node;
        let window = window_at(alloc, node, params.as_slice())?;
        let state = started(alloc, node, params.as_slice())?;
        let targets = plan.block.targets.copy(alloc)?;
        Ok(Run {
            state,
            targets,
            window,
            params,
            snap,
            last: None,
            ended: false,
        })
    }

    /// The slot of the row that was given last, of a plan whose only scan is one of a table and that neither joins
    /// nor groups nor makes distinct. `None` before the first row, and for other plans. Takes no memory.
    pub fn last_slot(&self) -> Option<SlotId>
        ensures { result ≡ option_map numbered self.now.last }
    {
        match self.last {
            Some(slot) => Some(SlotId(slot)),
            None => None,
        }
    }

    /// The next row of the projected list, less what LIMIT and OFFSET leave out.
    fn give(&mut self, alloc: Global, stores: &Stores) -> Result<Option<Found>, EvalStop>
        ensures given { YieldsFirst (windowed self.old.window (projection self.old stores.now)) result (windowed self.new.window (projection self.new stores.now)) }
        ensures snap { self.new.snap ≡ self.old.snap }
        ensures ended { self.new.ended ≡ self.old.ended }
    {
        let params = self.params.as_slice();
        let targets = self.targets.as_slice();
        give_from(
            &mut self.window,
            &mut self.state,
            alloc,
            stores,
            params,
            self.snap,
            targets,
        )
    }
}

/// The next row of the projected list of a node.
fn pull(
    state: &mut State,
    alloc: Global,
    stores: &Stores,
    params: &[Value],
    snap: Snap,
    targets: &[Target],
) -> Result<Option<Found>, EvalStop>
    ensures { Yields (projected targets.now params.now (left_at stores.now snap params.now state.old)) result (projected targets.now params.now (left_at stores.now snap params.now state.new)) }
{
    match next(state, alloc, stores, params, snap)? {
        Some(found) => {
            let row = project(alloc, targets, found.row.as_slice(), params)?;
            Ok(Some(Found {
                row,
                slot: found.slot,
            }))
        }
        None => Ok(None),
    }
}

/// Leaves out rows, and says whether the list ended before.
fn skip_rows(
    state: &mut State,
    alloc: Global,
    stores: &Stores,
    params: &[Value],
    snap: Snap,
    targets: &[Target],
    skip: u64,
) -> Result<bool, EvalStop>
    ensures { Skips (skipped skip (projected targets.now params.now (left_at stores.now snap params.now state.old))) result (projected targets.now params.now (left_at stores.now snap params.now state.new)) }
{
    for _skipped in 0..skip {
        match pull(state, alloc, stores, params, snap, targets)? {
            Some(_) => {}
            None => return Ok(true),
        }
    }
    Ok(false)
}

/// The row behind those that are skipped.
fn pull_behind(
    state: &mut State,
    alloc: Global,
    stores: &Stores,
    params: &[Value],
    snap: Snap,
    targets: &[Target],
    skip: u64,
) -> Result<Option<Found>, EvalStop>
    ensures { YieldsFirst (skipped skip (projected targets.now params.now (left_at stores.now snap params.now state.old))) result (projected targets.now params.now (left_at stores.now snap params.now state.new)) }
{
    if skip_rows(state, alloc, stores, params, snap, targets, skip)? {
        return Ok(None);
    }
    pull(state, alloc, stores, params, snap, targets)
}

/// The next row that LIMIT and OFFSET leave of the projected list of a node.
fn give_from(
    window: &mut Window,
    state: &mut State,
    alloc: Global,
    stores: &Stores,
    params: &[Value],
    snap: Snap,
    targets: &[Target],
) -> Result<Option<Found>, EvalStop>
    ensures { YieldsFirst (windowed window.old (projected targets.now params.now (left_at stores.now snap params.now state.old))) result (windowed window.new (projected targets.now params.now (left_at stores.now snap params.now state.new))) }
{
    match *window {
        Window::Fault(code) => Err(EvalStop::Fault(code)),
        Window::Rows(skip, Some(count)) => give_limited(
            window, state, alloc, stores, params, snap, targets, skip, count,
        ),
        Window::Rows(skip, None) => {
            *window = Window::Rows(0, None);
            pull_behind(state, alloc, stores, params, snap, targets, skip)
        }
    }
}

/// The next of the rows that a count leaves behind those that are skipped.
fn give_limited(
    window: &mut Window,
    state: &mut State,
    alloc: Global,
    stores: &Stores,
    params: &[Value],
    snap: Snap,
    targets: &[Target],
    skip: u64,
    count: u64,
) -> Result<Option<Found>, EvalStop>
    ensures { YieldsFirst (take count (skipped skip (projected targets.now params.now (left_at stores.now snap params.now state.old)))) result (windowed window.new (projected targets.now params.now (left_at stores.now snap params.now state.new))) }
{
    if count == 0 {
        return Ok(None);
    }
    let left = count - 1;
    *window = Window::Rows(0, Some(left));
    pull_behind(state, alloc, stores, params, snap, targets, skip)
}

fn window_at(alloc: Global, node: &Node, params: &[Value]) -> Result<Window, NoMemory>
    ensures { IfOk result (λ window. window ≡ plans.window_at params.now node.now) }
{
    match node {
        Node::Limit(_, cut, _) => window_of(alloc, cut, params),
        _ => Ok(Window::Rows(0, None)),
    }
}

impl RowFeed for Run {
    type Place = Stores;

    ghost use Rattle.executor.specs.Runs.{run_rest, FitsAll, AreAlike};
    ghost use Rattle.executor.specs.Laws.{same_rest, same_fits, faults_last};

    ghost rest = { run_rest };

    ghost fits = { FitsAll };

    ghost agree = { AreAlike };

    ghost same_rest = { same_rest };

    ghost same_fits = { same_fits };

    ghost faults_last = { faults_last };

    fn next<L: Ledger>(
        &mut self,
        alloc: Global,
        place: &Stores,
        work: &mut Work<L>,
    ) -> Result<Option<Outcome>, NoMemory> {
        work.count_pull();
        if self.ended {
            return Ok(None);
        }
        match self.give(alloc, place) {
            Ok(Some(found)) => {
                self.last = found.slot;
                Ok(Some(Outcome::Row(found.row)))
            }
            Ok(None) => {
                self.ended = true;
                Ok(None)
            }
            Err(EvalStop::Fault(code)) => {
                self.ended = true;
                Ok(Some(Outcome::Fault(code)))
            }
            Err(EvalStop::NoMemory) => Err(NoMemory),
        }
    }
}
