ghost use Rattle.std.specs.Prelude.{◌≡◌, ◌+◌, ◌↔◌, IsTrue, None, IfOk};
ghost use Rattle.plan_source.specs.Sources as spec;

use crate::Env;
use analyzer::{Analysed, NameIds, Names, analyse};
use cat_deps::uses_of;
use cat_names::{effective, same_effective};
use plan_tree::Plan;
use planner::{PlanInput, plan};
use q_base::{IdList, NoMemory, SchemaList, Stop, Work};
use q_value::{SqlType, TypeList, Value};
use query_tree::{Bound, ResultType};
use sql_tree::Statement;
use std::alloc::Global;
use std::rc::Rc;
use std::sync::ledger::Ledger;
use view_rewrite::{rewrite, width};

/// What an analysis of the statement found, and what was worked out of it since.
#[derive(Drop)]
pub(crate) struct Binding {
    // The objects of the statement's relation names, in text order.
    pub(crate) ids: NameIds,
    // The tables and views that the statement names or reaches through views.
    pub(crate) uses: IdList,
    // The schemas of the search path that were there.
    pub(crate) path: SchemaList,
    // The statement by ids and types.
    pub(crate) bound: Rc<Bound>,
    // The same with views replaced by their queries.
    pub(crate) flat: Rc<Bound>,
    // How many tables and views that is.
    pub(crate) width: u32,
    // The plan that is kept for all values of the parameters, once one was made.
    pub(crate) generic: Option<Rc<Plan>>,
}

/// A statement's binding, with what its analysis says to the outside.
#[derive(Drop)]
pub(crate) struct Found {
    pub(crate) binding: Binding,
    pub(crate) params: TypeList,
    pub(crate) columns: ResultType,
}

/// Analyses the statement along the search path of now, and pulls its views up.
pub(crate) fn find<L: Ledger>(
    alloc: Global,
    tree: &Statement,
    declared: &[SqlType],
    env: &Env<'_>,
    work: &mut Work<L>,
) -> Result<Found, Stop>
    ensures new { IfOk result (λ found. spec.IsNew found.binding env.now) }
    ensures counted { spec.CountsOne work.old result work.new }
{
    let path = effective(alloc, env.path, env.catalog.schemas())?;
    let analysed = analyse(
        alloc,
        tree,
        Names::Path(&path),
        env.catalog,
        Some(declared),
        work,
    )?;
    pulled_up(alloc, analysed, path, env)
}

/// What an analysis along the search path of now found, once its views are pulled up.
pub(crate) fn found_of(alloc: Global, analysed: Analysed, env: &Env<'_>) -> Result<Found, Stop>
    ensures new { IfOk result (λ found. spec.IsNew found.binding env.now) }
    ensures analysed { IfOk result (λ found. (found.binding.bound ≡ analysed.bound) × (found.params ≡ analysed.params) × (found.columns ≡ analysed.result)) }
{
    let path = effective(alloc, env.path, env.catalog.schemas())?;
    pulled_up(alloc, analysed, path, env)
}

fn pulled_up(
    alloc: Global,
    analysed: Analysed,
    path: SchemaList,
    env: &Env<'_>,
) -> Result<Found, Stop>
    ensures path { IfOk result (λ found. found.binding.path ≡ path) }
    ensures none { IfOk result (λ found. found.binding.generic ≡ None) }
    ensures analysed { IfOk result (λ found. (found.binding.bound ≡ analysed.bound) × (found.params ≡ analysed.params) × (found.columns ≡ analysed.result)) }
{
    let flat = rewrite(alloc, &analysed.bound, env.catalog)?;
    let uses = uses_of(alloc, env.catalog, analysed.ids.as_slice())?;
    let width = width(&analysed.bound, env.catalog).min(u32::MAX as u64) as u32;
    let Analysed {
        bound,
        ids,
        params,
        result: columns,
    } = analysed;
    Ok(Found {
        binding: Binding {
            ids,
            uses,
            path,
            bound,
            flat,
            width,
            generic: None,
        },
        params,
        columns,
    })
}

impl Binding {
    /// Tells whether the search path still leads to the schemas of the analysis.
    pub(crate) fn is_along(&self, env: &Env<'_>) -> bool
        ensures { IsTrue result ↔ spec.IsAlong self.now env.now }
    {
        same_effective(env.path, env.catalog.schemas(), &self.path)
    }

    /// A plan of least cost, with `values` as constants where they are given.
    pub(crate) fn planned<L: Ledger>(
        &self,
        alloc: Global,
        values: Option<&[Value]>,
        env: &Env<'_>,
        work: &mut Work<L>,
    ) -> Result<Rc<Plan>, NoMemory>
        ensures { work.new ≡ record work.old { plans = work.old.plans + 1 } }
    {
        let input = PlanInput {
            catalog: env.catalog,
            switches: env.switches,
        };
        plan(alloc, &self.flat, values, &input, work)
    }
}
