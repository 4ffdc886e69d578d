ghost use Rattle.std.specs.Prelude.{◌≡◌, ◌≢◌, ◌↔◌, IsTrue, Some, None, IfOk, OnOk, IfErr, is_some, IsSome, IfSome, ℕ, not};
ghost use Rattle.std.specs.Option.{option_copied, option_map};
ghost use Rattle.plan_choice.specs.Choice.{no_uses, choice};
ghost use Rattle.plan_invalid.specs.declared.source.SourceId.{SourceId as Id};
ghost use Rattle.plan_invalid.specs.Sources.{source_of, is_marked, Changes};
ghost use Rattle.plan_tree.specs.Costs.{cost_of};
ghost use Rattle.plan_source.specs.Sources as spec;

use crate::binding::{Binding, Found, find, found_of};
use crate::is_same_result;
use analyzer::Analysed;
use cat_core::Catalog;
use plan_choice::{Choice, Tally, choose};
use plan_invalid::{Marks, SourceId};
use plan_tree::{Plan, cost_of};
use q_base::{IdList, Mode, NoMemory, SqlError, Stop, Str, Switches, Work};
use q_value::{SqlType, TypeList, Value};
use query_tree::ResultType;
use sql_tree::Statement;
use std::alloc::Global;
use std::rc::Rc;
use std::sync::ledger::Ledger;

/// Below so many uses, and so great a sum of their costs, the tally counts on.
const MOST_USES: u64 = 1 << 62;

const MOST_COST: u128 = 1 << 126;

/// What a use of a prepared statement depends on besides the statement and its values.
#[derive(Clone, Copy)]
pub struct Env<'a> {
    pub catalog: &'a Catalog,
    /// The search path as it is set, by names.
    pub path: &'a [Str],
    pub mode: Mode,
    pub switches: Switches,
}

/// A prepared statement: its text as a tree, what was fixed at PREPARE, and what is kept of its last analysis.
#[derive(Drop)]
pub struct CachedSource {
    alloc: Global,
    // Under this id the marks tell whether the binding was made invalid.
    id: SourceId,
    tree: Rc<Statement>,
    params: TypeList,
    columns: Rc<ResultType>,
    binding: Option<Binding>,
    tally: Tally,
}

/// What a use takes: a plan, which has the statement too, and the columns that it gives.
#[derive(Drop)]
pub struct Ready {
    pub plan: Rc<Plan>,
    pub columns: Rc<ResultType>,
    pub choice: Choice,
}

/// Why a use took no plan.
#[derive(Drop)]
pub enum SourceStop {
    /// The new analysis was refused.
    Sql(SqlError),
    /// The statement would give other columns than at PREPARE.
    Changed {
        kept: Rc<ResultType>,
        now: ResultType,
    },
    NoMemory,
}

impl From<NoMemory> for SourceStop {
    ghost use Rattle.std.specs.Prelude.{◌≡◌};
    ghost use Rattle.plan_source.specs.declared.source.SourceStop.TheVariants as stop;

    ghost from_gives = { λ _ e. e ≡ stop.NoMemory };

    fn from(_: NoMemory) -> SourceStop {
        SourceStop::NoMemory
    }
}

impl From<Stop> for SourceStop {
    ghost use Rattle.std.specs.Prelude.{◌≡◌};
    ghost use Rattle.plan_source.specs.Stops.{source_stop};

    ghost from_gives = { λ stop e. e ≡ source_stop stop };

    fn from(stop: Stop) -> SourceStop {
        match stop {
            Stop::Sql(error) => SourceStop::Sql(error),
            Stop::NoMemory => SourceStop::NoMemory,
        }
    }
}

/// What a session shows of a prepared statement.
#[derive(Clone, Copy)]
pub struct SourceView {
    /// The binding stands: no object that it uses was changed since the analysis, nor the effective search path.
    pub standing: bool,
    /// It does, and a generic plan is kept.
    pub kept: bool,
    pub tally: Tally,
}

impl CachedSource {
    /// Analyses a statement along the search path and keeps what was found, as PREPARE does (PostgreSQL's manual,
    /// "PREPARE"). `declared` has the types of its first parameters. Refused as its analysis is, and then as 54001 and 54000
    /// where its views are nested too deeply or its query is too wide.
    pub fn prepare<L: Ledger>(
        alloc: Global,
        tree: Rc<Statement>,
        declared: &[SqlType],
        env: &Env<'_>,
        marks: &mut Marks,
        work: &mut Work<L>,
    ) -> Result<CachedSource, Stop>
        ensures prepared { IfOk result (λ source. spec.IsPrepared source tree env.now marks.old marks.new) }
        ensures counted { spec.CountsOne work.old result work.new }
    {
        let found = find(alloc, &tree, declared, env, work)?;
        source_of(alloc, tree, found, marks)
    }

    /// The same for a statement that was analysed along this search path already.
    pub fn keep(
        alloc: Global,
        tree: Rc<Statement>,
        analysed: Analysed,
        env: &Env<'_>,
        marks: &mut Marks,
    ) -> Result<CachedSource, Stop>
        ensures prepared { IfOk result (λ source. spec.IsPrepared source tree env.now marks.old marks.new) }
        ensures analysed { IfOk result (λ source. (source.params ≡ analysed.params) × (source.columns.value ≡ analysed.result)) }
    {
        let found = found_of(alloc, analysed, env)?;
        source_of(alloc, tree, found, marks)
    }

    /// The plan of one use with these values of the parameters, one for each (PostgreSQL's GetCachedPlan in plancache.c).
    /// Where the binding doesn't stand the statement is analysed anew, and refused as that analysis or the pulling up of its
    /// views is, or as changed where its columns would be others than at PREPARE; after these there is no binding. The kind
    /// of the plan is chosen by the tally, and once more where a generic plan was made for it.
    pub fn ready<L: Ledger>(
        &mut self,
        values: &[Value],
        env: &Env<'_>,
        marks: &mut Marks,
        work: &mut Work<L>,
    ) -> Result<Ready, SourceStop>
        ensures fixed { spec.KeepsFixed self.old self.new }
        ensures columns { IfOk result (λ ready. ready.columns.value ≡ self.old.columns.value) }
        ensures takes { IfOk result (λ ready. spec.Takes env.now.mode self.old.params self.old.tally self.new.tally ready.choice (cost_of ready.plan.value)) }
        ensures stands { OnOk result (IsSome (source_of marks.old self.old.id) → spec.Stands self.new env.now marks.new) }
        ensures lost { IfErr result (spec.Loses self.old self.new) }
        ensures kept { spec.Stands self.old env.now marks.old → (marks.new ≡ marks.old) × (work.new.analyses ≡ work.old.analyses) }
        ensures others { (other : Id) → other ≢ self.old.id → source_of marks.new other ≡ source_of marks.old other }
    {
        if !self.stands(env, marks) {
            self.renew(env, marks, work)?;
        }
        let (plan, choice) = self.take(values, env, work)?;
        match (plan, Rc::clone(&self.columns)) {
            (Some(plan), Ok(columns)) => Ok(Ready {
                plan,
                columns,
                choice,
            }),
            _ => Err(SourceStop::NoMemory),
        }
    }

    /// What a session shows of the statement.
    pub fn show(&self, env: &Env<'_>, marks: &Marks) -> SourceView
        ensures standing { IsTrue result.standing ↔ spec.Stands self.now env.now marks.now }
        ensures kept { IsTrue result.kept ↔ (spec.Stands self.now env.now marks.now × IsSome (spec.generic_of self.now.binding)) }
        ensures tally { result.tally ≡ self.now.tally }
    {
        let standing = self.stands(env, marks);
        SourceView {
            standing,
            kept: standing && self.has_generic(),
            tally: self.tally,
        }
    }

    /// The types of the parameters, as PREPARE fixed them.
    pub fn params(&self) -> &TypeList
        ensures { result.now ≡ self.now.params }
    {
        &self.params
    }

    /// The columns that the statement gives, as PREPARE fixed them.
    pub fn columns(&self) -> &ResultType
        ensures { result.now ≡ self.now.columns.value }
    {
        &self.columns
    }

    /// The statement as it was written.
    pub fn tree(&self) -> &Statement
        ensures { result.now ≡ self.now.tree.value }
    {
        &self.tree
    }

    /// The tables and views that the binding uses; `None` exactly where there is no binding.
    pub fn uses(&self) -> Option<&IdList>
        ensures { option_copied result ≡ spec.uses_of self.now.binding }
    {
        match &self.binding {
            Some(binding) => Some(&binding.uses),
            None => None,
        }
    }

    /// Drops the statement with its marks.
    pub fn retire(self, marks: &mut Marks)
        ensures removed { Changes marks.old marks.new self.id None }
        ensures given { marks.new.given ≡ marks.old.given }
    {
        marks.remove(self.id);
    }

    // Whether there is a binding that wasn't made invalid, along the search path of now.
    fn stands(&self, env: &Env<'_>, marks: &Marks) -> bool
        ensures { IsTrue result ↔ spec.Stands self.now env.now marks.now }
    {
        match &self.binding {
            Some(binding) => !marks.is_marked(self.id) && binding.is_along(env),
            None => false,
        }
    }

    fn has_generic(&self) -> bool
        ensures { result ≡ is_some (spec.generic_of self.now.binding) }
    {
        match &self.binding {
            Some(binding) => binding.generic.is_some(),
            None => false,
        }
    }

    // Drops the binding and makes a new one.
    fn renew<L: Ledger>(
        &mut self,
        env: &Env<'_>,
        marks: &mut Marks,
        work: &mut Work<L>,
    ) -> Result<(), SourceStop>
        ensures fixed { spec.KeepsFixed self.old self.new }
        ensures tally { self.new.tally ≡ self.old.tally }
        ensures lost { IfErr result (spec.Loses self.old self.new) }
        ensures stands { OnOk result (IsSome (source_of marks.old self.old.id) → spec.Stands self.new env.now marks.new) }
        ensures others { (other : Id) → other ≢ self.old.id → source_of marks.new other ≡ source_of marks.old other }
    {
        self.let_go(marks);
        let Found {
            binding,
            params: _,
            columns,
        } = find(self.alloc, &self.tree, self.params.as_slice(), env, work)?;
        if !is_same_result(&self.columns, &columns) {
            return Err(self.changed(columns));
        }
        self.watch(marks, &binding.uses)?;
        self.binding = Some(binding);
        Ok(())
    }

    // Drops the binding and marks the source.
    #[tactic(auto, using(crate::proofs::Marked::still_some))]
    fn let_go(&mut self, marks: &mut Marks)
        ensures fixed { spec.KeepsFixed self.old self.new }
        ensures tally { self.new.tally ≡ self.old.tally }
        ensures none { self.new.binding ≡ None }
        ensures still { IsSome (source_of marks.old self.old.id) → IsSome (source_of marks.new self.old.id) }
        ensures others { (other : Id) → other ≢ self.old.id → source_of marks.new other ≡ source_of marks.old other }
    {
        self.binding = None;
        marks.mark_one(self.id);
    }

    fn changed(&self, now: ResultType) -> SourceStop
        ensures { spec.Tells self.now.columns now result }
    {
        match Rc::clone(&self.columns) {
            Ok(kept) => SourceStop::Changed { kept, now },
            Err(_) => SourceStop::NoMemory,
        }
    }

    // Has the marks tell of changes of these objects from now on.
    fn watch(&self, marks: &mut Marks, uses: &IdList) -> Result<(), NoMemory>
        ensures watches { OnOk result (IsSome (source_of marks.old self.now.id) → IsTrue (not (is_marked (source_of marks.new self.now.id)))) }
        ensures others { (other : Id) → other ≢ self.now.id → source_of marks.new other ≡ source_of marks.old other }
    {
        if !marks.has(self.id) {
            return Ok(());
        }
        marks.watch(self.id, uses)
    }

    // Chooses a plan and counts its use.
    fn take<L: Ledger>(
        &mut self,
        values: &[Value],
        env: &Env<'_>,
        work: &mut Work<L>,
    ) -> Result<(Option<Rc<Plan>>, Choice), NoMemory>
        ensures fixed { spec.KeepsFixed self.old self.new }
        ensures binding { spec.KeepsBinding self.old.binding self.new.binding }
        ensures takes { IfOk result (λ taken. IfSome taken.0 (λ plan. spec.Takes env.now.mode self.old.params self.old.tally self.new.tally taken.1 (cost_of plan.value))) }
        ensures counted { work.new.analyses ≡ work.old.analyses }
    {
        if self.choice(env) == Choice::Generic {
            self.keep_generic(env, work)?;
        }
        match self.choice(env) {
            Choice::Generic => Ok((self.take_generic()?, Choice::Generic)),
            Choice::Custom => Ok((self.take_custom(values, env, work)?, Choice::Custom)),
        }
    }

    fn choice(&self, env: &Env<'_>) -> Choice
        ensures { result ≡ choice env.now.mode (spec.has_params self.now.params) self.now.tally }
    {
        choose(env.mode, !self.params.as_slice().is_empty(), &self.tally)
    }

    // Makes the generic plan, where none is kept.
    fn keep_generic<L: Ledger>(&mut self, env: &Env<'_>, work: &mut Work<L>) -> Result<(), NoMemory>
        ensures fixed { spec.KeepsFixed self.old self.new }
        ensures binding { spec.KeepsBinding self.old.binding self.new.binding }
        ensures tally { self.new.tally ≡ record self.old.tally { generic_cost = self.new.tally.generic_cost } }
        ensures made { OnOk result (IsSome self.old.binding → IsSome (spec.generic_of self.new.binding)) }
        ensures kept { IsSome (spec.generic_of self.old.binding) → (self.new ≡ self.old) × (work.new ≡ work.old) }
        ensures counted { work.new.analyses ≡ work.old.analyses }
    {
        if let Some(binding) = &mut self.binding {
            if binding.generic.is_none() {
                let plan = binding.planned(self.alloc, None, env, work)?;
                self.tally.generic_cost = Some(cost_of(&plan));
                binding.generic = Some(plan);
            }
        }
        Ok(())
    }

    // The plan that is kept, for one more use.
    fn take_generic(&mut self) -> Result<Option<Rc<Plan>>, NoMemory>
        ensures fixed { spec.KeepsFixed self.old self.new }
        ensures binding { self.new.binding ≡ self.old.binding }
        ensures plan { IfOk result (λ plan. option_map (λ p. p.value) plan ≡ option_map (λ p. p.value) (spec.generic_of self.old.binding)) }
        ensures tally { IfOk result (λ plan. IfSome plan (λ _. self.new.tally ≡ spec.with_generic_use self.old.tally)) }
    {
        let Some(binding) = &self.binding else {
            return Ok(None);
        };
        let Some(plan) = &binding.generic else {
            return Ok(None);
        };
        let plan = Rc::clone(plan)?;
        if self.tally.generic_count < MOST_USES {
            self.tally.use_generic();
        }
        Ok(Some(plan))
    }

    // A plan with the values as constants, for this use alone.
    fn take_custom<L: Ledger>(
        &mut self,
        values: &[Value],
        env: &Env<'_>,
        work: &mut Work<L>,
    ) -> Result<Option<Rc<Plan>>, NoMemory>
        ensures fixed { spec.KeepsFixed self.old self.new }
        ensures binding { self.new.binding ≡ self.old.binding }
        ensures tally { IfOk result (λ plan. IfSome plan (λ p. (width : ℕ) × (self.new.tally ≡ spec.with_custom_use self.old.tally (cost_of p.value) width))) }
        ensures counted { work.new.analyses ≡ work.old.analyses }
    {
        let Some(binding) = &self.binding else {
            return Ok(None);
        };
        let plan = binding.planned(self.alloc, Some(values), env, work)?;
        let width = binding.width;
        self.count_custom(cost_of(&plan), width);
        Ok(Some(plan))
    }

    fn count_custom(&mut self, cost: u64, width: u32)
        ensures fixed { spec.KeepsFixed self.old self.new }
        ensures binding { self.new.binding ≡ self.old.binding }
        ensures tally { self.new.tally ≡ spec.with_custom_use self.old.tally cost width }
    {
        if self.tally.custom_count < MOST_USES && self.tally.custom_sum < MOST_COST {
            self.tally.use_custom(cost, width);
        }
    }
}

// A new source that is told of changes of these objects. There are never 2^62 of them.
#[tactic(auto, using(crate::proofs::Marked::changes_again))]
fn watched(marks: &mut Marks, uses: &IdList) -> Result<SourceId, NoMemory>
    ensures new { IfOk result (λ id. source_of marks.old id ≡ None) }
    ensures watches { IfOk result (λ id. Changes marks.old marks.new id (Some (spec.watcher id uses.now))) }
{
    if !marks.has_room() {
        return Err(NoMemory);
    }
    let id = marks.add_source()?;
    marks.watch(id, uses)?;
    Ok(id)
}

fn source_of(
    alloc: Global,
    tree: Rc<Statement>,
    found: Found,
    marks: &mut Marks,
) -> Result<CachedSource, Stop>
    ensures new { IfOk result (λ source. source_of marks.old source.id ≡ None) }
    ensures watches { IfOk result (λ source. Changes marks.old marks.new source.id (Some (spec.watcher source.id found.binding.uses))) }
    ensures found { IfOk result (λ source. (source.tree ≡ tree) × (source.params ≡ found.params) × (source.columns.value ≡ found.columns) × (source.binding ≡ Some found.binding) × (source.tally ≡ no_uses)) }
{
    let id = watched(marks, &found.binding.uses)?;
    let Found {
        binding,
        params,
        columns,
    } = found;
    Ok(CachedSource {
        alloc,
        id,
        tree,
        params,
        columns: Rc::new(alloc, columns)?,
        binding: Some(binding),
        tally: Tally::new(),
    })
}
