//! Statements that are written out: SELECT, INSERT, UPDATE and DELETE, and EXPLAIN of one.

ghost use Rattle.std.specs.Prelude.{◌≡◌};
ghost use Rattle.std.specs.Option.{option_copied};
ghost use Rattle.analyzer.specs.Statements.{AnalysedAs, Surroundings, statement};
ghost use Rattle.q_value.specs.Answers.{Answers};
ghost use Rattle.session_core.specs.State.{Does, Unstated};
ghost use Rattle.session_core.specs.Prepared as spec;

use super::Machine;
use crate::answers::answer;
use crate::arguments::stop_of;
use crate::printed::plan_lines;
use analyzer::{Analysed, Names, analyse};
use executor::Run;
use plan_tree::Plan;
use planner::{PlanInput, plan};
use q_base::{NoMemory, Stop, Work, refusal};
use q_value::{Outcome, Row, RowFeed, Rows, SqlType, Value};
use query_tree::{Bound, ResultType};
use result_text::rows_text;
use row_versions::Snap;
use sql_tree::Statement;
use std::alloc::Global;
use std::rc::Rc;
use std::sync::ledger::Ledger;
use view_rewrite::rewrite;

impl Machine {
    /// SELECT, INSERT, UPDATE and DELETE: the refusals of the analysis, 54001 and 54000 of views, and then those of
    /// the rows.
    pub(crate) fn statement<L: Ledger>(
        &mut self,
        tree: &Statement,
        out: &mut Vec<u8>,
        work: &mut Work<L>,
    ) -> Result<(), Stop>
        ensures { Does (spec.Selects self.old tree.now) out.old.items out.new.items self.new result }
    {
        if is_plain(tree) {
            self.select_plain(tree, out, work)
        } else {
            self.run_bound(tree, out, work)
        }
    }

    /// A SELECT that needs no table.
    #[tactic(auto, unfolding(crate::specs::Prepared::selected))]
    fn select_plain<L: Ledger>(
        &mut self,
        tree: &Statement,
        out: &mut Vec<u8>,
        work: &mut Work<L>,
    ) -> Result<(), Stop>
        ensures { Does (spec.SelectsPlain self.old tree.now) out.old.items out.new.items self.new result }
    {
        let found = self.analysed_plain(tree, None, work)?;
        let _ = self.chosen(&found.bound, work)?;
        let rows = plain_rows(self.alloc, &found.bound, &[])?;
        rows_text(self.alloc, &found.result, &rows, out)?;
        Ok(())
    }

    /// A statement that names tables or views.
    fn run_bound<L: Ledger>(
        &mut self,
        tree: &Statement,
        out: &mut Vec<u8>,
        work: &mut Work<L>,
    ) -> Result<(), Stop>
        ensures { Does Unstated out.old.items out.new.items self.new result }
    {
        let found = self.analysed(tree, work)?;
        let chosen = self.planned(&found.bound, work)?;
        self.answer(chosen, Row::new(self.alloc), &found.result, out, work)
    }

    /// EXPLAIN of a statement: the plan that it would take.
    pub(crate) fn explain<L: Ledger>(
        &mut self,
        tree: &Statement,
        out: &mut Vec<u8>,
        work: &mut Work<L>,
    ) -> Result<(), Stop>
        ensures { Does Unstated out.old.items out.new.items self.new result }
    {
        let found = self.analysed(tree, work)?;
        let chosen = self.planned(&found.bound, work)?;
        Ok(plan_lines(self.alloc, &chosen, out)?)
    }

    /// What the analysis of a statement that needs no table finds.
    pub(crate) fn analysed_plain<L: Ledger>(
        &self,
        tree: &Statement,
        declared: Option<&[SqlType]>,
        work: &mut Work<L>,
    ) -> Result<Analysed, Stop>
        ensures { (place : Surroundings) × AnalysedAs (statement place (option_copied declared.entry) tree.now) result }
    {
        match self.path() {
            Ok(path) => analyse(
                self.alloc,
                tree,
                Names::Path(&path),
                self.defined.catalog(),
                declared,
                work,
            ),
            Err(NoMemory) => Err(Stop::NoMemory),
        }
    }

    /// What the analysis of a statement finds by the search path of now.
    pub(crate) fn analysed<L: Ledger>(
        &self,
        tree: &Statement,
        work: &mut Work<L>,
    ) -> Result<Analysed, Stop> {
        let path = self.path()?;
        let catalog = self.defined.catalog();
        analyse(self.alloc, tree, Names::Path(&path), catalog, None, work)
    }

    /// A plan of least cost, once views are rewritten.
    pub(crate) fn planned<L: Ledger>(
        &self,
        bound: &Rc<Bound>,
        work: &mut Work<L>,
    ) -> Result<Rc<Plan>, Stop> {
        let rewritten = rewrite(self.alloc, bound, self.defined.catalog())?;
        Ok(self.chosen(&rewritten, work)?)
    }

    /// A plan of least cost for a rewritten statement.
    pub(crate) fn chosen<L: Ledger>(
        &self,
        rewritten: &Rc<Bound>,
        work: &mut Work<L>,
    ) -> Result<Rc<Plan>, NoMemory> {
        let input = PlanInput {
            catalog: self.defined.catalog(),
            switches: self.settings.switches(),
        };
        plan(self.alloc, rewritten, None, &input, work)
    }

    /// Runs a plan over the rows of now, and prints what it gives.
    pub(crate) fn answer<L: Ledger>(
        &mut self,
        chosen: Rc<Plan>,
        params: Row,
        shape: &ResultType,
        out: &mut Vec<u8>,
        work: &mut Work<L>,
    ) -> Result<(), Stop>
        ensures { Does Unstated out.old.items out.new.items self.new result }
    {
        match chosen.bound.as_ref() {
            Bound::Select(_) => {
                let snap = self.snapshot()?;
                let rows = self.rows_of(chosen, params, snap, work)?;
                Ok(rows_text(self.alloc, shape, &rows, out)?)
            }
            Bound::Insert(_) | Bound::Update(_) | Bound::Delete(_) => {
                self.change_rows(&chosen, params.as_slice(), shape, out)
            }
        }
    }

    /// All rows of a plan at a snapshot, or the fault that ends them.
    fn rows_of<L: Ledger>(
        &self,
        chosen: Rc<Plan>,
        params: Row,
        snap: Snap,
        work: &mut Work<L>,
    ) -> Result<Rows, Stop> {
        let mut run = Run::start(self.alloc, chosen, params, snap)?;
        let mut rows = Rows::new(self.alloc);
        for _turn in 0..u64::MAX {
            match run.next(self.alloc, &self.stores, work)? {
                None => return Ok(rows),
                Some(Outcome::Row(row)) => rows.push(row)?,
                Some(Outcome::Fault(code)) => return Err(refusal(self.alloc, code)),
            }
        }
        Ok(rows)
    }
}

/// Whether a statement needs no table: a SELECT without FROM.
pub(crate) fn is_plain(tree: &Statement) -> bool
    ensures { result ≡ spec.is_plain tree.now }
{
    match tree {
        Statement::Select(select) => select.core.from.as_slice().is_empty(),
        Statement::ViewSelect(_)
        | Statement::Insert(_)
        | Statement::Update(_)
        | Statement::Delete(_) => false,
    }
}

/// The rows of an analysed statement that needs no table, over the values of its parameters.
pub(crate) fn plain_rows(alloc: Global, bound: &Bound, values: &[Value]) -> Result<Rows, Stop>
    ensures { Answers (spec.plain_rows bound.now values.now) result }
{
    match bound {
        Bound::Select(query) => match answer(alloc, query, values) {
            Ok(rows) => Ok(rows),
            Err(stop) => Err(stop_of(alloc, stop)),
        },
        Bound::Insert(_) | Bound::Update(_) | Bound::Delete(_) => Ok(Rows::new(alloc)),
    }
}
