//! Prepared statements: PREPARE, EXECUTE, EXPLAIN EXECUTE, DEALLOCATE and DISCARD PLANS.

ghost use Rattle.std.specs.Prelude.{◌≡◌, None, IfOk};
ghost use Rattle.analyzer.specs.Statements.{AnalysedAs, Surroundings, seen};
ghost use Rattle.q_value.specs.Answers.{Answers};
ghost use Rattle.session_core.specs.State.{Does, Unstated};
ghost use Rattle.session_core.specs.Prepared as spec;

use super::{Machine, given_of};
use crate::arguments::argument_values;
use crate::machine::queries::{is_plain, plain_rows};
use crate::printed::plan_lines;
use analyzer::{Analysed, analyse_args, declared_types};
use plan_source::Ready;
use q_base::{Code, Stop, Str, Work, refusal_naming};
use q_value::{Row, TypeList, Value};
use result_text::{Tag, rows_text, tag_text};
use sql_tree::{ExecuteTree, PrepareTree, Statement};
use std::alloc::Global;
use std::rc::Rc;
use std::sync::ledger::Ledger;

impl Machine {
    /// PREPARE: keeps the statement. 42704 and 54000 for its types, the refusals of the analysis, 54001 and 54000 of
    /// views, 42P05 for a name that is taken, and then 54000 past 4,096 statements.
    pub(crate) fn prepare<L: Ledger>(
        &mut self,
        tree: PrepareTree,
        out: &mut Vec<u8>,
        work: &mut Work<L>,
    ) -> Result<(), Stop>
        ensures { Does (spec.Prepares self.old tree) out.old.items out.new.items self.new result }
    {
        if is_plain(&tree.statement) {
            self.prepare_plain(tree, out, work)
        } else {
            self.prepare_bound(tree, out, work)
        }
    }

    /// PREPARE of a statement that needs no table.
    fn prepare_plain<L: Ledger>(
        &mut self,
        tree: PrepareTree,
        out: &mut Vec<u8>,
        work: &mut Work<L>,
    ) -> Result<(), Stop>
        ensures { Does (spec.PreparesPlain self.old tree) out.old.items out.new.items self.new result }
    {
        match self.found_plain(&tree, work) {
            Ok(found) => self.keep_found(tree, found, out),
            Err(stop) => {
                drop(tree);
                Err(stop)
            }
        }
    }

    /// Keeps such a statement under a name that none has.
    fn keep_found(
        &mut self,
        tree: PrepareTree,
        found: Analysed,
        out: &mut Vec<u8>,
    ) -> Result<(), Stop>
        requires { spec.kept self.old.statements tree.name ≡ None }
        ensures { Does (spec.Keeps self.old tree.name (seen found)) out.old.items out.new.items self.new result }
    {
        let PrepareTree {
            name,
            types,
            statement,
        } = tree;
        drop(types);
        match Rc::new(self.alloc, statement) {
            Ok(statement) => self.keep_shared(name, statement, found, out),
            Err(failed) => {
                drop(failed);
                drop(found);
                drop(name);
                Err(Stop::NoMemory)
            }
        }
    }

    fn keep_shared(
        &mut self,
        name: Str,
        statement: Rc<Statement>,
        found: Analysed,
        out: &mut Vec<u8>,
    ) -> Result<(), Stop>
        requires { spec.kept self.old.statements name ≡ None }
        ensures { Does (spec.Keeps self.old name (seen found)) out.old.items out.new.items self.new result }
    {
        let given = given_of(&self.settings);
        self.defined.keep_plain(name, statement, found, given)?;
        Ok(tag_text(self.alloc, Tag::Prepare, 0, out)?)
    }

    /// What the analysis of such a statement finds that may be kept.
    #[tactic(auto, unfolding(crate::specs::Prepared::prepared))]
    fn found_plain<L: Ledger>(
        &self,
        tree: &PrepareTree,
        work: &mut Work<L>,
    ) -> Result<Analysed, Stop>
        ensures found { (place : Surroundings) × AnalysedAs (spec.prepared place self.now.statements tree.now) result }
        ensures free { IfOk result (λ _. spec.kept self.now.statements tree.now.name ≡ None) }
    {
        let types = declared_types(self.alloc, tree.types.as_slice())?;
        let found = self.analysed_plain(&tree.statement, Some(types.as_slice()), work)?;
        self.defined.admit(tree.name.as_str())?;
        Ok(found)
    }

    /// PREPARE of a statement that names tables or views.
    fn prepare_bound<L: Ledger>(
        &mut self,
        tree: PrepareTree,
        out: &mut Vec<u8>,
        work: &mut Work<L>,
    ) -> Result<(), Stop>
        ensures { Does Unstated out.old.items out.new.items self.new result }
    {
        match declared_types(self.alloc, tree.types.as_slice()) {
            Ok(types) => self.prepare_typed(tree, &types, out, work),
            Err(stop) => {
                drop(tree);
                Err(stop)
            }
        }
    }

    fn prepare_typed<L: Ledger>(
        &mut self,
        tree: PrepareTree,
        kinds: &TypeList,
        out: &mut Vec<u8>,
        work: &mut Work<L>,
    ) -> Result<(), Stop>
        ensures { Does Unstated out.old.items out.new.items self.new result }
    {
        let PrepareTree {
            name,
            types,
            statement,
        } = tree;
        drop(types);
        match Rc::new(self.alloc, statement) {
            Ok(statement) => self.prepare_shared(name, statement, kinds, out, work),
            Err(failed) => {
                drop(failed);
                drop(name);
                Err(Stop::NoMemory)
            }
        }
    }

    fn prepare_shared<L: Ledger>(
        &mut self,
        name: Str,
        statement: Rc<Statement>,
        kinds: &TypeList,
        out: &mut Vec<u8>,
        work: &mut Work<L>,
    ) -> Result<(), Stop>
        ensures { Does Unstated out.old.items out.new.items self.new result }
    {
        let given = given_of(&self.settings);
        self.defined
            .prepare(name, statement, kinds.as_slice(), given, work)?;
        Ok(tag_text(self.alloc, Tag::Prepare, 0, out)?)
    }

    /// EXECUTE: 26000 for an unknown name, 42601 for a wrong number of arguments, the refusals of their types and
    /// then of their values; those of a new analysis and 0A000 where one is needed; then those of the rows.
    pub(crate) fn execute<L: Ledger>(
        &mut self,
        tree: &ExecuteTree,
        out: &mut Vec<u8>,
        work: &mut Work<L>,
    ) -> Result<(), Stop>
        ensures { Does (spec.Executes self.old tree.now) out.old.items out.new.items self.new result }
    {
        let name = tree.name.as_str();
        match self.defined.statement(name) {
            None => Err(refusal_naming(self.alloc, Code::UnknownStatement, name)),
            Some(kept) => match &kept.found {
                Some(found) => {
                    let values = values_of(self.alloc, tree, &found.params)?;
                    self.execute_plain(tree, &values, out, work)
                }
                None => {
                    let values = values_of(self.alloc, tree, kept.source.params())?;
                    self.execute_bound(tree, values, out, work)
                }
            },
        }
    }

    /// EXECUTE of a statement that needs no table, over the values of its parameters.
    fn execute_plain<L: Ledger>(
        &mut self,
        tree: &ExecuteTree,
        values: &Row,
        out: &mut Vec<u8>,
        work: &mut Work<L>,
    ) -> Result<(), Stop>
        ensures { Does (spec.ExecutesPlain self.old tree.now.name values.now) out.old.items out.new.items self.new result }
    {
        // Nothing can refuse the use: no analysis is needed that was not made at PREPARE.
        if let Err(Stop::NoMemory) = self.used(tree, values, work) {
            return Err(Stop::NoMemory);
        }
        self.print_plain(tree.name.as_str(), values.as_slice(), out)
    }

    /// Prints the rows of such a statement.
    fn print_plain(&self, name: &str, values: &[Value], out: &mut Vec<u8>) -> Result<(), Stop>
        ensures { Does (spec.ExecutesPlain self.now name.now values.now) out.old.items out.new.items self.now result }
    {
        if let Some(kept) = self.defined.statement(name)
            && let Some(found) = &kept.found
        {
            let rows = plain_rows(self.alloc, &found.bound, values)?;
            rows_text(self.alloc, &found.result, &rows, out)?;
        }
        Ok(())
    }

    /// EXECUTE of a statement that names tables or views.
    fn execute_bound<L: Ledger>(
        &mut self,
        tree: &ExecuteTree,
        values: Row,
        out: &mut Vec<u8>,
        work: &mut Work<L>,
    ) -> Result<(), Stop>
        ensures { Does Unstated out.old.items out.new.items self.new result }
    {
        let used = self.used(tree, &values, work)?;
        self.answer(used.plan, values, &used.columns, out, work)
    }

    /// EXPLAIN EXECUTE: the plan that the use takes, which counts as one.
    pub(crate) fn explain_execute<L: Ledger>(
        &mut self,
        tree: &ExecuteTree,
        out: &mut Vec<u8>,
        work: &mut Work<L>,
    ) -> Result<(), Stop>
        ensures { Does Unstated out.old.items out.new.items self.new result }
    {
        let name = tree.name.as_str();
        let Some(kept) = self.defined.statement(name) else {
            return Err(refusal_naming(self.alloc, Code::UnknownStatement, name));
        };
        let values = values_of(self.alloc, tree, kept.source.params())?;
        let used = self.used(tree, &values, work)?;
        Ok(plan_lines(self.alloc, &used.plan, out)?)
    }

    /// One use of a statement.
    fn used<L: Ledger>(
        &mut self,
        tree: &ExecuteTree,
        values: &Row,
        work: &mut Work<L>,
    ) -> Result<Ready, Stop>
        ensures { self.new ≡ self.old }
    {
        let given = given_of(&self.settings);
        self.defined
            .ready(tree.name.as_str(), values.as_slice(), given, work)
    }

    /// DEALLOCATE: 26000 for an unknown name.
    pub(crate) fn deallocate(&mut self, name: &str, out: &mut Vec<u8>) -> Result<(), Stop>
        ensures { Does Unstated out.old.items out.new.items self.new result }
    {
        if !self.defined.retire(name) {
            return Err(refusal_naming(self.alloc, Code::UnknownStatement, name));
        }
        Ok(tag_text(self.alloc, Tag::Deallocate, 0, out)?)
    }

    /// DEALLOCATE ALL.
    pub(crate) fn deallocate_all(&mut self, out: &mut Vec<u8>) -> Result<(), Stop>
        ensures { Does Unstated out.old.items out.new.items self.new result }
    {
        self.defined.retire_all();
        Ok(tag_text(self.alloc, Tag::DeallocateAll, 0, out)?)
    }

    /// DISCARD PLANS: every statement is analysed and planned again at its next use.
    pub(crate) fn discard_plans(&mut self, out: &mut Vec<u8>) -> Result<(), Stop>
        ensures { Does Unstated out.old.items out.new.items self.new result }
    {
        self.defined.touch_all();
        Ok(tag_text(self.alloc, Tag::DiscardPlans, 0, out)?)
    }
}

/// The values of EXECUTE's arguments.
fn values_of(alloc: Global, tree: &ExecuteTree, kinds: &TypeList) -> Result<Row, Stop>
    ensures { Answers (spec.argument_list tree.now kinds.now) result }
{
    let kinds = kinds.as_slice();
    if tree.arguments.as_slice().len() != kinds.len() {
        let name = tree.name.as_str();
        return Err(refusal_naming(alloc, Code::WrongParameterCount, name));
    }
    let targets = analyse_args(alloc, tree.arguments.as_slice(), kinds)?;
    argument_values(alloc, targets.as_slice(), kinds)
}
