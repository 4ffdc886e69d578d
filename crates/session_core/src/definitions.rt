//! What a session has defined: its catalog, its prepared statements, and the marks that tell which of these a
//! change of the catalog made invalid. The methods here alone change them, so that each change is told to the marks.

ghost use Rattle.std.specs.Prelude.{◌≡◌, [], ◌∷◌, ◌++◌, None, IfOk, OnOk, IfErr};
ghost use Rattle.std.specs.Option.{option_copied, option_map};
ghost use Rattle.q_value.specs.Answers.{Answers};
ghost use Rattle.session_core.specs.Prepared as spec;
ghost use Rattle.analyzer.specs.Statements.{seen};
ghost use Rattle.session_core.specs.Seen.{found_in};

use crate::machine::statement_row;
use crate::statements::{Kept, Statements};
use analyzer::{Analysed, NameIds};
use cat_core::{Catalog, Changes};
use cat_undo::{CatMark, CatStore};
use plan_invalid::Marks;
use plan_source::{CachedSource, Env, Ready, SourceStop};
use q_base::{Code, Mode, NoMemory, Stop, Str, Switches, Work, refusal, refusal_naming};
use q_value::{Rows, SqlType, TypeList, Value};
use query_tree::Copies;
use sql_tree::Statement;
use std::alloc::Global;
use std::marker::Model;
use std::rc::Rc;
use std::sync::ledger::Ledger;

/// The most statements that a session keeps, a limit of this project's own.
const MOST_STATEMENTS: usize = 4_096;

/// The settings that a prepared statement's use reads.
#[derive(Clone, Copy)]
pub struct Given<'a> {
    pub path: &'a [Str],
    pub mode: Mode,
    pub switches: Switches,
}

/// The catalog, the prepared statements and their marks.
#[derive(Drop)]
pub struct Definitions {
    alloc: Global,
    store: CatStore,
    marks: Marks,
    statements: Statements,
    /// The catalog was changed since its changes were kept for good.
    changed: bool,
}

impl Model for Definitions {
    ghost use Rattle.std.specs.Prelude.{List};
    ghost use Rattle.session_core.specs.State.{Statement};
    ghost use Rattle.std.specs.Coded.{codes};
    ghost use Rattle.query_tree.specs.contracts.query.Item as item;
    ghost use Rattle.query_tree.specs.contracts.target.Target as target;

    ghost Value = { List Statement };

    ghost coded = { Prim.hlevel (codes, item.the_row.coded, target.the_row.coded) };

    ghost view = { λ d. d.statements };
}

impl Definitions {
    /// The schema public, and no statements.
    pub fn new(alloc: Global) -> Result<Definitions, NoMemory>
        ensures { IfOk result (λ defined. defined ≡ []) }
    {
        Ok(Definitions {
            alloc,
            store: CatStore::new(alloc)?,
            marks: Marks::new(alloc),
            statements: Statements::new(alloc),
            changed: false,
        })
    }

    pub fn catalog(&self) -> &Catalog {
        self.store.catalog()
    }

    /// The statement of a name; `None` exactly where there is none.
    pub fn statement(&self, name: &str) -> Option<&Kept>
        ensures { option_map found_in (option_copied result) ≡ spec.kept self.now name.now }
    {
        self.statements.get(name)
    }

    /// Makes changes of the catalog.
    pub fn apply(&mut self, changes: Changes) -> Result<(), NoMemory>
        ensures { self.new ≡ self.old }
    {
        self.changed = true;
        self.store.apply(changes, &mut self.marks)
    }

    /// Makes every statement invalid.
    pub fn touch_all(&mut self)
        ensures { self.new ≡ self.old }
    {
        self.store.touch_all(&mut self.marks);
    }

    /// Names the catalog of now.
    pub fn mark(&self) -> CatMark {
        self.store.mark()
    }

    /// Gives back the catalog of a mark. Statements stay, those of changed objects as invalid ones.
    pub fn rollback_to(&mut self, mark: CatMark)
        ensures { self.new ≡ self.old }
    {
        self.store.rollback_to(mark, &mut self.marks);
    }

    /// Whether the catalog was changed since its changes were kept for good, taken back or not.
    pub fn has_changed(&self) -> bool {
        self.changed
    }

    /// Keeps the changes of the catalog for good.
    pub fn forget(&mut self)
        ensures { self.new ≡ self.old }
    {
        self.store.forget();
        self.changed = false;
    }

    /// Keeps a statement that needs no table, with what its analysis found.
    pub fn keep_plain(
        &mut self,
        name: Str,
        tree: Rc<Statement>,
        found: Analysed,
        given: Given<'_>,
    ) -> Result<(), NoMemory>
        requires { spec.kept self.old name ≡ None }
        ensures { OnOk result (self.new ≡ self.old ++ record { name = name; found = Some (seen found) } ∷ []) }
    {
        let env = env_of(&self.store, given);
        let marks = &mut self.marks;
        let copy = copy_plain(self.alloc, &found)?;
        // Without views there is nothing to refuse.
        let source = match CachedSource::keep(self.alloc, tree, copy, &env, marks) {
            Ok(source) => source,
            Err(_) => return Err(NoMemory),
        };
        let kept = Kept {
            found: Some(found),
            source,
        };
        self.statements.insert(name, kept)
    }

    /// Keeps a statement: the refusals of its analysis, then 42P05 for a name that is taken, then 54000 past 4,096.
    pub fn prepare<L: Ledger>(
        &mut self,
        name: Str,
        tree: Rc<Statement>,
        declared: &[SqlType],
        given: Given<'_>,
        work: &mut Work<L>,
    ) -> Result<(), Stop> {
        let env = env_of(&self.store, given);
        let marks = &mut self.marks;
        let source = CachedSource::prepare(self.alloc, tree, declared, &env, marks, work)?;
        if let Err(stop) = self.admit(name.as_str()) {
            source.retire(&mut self.marks);
            return Err(stop);
        }
        let kept = Kept {
            found: None,
            source,
        };
        Ok(self.statements.insert(name, kept)?)
    }

    /// 42P05 for a name that is taken, and then 54000 where there is no room.
    pub fn admit(&self, name: &str) -> Result<(), Stop>
        ensures admitted { Answers (spec.admitted self.now name.now) result }
        ensures free { IfOk result (λ _. spec.kept self.now name.now ≡ None) }
    {
        if self.statements.get(name).is_some() {
            return Err(refusal_naming(self.alloc, Code::DuplicateStatement, name));
        }
        if MOST_STATEMENTS <= self.statements.len() {
            return Err(refusal(self.alloc, Code::LimitExceeded));
        }
        Ok(())
    }

    /// One use of a statement: 26000 for an unknown name, the refusals of a new analysis, and 0A000 where it gives
    /// another result type than the one at PREPARE.
    pub fn ready<L: Ledger>(
        &mut self,
        name: &str,
        values: &[Value],
        given: Given<'_>,
        work: &mut Work<L>,
    ) -> Result<Ready, Stop>
        ensures { self.new ≡ self.old }
    {
        let env = env_of(&self.store, given);
        match self
            .statements
            .ready(name, values, &env, &mut self.marks, work)
        {
            Some(Ok(ready)) => Ok(ready),
            Some(Err(stop)) => Err(stop_of(self.alloc, stop)),
            None => Err(refusal_naming(self.alloc, Code::UnknownStatement, name)),
        }
    }

    /// Drops a statement; true exactly where it was there.
    pub fn retire(&mut self, name: &str) -> bool {
        match self.statements.remove(name) {
            Some(kept) => {
                retire_source(kept, &mut self.marks);
                true
            }
            None => false,
        }
    }

    /// Drops all statements.
    pub fn retire_all(&mut self) {
        for _turn in 0..self.statements.len() {
            if let Some(kept) = self.statements.pop() {
                retire_source(kept, &mut self.marks);
            }
        }
    }

    /// The rows of the line `\prepared`.
    pub fn shown(&self, given: Given<'_>) -> Result<Rows, NoMemory> {
        let env = env_of(&self.store, given);
        let mut rows = Rows::new(self.alloc);
        for place in 0..self.statements.len() {
            if let Some((name, kept)) = self.statements.at(place) {
                let view = kept.source.show(&env, &self.marks);
                rows.push(statement_row(self.alloc, name, &view)?)?;
            }
        }
        Ok(rows)
    }
}

/// A second owner of what is found of a statement that needs no table.
fn copy_plain(alloc: Global, found: &Analysed) -> Result<Analysed, NoMemory> {
    let mut params = TypeList::new(alloc);
    for kind in found.params.as_slice() {
        params.push(*kind)?;
    }
    Ok(Analysed {
        bound: Rc::clone(&found.bound)?,
        ids: NameIds::new(alloc),
        params,
        result: found.result.copy(alloc)?,
    })
}

/// Why a use took no plan, as a refusal.
fn stop_of(alloc: Global, stop: SourceStop) -> Stop {
    match stop {
        SourceStop::Sql(error) => Stop::Sql(error),
        SourceStop::Changed { .. } => refusal(alloc, Code::CachedPlanChanged),
        SourceStop::NoMemory => Stop::NoMemory,
    }
}

fn retire_source(kept: Kept, marks: &mut Marks) {
    let Kept { source, .. } = kept;
    source.retire(marks);
}

fn env_of<'a>(store: &'a CatStore, given: Given<'a>) -> Env<'a> {
    Env {
        catalog: store.catalog(),
        path: given.path,
        mode: given.mode,
        switches: given.switches,
    }
}
