ghost use Rattle.std.specs.Prelude.{◌≡◌, [], ◌∷◌, ◌++◌, length, None, OnOk, option_map};
ghost use Rattle.std.specs.Option.{option_copied};
ghost use Rattle.session_core.specs.Prepared.{kept};
ghost use Rattle.session_core.specs.Seen.{found_in};

use analyzer::Analysed;
use indexmap::IndexMap;
use plan_invalid::Marks;
use plan_source::{CachedSource, Env, Ready, SourceStop};
use q_base::{NoMemory, Str, Work};
use q_value::Value;
use std::alloc::Global;
use std::marker::Model;
use std::sync::ledger::Ledger;

/// A prepared statement.
#[derive(Drop)]
pub struct Kept {
    /// Of a statement that needs no table what its analysis found, which nothing can change.
    pub found: Option<Analysed>,
    pub source: CachedSource,
}

/// The prepared statements of a session by name, in order of making. Contracts see their names, and what is found of
/// those that need no table.
#[derive(Drop)]
pub struct Statements {
    by_name: IndexMap<String, Kept>,
}

impl Model for Statements {
    ghost use Rattle.std.specs.Prelude.{List};
    ghost use Rattle.session_core.specs.State.{Statement};
    ghost use Rattle.session_core.specs.Seen.{statements_of};
    ghost use Rattle.std.specs.Coded.{codes};
    ghost use Rattle.query_tree.specs.contracts.query.Item as item;
    ghost use Rattle.query_tree.specs.contracts.target.Target as target;

    ghost Value = { List Statement };

    ghost coded = { Prim.hlevel (codes, item.the_row.coded, target.the_row.coded) };

    ghost view = { λ s. statements_of s.by_name.entries };
}

impl Statements {
    pub fn new(alloc: Global) -> Statements
        ensures { result ≡ [] }
    {
        Statements {
            by_name: IndexMap::new(alloc),
        }
    }

    pub fn len(&self) -> usize
        ensures { result ≡ length self.now }
    {
        self.by_name.len()
    }

    /// The statement of a name; `None` exactly where there is none.
    pub fn get(&self, name: &str) -> Option<&Kept>
        ensures { option_map found_in (option_copied result) ≡ kept self.now name.now }
    {
        self.by_name.get(name)
    }

    /// One use of the statement of a name; `None` exactly where there is none.
    pub fn ready<L: Ledger>(
        &mut self,
        name: &str,
        values: &[Value],
        env: &Env<'_>,
        marks: &mut Marks,
        work: &mut Work<L>,
    ) -> Option<Result<Ready, SourceStop>>
        ensures { self.new ≡ self.old }
    {
        let Some(at) = self.by_name.get_index_of(name) else {
            return None;
        };
        let Some(kept) = self.by_name.get_index_mut(at) else {
            return None;
        };
        Some(kept.source.ready(values, env, marks, work))
    }

    /// The name and the statement at a place in order of making.
    pub fn at(&self, place: usize) -> Option<(&str, &Kept)> {
        let (name, kept) = self.by_name.get_index(place)?;
        Some((name.as_str(), kept))
    }

    /// Keeps a statement under a name that none has.
    pub fn insert(&mut self, name: Str, statement: Kept) -> Result<(), NoMemory>
        requires { kept self.old name ≡ None }
        ensures { OnOk result (self.new ≡ self.old ++ record { name = name; found = found_in statement } ∷ []) }
    {
        self.by_name.insert(name.into_string(), statement)?;
        Ok(())
    }

    /// Takes a statement out.
    pub fn remove(&mut self, name: &str) -> Option<Kept> {
        self.by_name.shift_remove(name)
    }

    /// Takes the newest statement out.
    pub fn pop(&mut self) -> Option<Kept> {
        let (_, kept) = self.by_name.pop()?;
        Some(kept)
    }
}
