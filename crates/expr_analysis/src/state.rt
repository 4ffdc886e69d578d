ghost use Rattle.std.specs.Prelude.{◌≡◌, ◌++◌, length, OnOk, IfOk};
ghost use Rattle.std.specs.Option.{option_copied};
ghost use Rattle.expr_analysis.specs.Analysis as spec;

use q_base::{ListOf, NoMemory};
use q_value::SqlType;
use query_tree::AggregateList;
use std::alloc::Global;
use std::marker::Model;

/// What is known of a parameter.
#[derive(Clone, Copy, Debug, PartialEq, Eq)]
pub enum Known {
    Unused,
    /// Its first use gives it no type.
    Untyped,
    Typed(SqlType),
}

/// What is known of the parameters from `$1` to the greatest that was declared or used.
#[derive(Drop)]
pub struct KnownList {
    items: Vec<Known>,
}

impl Model for KnownList {
    ghost use Rattle.std.specs.Prelude.{List};
    ghost use Rattle.expr_analysis.specs.declared.state.Known.{Known};

    ghost Value = { List Known };

    ghost view = { λ list. list.items.items };
}

impl KnownList {
    pub fn of_types(alloc: Global, types: &[SqlType]) -> Result<KnownList, NoMemory>
        ensures { IfOk result (λ known. known ≡ spec.known_types types.now) }
    {
        let mut items = Vec::new(alloc);
        for kind in types {
            items.push(Known::Typed(*kind))?;
        }
        Ok(KnownList { items })
    }

    pub fn as_slice(&self) -> &[Known]
        ensures { result.now ≡ self.now }
    {
        self.items.as_slice()
    }

    /// What is known of the parameter at a place, counted from 0.
    pub fn at(&self, place: usize) -> Known
        ensures { result ≡ spec.known_at self.now place }
    {
        match self.items.get(place) {
            Some(known) => *known,
            None => Known::Unused,
        }
    }

    /// Makes the list reach the place.
    pub fn reach(&mut self, place: usize) -> Result<(), NoMemory>
        ensures { OnOk result (self.new ≡ spec.reached place self.old) }
    {
        for _turn in 0..place.saturating_sub(self.items.len()) {
            self.items.push(Known::Unused)?;
        }
        if self.items.len() <= place {
            self.items.push(Known::Unused)?;
        }
        Ok(())
    }

    /// Notes what is known of the parameter at a place that the list reaches.
    pub fn set(&mut self, place: usize, known: Known)
        ensures { self.new ≡ spec.noted place known self.old }
    {
        if place < self.items.len() {
            self.items[place] = known;
        }
    }
}

/// What an analysis knows so far.
#[derive(Drop)]
pub struct State {
    /// The statement stands in PREPARE.
    pub prepared: bool,
    /// The first reading settles the types of the parameters and passes over refusals of operands.
    pub first: bool,
    pub known: KnownList,
    /// The different calls of aggregates.
    pub aggregates: AggregateList,
}

impl State {
    pub fn new(alloc: Global, declared: Option<&[SqlType]>) -> Result<State, NoMemory>
        ensures { IfOk result (λ state. state ≡ spec.start (option_copied declared.entry)) }
    {
        let known = match declared {
            Some(types) => KnownList::of_types(alloc, types)?,
            None => KnownList::of_types(alloc, &[])?,
        };
        Ok(State {
            prepared: declared.is_some(),
            first: declared.is_some(),
            known,
            aggregates: ListOf::new(alloc),
        })
    }

    /// The same for a statement, which is read first for its parameters' types only where `undeclared` says that
    /// one without a declared type is written.
    pub fn begin(
        alloc: Global,
        declared: Option<&[SqlType]>,
        undeclared: bool,
    ) -> Result<State, NoMemory>
        ensures { IfOk result (λ state. state ≡ spec.begin (option_copied declared.entry) undeclared) }
    {
        let mut state = State::new(alloc, declared)?;
        state.first = declared.is_some() && undeclared;
        Ok(state)
    }
}

/// How many types are declared.
pub fn count_declared(declared: Option<&[SqlType]>) -> usize
    ensures { result ≡ length (spec.types_in (option_copied declared.entry)) }
{
    match declared {
        Some(types) => types.len(),
        None => 0,
    }
}

/// Where an expression stands, and so what it may hold.
#[derive(Clone, Copy, Debug, PartialEq, Eq)]
pub struct Allowed {
    pub aggregates: bool,
    pub arithmetic: bool,
    /// Within the argument of an aggregate, which judges arithmetic by itself.
    pub in_aggregate: bool,
}
