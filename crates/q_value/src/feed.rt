ghost use Rattle.std.specs.Prelude.{◌≡◌, ◌+◌, ◌↔◌, List, IfOk, OnOk};
ghost use Rattle.q_value.specs.declared.value.Outcome.{Outcome};
ghost use Rattle.q_value.specs.Feed.{GivesFirst, EndsAtFault};

use crate::Outcome;
use q_base::{NoMemory, Work};
use std::alloc::Global;
use std::sync::ledger::Ledger;

/// Rows that are given one by one, from what a place holds: the feed itself keeps only how far it is.
pub trait RowFeed {
    /// Where the rows come from, such as the stored tables.
    type Place;

    /// What is left at a place, in order.
    ghost rest: { Self → Self.Place → List Outcome };

    /// That the feed may be asked at a place.
    ghost fits: { Self → Self.Place → Type 0 };

    /// That two places are alike for the feed.
    ghost agree: { Self → Self.Place → Self.Place → Type 0 };

    /// The first of what is left at `place`, which it leaves behind, or `None` exactly where nothing
    /// is left. Counts one pull.
    fn next<L: Ledger>(
        &mut self,
        alloc: Global,
        place: &Self::Place,
        work: &mut Work<L>,
    ) -> Result<Option<Outcome>, NoMemory>
        requires { fits self.old place.now }
        ensures first { IfOk result (λ given. GivesFirst (rest self.old place.now) given (rest self.new place.now)) }
        ensures work { OnOk result (work.new ≡ record work.old { pulls = work.old.pulls + 1 }) }
        ensures fits { (p : Self.Place) → fits self.new p ↔ fits self.old p }
        ensures agree { (p q : Self.Place) → agree self.new p q ↔ agree self.old p q };

    /// At alike places the same is left.
    ghost same_rest: { (feed : Self) (p q : Self.Place) → agree feed p q → rest feed p ≡ rest feed q };

    /// The feed may be asked at both of two alike places or at neither.
    ghost same_fits: { (feed : Self) (p q : Self.Place) → agree feed p q → (fits feed p ↔ fits feed q) };

    /// A fault stands only as the last.
    ghost faults_last: { (feed : Self) (p : Self.Place) → fits feed p → EndsAtFault (rest feed p) };
}
