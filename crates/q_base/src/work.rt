ghost use Rattle.std.specs.Prelude.{◌≡◌, ◌≤◌, ◌+◌};

use std::marker::Model;
use std::sync::ledger::{Blank, Book, Ledger, Share};

/// How many analyses, plans and pulls of a row were made: counts that contracts see and that take
/// no bytes and no time.
///
/// The three counts are shares of one ledger, and a ledger has one book, so no second `Work` can be
/// made for `L`: what is lent a `Work` can count in it and can't exchange it.
#[derive(Drop)]
pub struct Work<L: Ledger> {
    book: Book<L>,
    analyses: Share<L>,
    plans: Share<L>,
    pulls: Share<L>,
}

impl<L: Ledger> Model for Work<L> {
    ghost use Rattle.std.specs.Prelude.{◌<◌};
    ghost use Rattle.q_base.specs.Counts.{Counts};

    ghost Value = { Counts };

    ghost view = { λ w. record { analyses = w.analyses.amount; plans = w.plans.amount; pulls = w.pulls.amount } };

    ghost invariant = { λ w. (0 < w.analyses.parts) × (0 < w.plans.parts) × (0 < w.pulls.parts) };
}

impl<L: Ledger> Work<L> {
    /// Counts from zero, over the blank of `L`'s ledger.
    pub fn open(blank: Blank) -> Work<L>
        requires name { blank.name ≡ L.name }
        requires parts { blank.parts ≡ L.parts }
        requires three { 3 ≤ blank.parts }
        ensures { result ≡ record { analyses = 0; plans = 0; pulls = 0 } }
    {
        let (book, mut analyses) = blank.open::<L>();
        let plans = analyses.split_off(1, 0);
        let pulls = analyses.split_off(1, 0);
        Work {
            book,
            analyses,
            plans,
            pulls,
        }
    }

    /// Counts one analysis of a statement.
    pub fn count_analysis(&mut self)
        ensures { self.new ≡ record self.old { analyses = self.old.analyses + 1 } }
    {
        self.book.add(&mut self.analyses, 1);
    }

    /// Counts one plan made.
    pub fn count_plan(&mut self)
        ensures { self.new ≡ record self.old { plans = self.old.plans + 1 } }
    {
        self.book.add(&mut self.plans, 1);
    }

    /// Counts one outcome asked of a run.
    pub fn count_pull(&mut self)
        ensures { self.new ≡ record self.old { pulls = self.old.pulls + 1 } }
    {
        self.book.add(&mut self.pulls, 1);
    }
}
