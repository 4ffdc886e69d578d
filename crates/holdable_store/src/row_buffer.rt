ghost use Rattle.std.specs.Prelude.{◌≡◌, ℕ, ◌+◌, ◌^◌, ◌<◌, ◌≤◌, List, [], ◌∷◌, ◌++◌, length, drop, OnOk, OnErr, IsErr, if◌then◌else◌, nat_lt, None};
ghost use Rattle.std.specs.Option.{option_copied};
ghost use Rattle.holdable_store.specs.Buffers.{outcome_at, next_position, without_before};

use q_base::NoMemory;
use q_value::Outcome;
use std::alloc::Global;
use std::collections::VecDeque;
use std::marker::Model;

/// The greatest position that an outcome may have.
const LAST_POSITION: u64 = 1 << 62;

/// The outcomes at consecutive positions of a query's answer: the kept ones run from a first position
/// up to the newest, and each push gives the next position its outcome. In PostgreSQL a tuplestore
/// (tuplestore.c) keeps the rows of a WITH HOLD cursor; the bound on positions is this project's own.
#[derive(Drop)]
pub struct RowBuffer {
    first: u64,
    kept: VecDeque<Outcome>,
}

impl Model for RowBuffer {
    ghost use Rattle.std.specs.Prelude.{◌+◌, ◌^◌, ◌≤◌, length};
    ghost use Rattle.holdable_store.specs.Buffer.{Buffer};

    ghost Value = { Buffer };

    ghost view = { λ buffer. record { first = buffer.first; kept = buffer.kept.items } };

    ghost invariant = { λ buffer. buffer.first + length buffer.kept.items ≤ 2 ^ 62 + 1 };
}

impl RowBuffer {
    /// The buffer that keeps nothing yet and whose first push is the outcome of position `first`, which
    /// is at most 2^62. It takes no memory.
    pub fn new(alloc: Global, first: u64) -> RowBuffer
        requires { first ≤ 2 ^ 62 }
        ensures { result ≡ record { first = first; kept = [] } }
    {
        RowBuffer {
            first,
            kept: VecDeque::new(alloc),
        }
    }

    /// Keeps the outcome of the next position, or leaves the buffer as it was where memory is refused or
    /// that position passes 2^62.
    pub fn push(&mut self, outcome: Outcome) -> Result<(), NoMemory>
        ensures ok { OnOk result (self.new ≡ record self.old { kept = self.old.kept ++ outcome ∷ [] }) }
        ensures last { OnOk result (next_position self.old ≤ 2 ^ 62) }
        ensures err { OnErr result (self.new ≡ self.old) }
    {
        if self.next() > LAST_POSITION {
            return Err(NoMemory);
        }
        self.kept.push_back(outcome)?;
        Ok(())
    }

    /// The outcome of a position; `None` exactly outside the kept positions.
    pub fn get(&self, position: u64) -> Option<&Outcome>
        ensures { option_copied result ≡ outcome_at self.now position }
    {
        let index = position.checked_sub(self.first)?;
        self.kept.get(index as usize)
    }

    /// Drops the outcomes before `position`, in time that grows with their number alone. Where the kept
    /// ones end before `position` all are dropped, and the next push still has the position that it had.
    pub fn drop_before(&mut self, position: u64)
        ensures dropped { self.new ≡ without_before position self.old }
        ensures next { next_position self.new ≡ next_position self.old }
        ensures kept { (p : ℕ) → outcome_at self.new p ≡ (if nat_lt p position then None else outcome_at self.old p) }
    {
        let gone = position.min(self.next()).saturating_sub(self.first);
        drop_front(&mut self.kept, gone);
        self.first += gone;
    }

    /// The position of the next push.
    fn next(&self) -> u64
        ensures { result ≡ next_position self.now }
    {
        self.first + self.kept.len() as u64
    }
}

#[tactic(auto, using(crate::proofs::Positions::drop_one_more))]
fn drop_front(kept: &mut VecDeque<Outcome>, count: u64)
    ensures { kept.new.items ≡ drop count kept.old.items }
{
    for _turn in 0..count {
        let _ = kept.pop_front();
    }
}
