//! Calls by number, and which of them fail.
ghost use Rattle.std.specs.Prelude.{◌≡◌, ◌↔◌, Some, IsTrue};
ghost use Rattle.q_io.specs.Memory.{IsListed, number_after};

use std::marker::Model;

/// Counts calls from 0, and knows which of them are to fail.
#[derive(Drop)]
pub(crate) struct Calls {
    fails: Vec<u64>,
    /// The number of the next call, while a `u64` can name it.
    next: Option<u64>,
}

impl Model for Calls {
    ghost use Rattle.q_io.specs.Memory.{Schedule};

    ghost Value = { Schedule };

    ghost view = { λ s. record { fails = s.fails.items; call = s.next } };
}

impl Calls {
    /// No call yet; those that `fails` lists are to fail.
    pub(crate) fn new(fails: Vec<u64>) -> Calls
        ensures { result ≡ record { fails = fails.items; call = Some 0 } }
    {
        Calls {
            fails,
            next: Some(0),
        }
    }

    /// Counts a call, and tells whether it is to fail.
    pub(crate) fn count(&mut self) -> bool
        ensures listed { IsTrue result ↔ IsListed self.old.fails self.old.call }
        ensures counted { self.new ≡ record self.old { call = number_after self.old.call } }
    {
        let Some(call) = self.next else {
            return false;
        };
        self.next = call.checked_add(1);
        self.fails.contains(&call)
    }
}
