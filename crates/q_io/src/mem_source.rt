//! A source in memory whose listed calls fail.
ghost use Rattle.std.specs.Prelude.{◌≡◌, ◌<◌, ◌↔◌, length, Some, IfOk, IsErr};
ghost use Rattle.std.specs.Io.{ReadsAtMost};
ghost use Rattle.std.specs.Io.KnownBytes.{ReadConsumes};
ghost use Rattle.q_io.specs.Faults.{HasCause};
ghost use Rattle.q_io.specs.Memory.{moved_len, IsListed, after_read};
ghost use Rattle.q_io.specs.Moves.{Moves, EndsWhereNoneLeft};

use crate::calls::Calls;
use crate::fault::{Failed, FaultCount};
use crate::pieces::Pieces;
use crate::source::Source;
use std::marker::Model;

/// Bytes in memory that are given piece by piece, and whose listed calls fail.
#[derive(Drop)]
pub struct MemSource {
    pieces: Pieces,
    calls: Calls,
    faults: FaultCount,
}

impl Model for MemSource {
    ghost use Rattle.q_io.specs.Memory.{SourceState};

    ghost Value = { SourceState };

    ghost view = { λ s. record {
      left = s.pieces.left;
      piece = s.pieces.piece;
      fails = s.calls.fails;
      call = s.calls.call;
      faults = s.faults;
    } };
}

impl MemSource {
    /// A source of `bytes` that gives at most `piece` of them in a call, where `piece` is at least 1.
    /// The calls of `read` are numbered from 0, and those that `fails` lists fail. Takes no memory.
    pub fn new(bytes: Vec<u8>, piece: usize, fails: Vec<u64>) -> MemSource
        requires { 0 < piece }
        ensures { result ≡ record {
          left = bytes.items;
          piece = piece;
          fails = fails.items;
          call = Some 0;
          faults = 0;
        } }
    {
        MemSource {
            pieces: Pieces::new(bytes, piece),
            calls: Calls::new(fails),
            faults: FaultCount::new(),
        }
    }
}

impl Source for MemSource {
    ghost use Rattle.std.specs.Prelude.{Some};

    ghost left = { λ s. Some s.left };

    ghost faults = { λ s. s.faults };

    fn read(&mut self, buf: &mut [u8]) -> Result<usize, Failed>
        requires { 0 < length buf.old }
        ensures fails { IsErr result ↔ IsListed self.old.fails self.old.call }
        ensures count { IfOk result (λ n.
            n ≡ moved_len self.old.piece (length buf.old) (length self.old.left)) }
        ensures state { self.new ≡ after_read self.old result }

        // What every source keeps to.
        ensures bound { ReadsAtMost result buf.new }
        ensures bytes { ReadConsumes (Some self.old.left) (Some self.new.left) result buf.new }
        ensures buffer { Moves self.old.left result buf.old buf.new }
        ensures end { EndsWhereNoneLeft self.old.left result }
        ensures cause { HasCause self.old.faults self.new.faults result }
    {
        if self.calls.count() {
            return Err(self.faults.raise());
        }
        Ok(self.pieces.give(buf))
    }
}
