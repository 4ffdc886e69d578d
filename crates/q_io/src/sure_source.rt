//! A source in memory that never fails.
ghost use Rattle.std.specs.Prelude.{◌≡◌, ◌<◌, length, drop, Ok, Some, IfOk, IsOk};
ghost use Rattle.std.specs.Io.{ReadsAtMost};
ghost use Rattle.std.specs.Io.KnownBytes.{ReadConsumes};
ghost use Rattle.q_io.specs.Faults.{HasCause};
ghost use Rattle.q_io.specs.Memory.{moved_len};
ghost use Rattle.q_io.specs.Moves.{Moves, EndsWhereNoneLeft};

use crate::fault::Failed;
use crate::pieces::Pieces;
use crate::source::Source;
use std::marker::Model;

/// Bytes in memory that are given piece by piece, with no fault. Its count of faults is always 0,
/// so whatever is said only of a source that failed is ruled out.
#[derive(Drop)]
pub struct SureSource {
    pieces: Pieces,
}

impl Model for SureSource {
    ghost use Rattle.q_io.specs.Memory.{Supply};

    ghost Value = { Supply };

    ghost view = { λ s. s.pieces };
}

impl SureSource {
    /// A source of `bytes` that gives at most `piece` of them in a call, where `piece` is at least 1.
    /// Takes no memory.
    pub fn new(bytes: Vec<u8>, piece: usize) -> SureSource
        requires { 0 < piece }
        ensures { result ≡ record { left = bytes.items; piece = piece } }
    {
        SureSource {
            pieces: Pieces::new(bytes, piece),
        }
    }
}

impl Source for SureSource {
    ghost use Rattle.std.specs.Prelude.{Some};

    ghost left = { λ s. Some s.left };

    ghost faults = { λ _. 0 };

    fn read(&mut self, buf: &mut [u8]) -> Result<usize, Failed>
        requires { 0 < length buf.old }
        ensures sure { IsOk result }
        ensures count { result ≡ Ok (moved_len self.old.piece (length buf.old) (length self.old.left)) }
        ensures state { IfOk result (λ n. self.new ≡ record self.old { left = drop n self.old.left }) }

        // What every source keeps to.
        ensures bound { ReadsAtMost result buf.new }
        ensures bytes { ReadConsumes (Some self.old.left) (Some self.new.left) result buf.new }
        ensures buffer { Moves self.old.left result buf.old buf.new }
        ensures end { EndsWhereNoneLeft self.old.left result }
        ensures cause { HasCause 0 0 result }
    {
        Ok(self.pieces.give(buf))
    }
}
