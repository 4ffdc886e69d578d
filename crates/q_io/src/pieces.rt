//! Bytes that are given piece by piece.
ghost use Rattle.std.specs.Prelude.{◌≡◌, ◌<◌, ◌++◌, length, take, drop};
ghost use Rattle.q_io.specs.Memory.{moved_len};

use std::marker::Model;

/// Bytes that are given from the front, at most `piece` of them in a call.
#[derive(Drop)]
pub(crate) struct Pieces {
    bytes: Vec<u8>,
    given: usize,
    piece: usize,
}

impl Model for Pieces {
    ghost use Rattle.std.specs.Prelude.{◌<◌, ◌≤◌, drop, vec_len};
    ghost use Rattle.q_io.specs.Memory.{Supply};

    ghost Value = { Supply };

    ghost view = { λ s. record { left = drop s.given s.bytes.items; piece = s.piece } };

    ghost invariant = { λ s. (s.given ≤ vec_len s.bytes) × (0 < s.piece) };
}

impl Pieces {
    /// All of `bytes` is left.
    pub(crate) fn new(bytes: Vec<u8>, piece: usize) -> Pieces
        requires { 0 < piece }
        ensures { result ≡ record { left = bytes.items; piece = piece } }
    {
        Pieces {
            bytes,
            given: 0,
            piece,
        }
    }

    /// Moves the first bytes to the front of `buf`, and gives their number.
    pub(crate) fn give(&mut self, buf: &mut [u8]) -> usize
        ensures count { result ≡ moved_len self.old.piece (length buf.old) (length self.old.left) }
        ensures taken { self.new ≡ record self.old { left = drop result self.old.left } }
        ensures moved { buf.new ≡ take result self.old.left ++ drop result buf.old }
        ensures piece { 0 < self.old.piece }
    {
        let left = &self.bytes.as_slice()[self.given..];
        let count = self.piece.min(buf.len().min(left.len()));
        buf[..count].copy_from_slice(&left[..count]);
        self.given += count;
        count
    }
}
