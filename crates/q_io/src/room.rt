//! Room that is written over piece by piece.
ghost use Rattle.std.specs.Prelude.{◌≡◌, ◌-◌, ◌<◌, ◌≤◌, ◌↔◌, ◌++◌, [], length, take, vec_len, IsTrue};
ghost use Rattle.q_io.specs.Memory.{moved_len};

use std::marker::Model;

/// Bytes that are written over from the front, at most `piece` of them in a call.
#[derive(Drop)]
pub(crate) struct Room {
    bytes: Vec<u8>,
    filled: usize,
    piece: usize,
}

impl Model for Room {
    ghost use Rattle.std.specs.Prelude.{◌<◌, ◌≤◌, take, vec_len};
    ghost use Rattle.q_io.specs.Memory.{Storage};

    ghost Value = { Storage };

    ghost view = { λ s. record {
      written = take s.filled s.bytes.items;
      room = vec_len s.bytes;
      piece = s.piece;
    } };

    ghost invariant = { λ s. (s.filled ≤ vec_len s.bytes) × (0 < s.piece) };
}

impl Room {
    /// Nothing is written; there is room for as many bytes as `bytes` has.
    pub(crate) fn new(bytes: Vec<u8>, piece: usize) -> Room
        requires { 0 < piece }
        ensures { result ≡ record { written = []; room = vec_len bytes; piece = piece } }
    {
        Room {
            bytes,
            filled: 0,
            piece,
        }
    }

    /// Whether no byte more has room.
    pub(crate) fn is_full(&self) -> bool
        ensures { IsTrue result ↔ (length self.now.written ≡ self.now.room) }
    {
        self.filled == self.bytes.len()
    }

    /// The bytes that were written.
    pub(crate) fn written(&self) -> &[u8]
        ensures { result.now ≡ self.now.written }
    {
        &self.bytes.as_slice()[..self.filled]
    }

    /// Appends the first of `bytes`, and gives their number.
    pub(crate) fn fill(&mut self, bytes: &[u8]) -> usize
        ensures count { result ≡ moved_len self.old.piece (length bytes.now)
            (self.old.room - length self.old.written) }
        ensures appended { self.new ≡ record self.old {
          written = self.old.written ++ take result bytes.now;
        } }
        ensures within { length self.old.written ≤ self.old.room }
        ensures piece { 0 < self.old.piece }
    {
        let free = self.bytes.len() - self.filled;
        let count = self.piece.min(bytes.len().min(free));
        let end = self.filled + count;
        self.bytes.as_mut_slice()[self.filled..end].copy_from_slice(&bytes[..count]);
        self.filled = end;
        count
    }
}
