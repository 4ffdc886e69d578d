//! A sink in memory with a bounded room, whose listed calls fail.
ghost use Rattle.std.specs.Prelude.{◌≡◌, ◌-◌, ◌<◌, ◌↔◌, ◌⊎◌, [], length, Some, IfOk, IsErr, vec_len};
ghost use Rattle.std.specs.Io.KnownBytes.{WriteAppends};
ghost use Rattle.q_io.specs.Faults.{HasCause};
ghost use Rattle.q_io.specs.Memory.{moved_len, IsListed, after_write};
ghost use Rattle.q_io.specs.Moves.{TakesSome};

use crate::calls::Calls;
use crate::fault::{Failed, FaultCount};
use crate::room::Room;
use crate::sink::Sink;
use std::marker::Model;

/// A room in memory that is written over from its front, and whose listed calls fail.
#[derive(Drop)]
pub struct MemSink {
    room: Room,
    calls: Calls,
    faults: FaultCount,
}

impl Model for MemSink {
    ghost use Rattle.q_io.specs.Memory.{SinkState};

    ghost Value = { SinkState };

    ghost view = { λ s. record {
      written = s.room.written;
      room = s.room.room;
      piece = s.room.piece;
      fails = s.calls.fails;
      call = s.calls.call;
      faults = s.faults;
    } };
}

impl MemSink {
    /// A sink that writes over the bytes of `room`, at most `piece` of them in a call, where `piece` is
    /// at least 1. The calls of `write` are numbered from 0; those that `fails` lists fail, and so do
    /// those where the room is full. Takes no memory.
    pub fn new(room: Vec<u8>, piece: usize, fails: Vec<u64>) -> MemSink
        requires { 0 < piece }
        ensures { result ≡ record {
          written = [];
          room = vec_len room;
          piece = piece;
          fails = fails.items;
          call = Some 0;
          faults = 0;
        } }
    {
        MemSink {
            room: Room::new(room, piece),
            calls: Calls::new(fails),
            faults: FaultCount::new(),
        }
    }

    /// The bytes that were written. Takes no memory.
    pub fn bytes(&self) -> &[u8]
        ensures { result.now ≡ self.now.written }
    {
        self.room.written()
    }
}

impl Sink for MemSink {
    ghost use Rattle.std.specs.Prelude.{Some};

    ghost written = { λ s. Some s.written };

    ghost faults = { λ s. s.faults };

    fn write(&mut self, bytes: &[u8]) -> Result<usize, Failed>
        requires { 0 < length bytes.now }
        ensures fails { IsErr result ↔ (IsListed self.old.fails self.old.call
            ⊎ (length self.old.written ≡ self.old.room)) }
        ensures moved { IfOk result (λ n. n ≡ moved_len self.old.piece (length bytes.now)
            (self.old.room - length self.old.written)) }
        ensures state { self.new ≡ after_write self.old bytes.now result }

        // What every sink keeps to.
        ensures count { TakesSome result bytes.now }
        ensures bytes { WriteAppends (Some self.old.written) (Some self.new.written) result bytes.now }
        ensures cause { HasCause self.old.faults self.new.faults result }
    {
        if self.calls.count() || self.room.is_full() {
            return Err(self.faults.raise());
        }
        Ok(self.room.fill(bytes))
    }
}
