//! std's readers and writers as sources and sinks.
ghost use Rattle.std.specs.Prelude.{◌≡◌, ◌<◌, length, is_ok, if◌then◌else◌, None};
ghost use Rattle.std.specs.Io.{ReadsAtMost};
ghost use Rattle.std.specs.Io.KnownBytes.{ReadConsumes, WriteAppends};
ghost use Rattle.q_io.specs.Faults.{HasCause, raised};
ghost use Rattle.q_io.specs.Moves.{TakesSome};

use crate::fault::{Failed, FaultCount};
use crate::sink::Sink;
use crate::source::Source;
use std::io::{Read, Write};
use std::marker::Model;

/// A reader as a source. It tells no bytes, and each error of the reader is a fault, also where the
/// system only interrupted the read.
#[derive(Drop)]
pub struct ReadSource<R> {
    inner: R,
    faults: FaultCount,
}

impl<R> Model for ReadSource<R> {
    ghost use Rattle.q_io.specs.Readers.{Counted};

    ghost Value = { Counted R };

    ghost view = { λ s. record { inner = s.inner; faults = s.faults } };
}

impl<R: Read> ReadSource<R> {
    /// Reads from `inner`, with no fault yet. Takes no memory.
    pub fn new(inner: R) -> ReadSource<R>
        ensures { result ≡ record { inner = inner; faults = 0 } }
    {
        ReadSource {
            inner,
            faults: FaultCount::new(),
        }
    }
}

impl<R: Read> Source for ReadSource<R> {
    ghost use Rattle.std.specs.Prelude.{None};

    ghost left = { λ _. None };

    ghost faults = { λ s. s.faults };

    fn read(&mut self, buf: &mut [u8]) -> Result<usize, Failed>
        requires { 0 < length buf.old }
        // Where the reader's bytes are known, these are moved.
        ensures inner { ReadConsumes (R.remaining self.old.inner) (R.remaining self.new.inner)
            result buf.new }
        ensures counted { self.new.faults ≡
            (if is_ok result then self.old.faults else raised self.old.faults) }

        // What every source keeps to.
        ensures bound { ReadsAtMost result buf.new }
        ensures cause { HasCause self.old.faults self.new.faults result }
    {
        match self.inner.read(buf) {
            Ok(count) => Ok(count),
            Err(_) => Err(self.faults.raise()),
        }
    }
}

/// A writer as a sink. It tells no bytes. Each error of the writer is a fault, also where the system
/// only interrupted the write, and so is a write of nothing.
#[derive(Drop)]
pub struct WriteSink<W> {
    inner: W,
    faults: FaultCount,
}

impl<W> Model for WriteSink<W> {
    ghost use Rattle.q_io.specs.Readers.{Counted};

    ghost Value = { Counted W };

    ghost view = { λ s. record { inner = s.inner; faults = s.faults } };
}

impl<W: Write> WriteSink<W> {
    /// Writes to `inner`, with no fault yet. Takes no memory.
    pub fn new(inner: W) -> WriteSink<W>
        ensures { result ≡ record { inner = inner; faults = 0 } }
    {
        WriteSink {
            inner,
            faults: FaultCount::new(),
        }
    }
}

impl<W: Write> Sink for WriteSink<W> {
    ghost use Rattle.std.specs.Prelude.{None};

    ghost written = { λ _. None };

    ghost faults = { λ s. s.faults };

    fn write(&mut self, bytes: &[u8]) -> Result<usize, Failed>
        requires { 0 < length bytes.now }
        // Where the writer's bytes are known, these are appended.
        ensures inner { WriteAppends (W.contents self.old.inner) (W.contents self.new.inner)
            result bytes.now }
        ensures counted { self.new.faults ≡
            (if is_ok result then self.old.faults else raised self.old.faults) }

        // What every sink keeps to.
        ensures count { TakesSome result bytes.now }
        ensures cause { HasCause self.old.faults self.new.faults result }
    {
        match self.inner.write(bytes) {
            Ok(0) | Err(_) => Err(self.faults.raise()),
            Ok(count) => Ok(count),
        }
    }
}
