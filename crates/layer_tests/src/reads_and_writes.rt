//! Runs of reads and writes, call by call.
ghost use Rattle.std.specs.Prelude.{◌<◌, length, OnErr};
ghost use Rattle.q_io.specs.Faults.{Rose};

use q_io::{Failed, MemSink, MemSource, ReadSource, Sink, Source, SureSource, WriteSink};
use std::alloc::{AllocError, Global};
use std::io;
use std::io::{ErrorKind, Read, Write};
use std::test::Fail;

/// A reader whose second call fails.
#[derive(Drop)]
struct FailingReader<'a> {
    bytes: &'a [u8],
    calls: u8,
}

impl Read for FailingReader<'_> {
    fn read(&mut self, buf: &mut [u8]) -> io::Result<usize> {
        self.calls = self.calls.saturating_add(1);
        if self.calls == 2 {
            return Err(io::Error::from(ErrorKind::TimedOut));
        }
        self.bytes.read(buf)
    }
}

/// A writer whose second call fails and whose third takes nothing.
#[derive(Drop)]
struct FailingWriter {
    bytes: Vec<u8>,
    calls: u8,
}

impl Write for FailingWriter {
    fn write(&mut self, buf: &[u8]) -> io::Result<usize> {
        self.calls = self.calls.saturating_add(1);
        match self.calls {
            2 => Err(io::Error::from(ErrorKind::BrokenPipe)),
            3 => Ok(0),
            _ => self.bytes.write(buf),
        }
    }

    fn flush(&mut self) -> io::Result<()> {
        Ok(())
    }
}

type Outcome = Result<usize, Failed>;

/// What four reads into one buffer give.
fn four_reads<S: Source>(source: &mut S, buf: &mut [u8]) -> [Outcome; 4]
    requires { 0 < length buf.old }
{
    let mut outcomes = [Ok(0); 4];
    for outcome in &mut outcomes {
        *outcome = source.read(buf);
    }
    outcomes
}

/// What four writes of `abcd` give.
fn four_writes<K: Sink>(sink: &mut K) -> [Outcome; 4] {
    let mut outcomes = [Ok(0); 4];
    for outcome in &mut outcomes {
        *outcome = sink.write(b"abcd");
    }
    outcomes
}

#[test]
fn errors_of_a_reader_are_faults(rt: HostRuntime) {
    let mut source = ReadSource::new(FailingReader {
        bytes: b"abcde",
        calls: 0,
    });
    let mut buf = [0; 3];
    let outcomes = four_reads(&mut source, &mut buf);
    assert_eq!(rt; outcomes, [Ok(3), Err(Failed), Ok(2), Ok(0)]);
    assert_eq!(rt; buf.as_slice(), b"dec".as_slice());
}

#[test]
fn errors_of_a_writer_are_faults(rt: HostRuntime) {
    let mut writer = FailingWriter {
        bytes: Vec::new(rt.alloc()),
        calls: 0,
    };
    let outcomes = four_writes(&mut WriteSink::new(&mut writer));
    assert_eq!(rt; outcomes, [Ok(4), Err(Failed), Err(Failed), Ok(4)]);
    assert_eq!(rt; writer.bytes.as_slice(), b"abcdabcd".as_slice());
}

/// Reads of up to four bytes where five are there.
fn reads(alloc: Global, piece: usize, fails: &[u64]) -> Result<[Outcome; 4], AllocError>
    requires { 0 < piece }
{
    let mut source = MemSource::new(b"abcde".to_vec(alloc)?, piece, fails.to_vec(alloc)?);
    Ok(four_reads(&mut source, &mut [0; 4]))
}

/// Writes of four bytes where five have room.
fn writes(alloc: Global, piece: usize, fails: &[u64]) -> Result<[Outcome; 4], AllocError>
    requires { 0 < piece }
{
    let mut sink = MemSink::new(b"-----".to_vec(alloc)?, piece, fails.to_vec(alloc)?);
    Ok(four_writes(&mut sink))
}

#[test]
fn memory_moves_pieces_and_fails_where_listed(rt: HostRuntime) -> Result<(), Fail> {
    let alloc = rt.alloc();
    assert_eq!(rt; reads(alloc, 9, &[])?, [Ok(4), Ok(1), Ok(0), Ok(0)]);
    assert_eq!(rt; reads(alloc, 2, &[])?, [Ok(2), Ok(2), Ok(1), Ok(0)]);
    assert_eq!(rt;
        reads(alloc, 3, &[0, 2])?,
        [Err(Failed), Ok(3), Err(Failed), Ok(2)]
    );
    assert_eq!(rt;
        reads(alloc, 5, &[3, 1, 1])?,
        [Ok(4), Err(Failed), Ok(1), Err(Failed)]
    );
    assert_eq!(rt;
        writes(alloc, 9, &[])?,
        [Ok(4), Ok(1), Err(Failed), Err(Failed)]
    );
    assert_eq!(rt; writes(alloc, 2, &[])?, [Ok(2), Ok(2), Ok(1), Err(Failed)]);
    assert_eq!(rt;
        writes(alloc, 3, &[1])?,
        [Ok(3), Err(Failed), Ok(2), Err(Failed)]
    );
    Ok(())
}

#[test]
fn sink_shows_what_was_written(rt: HostRuntime) -> Result<(), Fail> {
    let alloc = rt.alloc();
    let mut sink = MemSink::new(b"-------".to_vec(alloc)?, 3, [1].to_vec(alloc)?);
    let _ = four_writes(&mut sink);
    assert_eq!(rt; sink.bytes(), b"abcabca".as_slice());
    Ok(())
}

/// A caller that knows of its source only what every source keeps to.
fn read_once<S: Source>(source: &mut S, buf: &mut [u8]) -> Outcome
    requires { 0 < length buf.old }
    ensures { OnErr result (Rose (S.faults source.old) (S.faults source.new)) }
{
    source.read(buf)
}

#[test]
fn sure_source_never_fails(rt: HostRuntime) -> Result<(), Fail> {
    let mut source = SureSource::new(b"abc".to_vec(rt.alloc())?, 2);
    match read_once(&mut source, &mut [0; 4]) {
        Ok(count) => assert_eq!(rt; count, 2),
        // No count rises from 0 to 0.
        Err(_) => unreachable!(),
    }
    Ok(())
}
