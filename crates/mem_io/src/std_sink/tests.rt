//! Writers that take their bytes as slowly, and as badly, as a system may.
ghost use Rattle.std.specs.Prelude.{Some};

use super::StdSink;
use crate::sink::{Sink, SinkFault};
use std::alloc::Global;
use std::fmt::Display;
use std::io;
use std::io::{ErrorKind, Write};
use std::test::Fail;

/// Takes at most three bytes a write, fails once it has no more room, and can't always be flushed.
#[derive(Drop)]
struct Terminal {
    shown: Vec<u8>,
    room: usize,
    /// How many writes are interrupted before one is taken.
    interrupts: u32,
    flushes: u32,
    is_full: bool,
}

impl Write for Terminal {
    ghost contents = { λ terminal. Some terminal.shown.items };

    fn write(&mut self, bytes: &[u8]) -> io::Result<usize> {
        if self.interrupts > 0 {
            self.interrupts -= 1;
            return Err(ErrorKind::Interrupted.into());
        }
        if self.shown.len() >= self.room {
            return Err(ErrorKind::BrokenPipe.into());
        }
        let count = bytes.len().min(3);
        self.shown.extend_from_slice(&bytes[..count])?;
        Ok(count)
    }

    fn flush(&mut self) -> io::Result<()> {
        if self.is_full {
            return Err(ErrorKind::StorageFull.into());
        }
        self.flushes = self.flushes.saturating_add(1);
        Ok(())
    }
}

fn sink_of_room(alloc: Global, room: usize) -> StdSink<Terminal> {
    StdSink::new(Terminal {
        shown: Vec::new(alloc),
        room,
        interrupts: 0,
        flushes: 0,
        is_full: false,
    })
}

// As a program writes, which knows its sink by the bound alone.
fn put<K: Sink>(sink: &mut K, bytes: &[u8]) -> Result<(), SinkFault> {
    sink.write(bytes)
}

#[test]
fn a_writer_that_takes_few_bytes_at_once_gets_all_and_is_flushed(rt: HostRuntime) {
    for (room, want, bytes, flushes) in [
        (100, Ok(()), b"refs 2\n".as_slice(), 1),
        (6, Err(SinkFault::Failed), b"refs 2", 0),
        (0, Err(SinkFault::Failed), b"", 0),
    ] {
        let mut sink = sink_of_room(rt.alloc(), room);
        assert_eq!(rt; put(&mut sink, b"refs 2\n"), want, "at {room}");
        assert_eq!(rt; sink.out.shown.as_slice(), bytes, "at {room}");
        assert_eq!(rt; sink.out.flushes, flushes, "at {room}");
    }
}

#[test]
fn three_interrupts_in_a_row_are_passed_over(rt: HostRuntime) {
    let mut sink = sink_of_room(rt.alloc(), 100);
    sink.out.interrupts = 3;
    assert_eq!(rt; put(&mut sink, b"refs 2\n"), Ok(()));
    assert_eq!(rt; sink.out.shown.as_slice(), b"refs 2\n".as_slice());
    assert_eq!(rt; sink.faults(), 0);
}

#[test]
fn a_flush_that_fails_is_a_failure_and_leaves_all_bytes(rt: HostRuntime) {
    let mut sink = sink_of_room(rt.alloc(), 100);
    sink.out.is_full = true;
    assert_eq!(rt; put(&mut sink, b"refs 2\n"), Err(SinkFault::Failed));
    assert_eq!(rt; sink.out.shown.as_slice(), b"refs 2\n".as_slice());
    assert_eq!(rt; sink.faults(), 1);
}

/// Standard output behind a pipe that was closed.
#[derive(Drop)]
struct Closed;

impl Print for Closed {
    fn print<D: Display + Drop>(&self, _value: D) -> io::Result<()> {
        Err(ErrorKind::BrokenPipe.into())
    }

    fn println<D: Display + Drop>(&self, _value: D) -> io::Result<()> {
        Err(ErrorKind::BrokenPipe.into())
    }

    fn write_all(&self, _bytes: &[u8]) -> io::Result<()> {
        Err(ErrorKind::BrokenPipe.into())
    }
}

#[test]
fn a_closed_pipe_is_a_failure_and_is_counted(rt: HostRuntime) -> Result<(), Fail> {
    let closed = Closed;
    let mut sink = StdSink::new(io::writer(&closed));
    assert_eq!(rt; put(&mut sink, b"refs 2\n"), Err(SinkFault::Failed));
    assert_eq!(rt; put(&mut sink, b"refs 2\n"), Err(SinkFault::Failed));
    assert_eq!(rt; sink.faults(), 2);
    Ok(())
}

#[test]
fn standard_output_takes_bytes(rt: HostRuntime) {
    let mut sink = StdSink::new(io::writer(&rt));
    assert_eq!(rt; put(&mut sink, b"refs 2\n"), Ok(()));
    assert_eq!(rt; sink.faults(), 0);
}
