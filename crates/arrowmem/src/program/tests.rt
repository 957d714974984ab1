//! Runs that end with each status, over a shelf and a sink that may find no memory.
ghost use Rattle.std.specs.Prelude.{None};

use super::run;
use mem_io::{Shelf, ShelfFault, Sink, SinkFault};
use std::alloc::{AllocError, Global};
use std::io;
use std::io::ErrorKind;
use std::process::ExitCode;
use std::test::Fail;

/// One script under every name, or a fault. It tells nothing.
#[derive(Drop)]
struct Script<'a> {
    bytes: &'a [u8],
    has_memory: bool,
}

impl Shelf for Script<'_> {
    ghost told = { λ _. None };

    ghost fault_count = { λ _. 0 };

    fn faults(&self) -> u64 {
        0
    }

    fn read(&mut self, _name: &str, into: &mut Vec<u8>, limit: u64) -> Result<(), ShelfFault> {
        into.clear();
        if !self.has_memory || self.bytes.len() as u64 > limit {
            return Err(ShelfFault::NoMemory);
        }
        into.extend_from_slice(self.bytes)?;
        Ok(())
    }
}

/// An output that gives one answer to every call, and keeps the bytes where that is Ok. It tells nothing.
#[derive(Drop)]
struct Screen {
    shown: Vec<u8>,
    answer: Result<(), SinkFault>,
    failed: u64,
}

impl Sink for Screen {
    ghost written = { λ _. None };

    ghost fault_plan = { λ _. None };

    ghost fault_count = { λ screen. screen.failed };

    fn faults(&self) -> u64 {
        self.failed
    }

    fn write(&mut self, bytes: &[u8]) -> Result<(), SinkFault> {
        match self.answer {
            Ok(()) => {
                self.shown.extend_from_slice(bytes)?;
                Ok(())
            }
            Err(SinkFault::Failed) => {
                self.failed = self.failed.saturating_add(1);
                Err(SinkFault::Failed)
            }
            Err(SinkFault::NoMemory) => Err(SinkFault::NoMemory),
        }
    }
}

fn shelf_of(bytes: &[u8]) -> Script<'_> {
    Script {
        bytes,
        has_memory: true,
    }
}

fn output(alloc: Global, answer: Result<(), SinkFault>) -> Screen {
    Screen {
        shown: Vec::new(alloc),
        answer,
        failed: 0,
    }
}

// The arguments `trace s`.
fn trace(alloc: Global) -> Result<Vec<String>, AllocError> {
    let mut words = Vec::new(alloc);
    words.push(String::from_str(alloc, "trace")?)?;
    words.push(String::from_str(alloc, "s")?)?;
    Ok(words)
}

fn no_arguments(kind: ErrorKind) -> io::Result<Vec<String>> {
    Err(kind.into())
}

#[test]
fn words_that_were_found_are_run(rt: HostRuntime) -> Result<(), Fail> {
    for (bytes, status, want) in [
        (
            b"buffer a ROOT 1\n".as_slice(),
            0,
            b"buffer a chunk 1 size 2\n".as_slice(),
        ),
        (b"tree 1\n", 3, b"input: s line 1\n"),
    ] {
        let words = Ok(trace(rt.alloc())?);
        let mut out = output(rt.alloc(), Ok(()));
        let ended = run(rt.alloc(), words, &mut shelf_of(bytes), &mut out);
        assert_eq!(rt; ended, ExitCode::from(status), "at {status}");
        assert_eq!(rt; out.shown.as_slice(), want, "at {status}");
    }
    Ok(())
}

#[test]
fn arguments_that_are_no_text_have_no_reading(rt: HostRuntime) -> Result<(), Fail> {
    let mut out = output(rt.alloc(), Ok(()));
    let words = no_arguments(ErrorKind::InvalidData);
    let ended = run(rt.alloc(), words, &mut shelf_of(b"tree"), &mut out);
    assert_eq!(rt; ended, ExitCode::from(2));
    assert!(rt; out.shown.starts_with(b"usage: arrowmem "));
    Ok(())
}

#[test]
fn arguments_that_find_no_memory_end_with_8_and_its_line(rt: HostRuntime) -> Result<(), Fail> {
    let mut out = output(rt.alloc(), Ok(()));
    let words = no_arguments(ErrorKind::OutOfMemory);
    let ended = run(rt.alloc(), words, &mut shelf_of(b"tree"), &mut out);
    assert_eq!(rt; ended, ExitCode::from(8));
    assert_eq!(rt; out.shown.as_slice(), b"no memory\n".as_slice());
    Ok(())
}

#[test]
fn a_write_fault_is_6_whatever_the_arguments(rt: HostRuntime) -> Result<(), Fail> {
    for words in [
        no_arguments(ErrorKind::OutOfMemory),
        no_arguments(ErrorKind::InvalidData),
        Ok(trace(rt.alloc())?),
    ] {
        let mut out = output(rt.alloc(), Err(SinkFault::Failed));
        let ended = run(rt.alloc(), words, &mut shelf_of(b"tree"), &mut out);
        assert_eq!(rt; ended, ExitCode::from(6));
        assert_eq!(rt; out.faults(), 1);
    }
    Ok(())
}

#[test]
fn a_shelf_or_a_sink_without_memory_ends_with_8(rt: HostRuntime) -> Result<(), Fail> {
    for (has_memory, answer, want) in [
        (false, Ok(()), b"no memory\n".as_slice()),
        (true, Err(SinkFault::NoMemory), b""),
        (false, Err(SinkFault::NoMemory), b""),
    ] {
        let words = Ok(trace(rt.alloc())?);
        let mut shelf = Script {
            bytes: b"tree",
            has_memory,
        };
        let mut out = output(rt.alloc(), answer);
        let ended = run(rt.alloc(), words, &mut shelf, &mut out);
        assert_eq!(rt; ended, ExitCode::from(8));
        assert_eq!(rt; out.shown.as_slice(), want);
    }
    Ok(())
}
