//! Readers that give their bytes as slowly, and as badly, as a system may.

use super::fill;
use crate::shelf::ShelfFault;
use std::alloc::Global;
use std::io;
use std::io::{ErrorKind, Read};
use std::test::Fail;

/// Gives one byte a read, and is interrupted three times before each.
#[derive(Drop)]
struct Slow<'a> {
    rest: &'a [u8],
    interrupts: u32,
}

impl Read for Slow<'_> {
    fn read(&mut self, buffer: &mut [u8]) -> io::Result<usize> {
        if self.interrupts < 3 {
            self.interrupts += 1;
            return Err(ErrorKind::Interrupted.into());
        }
        self.interrupts = 0;
        let Some((first, rest)) = self.rest.split_first() else {
            return Ok(0);
        };
        if buffer.is_empty() {
            return Ok(0);
        }
        buffer[0] = *first;
        self.rest = rest;
        Ok(1)
    }
}

/// Gives as many reads of three bytes as are left, and then fails.
#[derive(Drop)]
struct Broken {
    reads: u32,
}

impl Read for Broken {
    fn read(&mut self, buffer: &mut [u8]) -> io::Result<usize> {
        if self.reads == 0 || buffer.len() < 3 {
            return Err(ErrorKind::TimedOut.into());
        }
        self.reads -= 1;
        Ok(3)
    }
}

fn outcome<R: Read>(alloc: Global, mut reader: R, limit: u64) -> (Result<(), ShelfFault>, Vec<u8>)
where
    R: Drop,
{
    let mut into = Vec::new(alloc);
    let result = fill(&mut reader, &mut into, limit);
    (result, into)
}

#[test]
fn a_reader_of_single_bytes_is_read_to_its_end_past_three_interrupts_in_a_row(
    rt: HostRuntime,
) -> Result<(), Fail> {
    for (limit, want, bytes) in [
        (4, Err(ShelfFault::TooLong), b"alloc".as_slice()),
        (5, Ok(()), b"alloc".as_slice()),
        (3, Err(ShelfFault::TooLong), b"allo".as_slice()),
        (u64::MAX, Ok(()), b"alloc".as_slice()),
    ] {
        let reader = Slow {
            rest: b"alloc",
            interrupts: 0,
        };
        let (result, into) = outcome(rt.alloc(), reader, limit);
        assert_eq!(rt; result, want, "at {limit}");
        assert_eq!(rt; into.as_slice(), bytes, "at {limit}");
    }
    Ok(())
}

#[test]
fn an_endless_reader_is_left_one_byte_past_the_limit(rt: HostRuntime) -> Result<(), Fail> {
    let (result, into) = outcome(rt.alloc(), io::repeat(b'x'), 200_000);
    assert_eq!(rt; result, Err(ShelfFault::TooLong));
    assert_eq!(rt; into.len(), 200_001);
    Ok(())
}

#[test]
fn an_empty_input_is_within_every_limit(rt: HostRuntime) -> Result<(), Fail> {
    let (result, into) = outcome(rt.alloc(), b"".as_slice(), 0);
    assert_eq!(rt; result, Ok(()));
    assert_eq!(rt; into.len(), 0);
    Ok(())
}

#[test]
fn a_reader_that_breaks_in_mid_stream_is_a_failure(rt: HostRuntime) -> Result<(), Fail> {
    let (result, into) = outcome(rt.alloc(), Broken { reads: 2 }, 100);
    assert_eq!(rt; result, Err(ShelfFault::Failed));
    assert_eq!(rt; into.len(), 6);
    Ok(())
}
