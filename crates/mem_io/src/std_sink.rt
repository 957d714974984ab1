//! A writer as an output.
ghost use Rattle.std.specs.Prelude.{◌≡◌, ◌-◌, ◌^◌, ◌≤◌, None, IfErr, IfSome};
ghost use Rattle.std.specs.declared.io.ErrorKind.TheVariants.{Interrupted};
ghost use Rattle.std.specs.Io.{WritesAtMost};
ghost use Rattle.std.specs.Io.KnownBytes.{WriteAppends};
ghost use Rattle.std.specs.IoError.{error_kind};
ghost use Rattle.mem_io.specs.Sink.{Appends, faults_after};

use crate::sink::{Sink, SinkFault};
use std::io;
use std::io::{ErrorKind, Write};

/// A writer, as standard output, that is written and flushed in one go. A call whose flush fails has
/// failed, and all its bytes are with the writer.
#[derive(Drop)]
pub struct StdSink<W: Write + Drop> {
    pub out: W,
    /// The error count. It stands still at `u64::MAX`.
    pub failed: u64,
}

impl<W: Write + Drop> StdSink<W> {
    /// A sink whose error count is 0. Takes no memory.
    pub fn new(out: W) -> StdSink<W>
        ensures out { result.out ≡ out }
        ensures failed { result.failed ≡ 0 }
    {
        StdSink { out, failed: 0 }
    }
}

// Writes all bytes and flushes them.
fn put<W: Write>(out: &mut W, bytes: &[u8]) -> Result<(), SinkFault>
    ensures { IfSome (W.contents out.old) (λ old.
        Appends old (W.contents out.new) bytes.now result) }
{
    let mut rest = bytes;
    let mut interrupts = 0;
    while !rest.is_empty() {
        let count = write_some(out, rest, &mut interrupts)?;
        if count == 0 {
            return Err(SinkFault::Failed);
        }
        rest = &rest[count..];
    }
    out.flush()?;
    Ok(())
}

// One write, made again where a signal interrupts it. `interrupts` counts how often that came.
fn write_some<W: Write>(out: &mut W, bytes: &[u8], interrupts: &mut u64) -> io::Result<usize>
    ensures bound { WritesAtMost result bytes.now }
    ensures bytes { WriteAppends (W.contents out.old) (W.contents out.new) result bytes.now }

    // It gives up at the end of the count, and not before.
    ensures retried { IfErr result (λ error.
        error_kind error ≡ Interrupted → 2 ^ 64 - 1 ≤ interrupts.new) }
{
    while *interrupts < u64::MAX {
        match out.write(bytes) {
            Ok(count) => return Ok(count),
            Err(error) if error.kind() == ErrorKind::Interrupted => *interrupts += 1,
            Err(error) => return Err(error),
        }
    }
    Err(ErrorKind::Interrupted.into())
}

impl<W: Write + Drop> Sink for StdSink<W> {
    ghost written = { λ sink. W.contents sink.out };

    ghost fault_plan = { λ _. None };

    ghost fault_count = { λ sink. sink.failed };

    fn faults(&self) -> u64 {
        self.failed
    }

    fn write(&mut self, bytes: &[u8]) -> Result<(), SinkFault>
        ensures never_falls { self.old.failed ≤ self.new.failed }
        ensures failed { self.new.failed ≡ faults_after result self.old.failed }
        ensures bytes { IfSome (W.contents self.old.out) (λ old.
            Appends old (W.contents self.new.out) bytes.now result) }
    {
        let result = put(&mut self.out, bytes);
        if result == Err(SinkFault::Failed) {
            self.failed = self.failed.saturating_add(1);
        }
        result
    }
}

#[cfg(test)]
mod tests;
