//! An output in memory.
ghost use Rattle.std.specs.Prelude.{◌≡◌, ◌≤◌, ◌++◌, Some, OnOk, OnErr};
ghost use Rattle.mem_io.specs.Faults.{plan_after};
ghost use Rattle.mem_io.specs.Sink.{Follows, faults_after};
ghost use Rattle.mem_io.specs.MemSink.{fault_plan_of};

use crate::sink::{Sink, SinkFault};

/// An output in memory, with the numbers of the calls that are to fail. A call that isn't Ok has written nothing.
#[derive(Debug, Drop)]
pub struct MemSink {
    pub bytes: Vec<u8>,
    /// The first call has the number 1.
    pub failing: Vec<u64>,
    /// How many calls were made. It stands still at `u64::MAX`.
    pub calls: u64,
    /// The error count. It stands still at `u64::MAX`.
    pub failed: u64,
}

impl Sink for MemSink {
    ghost written = { λ sink. Some sink.bytes.items };

    ghost fault_plan = { λ sink. Some (fault_plan_of sink) };

    ghost fault_count = { λ sink. sink.failed };

    fn faults(&self) -> u64 {
        self.failed
    }

    /// Takes memory for the bytes alone.
    fn write(&mut self, bytes: &[u8]) -> Result<(), SinkFault>
        ensures ok { OnOk result (self.new.bytes.items ≡ self.old.bytes.items ++ bytes.now) }
        ensures err { OnErr result (self.new.bytes.items ≡ self.old.bytes.items) }
        ensures never_falls { self.old.failed ≤ self.new.failed }
        ensures failed { self.new.failed ≡ faults_after result self.old.failed }
        ensures planned { Follows (fault_plan_of self.old) result }
        ensures called { fault_plan_of self.new ≡ plan_after (fault_plan_of self.old) }
    {
        self.calls = self.calls.saturating_add(1);
        if self.failing.contains(&self.calls) {
            self.failed = self.failed.saturating_add(1);
            return Err(SinkFault::Failed);
        }
        self.bytes.extend_from_slice(bytes)?;
        Ok(())
    }
}

#[cfg(test)]
mod tests {
    use super::*;
    use std::alloc::{AllocError, Global};
    use std::test::Fail;

    fn sink(alloc: Global, failing: &[u64]) -> Result<MemSink, AllocError> {
        Ok(MemSink {
            bytes: Vec::new(alloc),
            failing: Vec::from_slice(alloc, failing)?,
            calls: 0,
            failed: 0,
        })
    }

    // As a program writes, which knows its sink by the bound alone.
    fn put<K: Sink>(sink: &mut K, bytes: &[u8]) -> Result<(), SinkFault> {
        sink.write(bytes)
    }

    #[test]
    fn a_failing_call_writes_nothing_and_the_others_append(rt: HostRuntime) -> Result<(), Fail> {
        let mut sink = sink(rt.alloc(), &[2])?;
        for (piece, want, bytes) in [
            (b"tree\n".as_slice(), Ok(()), b"tree\n".as_slice()),
            (b"lost", Err(SinkFault::Failed), b"tree\n"),
            (b"", Ok(()), b"tree\n"),
            (b"refs 0\n", Ok(()), b"tree\nrefs 0\n"),
        ] {
            assert_eq!(rt; put(&mut sink, piece), want);
            assert_eq!(rt; sink.bytes.as_slice(), bytes);
        }
        assert_eq!(rt; sink.calls, 4);
        assert_eq!(rt; sink.faults(), 1);
        Ok(())
    }

    #[test]
    fn counts_stand_still_at_their_end(rt: HostRuntime) -> Result<(), Fail> {
        let mut sink = sink(rt.alloc(), &[18_446_744_073_709_551_615])?;
        sink.calls = 18_446_744_073_709_551_615;
        sink.failed = 18_446_744_073_709_551_615;
        assert_eq!(rt; put(&mut sink, b"lost"), Err(SinkFault::Failed));
        assert_eq!(rt; sink.calls, 18_446_744_073_709_551_615);
        assert_eq!(rt; sink.faults(), 18_446_744_073_709_551_615);
        Ok(())
    }
}
