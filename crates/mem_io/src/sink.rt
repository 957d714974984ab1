//! Where an output goes, and why not all of it was written.
ghost use Rattle.std.specs.Prelude.{◌≡◌, ◌≤◌, ℕ, List, Option, Some, IfSome};
ghost use Rattle.mem_io.specs.Faults.{FaultPlan, plan_after};
ghost use Rattle.mem_io.specs.Sink.{Appends, Follows, CountsFaults, IsFaultOf, fault_text};
ghost use Rattle.mem_io.specs.declared.sink.SinkFault.TheVariants.{NoMemory};

use std::alloc::AllocError;
use std::error::Error;
use std::io::ErrorKind;
use std::{fmt, io};

/// Why not all bytes were written.
#[derive(Clone, Copy, Debug, PartialEq, Eq)]
pub enum SinkFault {
    /// Writing failed.
    Failed,
    NoMemory,
}

/// Takes the bytes of an output.
pub trait Sink {
    /// All bytes written so far, where the sink tells them.
    ghost written: { Self → Option (List ℕ) };

    /// Which calls are to fail, where the sink tells it.
    ghost fault_plan: { Self → Option FaultPlan };

    /// How often writing has failed.
    ghost fault_count: { Self → ℕ };

    /// The error count: how often writing has failed. It stands still at `u64::MAX`.
    fn faults(&self) -> u64
        ensures { result ≡ fault_count self.now };

    /// Writes the bytes behind those that were written. After an answer that isn't Ok some first part of
    /// them may be written.
    fn write(&mut self, bytes: &[u8]) -> Result<(), SinkFault>
        // Over any sink.
        ensures never_falls { fault_count self.old ≤ fault_count self.new }
        ensures faults { CountsFaults (fault_count self.old) (fault_count self.new) result }

        // Over a sink that tells its bytes.
        ensures bytes { IfSome (written self.old) (λ old.
            Appends old (written self.new) bytes.now result) }

        // Over a sink that tells which calls are to fail.
        ensures planned { IfSome (fault_plan self.old) (λ old. Follows old result) }
        ensures called { IfSome (fault_plan self.old) (λ old. fault_plan self.new ≡ Some (plan_after old)) };
}

impl fmt::Display for SinkFault {
    ghost output = { λ fault. Some (fault_text fault) };

    fn fmt<W: fmt::Write>(&self, f: &mut fmt::Formatter<W>) -> fmt::Result {
        match self {
            SinkFault::Failed => write!(f, "the output can't be written"),
            SinkFault::NoMemory => write!(f, "no memory"),
        }
    }
}

impl Error for SinkFault {}

impl From<AllocError> for SinkFault {
    ghost from_gives = { λ _ fault. fault ≡ NoMemory };

    fn from(_error: AllocError) -> SinkFault {
        SinkFault::NoMemory
    }
}

impl From<io::Error> for SinkFault {
    ghost from_gives = { IsFaultOf };

    fn from(error: io::Error) -> SinkFault {
        if error.kind() == ErrorKind::OutOfMemory {
            SinkFault::NoMemory
        } else {
            SinkFault::Failed
        }
    }
}

#[cfg(test)]
mod tests {
    use super::*;
    use std::test::Fail;

    #[test]
    fn a_fault_says_what_happened(rt: HostRuntime) -> Result<(), Fail> {
        for (fault, want) in [
            (SinkFault::Failed, "the output can't be written"),
            (SinkFault::NoMemory, "no memory"),
        ] {
            let text = fault.to_string(rt.alloc())?;
            assert_eq!(rt; text.as_str(), want);
        }
        Ok(())
    }
}
