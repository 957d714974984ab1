//! Named inputs, and why one wasn't read.
ghost use Rattle.std.specs.Prelude.{◌≡◌, ◌+◌, ◌≤◌, ℕ, length, Option, Some, IfSome, OnOk, IsErrOf};
ghost use Rattle.std.specs.Io.{StartsWith};
ghost use Rattle.mem_io.specs.Shelf.{Told, after_call, bytes_of, reading, Gives, CountsFaults, IsFaultOf, fault_text};
ghost use Rattle.mem_io.specs.declared.shelf.ShelfFault.TheVariants.{NoMemory};

use std::alloc::AllocError;
use std::error::Error;
use std::io::ErrorKind;
use std::{fmt, io};

/// Why an input was not read.
#[derive(Clone, Copy, Debug, PartialEq, Eq)]
pub enum ShelfFault {
    /// There is no such input, or reading it failed.
    Failed,
    /// The input is longer than the limit.
    TooLong,
    NoMemory,
}

/// A source of named inputs, each a list of bytes. A shelf in memory tells its files to contracts; one
/// over the system can't.
pub trait Shelf {
    /// The files and which calls are to fail, where the shelf tells them.
    ghost told: { Self → Option Told };

    /// How often reading has failed.
    ghost fault_count: { Self → ℕ };

    /// The error count: how often reading has failed. It stands still at `u64::MAX`.
    fn faults(&self) -> u64
        ensures { result ≡ fault_count self.now };

    /// Empties `into`, and fills it with the input of that name. `limit` is in bytes; one byte more than
    /// that shows that the input is too long, and no further one is taken. After an answer that isn't Ok
    /// `into` holds what was taken until then.
    fn read(&mut self, name: &str, into: &mut Vec<u8>, limit: u64) -> Result<(), ShelfFault>
        // Over any shelf.
        ensures never_falls { fault_count self.old ≤ fault_count self.new }
        ensures faults { CountsFaults (fault_count self.old) (fault_count self.new) result }
        ensures bound { length into.new.items ≤ limit + 1 }
        ensures within { OnOk result (length into.new.items ≤ limit) }
        ensures too_long { IsErrOf result ShelfFault.TooLong → length into.new.items ≡ limit + 1 }

        // Over a shelf that tells its files: the answer, what was taken, and what is told afterwards.
        ensures bytes { IfSome (told self.old) (λ old.
            Gives result into.new.items (reading old name.now limit)) }
        ensures front { IfSome (told self.old) (λ old.
            StartsWith (bytes_of old name.now) into.new.items) }
        ensures told { IfSome (told self.old) (λ old. told self.new ≡ Some (after_call old)) };
}

impl fmt::Display for ShelfFault {
    ghost output = { λ fault. Some (fault_text fault) };

    fn fmt<W: fmt::Write>(&self, f: &mut fmt::Formatter<W>) -> fmt::Result {
        match self {
            ShelfFault::Failed => write!(f, "the input can't be read"),
            ShelfFault::TooLong => write!(f, "the input is too long"),
            ShelfFault::NoMemory => write!(f, "no memory"),
        }
    }
}

impl Error for ShelfFault {}

impl From<AllocError> for ShelfFault {
    ghost from_gives = { λ _ fault. fault ≡ NoMemory };

    fn from(_error: AllocError) -> ShelfFault {
        ShelfFault::NoMemory
    }
}

impl From<io::Error> for ShelfFault {
    ghost from_gives = { IsFaultOf };

    fn from(error: io::Error) -> ShelfFault {
        if error.kind() == ErrorKind::OutOfMemory {
            ShelfFault::NoMemory
        } else {
            ShelfFault::Failed
        }
    }
}

#[cfg(test)]
mod tests {
    use super::*;
    use std::test::Fail;

    #[test]
    fn a_fault_says_what_happened(rt: HostRuntime) -> Result<(), Fail> {
        for (fault, want) in [
            (ShelfFault::Failed, "the input can't be read"),
            (ShelfFault::TooLong, "the input is too long"),
            (ShelfFault::NoMemory, "no memory"),
        ] {
            let text = fault.to_string(rt.alloc())?;
            assert_eq!(rt; text.as_str(), want);
        }
        Ok(())
    }
}
