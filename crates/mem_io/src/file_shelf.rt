//! Inputs that are opened and read.
ghost use Rattle.std.specs.Prelude.{◌≡◌, ◌+◌, ◌≤◌, [], length, None, unwrap_or, IfSome, OnOk, IsErrOf};
ghost use Rattle.std.specs.Io.{StartsWith};
ghost use Rattle.mem_io.specs.Shelf.{file_of, faults_after};
ghost use Rattle.mem_io.specs.Open.{ReadsInput};

use crate::fill::fill;
use crate::open::Open;
use crate::shelf::{Shelf, ShelfFault};

/// The inputs of an opener, as `SystemFiles`. What can't be opened or read, as a folder, is `Failed`.
#[derive(Drop)]
pub struct FileShelf<O: Open + Drop> {
    pub opener: O,
    /// The error count. It stands still at `u64::MAX`.
    pub failed: u64,
}

impl<O: Open + Drop> FileShelf<O> {
    /// A shelf whose error count is 0. Takes no memory.
    pub fn new(opener: O) -> FileShelf<O>
        ensures opener { result.opener ≡ opener }
        ensures failed { result.failed ≡ 0 }
    {
        FileShelf { opener, failed: 0 }
    }

    // Reads the input, and leaves the count to the caller.
    fn take(&self, name: &str, into: &mut Vec<u8>, limit: u64) -> Result<(), ShelfFault>
        requires { into.old.items ≡ [] }
        ensures bound { length into.new.items ≤ limit + 1 }
        ensures within { OnOk result (length into.new.items ≤ limit) }
        ensures too_long { IsErrOf result ShelfFault.TooLong → length into.new.items ≡ limit + 1 }
        ensures bytes { IfSome (O.files self.now.opener) (λ files.
            ReadsInput result into.new.items (file_of files name.now) limit) }
        ensures front { IfSome (O.files self.now.opener) (λ files.
            StartsWith (unwrap_or (file_of files name.now) []) into.new.items) }
    {
        let mut file = self.opener.open(name)?;
        fill(&mut file, into, limit)
    }
}

impl<O: Open + Drop> Shelf for FileShelf<O> {
    ghost told = { λ _. None };

    ghost fault_count = { λ shelf. shelf.failed };

    fn faults(&self) -> u64 {
        self.failed
    }

    fn read(&mut self, name: &str, into: &mut Vec<u8>, limit: u64) -> Result<(), ShelfFault>
        ensures never_falls { self.old.failed ≤ self.new.failed }
        ensures failed { self.new.failed ≡ faults_after result self.old.failed }
        ensures bound { length into.new.items ≤ limit + 1 }
        ensures within { OnOk result (length into.new.items ≤ limit) }
        ensures too_long { IsErrOf result ShelfFault.TooLong → length into.new.items ≡ limit + 1 }
        ensures opener { self.new.opener ≡ self.old.opener }

        // Over an opener that tells its inputs: Ok gives the whole input of that very name.
        ensures bytes { IfSome (O.files self.old.opener) (λ files.
            ReadsInput result into.new.items (file_of files name.now) limit) }
        ensures front { IfSome (O.files self.old.opener) (λ files.
            StartsWith (unwrap_or (file_of files name.now) []) into.new.items) }
    {
        into.clear();
        let result = self.take(name, into, limit);
        if result == Err(ShelfFault::Failed) {
            self.failed = self.failed.saturating_add(1);
        }
        result
    }
}

#[cfg(test)]
mod tests;
