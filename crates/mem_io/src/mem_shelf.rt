//! Inputs in memory.
ghost use Rattle.std.specs.Prelude.{◌≡◌, ◌≤◌, [], length, Option, Some, None, if◌then◌else◌, option_map};
ghost use Rattle.mem_io.specs.Faults.{is_failing};
ghost use Rattle.mem_io.specs.Shelf.{file_of, bytes_of, after_call, within, reading, Gives, faults_after};
ghost use Rattle.mem_io.specs.MemShelf.{files_of, told_of, taken};

use crate::shelf::{Shelf, ShelfFault};

/// Files in memory, in pairs of a name and its bytes, with the numbers of the calls that are to fail.
#[derive(Debug, Drop)]
pub struct MemShelf {
    /// Of several pairs with one name the first counts.
    pub files: Vec<(String, Vec<u8>)>,
    /// The first call has the number 1.
    pub failing: Vec<u64>,
    /// How many calls were made. It stands still at `u64::MAX`.
    pub calls: u64,
    /// The error count. It stands still at `u64::MAX`.
    pub failed: u64,
}

impl MemShelf {
    // The first file of the name.
    fn find(&self, name: &str) -> Option<&Vec<u8>>
        ensures { option_map (λ bytes. bytes.now.items) result
            ≡ file_of (files_of self.now.files.items) name.now }
    {
        for (file, bytes) in &self.files {
            if file.as_str() == name {
                return Some(bytes);
            }
        }
        None
    }

    // What the call that has just been counted is to give, but for its length.
    fn give(&self, name: &str) -> Option<&Vec<u8>>
        ensures { option_map (λ bytes. bytes.now.items) result
            ≡ (if is_failing self.now.failing.items self.now.calls then None
            else file_of (files_of self.now.files.items) name.now) }
    {
        if self.failing.contains(&self.calls) {
            return None;
        }
        self.find(name)
    }
}

// Appends the bytes, but at most one more than the limit.
fn copy_up_to(bytes: &[u8], into: &mut Vec<u8>, limit: u64) -> Result<(), ShelfFault>
    requires { into.old.items ≡ [] }
    ensures bytes { Gives result into.new.items (within (Some bytes.now) limit) }
    ensures taken { into.new.items ≡ taken result limit bytes.now }
{
    let count = limit.saturating_add(1).min(bytes.len() as u64) as usize;
    into.extend_from_slice(&bytes[..count])?;
    if into.len() as u64 > limit {
        return Err(ShelfFault::TooLong);
    }
    Ok(())
}

impl Shelf for MemShelf {
    ghost told = { λ shelf. Some (told_of shelf) };

    ghost fault_count = { λ shelf. shelf.failed };

    fn faults(&self) -> u64 {
        self.failed
    }

    /// Takes memory for the bytes alone.
    fn read(&mut self, name: &str, into: &mut Vec<u8>, limit: u64) -> Result<(), ShelfFault>
        ensures bytes { Gives result into.new.items (reading (told_of self.old) name.now limit) }
        ensures taken { into.new.items ≡ taken result limit (bytes_of (told_of self.old) name.now) }
        ensures told { told_of self.new ≡ after_call (told_of self.old) }
        ensures never_falls { self.old.failed ≤ self.new.failed }
        ensures failed { self.new.failed ≡ faults_after result self.old.failed }
    {
        into.clear();
        self.calls = self.calls.saturating_add(1);
        let Some(bytes) = self.give(name) else {
            self.failed = self.failed.saturating_add(1);
            return Err(ShelfFault::Failed);
        };
        copy_up_to(bytes.as_slice(), into, limit)
    }
}

#[cfg(test)]
mod tests;
