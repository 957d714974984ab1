//! A run of the program: the system's arguments in, the exit status out.
ghost use Rattle.std.specs.Prelude.{◌≡◌, ◌≢◌, ℕ, List, None, IfSome, IfNone, IsSomeAnd};
ghost use Rattle.std.specs.Process.{exit_status};
ghost use Rattle.mem_io.specs.Faults.{Rose};
ghost use Rattle.arrowmem.specs.Status.{code_of};
ghost use Rattle.arrowmem.specs.Words as spec;
ghost use Rattle.arrowmem.specs.Lines.{no_memory_text};
ghost use Rattle.arrowmem.specs.RunsTo.{Delivers, IsQuery, RunsTo, Writes};
ghost use Rattle.arrowmem.specs.declared.status.Status.{Status as AnyStatus};
ghost use Rattle.arrowmem.specs.declared.status.Status.TheVariants.{NoMemory};

use crate::top::{arrowmem, end_without_memory};
use gate::OpenGate;
use mem_io::{Shelf, Sink};
use std::alloc::Global;
use std::io;
use std::io::ErrorKind;
use std::process::ExitCode;

/// Runs the command that the system's arguments name. Arguments that are no text have no reading, just as none at all.
pub(crate) fn run<H: Shelf, K: Sink>(
    alloc: Global,
    arguments: io::Result<Vec<String>>,
    shelf: &mut H,
    out: &mut K,
) -> ExitCode
    // Over a shelf that tells its files, the status and the bytes written are those that the words and the files have.
    ensures runs { IfSome (spec.words_of arguments) (λ words. IfSome (H.told shelf.old) (λ files. (ended : AnyStatus) × (bytes : List ℕ)
        × (exit_status result ≡ code_of ended) × RunsTo words files ended bytes × Writes (K.written out.old) (K.written out.new) bytes)) }

    // Where memory didn't suffice for the arguments, no file is read and the line of want of memory is delivered.
    ensures no_memory { IfNone (spec.words_of arguments) ((ended : AnyStatus) × (bytes : List ℕ)
        × (exit_status result ≡ code_of ended) × Delivers NoMemory no_memory_text ended bytes × Writes (K.written out.old) (K.written out.new) bytes) }
    ensures unasked { IfNone (spec.words_of arguments) (shelf.new ≡ shelf.old) }

    // The usage line stands for words without a reading, and for no others.
    ensures usage { exit_status result ≡ 2 → IsSomeAnd (spec.words_of arguments) (λ words. spec.command_of words ≡ None) }
    ensures no_reading { IfSome (spec.words_of arguments) (λ words.
        spec.command_of words ≡ None → exit_status result ≢ 6 → exit_status result ≢ 8 → exit_status result ≡ 2) }

    // A refusal at a limit stands for a query.
    ensures limit { exit_status result ≡ 4 → IsSomeAnd (spec.words_of arguments) IsQuery }

    // The statuses of faults, as of `arrowmem`, also where memory didn't suffice for the arguments.
    ensures read_fault { exit_status result ≡ 5 → Rose (H.fault_count shelf.old) (H.fault_count shelf.new) }
    ensures write_fault { exit_status result ≡ 6 → Rose (K.fault_count out.old) (K.fault_count out.new) }
    ensures write_told { K.fault_count out.new ≢ K.fault_count out.old → exit_status result ≡ 6 }
    ensures read_told { H.fault_count shelf.new ≢ H.fault_count shelf.old
        → exit_status result ≢ 6 → exit_status result ≢ 8 → exit_status result ≡ 5 }
{
    match arguments {
        Ok(words) => ExitCode::from(arrowmem(alloc, &words, shelf, out, &OpenGate)),
        Err(error) if error.kind() == ErrorKind::OutOfMemory => {
            ExitCode::from(end_without_memory(out).code())
        }
        Err(_) => ExitCode::from(arrowmem(alloc, &[], shelf, out, &OpenGate)),
    }
}

#[cfg(test)]
mod tests;
