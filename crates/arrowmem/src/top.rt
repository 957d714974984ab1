//! The top call: words in, a status and the bytes of an output out.
ghost use Rattle.std.specs.Prelude.{◌≡◌, ◌≢◌, ◌++◌, ℕ, List, Some, None, map, string_bytes, IfSome, true};
ghost use Rattle.mem_io.specs.Faults.{Rose, fails_next, plan_after};
ghost use Rattle.mem_io.specs.Shelf.{after_call};
ghost use Rattle.query_model.specs.declared.cell.Cell.{Cell};
ghost use Rattle.query_model.specs.declared.plan.Plan.{Plan as AnyPlan};
ghost use Rattle.leak_report.specs.LawfulReport.{IsLawfulReport};
ghost use Rattle.pipeline.specs.Query.{query_report};
ghost use Rattle.arrowmem.specs.Status.{code_of};
ghost use Rattle.arrowmem.specs.Files.{PlanFile};
ghost use Rattle.arrowmem.specs.Lines.{no_memory_text};
ghost use Rattle.arrowmem.specs.RunsTo.{Delivers, HasRows, IsAsked, IsQuery, RunsTo, Writes};
ghost use Rattle.arrowmem.specs.Steps.{EndsAs, IsPlanned};
ghost use Rattle.arrowmem.specs.Words as spec;
ghost use Rattle.arrowmem.specs.declared.status.Status.{Status as AnyStatus};

use crate::answer::answer;
use crate::status::Status;
use gate::Gate;
use mem_io::{Shelf, Sink, SinkFault};
use std::alloc::Global;

const NO_MEMORY: &str = "no memory\n";

/// Runs the command that the words name, and answers the exit status. `words` are the arguments without the program's name.
/// The whole output is built before the first byte is written.
pub fn arrowmem<H: Shelf, K: Sink, G: Gate>(
    alloc: Global,
    words: &[String],
    shelf: &mut H,
    out: &mut K,
    gate: &G,
) -> u8
    // Over a shelf that tells its files, the status and the bytes written are those that the words and the files have.
    ensures runs { IfSome (H.told shelf.old) (λ files. (ended : AnyStatus) × (bytes : List ℕ) × (result ≡ code_of ended)
        × RunsTo (map string_bytes words.now) files ended bytes × Writes (K.written out.old) (K.written out.new) bytes) }

    // The usage line stands for words without a reading, and for no others.
    ensures usage { result ≡ 2 → spec.command_of (map string_bytes words.now) ≡ None }
    ensures no_reading { spec.command_of (map string_bytes words.now) ≡ None → result ≢ 6 → result ≢ 8 → result ≡ 2 }

    // A refusal at a limit stands for a query; and the report of a query that ended well is lawful.
    ensures limit { result ≡ 4 → IsQuery (map string_bytes words.now) }
    ensures lawful { IfSome (H.told shelf.old) (λ files. result ≡ 0 → (plan : AnyPlan) (rows : List (List Cell))
        → HasRows (map string_bytes words.now) files plan rows → IsLawfulReport (query_report plan rows)) }

    // A read fault was counted by the shelf, and a write fault by the sink.
    ensures read_fault { result ≡ 5 → Rose (H.fault_count shelf.old) (H.fault_count shelf.new) }
    ensures write_fault { result ≡ 6 → Rose (K.fault_count out.old) (K.fault_count out.new) }

    // A fault that was counted is told: that of the sink always, and that of the shelf unless the sink failed or memory ran out.
    ensures write_told { K.fault_count out.new ≢ K.fault_count out.old → result ≡ 6 }
    ensures read_told { H.fault_count shelf.new ≢ H.fault_count shelf.old → result ≢ 6 → result ≢ 8 → result ≡ 5 }

    // Where the words have no reading the shelf is left alone. For a query it is asked for the table only if it gave a plan, and then
    // always, unless the sink failed or memory ran out. The sink is called once.
    ensures unasked { spec.command_of (map string_bytes words.now) ≡ None → shelf.new ≡ shelf.old }
    ensures asked { IfSome (H.told shelf.old) (λ files. spec.command_of (map string_bytes words.now) ≢ None
        → IsAsked (map string_bytes words.now) files (H.told shelf.new)) }
    ensures table_asked { IfSome (H.told shelf.old) (λ files. (plan table : List ℕ) (read : AnyPlan)
        → spec.command_of (map string_bytes words.now) ≡ Some (spec.query plan table) → PlanFile files plan read
        → result ≢ 6 → result ≢ 8 → H.told shelf.new ≡ Some (after_call (after_call files))) }
    ensures called { IfSome (K.fault_plan out.old) (λ plan. K.fault_plan out.new ≡ Some (plan_after plan)) }

    // Where the sink tells which calls are to fail, the status is that of a write fault just for these.
    ensures sound { IfSome (K.fault_plan out.old) (λ plan. result ≡ 6 → fails_next plan ≡ true) }
    ensures faulty { IfSome (K.fault_plan out.old) (λ plan. fails_next plan ≡ true → result ≢ 8 → result ≡ 6) }
{
    let mut output = Vec::new(alloc);
    let Ok(status) = answer(alloc, words, shelf, gate, &mut output) else {
        return end_without_memory(out).code();
    };
    deliver(out, status, &output).code()
}

// Writes the line of want of memory, and gives the status that the run ends with.
pub(crate) fn end_without_memory<K: Sink>(out: &mut K) -> Status
    ensures delivers { (bytes : List ℕ) × Delivers Status.NoMemory no_memory_text result bytes × Writes (K.written out.old) (K.written out.new) bytes }
    ensures ends { EndsAs Status.NoMemory result (Rose (K.fault_count out.old) (K.fault_count out.new)) }
    ensures told { K.fault_count out.new ≢ K.fault_count out.old → result ≡ Status.WriteFault }
    ensures called { IfSome (K.fault_plan out.old) (λ plan. K.fault_plan out.new ≡ Some (plan_after plan)) }
    ensures planned { IfSome (K.fault_plan out.old) (λ plan. IsPlanned plan Status.NoMemory result) }
{
    deliver(out, Status::NoMemory, NO_MEMORY.as_bytes())
}

// Writes an output by one call, and gives the status that the run ends with.
fn deliver<K: Sink>(out: &mut K, status: Status, output: &[u8]) -> Status
    ensures delivers { (bytes : List ℕ) × Delivers status output.now result bytes × Writes (K.written out.old) (K.written out.new) bytes }
    ensures ends { EndsAs status result (Rose (K.fault_count out.old) (K.fault_count out.new)) }
    ensures told { K.fault_count out.new ≢ K.fault_count out.old → result ≡ Status.WriteFault }
    ensures called { IfSome (K.fault_plan out.old) (λ plan. K.fault_plan out.new ≡ Some (plan_after plan)) }
    ensures planned { IfSome (K.fault_plan out.old) (λ plan. IsPlanned plan status result) }
{
    match out.write(output) {
        Ok(()) => status,
        Err(SinkFault::Failed) => Status::WriteFault,
        Err(SinkFault::NoMemory) => Status::NoMemory,
    }
}

#[cfg(test)]
mod tests;
