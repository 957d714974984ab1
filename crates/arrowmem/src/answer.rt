//! Words are answered, over the files of a shelf.
ghost use Rattle.std.specs.Prelude.{◌≡◌, ◌≢◌, ◌↔◌, List, ℕ, Some, None, Ok, [], map, string_bytes, IfOk, IfSome};
ghost use Rattle.mem_io.specs.Faults.{Rose};
ghost use Rattle.mem_io.specs.Shelf.{after_call};
ghost use Rattle.query_model.specs.declared.cell.Cell.{Cell};
ghost use Rattle.query_model.specs.declared.plan.Plan.{Plan as AnyPlan};
ghost use Rattle.leak_report.specs.LawfulReport.{IsLawfulReport};
ghost use Rattle.pipeline.specs.Query.{query_report};
ghost use Rattle.arrowmem.specs.Answers.{Answers, ScriptAnswers};
ghost use Rattle.arrowmem.specs.Files.{PlanFile, input_of};
ghost use Rattle.arrowmem.specs.RunsTo.{HasRows, IsAsked, IsQuery};
ghost use Rattle.arrowmem.specs.Steps.{CountsReads, EndsScript};
ghost use Rattle.arrowmem.specs.Words as spec;

use crate::command::{Command, read_command};
use crate::query::query;
use crate::say::{say_fault, say_place};
use crate::status::Status;
use gate::Gate;
use mem_io::Shelf;
use script::{ScriptRefused, run_trace};
use std::alloc::{AllocError, Global};

/// The most bytes that an input may have.
pub(crate) const MAX_INPUT: u64 = 67_108_864;

const USAGE: &str =
    "usage: arrowmem trace FILE | drive FILE | query PLAN DATA [--workers N] | gen SEED ROWS WORKERS\n";

/// The status and the output of the words, over the shelf.
pub(crate) fn answer<H: Shelf, G: Gate>(
    alloc: Global,
    words: &[String],
    shelf: &mut H,
    gate: &G,
    out: &mut Vec<u8>,
) -> Result<Status, AllocError>
    requires { out.old.items ≡ [] }
    ensures answers { IfOk result (λ status. IfSome (H.told shelf.old) (λ files.
        Answers (map string_bytes words.now) files status out.new.items)) }
    ensures lawful { IfSome (H.told shelf.old) (λ files. result ≡ Ok Status.Done
        → (plan : AnyPlan) (rows : List (List Cell)) → HasRows (map string_bytes words.now) files plan rows
        → IsLawfulReport (query_report plan rows)) }

    // The statuses that may come, over any shelf.
    ensures usage { IfOk result (λ status. (status ≡ Status.Usage) ↔ (spec.command_of (map string_bytes words.now) ≡ None)) }
    ensures limit { IfOk result (λ status. status ≡ Status.Limit → IsQuery (map string_bytes words.now)) }
    ensures read_fault { IfOk result (λ status. status ≡ Status.ReadFault → Rose (H.fault_count shelf.old) (H.fault_count shelf.new)) }
    ensures read_told { IfOk result (λ status. H.fault_count shelf.new ≢ H.fault_count shelf.old → status ≡ Status.ReadFault) }
    ensures write_fault { IfOk result (λ status. status ≢ Status.WriteFault) }
    ensures memory { IfOk result (λ status. status ≢ Status.NoMemory) }

    // How often the shelf is asked.
    ensures unasked { spec.command_of (map string_bytes words.now) ≡ None → shelf.new ≡ shelf.old }
    ensures asked { IfSome (H.told shelf.old) (λ files. spec.command_of (map string_bytes words.now) ≢ None
        → IsAsked (map string_bytes words.now) files (H.told shelf.new)) }
    ensures table_asked { IfOk result (λ status. IfSome (H.told shelf.old) (λ files. (plan table : List ℕ) (read : AnyPlan)
        → spec.command_of (map string_bytes words.now) ≡ Some (spec.query plan table) → PlanFile files plan read
        → H.told shelf.new ≡ Some (after_call (after_call files)))) }
{
    match read_command(words) {
        None => {
            out.extend_from_slice(USAGE.as_bytes())?;
            Ok(Status::Usage)
        }
        Some(Command::Trace { file }) => trace(alloc, file, shelf, out),
        Some(Command::Query { plan, table }) => query(alloc, plan, table, shelf, gate, out),
    }
}

// Runs the trace of a file.
fn trace<H: Shelf>(
    alloc: Global,
    file: &str,
    shelf: &mut H,
    out: &mut Vec<u8>,
) -> Result<Status, AllocError>
    requires { out.old.items ≡ [] }
    ensures answers { IfOk result (λ status. IfSome (H.told shelf.old) (λ files.
        ScriptAnswers file.now (input_of files file.now) status out.new.items)) }
    ensures ends { IfOk result EndsScript }
    ensures counts { IfOk result (CountsReads (H.fault_count shelf.old) (H.fault_count shelf.new)) }
    ensures asked { IfSome (H.told shelf.old) (λ files. H.told shelf.new ≡ Some (after_call files)) }
{
    let mut input = Vec::new(alloc);
    match shelf.read(file, &mut input, MAX_INPUT) {
        Ok(()) => run_script(alloc, file, &input, out),
        Err(fault) => say_fault(alloc, out, file, fault),
    }
}

// Runs a trace that was read.
fn run_script(
    alloc: Global,
    file: &str,
    input: &[u8],
    out: &mut Vec<u8>,
) -> Result<Status, AllocError>
    requires { out.old.items ≡ [] }
    ensures answers { IfOk result (λ status. ScriptAnswers file.now (Ok input.now) status out.new.items) }
    ensures ends { IfOk result EndsScript }
{
    match run_trace(alloc, input, out) {
        Ok(()) => Ok(Status::Done),
        Err(ScriptRefused::Bad { line }) => {
            say_place(alloc, out, file, " line ", line)?;
            Ok(Status::Unreadable)
        }
        Err(ScriptRefused::NoMemory) => Err(AllocError),
    }
}
