//! A query with one worker, over the files of a shelf: its plan is read before its table is asked for.
ghost use Rattle.std.specs.Prelude.{◌≡◌, List, ℕ, Some, Ok, [], IfOk, IfSome};
ghost use Rattle.mem_io.specs.Shelf.{after_call};
ghost use Rattle.query_model.specs.Fit.{IsFit};
ghost use Rattle.query_model.specs.Requests.{kinds_of};
ghost use Rattle.query_model.specs.declared.cell.Cell.{Cell};
ghost use Rattle.query_model.specs.declared.plan.Plan.{Plan as AnyPlan};
ghost use Rattle.leak_report.specs.LawfulReport.{IsLawfulReport};
ghost use Rattle.row_text.specs.Table.{IsTable};
ghost use Rattle.pipeline.specs.Query.{query_report};
ghost use Rattle.arrowmem.specs.Answers.{PlanAnswers, RowsAnswer, TableAnswers};
ghost use Rattle.arrowmem.specs.Files.{PlanFile, QueryAsks, TableFile, input_of};
ghost use Rattle.arrowmem.specs.Steps.{CountsReads, EndsQuery};

use crate::answer::MAX_INPUT;
use crate::say::{say, say_fault, say_place, say_refusal};
use crate::status::Status;
use gate::Gate;
use mem_io::Shelf;
use pipeline::{QueryRefused, run_query};
use plan_text::{Plan, PlanRefused, bytes_are_one_plan, plans_are_fit, read_plan};
use row_text::{Rows, RowsRefused, bytes_have_one_reading, read_rows};
use std::alloc::{AllocError, Global};

/// Runs the query of a plan's file and a table's. The table is asked for only where the plan has a reading.
pub(crate) fn query<H: Shelf, G: Gate>(
    alloc: Global,
    plan: &str,
    table: &str,
    shelf: &mut H,
    gate: &G,
    out: &mut Vec<u8>,
) -> Result<Status, AllocError>
    requires empty { out.old.items ≡ [] }
    ensures answers { IfOk result (λ status. IfSome (H.told shelf.old) (λ files.
        PlanAnswers files plan.now table.now (input_of files plan.now) status out.new.items)) }
    ensures lawful { IfSome (H.told shelf.old) (λ files. result ≡ Ok Status.Done → (read : AnyPlan) (rows : List (List Cell))
        → PlanFile files plan.now read → TableFile (after_call files) table.now read rows → IsLawfulReport (query_report read rows)) }
    ensures ends { IfOk result EndsQuery }
    ensures counts { IfOk result (CountsReads (H.fault_count shelf.old) (H.fault_count shelf.new)) }
    ensures asked { IfSome (H.told shelf.old) (λ files. QueryAsks files plan.now (H.told shelf.new)) }
    ensures table_asked { IfOk result (λ status. IfSome (H.told shelf.old) (λ files. (read : AnyPlan)
        → PlanFile files plan.now read → H.told shelf.new ≡ Some (after_call (after_call files)))) }
{
    bytes_are_one_plan();
    plans_are_fit();
    let mut bytes = Vec::new(alloc);
    match shelf.read(plan, &mut bytes, MAX_INPUT) {
        Ok(()) => match read_plan(alloc, &bytes) {
            Ok(read) => query_table(alloc, &read, table, shelf, gate, out),
            Err(PlanRefused::Bad) => {
                say(alloc, out, "input: ", plan)?;
                Ok(Status::Unreadable)
            }
            Err(PlanRefused::NoMemory) => Err(AllocError),
        },
        Err(fault) => say_fault(alloc, out, plan, fault),
    }
}

// Runs the query of a plan over a table's file.
fn query_table<H: Shelf, G: Gate>(
    alloc: Global,
    plan: &Plan,
    table: &str,
    shelf: &mut H,
    gate: &G,
    out: &mut Vec<u8>,
) -> Result<Status, AllocError>
    requires empty { out.old.items ≡ [] }
    requires fit { IsFit plan.now }
    ensures answers { IfOk result (λ status. IfSome (H.told shelf.old) (λ files.
        TableAnswers plan.now table.now (input_of files table.now) status out.new.items)) }
    ensures lawful { IfSome (H.told shelf.old) (λ files. result ≡ Ok Status.Done → (rows : List (List Cell))
        → TableFile files table.now plan.now rows → IsLawfulReport (query_report plan.now rows)) }
    ensures ends { IfOk result EndsQuery }
    ensures counts { IfOk result (CountsReads (H.fault_count shelf.old) (H.fault_count shelf.new)) }
    ensures asked { IfSome (H.told shelf.old) (λ files. H.told shelf.new ≡ Some (after_call files)) }
{
    let mut bytes = Vec::new(alloc);
    match shelf.read(table, &mut bytes, MAX_INPUT) {
        Ok(()) => query_bytes(alloc, plan, table, bytes, gate, out),
        Err(fault) => say_fault(alloc, out, table, fault),
    }
}

// Runs the query of a plan over the bytes of a table, which are given up as soon as they are read.
fn query_bytes<G: Gate>(
    alloc: Global,
    plan: &Plan,
    table: &str,
    bytes: Vec<u8>,
    gate: &G,
    out: &mut Vec<u8>,
) -> Result<Status, AllocError>
    requires empty { out.old.items ≡ [] }
    requires fit { IsFit plan.now }
    ensures answers { IfOk result (λ status. TableAnswers plan.now table.now (Ok bytes.items) status out.new.items) }
    ensures lawful { result ≡ Ok Status.Done → (rows : List (List Cell)) → IsTable plan.now.columns bytes.items rows
        → IsLawfulReport (query_report plan.now rows) }
    ensures ends { IfOk result EndsQuery }
{
    bytes_have_one_reading();
    let read = read_rows(alloc, plan.columns.as_slice(), &bytes);
    drop(bytes);
    match read {
        Ok(rows) => query_rows(alloc, plan, &rows, gate, out),
        Err(RowsRefused::Bad { row }) => {
            say_place(alloc, out, table, " row ", row)?;
            Ok(Status::Unreadable)
        }
        Err(RowsRefused::NoMemory) => Err(AllocError),
    }
}

// Runs the query of a plan over rows.
fn query_rows<G: Gate>(
    alloc: Global,
    plan: &Plan,
    rows: &Rows,
    gate: &G,
    out: &mut Vec<u8>,
) -> Result<Status, AllocError>
    requires empty { out.old.items ≡ [] }
    requires fit { IsFit plan.now }
    requires kinds { rows.now.kinds ≡ kinds_of plan.now.columns }
    ensures answers { IfOk result (λ status. RowsAnswer plan.now rows.now.rows status out.new.items) }
    ensures lawful { result ≡ Ok Status.Done → IsLawfulReport (query_report plan.now rows.now.rows) }
    ensures ends { IfOk result EndsQuery }
{
    match run_query(alloc, plan, rows, gate, out) {
        Ok(()) => Ok(Status::Done),
        Err(QueryRefused::Full { full, batch }) => {
            say_refusal(alloc, out, full, batch)?;
            Ok(Status::Limit)
        }
        Err(QueryRefused::NoMemory) => Err(AllocError),
    }
}
