//! A query with one worker.
ghost use Rattle.std.specs.Prelude.{◌≡◌, ◌++◌, ℕ, [], ◌∷◌, Err, IfOk, IsTrue, Some, None, OnErr, OnOk, drop, slice_index_or};
ghost use Rattle.mem_num.specs.declared.full.Full.{Full as AnyFull};
ghost use Rattle.mem_model.specs.MeasuredTree.{IsOpened, peak_at};
ghost use Rattle.mem_model.specs.PeakSample.{peak_of};
ghost use Rattle.leak_report.specs.LawfulReport.{IsLawfulReport};
ghost use Rattle.leak_report.specs.ReportText.{report_text};
ghost use Rattle.operators.specs.Groups.{rows_in_all};
ghost use Rattle.operators.specs.Instead.{references_of};
ghost use Rattle.query_model.specs.Answer.{answer_of};
ghost use Rattle.query_model.specs.Fit.{IsFit};
ghost use Rattle.query_model.specs.Requests.{kinds_of};
ghost use Rattle.query_model.specs.SequentialCalls.{sequential_refusal, sequential_run};
ghost use Rattle.query_model.specs.declared.plan.Plan.{Plan as AnyPlan};
ghost use Rattle.row_text.specs.Answer.{table_text};
ghost use Rattle.pipeline.specs.Closing.{AreCounted, query_nodes};
ghost use Rattle.pipeline.specs.Query.{closed_text, header_of, query_names, query_report, query_text};
ghost use Rattle.pipeline.specs.Stages.{AreStorable};

use crate::batches::run_batches;
use crate::closing::close_all;
use crate::merging::merge;
use crate::opening::{every_plan_has_five_children, open_children};
use crate::printing::{write_answer, write_closed, write_report};
use crate::refused::QueryRefused;
use alloc_tree::{Solo, SoloTree, every_tree_is_lawful};
use batch_vec::{Batch, buffers_fit};
use gate::Gate;
use mem_num::{NoMemory, Ref};
use operators::release_batches;
use query_model::{MOST_ROWS, Plan};
use row_text::Rows;
use std::alloc::{AllocError, Global};

/// Runs a query in the calling thread and appends its answer, the report of its tree of allocators, and how many of them were
/// closed. The batches run in order, with the gate round each of them; where one is refused, the others go on and nothing is merged.
///
/// Rows that are more than a table may have, or whose texts are too long for a buffer, are refused as want of memory.
pub fn run_query<G: Gate>(
    alloc: Global,
    plan: &Plan,
    rows: &Rows,
    gate: &G,
    out: &mut Vec<u8>,
) -> Result<(), QueryRefused>
    requires fit { IsFit plan.now }
    requires kinds { rows.now.kinds ≡ kinds_of plan.now.columns }

    // The text is that of the query's calls, one after the other, none of which was refused.
    ensures text { OnOk result (out.new.items ≡ out.old.items ++ query_text plan.now rows.now.rows) }
    ensures granted { OnOk result (sequential_refusal plan.now rows.now.rows ≡ None) }

    // Its report is lawful: each number in it agrees with the others.
    ensures lawful { OnOk result (IsLawfulReport (query_report plan.now rows.now.rows)) }

    // A refusal is the first one of these calls, with its batch; after any error nothing was appended.
    ensures full { (full : AnyFull) (batch : ℕ) → result ≡ Err (QueryRefused.Full full batch)
        → sequential_refusal plan.now rows.now.rows ≡ Some (record { full = full; batch = batch }) }
    ensures err { OnErr result (out.new.items ≡ out.old.items) }
{
    if !can_be_stored(rows) {
        return Err(QueryRefused::NoMemory);
    }
    let text = write_query(alloc, plan, rows, gate)?;
    if out.is_empty() {
        // A copy would double the memory of a large answer.
        *out = text;
        return Ok(());
    }
    match out.extend_from_slice(&text) {
        Ok(()) => Ok(()),
        Err(AllocError) => Err(QueryRefused::NoMemory),
    }
}

// Whether the rows of a table are few enough, and none of their buffers too long.
fn can_be_stored(rows: &Rows) -> bool
    ensures storable { IsTrue result → (plan : AnyPlan) → rows.now.kinds ≡ kinds_of plan.columns → AreStorable plan rows.now.rows }
{
    rows.len() as u64 <= MOST_ROWS && buffers_fit(&rows.as_slice())
}

// What a query prints.
fn write_query<G: Gate>(
    alloc: Global,
    plan: &Plan,
    rows: &Rows,
    gate: &G,
) -> Result<Vec<u8>, QueryRefused>
    requires fit { IsFit plan.now }
    requires kinds { rows.now.kinds ≡ kinds_of plan.now.columns }
    requires storable { AreStorable plan.now rows.now.rows }
    ensures text { IfOk result (λ text. text.items ≡ query_text plan.now rows.now.rows) }
    ensures granted { OnOk result (sequential_refusal plan.now rows.now.rows ≡ None) }
    ensures lawful { OnOk result (IsLawfulReport (query_report plan.now rows.now.rows)) }
    ensures full { (full : AnyFull) (batch : ℕ) → result ≡ Err (QueryRefused.Full full batch)
        → sequential_refusal plan.now rows.now.rows ≡ Some (record { full = full; batch = batch }) }
{
    let Ok(mut tree) = SoloTree::open(alloc, plan.limits[0]) else {
        return Err(QueryRefused::NoMemory);
    };
    let batches = query_result(alloc, &mut tree, plan, rows, gate)?;
    match write_result(alloc, &mut tree, plan, batches) {
        Ok(text) => Ok(text),
        Err(NoMemory) => Err(QueryRefused::NoMemory),
    }
}

// The batches of the answer, held by the result's allocator.
fn query_result<G: Gate>(
    alloc: Global,
    tree: &mut SoloTree,
    plan: &Plan,
    rows: &Rows,
    gate: &G,
) -> Result<Vec<Batch<Ref>>, QueryRefused>
    requires fit { IsFit plan.now }
    requires kinds { rows.now.kinds ≡ kinds_of plan.now.columns }
    requires storable { AreStorable plan.now rows.now.rows }
    requires opened { IsOpened (slice_index_or plan.now.limits 0 0) tree.old }

    // They are the answer, one after the other, and the tree is that of the query's calls.
    ensures rows { IfOk result (λ batches. rows_in_all batches.items ≡ answer_of plan.now rows.now.rows) }
    ensures state { OnOk result (tree.new.state ≡ (sequential_run plan.now rows.now.rows).state) }
    ensures peaks { OnOk result ((n : ℕ) → peak_at tree.new n ≡ peak_of (sequential_run plan.now rows.now.rows).samples n) }

    // Its allocators are open, and no other reference is left than those of these batches.
    ensures nodes { OnOk result (tree.new.state.nodes
        ≡ query_nodes (slice_index_or plan.now.limits 0 0) (drop 1 plan.now.limits) plan.now.reserves) }
    ensures counted { IfOk result (λ batches. AreCounted (references_of (λ hold. hold) batches.items) tree.new.state) }

    ensures granted { OnOk result (sequential_refusal plan.now rows.now.rows ≡ None) }
    ensures full { (full : AnyFull) (batch : ℕ) → result ≡ Err (QueryRefused.Full full batch)
        → sequential_refusal plan.now rows.now.rows ≡ Some (record { full = full; batch = batch }) }
{
    every_plan_has_five_children(plan);
    match open_children(tree, plan) {
        Ok(()) => match run_batches(alloc, tree, plan, rows, gate) {
            Ok(parts) => merge(alloc, tree, plan, parts),
            Err(refused) => Err(refused),
        },
        Err(refused) => Err(refused),
    }
}

// What a query prints of its result: the answer, and the report of the tree that holds it; then the result is given back, and how many
// allocators were closed comes last.
fn write_result(
    alloc: Global,
    tree: &mut SoloTree,
    plan: &Plan,
    batches: Vec<Batch<Ref>>,
) -> Result<Vec<u8>, NoMemory>
    requires nodes { tree.old.state.nodes
        ≡ query_nodes (slice_index_or plan.now.limits 0 0) (drop 1 plan.now.limits) plan.now.reserves }
    requires counted { AreCounted (references_of (λ hold. hold) batches.items) tree.old.state }
    ensures text { IfOk result (λ text. text.items ≡ table_text (header_of plan.now) (rows_in_all batches.items)
        ++ (report_text (query_names ∷ []) (peak_at tree.old) tree.old.state ++ closed_text 6)) }
    ensures lawful { OnOk result (IsLawfulReport (report_text (query_names ∷ []) (peak_at tree.old) tree.old.state)) }
{
    every_plan_has_five_children(plan);
    let mut text = Vec::new(alloc);
    let written = write_held(alloc, tree, plan, &batches, &mut text);
    every_tree_is_lawful(tree);
    release_batches(&Solo, tree, batches);
    every_tree_is_lawful(tree);
    let closed = close_all(tree);
    written?;
    write_closed(alloc, closed, &mut text)?;
    Ok(text)
}

// The answer that batches hold, and the report of the tree while they do.
fn write_held(
    alloc: Global,
    tree: &SoloTree,
    plan: &Plan,
    batches: &[Batch<Ref>],
    out: &mut Vec<u8>,
) -> Result<(), NoMemory>
    requires empty { out.old.items ≡ [] }
    ensures text { OnOk result (out.new.items ≡ table_text (header_of plan.now) (rows_in_all batches.now)
        ++ report_text (query_names ∷ []) (peak_at tree.now) tree.now.state) }
    ensures lawful { OnOk result (IsLawfulReport (report_text (query_names ∷ []) (peak_at tree.now) tree.now.state)) }
{
    write_answer(alloc, plan, batches, out)?;
    write_report(alloc, tree, out)
}

#[cfg(test)]
mod tests;
