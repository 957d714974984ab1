//! The batches of a query, one after another.
ghost use Rattle.std.specs.Prelude.{◌≡◌, ◌+◌, ◌-◌, ◌*◌, ◌≤◌, IfErr, IfOk, OnErr, length};
ghost use Rattle.mem_buf.specs.Chain.{Runs};
ghost use Rattle.query_model.specs.Answer.{answer_of};
ghost use Rattle.query_model.specs.Fit.{IsFit};
ghost use Rattle.query_model.specs.Requests as spec;
ghost use Rattle.query_model.specs.Requests.{answer_kinds, kinds_of};
ghost use Rattle.query_model.specs.declared.bounds.TheConstants.{MOST_ROWS};
ghost use Rattle.alloc_tree.specs.SoloMeaning.{solo_model};
ghost use Rattle.alloc_tree.specs.SoloView.{solo_view};
ghost use Rattle.operators.specs.Instead.{references_of};
ghost use Rattle.pipeline.specs.BatchRun.{IsBatchRun, turns_a_batch};
ghost use Rattle.pipeline.specs.Holding.{GaveAllBack, GivesUp};
ghost use Rattle.pipeline.specs.Stages.{AreBatchesDone, AreParts, AreStorable, CanBegin, CanRunMore, IsBatchesRefusal, IsReturned};
ghost use Rattle.pipeline.specs.Stages.{refusal_in};

use crate::batch::run_batch;
use crate::refused::QueryRefused;
use alloc_tree::{Solo, SoloTree};
use batch_vec::{Batch, OpRefused, release_batch};
use gate::Gate;
use mem_num::Ref;
use operators::release_batches;
use query_model::Plan;
use row_text::{Rows, RowsSlice};
use std::alloc::Global;

/// Runs the batches of rows in order, numbered from 1, with the gate round each, and gives their parts of the answer. Where one is
/// refused, the others go on, and all that they had is given back.
pub(crate) fn run_batches<G: Gate>(
    alloc: Global,
    tree: &mut SoloTree,
    plan: &Plan,
    rows: &Rows,
    gate: &G,
) -> Result<Vec<Batch<Ref>>, QueryRefused>
    requires fit { IsFit plan.now }
    requires kinds { rows.now.kinds ≡ kinds_of plan.now.columns }
    requires storable { AreStorable plan.now rows.now.rows }
    requires tree { CanBegin tree.old }

    // The parts of the answer, in order.
    ensures parts { IfOk result (λ batches. AreParts plan.now rows.now.rows batches.items) }

    // The calls are those that were planned, up to the first that a level refused, if any was.
    ensures calls { IfOk result (λ batches. Runs solo_model
        (AreBatchesDone plan.now rows.now.rows (references_of (λ hold. hold) batches.items)) tree.old tree.new) }
    ensures refused { IfErr result (λ refused. Runs solo_model (IsBatchesRefusal plan.now rows.now.rows refused) tree.old tree.new) }

    // Without an answer, all that the batches had was given back.
    ensures returned { OnErr result (Runs solo_model GaveAllBack tree.old tree.new) }
    ensures turns { IfOk result (λ batches. (solo_view tree.old).turns
        ≤ (solo_view tree.new).turns + length batches.items * turns_a_batch plan.now) }
{
    let count = batch_count(plan, rows);
    let Ok(mut parts) = Vec::with_capacity(alloc, count as usize) else {
        return Err(QueryRefused::NoMemory);
    };
    'parts: for number in 1..count + 1 {
        match run_one(alloc, tree, plan, rows, number, gate) {
            Ok(part) => parts.push_reserved(part),
            Err(refused) => {
                give_up(alloc, tree, plan, rows, number + 1, gate, parts);
                return Err(in_batch(refused, number));
            }
        }
    }
    Ok(parts)
}

// Runs the batches from this number on, and gives back what they have, and then these parts.
fn give_up<G: Gate>(
    alloc: Global,
    tree: &mut SoloTree,
    plan: &Plan,
    rows: &Rows,
    first: u32,
    gate: &G,
    parts: Vec<Batch<Ref>>,
)
    requires fit { IsFit plan.now }
    requires kinds { rows.now.kinds ≡ kinds_of plan.now.columns }
    requires storable { AreStorable plan.now rows.now.rows }
    requires tree { CanRunMore plan.now (spec.batch_count plan.now rows.now.rows + 1 - first) tree.old }
    ensures calls { Runs solo_model (GivesUp (references_of (λ hold. hold) parts.items)) tree.old tree.new }
{
    let count = batch_count(plan, rows);
    'others: for number in first..count + 1 {
        run_in_vain(alloc, tree, plan, rows, number, gate);
    }
    release_batches(&Solo, tree, parts);
}

// Runs a batch and gives back its part of the answer.
fn run_in_vain<G: Gate>(
    alloc: Global,
    tree: &mut SoloTree,
    plan: &Plan,
    rows: &Rows,
    number: u32,
    gate: &G,
)
    requires fit { IsFit plan.now }
    requires kinds { rows.now.kinds ≡ kinds_of plan.now.columns }
    requires storable { AreStorable plan.now rows.now.rows }
    requires tree { CanRunMore plan.now 1 tree.old }
    ensures calls { Runs solo_model (IsReturned plan.now) tree.old tree.new }
{
    if let Ok(part) = run_one(alloc, tree, plan, rows, number, gate) {
        release_batch(&Solo, tree, part);
    }
}

// Runs one batch, with the gate round it.
fn run_one<G: Gate>(
    alloc: Global,
    tree: &mut SoloTree,
    plan: &Plan,
    rows: &Rows,
    number: u32,
    gate: &G,
) -> Result<Batch<Ref>, OpRefused>
    requires fit { IsFit plan.now }
    requires kinds { rows.now.kinds ≡ kinds_of plan.now.columns }
    requires storable { AreStorable plan.now rows.now.rows }
    requires tree { CanRunMore plan.now 1 tree.old }
    ensures kinds { IfOk result (λ part. part.kinds ≡ answer_kinds plan.now) }
    ensures rows { IfOk result (λ part. part.rows ≡ answer_of plan.now (spec.batch_rows plan.now rows.now.rows number)) }
    ensures calls { Runs solo_model (IsBatchRun (λ hold. hold) plan.now (spec.batch_rows plan.now rows.now.rows number) result)
        tree.old tree.new }
{
    gate.at(number);
    let part = run_batch(alloc, &Solo, tree, plan, &batch_rows(plan, rows, number));
    gate.done(number);
    part
}

// The rows of a batch, which are numbered from 1 on.
fn batch_rows<'a>(plan: &Plan, rows: &'a Rows, number: u32) -> RowsSlice<'a>
    ensures kinds { result.kinds ≡ rows.now.kinds }
    ensures rows { result.rows ≡ spec.batch_rows plan.now rows.now.rows number }
{
    let size = plan.batch as usize;
    let from = size
        .saturating_mul((number as usize).saturating_sub(1))
        .min(rows.len());
    let to = from.saturating_add(size).min(rows.len());
    rows.part(from, to)
}

// How many batches there are.
fn batch_count(plan: &Plan, rows: &Rows) -> u32
    requires fit { IsFit plan.now }
    requires few { length rows.now.rows ≤ MOST_ROWS }
    ensures value { result ≡ spec.batch_count plan.now rows.now.rows }
    ensures few { result ≤ MOST_ROWS }
{
    rows.len().div_ceil(plan.batch as usize) as u32
}

// The refusal of a batch, with its number.
fn in_batch(refused: OpRefused, number: u32) -> QueryRefused
    ensures value { result ≡ refusal_in refused number }
{
    match refused {
        OpRefused::Full(full) => QueryRefused::Full {
            full,
            batch: number,
        },
        OpRefused::NoMemory => QueryRefused::NoMemory,
    }
}

#[cfg(test)]
mod tests;
