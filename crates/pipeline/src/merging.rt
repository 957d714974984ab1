//! The merge of a query's batches.
ghost use Rattle.std.specs.Prelude.{◌≡◌, ◌+◌, ◌*◌, ◌≤◌, All, IfErr, IfOk, List, length};
ghost use Rattle.mem_buf.specs.Chain.{Runs};
ghost use Rattle.query_model.specs.Answer.{answer_of};
ghost use Rattle.query_model.specs.Fit.{IsFit};
ghost use Rattle.query_model.specs.Requests.{answer_kinds};
ghost use Rattle.query_model.specs.SequentialCalls.{answer_width};
ghost use Rattle.query_model.specs.declared.cell.Cell.{Cell as AnyCell};
ghost use Rattle.alloc_tree.specs.SoloMeaning.{solo_model};
ghost use Rattle.alloc_tree.specs.SoloView.{solo_view};
ghost use Rattle.operators.specs.Groups.{rows_in_all};
ghost use Rattle.operators.specs.Instead.{references_of};
ghost use Rattle.pipeline.specs.Stages.{AreParts, AreStorable, IsMergeDone, IsMergeRefusal};

use crate::refused::QueryRefused;
use alloc_tree::{Solo, SoloTree};
use batch_vec::{Batch, OpRefused};
use mem_num::{AllocId, NoMemory, Ref};
use operators::{merge_groups, merge_picked, release_batches};
use query_model::{Output, Plan};
use std::alloc::Global;

/// Where the answer is kept.
const RESULT: AllocId = AllocId(5);

/// Merges the parts of an answer at the result's allocator: those of a selection move there, one after the other, and groups are
/// grouped again and stored there, as one batch.
pub(crate) fn merge(
    alloc: Global,
    tree: &mut SoloTree,
    plan: &Plan,
    batches: Vec<Batch<Ref>>,
) -> Result<Vec<Batch<Ref>>, QueryRefused>
    requires fit { IsFit plan.now }
    requires parts { (rows : List (List AnyCell)) × AreParts plan.now rows batches.items × AreStorable plan.now rows }
    requires held { length (references_of (λ hold. hold) batches.items) ≤ 2 * answer_width plan.now * length batches.items }
    requires pinned { 1 ≤ (solo_view tree.old).pins 5 }
    requires turns { 2 * answer_width plan.now * (length batches.items + 1) ≤ (solo_view tree.old).turns }

    // The batches of the result are the answer, one after the other.
    ensures kinds { IfOk result (λ merged. All (λ batch. batch.kinds ≡ answer_kinds plan.now) merged.items) }
    ensures rows { (rows : List (List AnyCell)) → AreParts plan.now rows batches.items
        → IfOk result (λ merged. rows_in_all merged.items ≡ answer_of plan.now rows) }

    // The calls are those that were planned, up to one that a level refused, if one was.
    ensures calls { (rows : List (List AnyCell)) → AreParts plan.now rows batches.items → IfOk result (λ merged. Runs solo_model
        (IsMergeDone plan.now rows (references_of (λ hold. hold) batches.items) (references_of (λ hold. hold) merged.items))
        tree.old tree.new) }
    ensures refused { (rows : List (List AnyCell)) → AreParts plan.now rows batches.items
        → IfErr result (λ refused. Runs solo_model (IsMergeRefusal plan.now rows refused) tree.old tree.new) }
{
    match &plan.output {
        Output::Select(_) => match merge_picked(alloc, &Solo, tree, RESULT, batches) {
            Ok(merged) => Ok(merged),
            Err(NoMemory) => Err(QueryRefused::NoMemory),
        },
        Output::Group { sums, .. } => {
            // Room for the merged batch, before it is made: without it the batch would be lost.
            let Ok(mut merged) = Vec::with_capacity(alloc, 1) else {
                release_batches(&Solo, tree, batches);
                return Err(QueryRefused::NoMemory);
            };
            let count = sums.as_slice().len() as u32;
            match merge_groups(alloc, &Solo, tree, RESULT, count, batches) {
                Ok(batch) => {
                    merged.push_reserved(batch);
                    Ok(merged)
                }
                Err(refused) => {
                    merged.destroy_empty();
                    match refused {
                        OpRefused::Full(full) => Err(QueryRefused::Full { full, batch: 0 }),
                        OpRefused::NoMemory => Err(QueryRefused::NoMemory),
                    }
                }
            }
        }
    }
}
