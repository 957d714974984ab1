//! Opening the allocators of a query, under the root.
ghost use Rattle.std.specs.Prelude.{◌≡◌, ◌+◌, ◌≤◌, [], All, OnOk, drop, length, slice_index_or};
ghost use Rattle.mem_num.specs.declared.bounds.TheConstants.{MAX_LIMIT, MAX_RESERVATION};
ghost use Rattle.mem_model.specs.LawfulState.{IsLawfulState};
ghost use Rattle.mem_model.specs.MeasuredTree.{IsOpened};
ghost use Rattle.mem_buf.specs.Chain.{Runs};
ghost use Rattle.alloc_tree.specs.SoloMeaning.{solo_model};
ghost use Rattle.alloc_tree.specs.SoloView.{solo_view};
ghost use Rattle.query_model.specs.Fit.{IsFit};
ghost use Rattle.pipeline.specs.Closing.{query_nodes};
ghost use Rattle.pipeline.specs.Opening.{AddsChildren, IsOpening, OpensChildren};

use crate::refused::QueryRefused;
use alloc_tree::{Solo, SoloTree, every_tree_is_lawful};
use mem_buf::Memory;
use mem_num::{AllocId, ChildRefused};
use query_model::Plan;

/// Makes the children of the root, in order, each with its limit and its reservation in bytes. Where one is refused, none is asked
/// for behind it.
pub(crate) fn open_children(tree: &mut SoloTree, plan: &Plan) -> Result<(), QueryRefused>
    requires fit { IsFit plan.now }
    requires opened { IsOpened (slice_index_or plan.now.limits 0 0) tree.old }
    ensures calls { Runs solo_model (IsOpening plan.now result) tree.old tree.new }
    ensures nodes { OnOk result (tree.new.state.nodes
        ≡ query_nodes (slice_index_or plan.now.limits 0 0) (drop 1 plan.now.limits) plan.now.reserves) }
    ensures chunks { OnOk result (tree.new.state.chunks ≡ []) }
    ensures turns { OnOk result (tree.new.calls ≤ 5) }
    ensures lawful { IsLawfulState tree.new.state }
{
    let result = open_each(tree, behind_root(&plan.limits), &plan.reserves);
    every_tree_is_lawful(tree);
    result
}

/// The law that every plan has five limits besides the root's, and as many reservations.
pub(crate) fn every_plan_has_five_children(plan: &Plan)
    ensures limits { length (drop 1 plan.now.limits) ≡ 5 }
    ensures reserves { length plan.now.reserves ≡ 5 }
{
    // Reading the fields tells the proof how long they are.
    let _ = behind_root(&plan.limits);
    let _ = first_of(&plan.reserves);
}

// The first of five numbers.
fn first_of(numbers: &[u64; 5]) -> u64
    ensures { length numbers.now ≡ 5 }
{
    numbers[0]
}

// The limits of all allocators but the root.
fn behind_root(limits: &[u64; 6]) -> &[u64]
    ensures limits { result.now ≡ drop 1 limits.now }
    ensures count { length result.now ≡ 5 }
{
    &limits[1..]
}

// Makes a child of the root for each reservation, with the limit beside it.
fn open_each(tree: &mut SoloTree, limits: &[u64], reserves: &[u64]) -> Result<(), QueryRefused>
    requires beside { length limits.now ≡ length reserves.now }
    requires turns { length reserves.now ≤ (solo_view tree.old).turns }
    requires limits { All (λ limit. limit ≤ MAX_LIMIT) limits.now }
    requires reserves { All (λ reservation. reservation ≤ MAX_RESERVATION) reserves.now }
    ensures calls { Runs solo_model (OpensChildren limits.now reserves.now result) tree.old tree.new }
    ensures children { OnOk result (AddsChildren limits.now reserves.now tree.old tree.new) }
    ensures turns { OnOk result ((solo_view tree.old).turns ≤ (solo_view tree.new).turns + length reserves.now) }
{
    let [reservation, reserves @ ..] = reserves else {
        return Ok(());
    };
    let [limit, limits @ ..] = limits else {
        return Ok(());
    };
    match Solo.child(tree, AllocId::ROOT, *reservation, *limit) {
        Ok(_) => open_each(tree, limits, reserves),
        Err(ChildRefused::Full(full)) => Err(QueryRefused::Full { full, batch: 0 }),
        Err(_) => Err(QueryRefused::NoMemory),
    }
}

#[cfg(test)]
mod tests;
