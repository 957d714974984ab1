//! The moment of a request, at which peaks are measured.
ghost use Rattle.std.specs.Prelude.{◌≡◌, ◌∷◌, ◌^◌, ◌<◌, nat_lt, map, filter, IfOk};
ghost use Rattle.mem_model.specs.TreeNode.{IsAllocatorTree};
ghost use Rattle.mem_model.specs.Bound.{all_of};
ghost use Rattle.mem_model.specs.Force.{force_sample_of};
ghost use Rattle.mem_model.specs.PeakSample as spec;

use crate::charge::Charge;
use crate::peak_sample::PeakSample;
use crate::request::{levels_of, refusing_level, with_request};
use crate::tree_node::TreeNode;
use mem_num::AllocId;
use std::alloc::{AllocError, Global};

fn newer_than(
    alloc: Global,
    levels: &[TreeNode],
    number: AllocId,
) -> Result<Vec<TreeNode>, AllocError>
    ensures { IfOk result (λ newer. newer.items ≡ filter (λ level. nat_lt number.0 level.number.0) levels.now) }
{
    let mut newer = Vec::new(alloc);
    for level in levels {
        if number.0 < level.number.0 {
            newer.push(*level)?;
        }
    }
    Ok(newer)
}

// The levels whose peak a request may raise, by the level that refuses it.
fn counted_levels(
    alloc: Global,
    levels: Vec<TreeNode>,
    refusing: Option<TreeNode>,
) -> Result<Vec<TreeNode>, AllocError>
    ensures { IfOk result (λ counted. counted.items ≡ spec.counted_levels levels.items refusing) }
{
    match refusing {
        None => Ok(levels),
        Some(level) => newer_than(alloc, &levels, level.number),
    }
}

fn numbers_of(alloc: Global, levels: &[TreeNode]) -> Result<Vec<AllocId>, AllocError>
    ensures { IfOk result (λ numbers. numbers.items ≡ map (λ level. level.number) levels.now) }
{
    levels.iter().map(|level| level.number).collect(alloc)
}

/// The sample of a forced charge: its moment, with the charge besides, counts for all its levels.
pub fn force_sample(
    alloc: Global,
    nodes: &[TreeNode],
    charges: &[Charge],
    force: Charge,
) -> Result<PeakSample, AllocError>
    requires tree { IsAllocatorTree nodes.now }
    requires fits { all_of nodes.now (force ∷ charges.now) < 2 ^ 64 }
    ensures sample { IfOk result (λ sample. sample ≡ force_sample_of nodes.now charges.now force) }
    ensures sound { IfOk result spec.IsSoundSample }
{
    let levels = levels_of(alloc, nodes, charges, force)?;
    let counts = numbers_of(alloc, &levels)?;
    let charged = with_request(alloc, charges, force)?;
    Ok(PeakSample::new(Vec::from_slice(alloc, nodes)?, charged, counts))
}

/// The sample of a request: its moment, with its charge on trial, counts for its levels, or for those below the level that
/// refuses it.
pub fn request_sample(
    alloc: Global,
    nodes: &[TreeNode],
    charges: &[Charge],
    request: Charge,
) -> Result<PeakSample, AllocError>
    requires tree { IsAllocatorTree nodes.now }
    requires fits { all_of nodes.now (request ∷ charges.now) < 2 ^ 64 }
    ensures sample { IfOk result (λ sample. sample ≡ spec.request_sample nodes.now charges.now request) }
    ensures sound { IfOk result spec.IsSoundSample }
{
    let levels = levels_of(alloc, nodes, charges, request)?;
    let refusing = refusing_level(alloc, nodes, charges, request)?;
    let counted = counted_levels(alloc, levels, refusing)?;
    let counts = numbers_of(alloc, &counted)?;
    let trial = with_request(alloc, charges, request)?;
    Ok(PeakSample::new(Vec::from_slice(alloc, nodes)?, trial, counts))
}
