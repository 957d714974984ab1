//! A request: a charge on trial.
ghost use Rattle.std.specs.Prelude.{◌≡◌, ◌∷◌, ◌^◌, ◌<◌, IfOk};
ghost use Rattle.mem_model.specs.TreeNode.{IsAllocatorTree};
ghost use Rattle.mem_model.specs.Bound.{all_of};
ghost use Rattle.mem_model.specs.Request as spec;

use crate::charge::Charge;
use crate::held::held_of;
use crate::tree_node::TreeNode;
use mem_num::Full;
use std::alloc::{AllocError, Global};

// The charges with the one on trial before them.
pub fn with_request(
    alloc: Global,
    charges: &[Charge],
    request: Charge,
) -> Result<Vec<Charge>, AllocError>
    ensures { IfOk result (λ trial. trial.items ≡ request ∷ charges.now) }
{
    let mut trial = Vec::with_capacity(alloc, charges.len().saturating_add(1))?;
    trial.push(request)?;
    trial.extend_from_slice(charges)?;
    Ok(trial)
}

/// The levels of a request: the allocators that hold more with its charge on trial, each behind its parent.
#[tactic(auto, using(crate::proofs::BoundLemmas::all_of_cons))]
pub fn levels_of(
    alloc: Global,
    nodes: &[TreeNode],
    charges: &[Charge],
    request: Charge,
) -> Result<Vec<TreeNode>, AllocError>
    requires tree { IsAllocatorTree nodes.now }
    requires fits { all_of nodes.now (request ∷ charges.now) < 2 ^ 64 }
    ensures levels { IfOk result (λ levels. levels.items ≡ spec.levels_of nodes.now charges.now request) }
{
    let trial = with_request(alloc, charges, request)?;
    let mut levels = Vec::new(alloc);
    for node in nodes {
        if held_of(nodes, &trial, node.number) != held_of(nodes, charges, node.number) {
            levels.push(*node)?;
        }
    }
    Ok(levels)
}

/// Whether an allocator holds more than its limit.
pub fn is_past_limit(nodes: &[TreeNode], charges: &[Charge], node: &TreeNode) -> bool
    requires tree { IsAllocatorTree nodes.now }
    requires fits { all_of nodes.now charges.now < 2 ^ 64 }
    ensures { result ≡ spec.is_past_limit nodes.now charges.now node.now }
{
    held_of(nodes, charges, node.number) > node.limit
}

/// The lowest level that a request takes past its limit, and so the one that refuses it; `None` where it fits.
pub fn refusing_level(
    alloc: Global,
    nodes: &[TreeNode],
    charges: &[Charge],
    request: Charge,
) -> Result<Option<TreeNode>, AllocError>
    requires tree { IsAllocatorTree nodes.now }
    requires fits { all_of nodes.now (request ∷ charges.now) < 2 ^ 64 }
    ensures refusing { IfOk result (λ level. level ≡ spec.refusing_level nodes.now charges.now request) }
{
    let trial = with_request(alloc, charges, request)?;
    let levels = levels_of(alloc, nodes, charges, request)?;
    let mut refusing = None;
    for level in &levels {
        if is_past_limit(nodes, &trial, level) {
            refusing = Some(*level);
        }
    }
    Ok(refusing)
}

/// The numbers that a refusal at a level tells.
#[tactic(auto, using(crate::proofs::BoundLemmas::all_of_cons, crate::proofs::BoundLemmas::held_of_monotone))]
pub fn refusal_of(
    alloc: Global,
    nodes: &[TreeNode],
    charges: &[Charge],
    request: Charge,
    level: TreeNode,
) -> Result<Full, AllocError>
    requires tree { IsAllocatorTree nodes.now }
    requires fits { all_of nodes.now (request ∷ charges.now) < 2 ^ 64 }
    ensures numbers { IfOk result (λ full. full ≡ spec.refusal_of nodes.now charges.now request level) }
{
    let trial = with_request(alloc, charges, request)?;
    let held = held_of(nodes, charges, level.number);
    Ok(Full {
        node: level.number,
        held,
        amount: held_of(nodes, &trial, level.number) - held,
        limit: level.limit,
        local: level.number == request.at,
    })
}
