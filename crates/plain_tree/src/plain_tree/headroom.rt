//! How much more an allocator could hold.
ghost use Rattle.std.specs.Prelude.{◌≡◌, ◌<◌, ◌≤◌, ◌^◌, pos, ◌+ℤ◌, reverse, IfOk, Option, Some, All};
ghost use Rattle.std.specs.Int.{int_min};
ghost use Rattle.std.specs.List.{list_any};
ghost use Rattle.mem_num.specs.declared.bounds.TheConstants.{MAX_LIMIT, MAX_RESERVATION};
ghost use Rattle.mem_model.specs.TreeNode.{is_number, IsAllocatorTree};
ghost use Rattle.mem_model.specs.Bound.{all_of};
ghost use Rattle.mem_model.specs.Held.{held_of as held_number};
ghost use Rattle.mem_model.specs.Request.{is_past_limit as is_past};
ghost use Rattle.mem_model.specs.TreeState as tree;
ghost use Rattle.mem_model.specs.Headroom as spec;

use super::PlainTree;
use mem_model::{Charge, TreeNode, held_of, is_past_limit};
use mem_num::{AllocId, Closed};
use std::alloc::{AllocError, Global};

fn newest_first(alloc: Global, nodes: &[TreeNode]) -> Result<Vec<TreeNode>, AllocError>
    ensures { IfOk result (λ newest. newest.items ≡ reverse nodes.now) }
{
    let mut newest = Vec::from_slice(alloc, nodes)?;
    newest.reverse();
    Ok(newest)
}

fn is_next(next: Option<AllocId>, node: &TreeNode) -> bool
    ensures { result ≡ is_number node.now.number.0 next }
{
    next == Some(node.number)
}

// An allocator and those above it, where newer nodes stand first.
fn path_from(
    alloc: Global,
    newest: &[TreeNode],
    at: Option<AllocId>,
) -> Result<Vec<TreeNode>, AllocError>
    ensures { IfOk result (λ path. path.items ≡ spec.path_from newest.now at) }
{
    let mut path = Vec::new(alloc);
    let mut next = at;
    for node in newest {
        if is_next(next, node) {
            path.push(*node)?;
            next = node.parent;
        }
    }
    Ok(path)
}

fn path_of(alloc: Global, nodes: &[TreeNode], at: AllocId) -> Result<Vec<TreeNode>, AllocError>
    ensures { IfOk result (λ path. path.items ≡ spec.path_of nodes.now at.0) }
{
    let newest = newest_first(alloc, nodes)?;
    path_from(alloc, &newest, Some(at))
}

// Whether one of some nodes holds more than its limit.
fn is_one_past(nodes: &[TreeNode], charges: &[Charge], path: &[TreeNode]) -> bool
    requires tree { IsAllocatorTree nodes.now }
    requires fits { all_of nodes.now charges.now < 2 ^ 64 }
    ensures { result ≡ list_any (is_past nodes.now charges.now) path.now }
{
    for node in path {
        if is_past_limit(nodes, charges, node) {
            return true;
        }
    }
    false
}

// What a node's limit leaves free, less than nothing where it holds more.
#[tactic(auto, using(mem_model::proofs::BoundLemmas::held_of_bound))]
fn free_at(nodes: &[TreeNode], charges: &[Charge], node: &TreeNode) -> i64
    requires tree { IsAllocatorTree nodes.now }
    requires fits { all_of nodes.now charges.now < 2 ^ 63 }
    requires limited { node.now.limit ≤ MAX_LIMIT }
    ensures { result ≡ spec.free_at (held_number nodes.now charges.now) node.now }
{
    let held = held_of(nodes, charges, node.number);
    node.limit as i64 - held as i64
}

fn unused_at(nodes: &[TreeNode], charges: &[Charge], node: &TreeNode) -> u64
    requires tree { IsAllocatorTree nodes.now }
    requires fits { all_of nodes.now charges.now < 2 ^ 63 }
    ensures { result ≡ spec.unused_at (held_number nodes.now charges.now) node.now }
{
    let held = held_of(nodes, charges, node.number);
    node.reservation.saturating_sub(held)
}

// The sum may pass 64 bits, and then it isn't the lesser.
fn least(free: i64, above: i64, unused: u64) -> i64
    requires { unused < 2 ^ 63 }
    ensures { result ≡ int_min free (above +ℤ pos unused) }
{
    match above.checked_add(unused as i64) {
        Some(sum) => free.min(sum),
        None => free,
    }
}

// The least that a limit on the way up leaves.
fn headroom_on(nodes: &[TreeNode], charges: &[Charge], path: &[TreeNode]) -> i64
    requires tree { IsAllocatorTree nodes.now }
    requires fits { all_of nodes.now charges.now < 2 ^ 63 }
    requires bounds { All (λ node. (node.limit ≤ MAX_LIMIT) × (node.reservation ≤ MAX_RESERVATION)) path.now }
    ensures { result ≡ spec.headroom_on (held_number nodes.now charges.now) path.now }
{
    let [node, above @ ..] = path else {
        return 0;
    };
    let free = free_at(nodes, charges, node);
    if above.is_empty() {
        return free;
    }
    let unused = unused_at(nodes, charges, node);
    least(free, headroom_on(nodes, charges, above), unused)
}

impl PlainTree {
    fn headroom_of(&self, alloc: Global, at: AllocId) -> Result<i64, AllocError>
        ensures { IfOk result (λ headroom. headroom ≡ spec.headroom_of self.now.state at.0) }
    {
        let charges = self.charges(alloc)?;
        let path = path_of(alloc, &self.nodes, at)?;
        Ok(headroom_on(&self.nodes, &charges, &path))
    }

    /// How many bytes an allocator could be given now, by its limit and by those above it; less than nothing only where
    /// it or one above it holds more than its own limit. After `BaseAllocator.getHeadroom`.
    #[tactic(auto, unfolding(mem_model::specs::Headroom::headroom_answer))]
    pub fn headroom(&self, alloc: Global, at: AllocId) -> Result<Result<i64, Closed>, AllocError>
        ensures answer { IfOk result (λ answer. answer ≡ spec.headroom_answer self.now.state at) }
    {
        if !self.is_open(at) {
            return Ok(Err(Closed { node: at, uses: 0 }));
        }
        Ok(Ok(self.headroom_of(alloc, at)?))
    }

    fn is_over(&self, alloc: Global, at: AllocId) -> Result<bool, AllocError>
        ensures { IfOk result (λ over. over ≡ spec.is_over_limit self.now.state at.0) }
    {
        let charges = self.charges(alloc)?;
        let path = path_of(alloc, &self.nodes, at)?;
        Ok(is_one_past(&self.nodes, &charges, &path))
    }

    /// Whether an allocator or one above it holds more than its limit. After `BaseAllocator.isOverLimit`.
    #[tactic(auto, unfolding(mem_model::specs::Headroom::over_limit_answer))]
    pub fn over_limit(&self, alloc: Global, at: AllocId) -> Result<Result<bool, Closed>, AllocError>
        ensures answer { IfOk result (λ answer. answer ≡ spec.over_limit_answer self.now.state at) }
    {
        if !self.is_open(at) {
            return Ok(Err(Closed { node: at, uses: 0 }));
        }
        Ok(Ok(self.is_over(alloc, at)?))
    }
}
