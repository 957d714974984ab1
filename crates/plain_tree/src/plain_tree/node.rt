//! The numbers of an allocator.
ghost use Rattle.std.specs.Prelude.{◌≡◌, ◌==◌, IfOk, find};
ghost use Rattle.mem_model.specs.PeakSample as peak;
ghost use Rattle.mem_model.specs.TreeState as tree;
ghost use Rattle.mem_model.specs.MeasuredTree as spec;

use super::PlainTree;
use mem_model::{TreeNode, held_of, peak_of};
use mem_num::{AllocId, Node, Placed};
use std::alloc::{AllocError, Global};

fn node_at(nodes: &[TreeNode], at: AllocId) -> Option<TreeNode>
    ensures { result ≡ find (λ node. node.number.0 == at.0) nodes.now }
{
    for node in nodes {
        if node.number == at {
            return Some(*node);
        }
    }
    None
}

impl PlainTree {
    fn held(&self, alloc: Global, at: AllocId) -> Result<u64, AllocError>
        ensures { IfOk result (λ held. held ≡ tree.held_at self.now.state at.0) }
    {
        let charges = self.charges(alloc)?;
        Ok(held_of(&self.nodes, &charges, at))
    }

    fn peak(&self, at: AllocId) -> u64
        ensures { result ≡ peak.peak_of self.now.samples at.0 }
    {
        peak_of(&self.samples, at)
    }

    fn found(&self, at: AllocId) -> Option<TreeNode>
        ensures { result ≡ find (λ node. node.number.0 == at.0) self.now.state.nodes }
    {
        node_at(&self.nodes, at)
    }

    fn placed(&self, alloc: Global, node: TreeNode) -> Result<Placed, AllocError>
        ensures { IfOk result (λ placed. placed ≡ spec.placed_node (peak.peak_of self.now.samples) self.now.state node) }
    {
        let held = self.held(alloc, node.number)?;
        Ok(Placed {
            at: node.number,
            parent: node.parent.unwrap_or(node.number),
            node: Node {
                reservation: node.reservation,
                held,
                peak: self.peak(node.number),
                limit: node.limit,
                uses: self.uses(node.number),
                closed: node.closed,
            },
        })
    }

    /// An allocator with its numbers, if it was made.
    pub fn node(&self, alloc: Global, at: AllocId) -> Result<Option<Placed>, AllocError>
        ensures node { IfOk result (λ placed. placed ≡ spec.placed_at (peak.peak_of self.now.samples) self.now.state at.0) }
    {
        let Some(node) = self.found(at) else {
            return Ok(None);
        };
        Ok(Some(self.placed(alloc, node)?))
    }
}
