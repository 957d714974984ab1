//! Closing an allocator.
ghost use Rattle.std.specs.Prelude.{◌≡◌, IfOk, OnOk, OnErr};
ghost use Rattle.mem_model.specs.TreeState as tree;
ghost use Rattle.mem_model.specs.Close as spec;
ghost use Rattle.plain_tree.specs.PlainTree.{MeetsCall};

use super::PlainTree;
use mem_model::TreeNode;
use mem_num::{AllocId, NotClosed};
use std::alloc::{AllocError, Global};

fn closed_where(at: AllocId, node: TreeNode) -> TreeNode
    ensures { result ≡ spec.closed_where at.0 node }
{
    if node.number == at {
        TreeNode {
            closed: true,
            ..node
        }
    } else {
        node
    }
}

fn with_closed(alloc: Global, at: AllocId, nodes: &[TreeNode]) -> Result<Vec<TreeNode>, AllocError>
    ensures { IfOk result (λ closed. closed.items ≡ spec.with_closed at.0 nodes.now) }
{
    nodes
        .iter()
        .map(|node| closed_where(at, *node))
        .collect(alloc)
}

impl PlainTree {
    // An allocator without uses is closed.
    fn mark_closed(&mut self, alloc: Global, at: AllocId) -> Result<(), AllocError>
        requires unused { tree.uses_of self.old.state at.0 ≡ 0 }
        ensures ok { OnOk result (self.new ≡ record self.old {
          state = record self.old.state { nodes = spec.with_closed at.0 self.old.state.nodes };
        }) }
        ensures err { OnErr result (self.new ≡ self.old) }
    {
        let nodes = with_closed(alloc, at, &self.nodes)?;
        self.nodes = nodes;
        Ok(())
    }

    /// Closes an allocator. After `BaseAllocator.close`.
    pub fn close(&mut self, alloc: Global, at: AllocId) -> Result<Result<(), NotClosed>, AllocError>
        ensures call { IfOk result (λ answer.
            MeetsCall (spec.close_result self.old.state at) self.old self.new answer) }

        // Memory ran out, and nothing changed.
        ensures err { OnErr result (self.new ≡ self.old) }
    {
        if !self.is_open(at) {
            return Ok(Err(NotClosed::Closed { uses: 0 }));
        }
        let uses = self.uses(at);
        if uses > 0 {
            return Ok(Err(NotClosed::InUse { uses }));
        }
        self.mark_closed(alloc, at)?;
        Ok(Ok(()))
    }
}
