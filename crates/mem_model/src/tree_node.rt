//! An allocator of a tree, and which lists of them are trees.
ghost use Rattle.std.specs.Prelude.{◌≡◌, ◌↔◌, IsTrue, All, Any};
ghost use Rattle.std.specs.Option.{ForSome};
ghost use Rattle.mem_model.specs.TreeNode as tree;

use crate::numbered::{Numbered, rise};
use mem_num::AllocId;

/// An allocator, without what it holds. The root has no parent, and reserves nothing.
#[derive(Clone, Copy, Debug, PartialEq, Eq)]
pub struct TreeNode {
    pub number: AllocId,
    pub parent: Option<AllocId>,
    /// What the parent sets aside for it, used or not, in bytes.
    pub reservation: u64,
    /// The most that it may hold, in bytes.
    pub limit: u64,
    pub closed: bool,
}

impl TreeNode {
    /// Whether this is an open child of that allocator.
    pub fn is_open_child(&self, of: AllocId) -> bool
        ensures { result ≡ tree.is_open_child of.0 self.now }
    {
        self.parent == Some(of) && !self.closed
    }

    fn is_parent_of(&self, child: &TreeNode) -> bool
        ensures { IsTrue result ↔ tree.IsParentOf child.now self.now }
    {
        child.parent == Some(self.number)
            && self.number.0 < child.number.0
            && (child.closed || !self.closed)
    }

    fn has_parent_unless_root(&self) -> bool
        ensures { IsTrue result ↔ tree.HasParentUnlessRoot self.now }
    {
        self.parent.is_none() == (self.number == AllocId::ROOT)
    }

    fn has_parent_in(&self, nodes: &[TreeNode]) -> bool
        ensures { IsTrue result ↔ ForSome self.now.parent (λ _. Any (tree.IsParentOf self.now) nodes.now) }
    {
        self.parent.is_none() || nodes.iter().any(|node| node.is_parent_of(self))
    }
}

impl Numbered for TreeNode {
    ghost number_of = { λ node. node.number.0 };

    fn number(&self) -> u32 {
        self.number.0
    }
}

/// Whether these allocators, in this order, are a tree.
pub fn is_allocator_tree(nodes: &[TreeNode]) -> bool
    ensures { IsTrue result ↔ tree.IsAllocatorTree nodes.now }
{
    if !rise(nodes) || !have_a_root(nodes) {
        return false;
    }
    have_parents(nodes)
}

fn have_a_root(nodes: &[TreeNode]) -> bool
    ensures { IsTrue result ↔ All tree.HasParentUnlessRoot nodes.now }
{
    nodes.iter().all(|node| node.has_parent_unless_root())
}

fn have_parents(nodes: &[TreeNode]) -> bool
    ensures { IsTrue result ↔ All (λ node. ForSome node.parent (λ _. Any (tree.IsParentOf node) nodes.now)) nodes.now }
{
    for node in nodes {
        if !node.has_parent_in(nodes) {
            return false;
        }
    }
    true
}
