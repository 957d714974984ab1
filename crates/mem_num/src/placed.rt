//! An allocator at its place in the tree.

use crate::alloc_id::AllocId;
use crate::node::Node;

/// An allocator with its number and its parent's; the root's parent is the root.
#[derive(Clone, Copy, Debug, PartialEq, Eq)]
pub struct Placed {
    pub at: AllocId,
    pub parent: AllocId,
    pub node: Node,
}
