//! What a tree keeps of one allocator.
ghost use Rattle.std.specs.Prelude.{◌≡◌};

use mem_num::{AllocId, Node, Placed};

/// An allocator of a tree of one thread; its number is its place among the rows. Amounts are in bytes. After `Accountant` and
/// `BaseAllocator` of Arrow Java.
#[derive(Clone, Copy, Debug)]
pub(crate) struct Row {
    pub(crate) parent: Option<AllocId>,
    pub(crate) reservation: u64,
    pub(crate) limit: u64,
    pub(crate) held: u64,
    /// The most that a request has taken it to.
    pub(crate) peak: u64,
    /// Its ledgers and its open children, counted.
    pub(crate) uses: u64,
    pub(crate) closed: bool,
}

impl Row {
    ghost use Rattle.alloc_tree.specs.Placed.{root_row, child_row, placed_row};

    /// The row of the root, which has no parent and reserves nothing.
    pub(crate) fn root(limit: u64) -> Row
        ensures { result ≡ root_row limit }
    {
        Row {
            parent: None,
            reservation: 0,
            limit,
            held: 0,
            peak: 0,
            uses: 0,
            closed: false,
        }
    }

    /// The row of a child that was just made.
    pub(crate) fn child(parent: AllocId, reservation: u64, limit: u64) -> Row
        ensures { result ≡ child_row parent reservation limit }
    {
        Row {
            parent: Some(parent),
            reservation,
            limit,
            held: 0,
            peak: 0,
            uses: 0,
            closed: false,
        }
    }

    /// The allocator with its numbers.
    pub(crate) fn placed(&self, at: AllocId) -> Placed
        ensures { result ≡ placed_row at self.now }
    {
        Placed {
            at,
            parent: self.parent.unwrap_or(at),
            node: Node {
                reservation: self.reservation,
                held: self.held,
                peak: self.peak,
                limit: self.limit,
                uses: self.uses,
                closed: self.closed,
            },
        }
    }
}
