//! One allocator of the accounts.
ghost use Rattle.std.specs.Prelude.{◌≡◌};

use crate::shape::Shape;
use mem_num::Node;

/// An allocator; its number is its place in the list of rows. Amounts are in bytes.
#[derive(Clone, Copy, Debug, PartialEq, Eq)]
pub struct Row {
    pub shape: Shape,
    pub limit: u64,
    pub held: u64,
    /// The claims on it that aren't free.
    pub uses: u64,
}

impl Row {
    ghost use Rattle.acct_core.specs.Applies.{opened_row};
    ghost use Rattle.acct_core.specs.Opening.{opening_row};
    ghost use Rattle.acct_core.specs.Rows.{blank};
    ghost use Rattle.acct_core.specs.State.{shown_node};

    /// The row of a number that wasn't given yet.
    pub fn blank() -> Row
        ensures { result ≡ blank }
    {
        Row {
            shape: Shape {
                made: false,
                is_open: false,
                parent: None,
                reservation: 0,
            },
            limit: 0,
            held: 0,
            uses: 0,
        }
    }

    /// The row of the root, which has no parent and reserves nothing.
    pub fn root(limit: u64) -> Row
        ensures { result ≡ opening_row limit }
    {
        Row {
            shape: Shape {
                made: true,
                is_open: true,
                parent: None,
                reservation: 0,
            },
            limit,
            held: 0,
            uses: 0,
        }
    }

    /// The row of a child that was just made.
    pub fn child(parent: u32, reservation: u64, limit: u64) -> Row
        ensures { result ≡ opened_row parent reservation limit }
    {
        Row {
            shape: Shape {
                made: true,
                is_open: true,
                parent: Some(parent),
                reservation,
            },
            limit,
            held: 0,
            uses: 0,
        }
    }

    /// What a caller sees of the allocator.
    pub fn node(&self) -> Node
        ensures { result ≡ shown_node self.now }
    {
        Node {
            reservation: self.shape.reservation,
            held: self.held,
            peak: 0,
            limit: self.limit,
            uses: self.uses,
            closed: !self.shape.is_open,
        }
    }
}
