//! A call at a closed allocator.
ghost use Rattle.std.specs.Prelude.{Some};

use crate::alloc_id::AllocId;
use std::fmt;

/// The allocator that was asked is closed.
#[derive(Clone, Copy, Debug, PartialEq, Eq)]
pub struct Closed {
    pub node: AllocId,
    /// How many uses it still had: ledgers, open children, pins and calls inside it.
    pub uses: u64,
}

/// As `closed #2`.
impl fmt::Display for Closed {
    ghost use Rattle.mem_num.specs.Text.{closed_text};

    ghost output = { λ refused. Some (closed_text refused.node.0) };

    fn fmt<W: fmt::Write>(&self, f: &mut fmt::Formatter<W>) -> fmt::Result {
        let node = self.node;
        write!(f, "closed {node}")
    }
}
