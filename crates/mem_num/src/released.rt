//! A release of nothing.
ghost use Rattle.std.specs.Prelude.{Some};

use crate::alloc_id::AllocId;
use std::fmt;

/// The reference was released before: its allocator has no ledger on its chunk.
#[derive(Clone, Copy, Debug, PartialEq, Eq)]
pub struct Released {
    /// The number of the chunk, or 0 from a call that doesn't know it.
    pub chunk: u32,
    pub alloc: AllocId,
}

/// As `released chunk 7 at #2`.
impl fmt::Display for Released {
    ghost use Rattle.mem_num.specs.Text.{released_text};

    ghost output = { λ refused. Some (released_text refused.chunk refused.alloc.0) };

    fn fmt<W: fmt::Write>(&self, f: &mut fmt::Formatter<W>) -> fmt::Result {
        let Released { chunk, alloc } = *self;
        write!(f, "released chunk {chunk} at {alloc}")
    }
}
