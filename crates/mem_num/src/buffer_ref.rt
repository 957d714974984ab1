//! One counted use of a chunk, described.

use crate::alloc_id::AllocId;

/// A reference: the chunk that it uses, the allocator on whose ledger it is counted, and the chunk's size in bytes. That of
/// the empty buffer has chunk 0 and size 0. After Arrow Java's `BufferLedger`, which counts by ledger alone.
#[derive(Clone, Copy, Debug, PartialEq, Eq)]
pub struct Ref {
    pub chunk: u32,
    pub alloc: AllocId,
    pub size: u64,
}
