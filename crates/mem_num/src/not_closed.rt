//! Why an allocator was not closed.

/// Why an allocator was not closed, with how many uses it has: ledgers, open children, pins and calls inside it. After
/// `BaseAllocator.close` of Arrow Java, which throws where a ledger or a child is left.
#[derive(Clone, Copy, Debug, PartialEq, Eq)]
pub enum NotClosed {
    /// It is in use.
    InUse { uses: u64 },
    /// It was closed before.
    Closed { uses: u64 },
}
