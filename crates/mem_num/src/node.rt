//! The numbers of one allocator.

/// What an allocator may hold, holds and held, in bytes, and how many uses it has.
#[derive(Clone, Copy, Debug, PartialEq, Eq)]
pub struct Node {
    /// What its parent sets aside for it, whether it is used or not.
    pub reservation: u64,
    pub held: u64,
    /// The most that was ever held.
    pub peak: u64,
    pub limit: u64,
    /// Its ledgers, open children, pins and the calls inside it, counted.
    pub uses: u64,
    pub closed: bool,
}
