//! What an allocator is, apart from the numbers that move.

/// Whether an allocator was made and is open, its parent's number, and what the parent sets aside for it, in bytes.
#[derive(Clone, Copy, Debug, PartialEq, Eq)]
pub struct Shape {
    pub made: bool,
    pub is_open: bool,
    /// The root has none.
    pub parent: Option<u32>,
    pub reservation: u64,
}
