//! Want of memory.

/// Memory ran out. Of all answers it is the only one that no contract explains.
#[derive(Clone, Copy, Debug, PartialEq, Eq)]
pub struct NoMemory;
