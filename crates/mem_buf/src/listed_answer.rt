//! What a call of a listed memory is to answer.

use mem_num::Full;

/// What a call is to answer. One that can't have the answer says that no memory is left, or, where it has no such answer, that the
/// allocator is closed.
#[derive(Clone, Copy, Debug, PartialEq, Eq)]
pub enum ListedAnswer {
    /// That it is done. A transfer and a release tell the `bool` besides.
    Done(bool),
    /// That no number of an allocator is left but this one.
    Nodes { next: u64 },
    /// That an allocator has so many uses.
    InUse { uses: u64 },
    /// That an allocator is closed, which one that the token pins isn't.
    Closed,
    /// That a level is full, whose numbers are to be past its limit.
    Full(Full),
    NoMemory,
}
