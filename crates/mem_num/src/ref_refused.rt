//! Why no reference was given.

use crate::closed::Closed;

/// Why an allocator was not given a reference to a chunk that is referred to elsewhere.
#[derive(Clone, Copy, Debug, PartialEq, Eq)]
pub enum RefRefused {
    Closed(Closed),
    NoMemory,
}
