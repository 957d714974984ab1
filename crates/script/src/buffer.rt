//! What the names of buffers are bound to.

use mem_num::Ref;

/// What the name of a buffer is bound to: some bytes of what a reference is to.
#[derive(Clone, Copy, Debug)]
pub(crate) struct Buffer {
    /// The place of its reference among those that were given.
    pub(crate) place: usize,
    /// The first of its bytes, counted from the first one of the chunk.
    pub(crate) start: u64,
    /// How many bytes it has.
    pub(crate) len: u64,
}

/// A reference that was given. Slices share that of their source.
#[derive(Clone, Copy, Debug)]
pub(crate) struct GivenRef {
    pub(crate) reference: Ref,
    /// Whether it was given back. That of the empty buffer never is.
    pub(crate) given_back: bool,
}
