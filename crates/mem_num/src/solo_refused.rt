//! Why a tree of one thread gave no further reference.

use crate::closed::Closed;
use crate::released::Released;

/// Why a chunk isn't referred to from one allocator more, the first cause that stands. After `BufferLedger.retain` and
/// `transferOwnership`, which throw where this refuses.
#[derive(Clone, Copy, Debug, PartialEq, Eq)]
pub enum SoloRefused {
    Released(Released),
    Closed(Closed),
    NoMemory,
}
