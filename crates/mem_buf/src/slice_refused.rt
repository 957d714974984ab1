//! Why no slice was given.

/// A slice that ends beyond its view.
#[derive(Clone, Copy, Debug, PartialEq, Eq)]
pub struct OutOfBuffer {
    /// How many bytes the view has.
    pub len: u64,
}

/// Why a part of a view wasn't given, the first cause that stands.
#[derive(Clone, Copy, Debug, PartialEq, Eq)]
pub enum SliceRefused {
    OutOfBuffer(OutOfBuffer),
    NoMemory,
}
