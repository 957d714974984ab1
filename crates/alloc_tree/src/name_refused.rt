//! Why a name isn't ready to be bound.

/// Why a name was refused, the first cause that stands.
#[derive(Clone, Copy, Debug, PartialEq, Eq)]
pub enum NameRefused {
    /// It isn't 1 to 32 bytes of `A-Z a-z 0-9 _ - .`.
    BadName,
    /// An allocator has it.
    NameTaken,
    NoMemory,
}
