//! Kinds of cells.

/// What the cells of a column are.
#[derive(Clone, Copy, Debug, PartialEq, Eq)]
pub enum Kind {
    /// Whole numbers of 64 bits, or null.
    Int,
    /// Whole numbers of 128 bits, or null.
    Sum,
    /// Texts, none of which is null.
    Text,
}
