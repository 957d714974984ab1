//! Columns of a range of rows, as slices.

/// A column of a range of rows, where it lies: nothing is copied.
#[derive(Debug, Drop)]
pub enum ColumnSlice<'a> {
    /// Numbers, each beside a mark that says whether it is known; one that isn't is null.
    Ints {
        values: &'a [i64],
        known: &'a [bool],
    },
    Sums {
        values: &'a [i128],
        known: &'a [bool],
    },
    /// Texts that lie one after another in `bytes`: the first begins at `start`, and each ends where its number says.
    Texts {
        start: u32,
        ends: &'a [u32],
        bytes: &'a [u8],
    },
}
