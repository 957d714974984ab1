//! Answers of plans.

use crate::picks::Picks;

/// What a query answers of the rows that meet its tests.
#[derive(Debug, Drop)]
pub enum Output {
    /// The picked cells of each row.
    Select(Picks),
    /// A row for each key in a column, with the sums of others.
    Group { key: u32, sums: Picks },
}
