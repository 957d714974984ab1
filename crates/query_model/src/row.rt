//! Rows of a table.

use crate::cells::Cells;

/// One row by itself: a cell for each column. The rows of a table lie column by column, and are no rows of this type.
#[derive(Debug, Drop)]
pub struct Row {
    pub cells: Cells,
}
