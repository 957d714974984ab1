//! Plans.

use crate::columns::Columns;
use crate::output::Output;
use crate::tests_list::Tests;

/// What a query is asked.
#[derive(Debug, Drop)]
pub struct Plan {
    pub columns: Columns,
    /// How many rows a batch has.
    pub batch: u32,
    pub tests: Tests,
    pub output: Output,
    /// The limits of root, scan, filter, project, sums and result, in bytes.
    pub limits: [u64; 6],
    /// The reservations of scan, filter, project, sums and result, in bytes.
    pub reserves: [u64; 5],
}
