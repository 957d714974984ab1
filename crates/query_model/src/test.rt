//! Tests of rows.

use crate::cell::Cell;
use crate::op::Op;

/// A test that a row meets or doesn't: its cell in a column, by its number from 0 on, compared with a value.
#[derive(Debug, Drop)]
pub struct Test {
    pub column: u32,
    pub op: Op,
    pub value: Cell,
}
