//! Columns of a table.

use crate::kind::Kind;
use crate::text::Text;

/// A column's name, and what its cells are.
#[derive(Debug, Drop)]
pub struct Column {
    pub name: Text,
    pub kind: Kind,
}
