//! The columns of a table.
ghost use Rattle.std.specs.Prelude.{◌≡◌};

use crate::column::Column;
use std::marker::Model;

/// Columns in order, seen as a list.
#[derive(Debug, Drop)]
pub struct Columns {
    columns: Vec<Column>,
}

impl Model for Columns {
    ghost use Rattle.std.specs.Prelude.{List};
    ghost use Rattle.query_model.specs.declared.column.Column.{Column as AnyColumn};

    ghost Value = { List AnyColumn };

    ghost view = { λ a. a.columns.items };
}

impl Columns {
    /// The columns of a vector. Takes no memory.
    pub fn new(columns: Vec<Column>) -> Columns
        ensures { result ≡ columns.items }
    {
        Columns { columns }
    }

    /// The columns as a slice. Takes no memory.
    pub fn as_slice(&self) -> &[Column]
        ensures { result.now ≡ self.now }
    {
        self.columns.as_slice()
    }
}
