//! Rows of cells.
ghost use Rattle.std.specs.Prelude.{◌≡◌, ◌-◌, ℕ, length};
ghost use Rattle.row_text.specs.Rows.{AreLong, AreRows, IsRange, IsStoredTable, cells_in, kinds_in, part_of, rows_from, table_of};

use crate::cell_column::CellColumn;
use crate::rows_slice::RowsSlice;
use std::marker::Model;

/// Rows of cells, seen as the kinds of their columns and a list of rows, each a list of cells. They lie in memory column by column:
/// a number takes its bytes and one more, a text its bytes and four more.
#[derive(Debug, Drop)]
pub struct Rows {
    columns: Vec<CellColumn>,
    count: usize,
}

impl Model for Rows {
    ghost use Rattle.row_text.specs.Rows.{IsStoredTable, Table, table_of};

    ghost Value = { Table };

    ghost view = { λ a. table_of a.count a.columns.items };

    ghost invariant = { λ a. IsStoredTable a.count a.columns.items };
}

impl Rows {
    /// The rows of columns with so many cells each. Takes no memory, and copies nothing.
    pub fn from_columns(columns: Vec<CellColumn>, count: usize) -> Rows
        requires long { AreLong count (cells_in columns.items) }
        requires typed { AreRows (kinds_in columns.items) (rows_from count (cells_in columns.items)) }
        ensures value { result ≡ table_of count columns.items }
    {
        Rows { columns, count }
    }

    /// How many rows there are. Takes no memory.
    pub fn len(&self) -> usize
        ensures value { result ≡ length self.now.rows }
        ensures typed { AreRows self.now.kinds self.now.rows }
    {
        self.count
    }

    /// The columns, each with a cell for each row.
    pub(crate) fn columns(&self) -> &[CellColumn]
        ensures { (count : ℕ) × (self.now ≡ table_of count result.now) × IsStoredTable count result.now }
    {
        self.columns.as_slice()
    }

    /// All rows, without a copy. Takes no memory.
    pub fn as_slice(&self) -> RowsSlice<'_>
        ensures { result ≡ self.now }
    {
        RowsSlice::new(self, 0, self.count)
    }

    /// The rows from one place on up to another, without a copy. Takes no memory.
    pub fn part(&self, from: usize, to: usize) -> RowsSlice<'_>
        requires { IsRange from to self.now }
        ensures { result ≡ part_of from (to - from) self.now }
    {
        RowsSlice::new(self, from, to)
    }
}

#[cfg(test)]
mod tests;
