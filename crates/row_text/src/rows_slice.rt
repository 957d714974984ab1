//! Ranges of rows.
ghost use Rattle.std.specs.Prelude.{◌≡◌, ◌≤◌, ◌<◌, ◌-◌, [], length, get_or, IfOk, IfSome, IfNone, OnOk};
ghost use Rattle.csv.specs.Records.{fields_of};
ghost use Rattle.row_text.specs.Answer.{fields_of_row};
ghost use Rattle.row_text.specs.Rows.{AreRows, IsRange, part_of};
ghost use Rattle.row_text.specs.Slices.{IsColumnOf};

use crate::column_slice::ColumnSlice;
use crate::rows::Rows;
use csv::ByteRecord;
use mem_num::NoMemory;
use query_model::{Cell, Cells, Row};
use std::alloc::{AllocError, Global};
use std::marker::Model;

/// A range of rows where they lie, seen as rows are. A batch of rows is handed on so, without a copy.
#[derive(Debug, Drop)]
pub struct RowsSlice<'a> {
    rows: &'a Rows,
    from: usize,
    to: usize,
}

impl<'a> Model for RowsSlice<'a> {
    ghost use Rattle.std.specs.Prelude.{◌-◌};
    ghost use Rattle.row_text.specs.Rows.{IsRange, Table, part_of};

    ghost Value = { Table };

    ghost view = { λ a. part_of a.from (a.to - a.from) a.rows.now };

    ghost invariant = { λ a. IsRange a.from a.to a.rows.now };
}

impl<'a> RowsSlice<'a> {
    /// The rows between two places.
    pub(crate) fn new(rows: &'a Rows, from: usize, to: usize) -> RowsSlice<'a>
        requires { IsRange from to rows.now }
        ensures { result ≡ part_of from (to - from) rows.now }
    {
        RowsSlice { rows, from, to }
    }

    /// How many rows there are. Takes no memory.
    pub fn len(&self) -> usize
        ensures value { result ≡ length self.now.rows }
        ensures typed { AreRows self.now.kinds self.now.rows }
    {
        let _all = self.rows.len();
        self.to - self.from
    }

    /// How many columns there are. Takes no memory.
    pub fn width(&self) -> usize
        ensures value { result ≡ length self.now.kinds }
    {
        let _end = self.to;
        self.rows.columns().len()
    }

    /// A copy of a row, by itself.
    pub fn row(&self, alloc: Global, row: usize) -> Result<Row, NoMemory>
        requires { row < length self.now.rows }
        ensures { IfOk result (λ made. made.cells ≡ get_or self.now.rows row []) }
    {
        match self.cells_of(alloc, row) {
            Ok(cells) => Ok(Row {
                cells: Cells::new(cells),
            }),
            Err(AllocError) => Err(NoMemory),
        }
    }

    // Copies of the cells of a row.
    fn cells_of(&self, alloc: Global, row: usize) -> Result<Vec<Cell>, AllocError>
        requires { row < length self.now.rows }
        ensures { IfOk result (λ made. made.items ≡ get_or self.now.rows row []) }
    {
        let mut cells = Vec::new(alloc);
        let _end = self.to;
        let place = self.from + row;
        let columns = self.rows.columns();
        'columns: for column in columns {
            cells.push(column.cell(alloc, place)?)?;
        }
        Ok(cells)
    }

    /// The cells of a column, by its number from 0 on, where there is one. Takes no memory.
    pub fn column(&self, column: usize) -> Option<ColumnSlice<'a>>
        ensures some { IfSome result (λ slice. IsColumnOf self.now column slice) }
        ensures none { IfNone result (length self.now.kinds ≤ column) }
    {
        let stored = self.rows.columns().get(column)?;
        Some(stored.part(self.from, self.to - self.from))
    }

    /// Makes a record of the cells of a row, as they are printed.
    pub(crate) fn read_row(&self, row: usize, fields: &mut ByteRecord) -> Result<(), AllocError>
        requires { row < length self.now.rows }
        ensures { OnOk result (fields_of fields.new ≡ fields_of_row (get_or self.now.rows row [])) }
    {
        fields.clear();
        let _end = self.to;
        let place = self.from + row;
        let columns = self.rows.columns();
        'columns: for column in columns {
            column.print(place, fields)?;
        }
        Ok(())
    }
}
