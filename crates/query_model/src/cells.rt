//! The cells of a row.
ghost use Rattle.std.specs.Prelude.{◌≡◌, IfOk};

use crate::cell::Cell;
use std::alloc::{AllocError, Global};
use std::marker::Model;

/// Cells in order, seen as a list.
#[derive(Debug, Drop)]
pub struct Cells {
    cells: Vec<Cell>,
}

impl Model for Cells {
    ghost use Rattle.std.specs.Prelude.{List};
    ghost use Rattle.query_model.specs.declared.cell.Cell.{Cell as AnyCell};

    ghost Value = { List AnyCell };

    ghost view = { λ a. a.cells.items };
}

impl Cells {
    ghost use Rattle.query_model.specs.Cells as spec;

    /// The cells of a vector. Takes no memory.
    pub fn new(cells: Vec<Cell>) -> Cells
        ensures { result ≡ cells.items }
    {
        Cells { cells }
    }

    /// The cells as a slice. Takes no memory.
    pub fn as_slice(&self) -> &[Cell]
        ensures { result.now ≡ self.now }
    {
        self.cells.as_slice()
    }

    /// The same cells once more.
    pub fn copy(&self, alloc: Global) -> Result<Cells, AllocError>
        ensures value { IfOk result (λ copy. copy ≡ self.now) }
    {
        let cells = copies(alloc, self.as_slice())?;
        Ok(Cells::new(cells))
    }

    /// The cell of a column, as a copy; a null where there is no such column.
    pub fn cell_at(&self, alloc: Global, column: usize) -> Result<Cell, AllocError>
        ensures value { IfOk result (λ cell. cell ≡ spec.cell_at column self.now) }
    {
        let cells = self.as_slice();
        if column < cells.len() {
            cells[column].copy(alloc)
        } else {
            Ok(Cell::Null)
        }
    }
}

// Copies of cells.
fn copies(alloc: Global, cells: &[Cell]) -> Result<Vec<Cell>, AllocError>
    ensures { IfOk result (λ copies. copies.items ≡ cells.now) }
{
    let mut copies = Vec::new(alloc);
    for cell in cells {
        copies.push(cell.copy(alloc)?)?;
    }
    Ok(copies)
}
