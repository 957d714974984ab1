//! Cells of a table.
ghost use Rattle.std.specs.Prelude.{◌≡◌, IfOk};

use crate::text::Text;
use std::alloc::{AllocError, Global};

/// A cell of a row.
#[derive(Debug, Drop)]
pub enum Cell {
    /// A number that isn't known.
    Null,
    Int(i64),
    /// A sum of numbers, which may pass 64 bits.
    Sum(i128),
    Text(Text),
}

impl Cell {
    ghost use Rattle.query_model.specs.Answer.{number_of};
    ghost use Rattle.query_model.specs.Cells as spec;

    /// The same cell once more.
    pub fn copy(&self, alloc: Global) -> Result<Cell, AllocError>
        ensures value { IfOk result (λ copy. copy ≡ self.now) }
    {
        match self {
            Cell::Null => Ok(Cell::Null),
            Cell::Int(n) => Ok(Cell::Int(*n)),
            Cell::Sum(n) => Ok(Cell::Sum(*n)),
            Cell::Text(text) => {
                let text = Text::new(alloc, text.as_str())?;
                Ok(Cell::Text(text))
            }
        }
    }

    /// The cell as it is printed.
    pub fn printed(&self, alloc: Global) -> Result<Text, AllocError>
        ensures value { IfOk result (λ text. text ≡ spec.printed self.now) }
    {
        match self {
            Cell::Null => Text::new(alloc, ""),
            Cell::Int(n) => {
                let text = format!(in alloc; "{n}")?;
                Text::new(alloc, text.as_str())
            }
            Cell::Sum(n) => {
                let text = format!(in alloc; "{n}")?;
                Text::new(alloc, text.as_str())
            }
            Cell::Text(text) => Text::new(alloc, text.as_str()),
        }
    }

    /// The number of the cell, if it has one. Takes no memory.
    pub fn number(&self) -> Option<i128>
        ensures value { result ≡ number_of self.now }
    {
        match self {
            Cell::Null | Cell::Text(_) => None,
            Cell::Int(n) => Some(i128::from(*n)),
            Cell::Sum(n) => Some(*n),
        }
    }
}
