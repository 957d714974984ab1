//! How long the buffers of rows are, and what they are charged, by the definitions: slow, and for comparison.
ghost use Rattle.std.specs.Prelude.{◌≡◌, ◌≤◌, IfOk, IsTrue};
ghost use Rattle.mem_num.specs.Rounded.{rounded_size};
ghost use Rattle.query_model.specs.Buffers as spec;
ghost use Rattle.query_model.specs.Cells.{column_of};

use crate::bounds::{MOST_ROWS, MOST_TEXT_BYTES};
use crate::cell::Cell;
use crate::cells::Cells;
use crate::kind::Kind;
use crate::lengths::{column_lengths, text_length};
use mem_num::{Rounding, rounded};
use std::alloc::{AllocError, Global};

/// The lengths of the buffers of rows in bytes, column by column. Rows past the bounds of a table are answered as want of memory.
pub fn buffer_lengths(alloc: Global, kinds: &[Kind], rows: &[Cells]) -> Result<Vec<u64>, AllocError>
    ensures value { IfOk result (λ lengths. lengths.items ≡ spec.buffer_lengths kinds.now rows.now) }
{
    let mut lengths = Vec::new(alloc);
    for column in 0..kinds.len() {
        let both = lengths_of_column(alloc, kinds[column], column, rows)?;
        lengths.extend_from_slice(&both)?;
    }
    Ok(lengths)
}

/// What the buffers of rows are charged in bytes, column by column, but for those that are empty. Rows past the bounds of a table are
/// answered as want of memory.
pub fn buffer_sizes(alloc: Global, kinds: &[Kind], rows: &[Cells]) -> Result<Vec<u64>, AllocError>
    ensures value { IfOk result (λ sizes. sizes.items ≡ spec.buffer_sizes kinds.now rows.now) }
{
    let lengths = buffer_lengths(alloc, kinds, rows)?;
    sizes_of(alloc, &lengths)
}

// The lengths of the two buffers of a column.
fn lengths_of_column(
    alloc: Global,
    kind: Kind,
    column: usize,
    rows: &[Cells],
) -> Result<[u64; 2], AllocError>
    ensures { IfOk result (λ lengths. lengths ≡ spec.column_lengths kind (column_of column rows.now)) }
{
    let cells = column_cells(alloc, column, rows)?;
    if cells.len() as u64 > MOST_ROWS || !texts_fit(&cells) {
        return Err(AllocError);
    }
    Ok(column_lengths(kind, &cells))
}

// The cells of a column.
fn column_cells(alloc: Global, column: usize, rows: &[Cells]) -> Result<Vec<Cell>, AllocError>
    ensures { IfOk result (λ cells. cells.items ≡ column_of column rows.now) }
{
    let mut cells = Vec::new(alloc);
    for row in rows {
        cells.push(row.cell_at(alloc, column)?)?;
    }
    Ok(cells)
}

// Whether texts are within the bound of a column.
fn texts_fit(cells: &[Cell]) -> bool
    ensures { IsTrue result → spec.texts_length cells.now ≤ MOST_TEXT_BYTES }
{
    let mut total: u64 = 0;
    for cell in cells {
        total = total.saturating_add(text_length(cell));
        if total > MOST_TEXT_BYTES {
            return false;
        }
    }
    true
}

// What buffers are charged, but for those that are empty.
fn sizes_of(alloc: Global, lengths: &[u64]) -> Result<Vec<u64>, AllocError>
    ensures { IfOk result (λ sizes. sizes.items ≡ spec.sizes_of lengths.now) }
{
    let mut sizes = Vec::new(alloc);
    for length in lengths {
        if *length > 0 {
            sizes.push(charge_of(*length))?;
        }
    }
    Ok(sizes)
}

// What a buffer is charged; one past the largest size is charged what it is long.
fn charge_of(length: u64) -> u64
    ensures { result ≡ rounded_size Rounding.Power length }
{
    match rounded(Rounding::Power, length) {
        Ok(size) => size,
        Err(_) => length,
    }
}
