//! Sums of columns.
ghost use Rattle.std.specs.Prelude.{◌≡◌, ℤ, nat_eq, List, [], ◌∷◌, ◌++◌, IfOk, option_to_list};
ghost use Rattle.std.specs.Cmp.Lexicographic.{pointwise};
ghost use Rattle.query_model.specs.Answer as spec;
ghost use Rattle.query_model.specs.declared.cell.Cell.{Cell as SomeCell};

use crate::cell::Cell;
use crate::cells::Cells;
use crate::text::Text;
use std::alloc::{AllocError, Global};

/// The sum of a column's cells over the rows of a key, one by one. A sum that passes 128 bits is answered as want of memory: no
/// table has one.
pub(crate) fn sum_of(
    alloc: Global,
    key_column: usize,
    key: &Text,
    rows: &[Cells],
    column: usize,
) -> Result<Cell, AllocError>
    ensures { IfOk result (λ sum. sum ≡ spec.sum_of (spec.rows_with_key key_column key.now rows.now) column) }
{
    let mut total = Cell::Null;
    for row in rows {
        total = with_row(alloc, total, key_column, key, row, column)?;
    }
    Ok(total)
}

// The sum of rows, and a row more.
fn with_row(
    alloc: Global,
    total: Cell,
    key_column: usize,
    key: &Text,
    row: &Cells,
    column: usize,
) -> Result<Cell, AllocError>
    ensures { IfOk result (λ sum. (rows : List (List SomeCell)) →
        total ≡ spec.sum_of (spec.rows_with_key key_column key.now rows) column →
        sum ≡ spec.sum_of (spec.rows_with_key key_column key.now (rows ++ row.now ∷ [])) column) }
{
    if has_key(alloc, key_column, key, row)? {
        let sum = with_number(total, row.cell_at(alloc, column)?.number())?;
        Ok(sum)
    } else {
        Ok(total)
    }
}

// Whether a row has a key.
fn has_key(alloc: Global, column: usize, key: &Text, row: &Cells) -> Result<bool, AllocError>
    ensures { IfOk result (λ has. has ≡ pointwise nat_eq key.now (spec.key_of column row.now)) }
{
    let printed = row.cell_at(alloc, column)?.printed(alloc)?;
    Ok(key.as_str() == printed.as_str())
}

// A sum, and a number more.
fn with_number(total: Cell, number: Option<i128>) -> Result<Cell, AllocError>
    ensures { IfOk result (λ sum. (numbers : List ℤ) → total ≡ spec.sum_cell numbers →
        sum ≡ spec.sum_cell (numbers ++ option_to_list number)) }
{
    let Some(number) = number else {
        return Ok(total);
    };
    let Cell::Sum(sum) = total else {
        return Ok(Cell::Sum(number));
    };
    match sum.checked_add(number) {
        Some(sum) => Ok(Cell::Sum(sum)),
        None => Err(AllocError),
    }
}
