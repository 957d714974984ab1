//! Copies of rows by their places.
ghost use Rattle.std.specs.Prelude.{◌≡◌, ◌<◌, All, List, [], get_or, length, map, IfOk};
ghost use Rattle.csv.specs.Records.{Rising, cut_from};
ghost use Rattle.query_model.specs.Cells.{IsOfKind};
ghost use Rattle.query_model.specs.declared.cell.Cell.TheVariants as cell;
ghost use Rattle.query_model.specs.declared.kind.Kind.TheVariants as kind;
ghost use Rattle.row_text.specs.Slices.{IsSlice, cells_of_slice, kind_of};
ghost use Rattle.batch_vec.specs.Columns.{cells_from};

use crate::texts::{Texts, text_at};
use row_text::{CellColumn, ColumnSlice, Rows, RowsSlice};
use std::alloc::{AllocError, Global};

/// Copies of the rows at some places.
pub(crate) fn rows_gathered(
    alloc: Global,
    rows: &RowsSlice<'_>,
    places: &[usize],
) -> Result<Rows, AllocError>
    requires within { All (λ place. place < length rows.now.rows) places.now }
    ensures kinds { IfOk result (λ made. made.kinds ≡ rows.now.kinds) }
    ensures rows { IfOk result (λ made. made.rows ≡ map (λ place. get_or rows.now.rows place []) places.now) }
{
    let _count = rows.len();
    let columns = columns_gathered(alloc, rows, places)?;
    Ok(Rows::from_columns(columns, places.len()))
}

// The columns of these rows.
fn columns_gathered(
    alloc: Global,
    rows: &RowsSlice<'_>,
    places: &[usize],
) -> Result<Vec<CellColumn>, AllocError>
    requires within { All (λ place. place < length rows.now.rows) places.now }
    ensures columns { IfOk result (λ columns. columns.items
        ≡ cells_from 0 rows.now.kinds (map (λ place. get_or rows.now.rows place []) places.now)) }
{
    let _count = rows.len();
    let mut columns = Vec::new(alloc);
    'columns: while let Some(column) = rows.column(columns.len()) {
        columns.push(column_gathered(alloc, &column, places)?)?;
    }
    Ok(columns)
}

// Copies of the cells at some places.
fn column_gathered(
    alloc: Global,
    column: &ColumnSlice<'_>,
    places: &[usize],
) -> Result<CellColumn, AllocError>
    requires slices { IsSlice column.now }
    requires typed { All (IsOfKind (kind_of column.now)) (cells_of_slice column.now) }
    requires within { All (λ place. place < length (cells_of_slice column.now)) places.now }
    ensures value { IfOk result (λ made. made ≡ record {
      kind = kind_of column.now;
      cells = map (λ place. get_or (cells_of_slice column.now) place cell.Null) places.now;
    }) }
{
    match column {
        ColumnSlice::Ints { values, known } => Ok(CellColumn::ints(
            gathered(alloc, values, places)?,
            gathered(alloc, known, places)?,
        )),
        ColumnSlice::Sums { values, known } => Ok(CellColumn::sums(
            gathered(alloc, values, places)?,
            gathered(alloc, known, places)?,
        )),
        ColumnSlice::Texts { start, ends, bytes } => {
            Ok(texts_gathered(alloc, *start, ends, bytes, places)?.into_column())
        }
    }
}

// Copies of the texts at some places.
fn texts_gathered(
    alloc: Global,
    start: u32,
    ends: &[u32],
    bytes: &[u8],
    places: &[usize],
) -> Result<Texts, AllocError>
    requires rising { Rising start ends.now (length bytes.now) }
    requires typed { All (IsOfKind kind.Text) (map cell.Text (cut_from start ends.now bytes.now)) }
    requires within { All (λ place. place < length ends.now) places.now }
    ensures value { IfOk result (λ texts. texts
        ≡ map (λ place. get_or (map cell.Text (cut_from start ends.now bytes.now)) place cell.Null) places.now) }
{
    let mut texts = Texts::with_capacity(alloc, places.len())?;
    'places: for place in places {
        texts.push(text_at(start, ends, bytes, *place))?;
    }
    Ok(texts)
}

/// Copies of the elements at some places.
pub(crate) fn gathered<T: Copy>(
    alloc: Global,
    items: &[T],
    places: &[usize],
) -> Result<Vec<T>, AllocError>
    requires within { All (λ place. place < length items.now) places.now }
    ensures value { (d : T) → IfOk result (λ copies. copies.items ≡ map (λ place. get_or items.now place d) places.now) }
{
    let mut copies = Vec::with_capacity(alloc, places.len())?;
    'places: for place in places {
        copies.push_reserved(items[*place]);
    }
    Ok(copies)
}
