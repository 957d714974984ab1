//! The rows that meet tests, by their places.
ghost use Rattle.std.specs.Prelude.{◌≡◌, ◌<◌, All, [], filter, get_or, length, map, IfOk};
ghost use Rattle.std.specs.List.{range_with_len};
ghost use Rattle.csv.specs.Records.{Rising, cut_from};
ghost use Rattle.query_model.specs.Filter.{accepts, is_met, meets};
ghost use Rattle.query_model.specs.declared.cell.Cell.TheVariants as cell;
ghost use Rattle.row_text.specs.Slices.{IsSlice, cells_of_slice};
ghost use Rattle.row_text.specs.Stored.{numbers};
ghost use Rattle.operators.specs.Places.{places_meeting};

use crate::texts::text_at;
use query_model::{Cell, Op, Test};
use row_text::{ColumnSlice, RowsSlice};
use std::alloc::{AllocError, Global};
use std::cmp::Ordering;

/// The places of the rows that meet every test, in order. Test by test, only the places that are left are looked at.
pub(crate) fn places_meeting(
    alloc: Global,
    tests: &[Test],
    rows: &RowsSlice<'_>,
) -> Result<Vec<usize>, AllocError>
    ensures value { IfOk result (λ places. places.items ≡ places_meeting tests.now rows.now.rows) }
{
    let mut places = all_places(alloc, rows.len())?;
    'tests: for test in tests {
        places = places_left(alloc, places.as_slice(), test, rows)?;
    }
    Ok(places)
}

// The places from 0 on.
fn all_places(alloc: Global, count: usize) -> Result<Vec<usize>, AllocError>
    ensures value { IfOk result (λ places. places.items ≡ range_with_len 0 count) }
{
    let mut places = Vec::with_capacity(alloc, count)?;
    'places: for place in 0..count {
        places.push_reserved(place);
    }
    Ok(places)
}

// The places at which rows meet a test.
fn places_left(
    alloc: Global,
    places: &[usize],
    test: &Test,
    rows: &RowsSlice<'_>,
) -> Result<Vec<usize>, AllocError>
    requires within { All (λ place. place < length rows.now.rows) places.now }
    ensures value { IfOk result (λ left. left.items ≡ filter (λ place. meets (get_or rows.now.rows place []) test.now) places.now) }
{
    let _count = rows.len();
    match rows.column(test.column as usize) {
        Some(column) => places_met(alloc, places, test.op, &test.value, &column),
        None => Ok(Vec::new(alloc)),
    }
}

// The places at which cells of a column meet a comparison.
fn places_met(
    alloc: Global,
    places: &[usize],
    op: Op,
    value: &Cell,
    column: &ColumnSlice<'_>,
) -> Result<Vec<usize>, AllocError>
    requires slices { IsSlice column.now }
    requires within { All (λ place. place < length (cells_of_slice column.now)) places.now }
    ensures value { IfOk result (λ left. left.items
        ≡ filter (λ place. is_met op value.now (get_or (cells_of_slice column.now) place cell.Null)) places.now) }
{
    match column {
        ColumnSlice::Ints { values, known } => match value {
            Cell::Int(value) => ints_met(alloc, places, op, *value, values, known),
            Cell::Null => Ok(Vec::new(alloc)),
            Cell::Sum(_) => Ok(Vec::new(alloc)),
            Cell::Text(_) => Ok(Vec::new(alloc)),
        },
        ColumnSlice::Sums { .. } => Ok(Vec::new(alloc)),
        ColumnSlice::Texts { start, ends, bytes } => match value {
            Cell::Text(value) => {
                texts_met(
                    alloc,
                    places,
                    op,
                    value.as_str().as_bytes(),
                    *start,
                    ends,
                    bytes,
                )
            }
            Cell::Null => Ok(Vec::new(alloc)),
            Cell::Int(_) => Ok(Vec::new(alloc)),
            Cell::Sum(_) => Ok(Vec::new(alloc)),
        },
    }
}

// The places of numbers that are known and meet a comparison.
fn ints_met(
    alloc: Global,
    places: &[usize],
    op: Op,
    value: i64,
    values: &[i64],
    known: &[bool],
) -> Result<Vec<usize>, AllocError>
    requires marked { length values.now ≡ length known.now }
    requires within { All (λ place. place < length values.now) places.now }
    ensures value { IfOk result (λ left. left.items
        ≡ filter (λ place. is_met op (cell.Int value) (get_or (numbers cell.Int values.now known.now) place cell.Null)) places.now) }
{
    let mut left = Vec::with_capacity(alloc, places.len())?;
    'places: for place in places {
        if int_is_met(op, value, values, known, *place) {
            left.push_reserved(*place);
        }
    }
    Ok(left)
}

// Whether the number of a place is known and meets a comparison.
fn int_is_met(op: Op, value: i64, values: &[i64], known: &[bool], place: usize) -> bool
    requires marked { length values.now ≡ length known.now }
    requires within { place < length values.now }
    ensures value { result ≡ is_met op (cell.Int value) (get_or (numbers cell.Int values.now known.now) place cell.Null) }
{
    known[place] && accepts(op, values[place].cmp(&value))
}

// The places of texts that meet a comparison.
fn texts_met(
    alloc: Global,
    places: &[usize],
    op: Op,
    value: &[u8],
    start: u32,
    ends: &[u32],
    bytes: &[u8],
) -> Result<Vec<usize>, AllocError>
    requires rising { Rising start ends.now (length bytes.now) }
    requires within { All (λ place. place < length ends.now) places.now }
    ensures value { IfOk result (λ left. left.items
        ≡ filter (λ place. is_met op (cell.Text value.now) (get_or (map cell.Text (cut_from start ends.now bytes.now)) place cell.Null))
        places.now) }
{
    let mut left = Vec::with_capacity(alloc, places.len())?;
    'places: for place in places {
        if text_is_met(op, value, start, ends, bytes, *place) {
            left.push_reserved(*place);
        }
    }
    Ok(left)
}

// Whether the text of a place meets a comparison.
fn text_is_met(op: Op, value: &[u8], start: u32, ends: &[u32], bytes: &[u8], place: usize) -> bool
    requires rising { Rising start ends.now (length bytes.now) }
    requires within { place < length ends.now }
    ensures value { result ≡ is_met op (cell.Text value.now) (get_or (map cell.Text (cut_from start ends.now bytes.now)) place cell.Null) }
{
    accepts(op, text_at(start, ends, bytes, place).cmp(value))
}

// Whether a comparison accepts an order.
fn accepts(op: Op, order: Ordering) -> bool
    ensures value { result ≡ accepts op order }
{
    match op {
        Op::Eq => order.is_eq(),
        Op::Ne => order.is_ne(),
        Op::Lt => order.is_lt(),
        Op::Le => order.is_le(),
        Op::Gt => order.is_gt(),
        Op::Ge => order.is_ge(),
    }
}
