//! Whether rows can be stored.
ghost use Rattle.std.specs.Prelude.{◌≡◌, ◌≤◌, ◌+◌, ◌*◌, ◌-◌, ◌↔◌, All, IsTrue, length};
ghost use Rattle.csv.specs.Records.{Rising, last_end};
ghost use Rattle.query_model.specs.Buffers.{buffer_lengths, column_lengths};
ghost use Rattle.row_text.specs.Slices.{IsSlice, cells_of_slice, kind_of};

use crate::offsets::end_of;
use mem_num::LARGEST;
use row_text::{ColumnSlice, RowsSlice};

/// Whether no buffer of rows has more bytes than a buffer may have. Takes no memory.
pub fn buffers_fit(rows: &RowsSlice<'_>) -> bool
    ensures value { IsTrue result ↔ All (λ length. length ≤ LARGEST) (buffer_lengths rows.now.kinds rows.now.rows) }
{
    'columns: for place in 0..rows.width() {
        let Some(column) = rows.column(place) else {
            return true;
        };
        if !column_fits(&column) {
            return false;
        }
    }
    true
}

// Whether the two buffers of a column have no more.
fn column_fits(column: &ColumnSlice<'_>) -> bool
    requires slices { IsSlice column.now }
    ensures value { IsTrue result ↔ All (λ length. length ≤ LARGEST) (column_lengths (kind_of column.now) (cells_of_slice column.now)) }
{
    match column {
        ColumnSlice::Ints { values, .. } => ints_fit(values.len()),
        ColumnSlice::Sums { values, .. } => sums_fit(values.len()),
        ColumnSlice::Texts { start, ends, .. } => texts_fit(*start, ends),
    }
}

fn ints_fit(count: usize) -> bool
    ensures value { IsTrue result ↔ (8 * count ≤ LARGEST) }
{
    count as u64 <= LARGEST / 8
}

fn sums_fit(count: usize) -> bool
    ensures value { IsTrue result ↔ (16 * count ≤ LARGEST) }
{
    count as u64 <= LARGEST / 16
}

fn texts_fit(start: u32, ends: &[u32]) -> bool
    ensures value { IsTrue result ↔ (4 * (length ends.now + 1) ≤ LARGEST) × (last_end start ends.now - start ≤ LARGEST) }
{
    (ends.len() as u64) < LARGEST / 4
        && u64::from(end_of(start, ends).saturating_sub(start)) <= LARGEST
}
