//! Columns as bytes.
ghost use Rattle.std.specs.Prelude.{◌≡◌, ◌∷◌, [], length, map, IfOk};
ghost use Rattle.std.specs.List.{flat_map};
ghost use Rattle.csv.specs.Records.{Rising, cut_from, last_end};
ghost use Rattle.query_model.specs.Bytes.{column_bytes, text_bytes};
ghost use Rattle.query_model.specs.declared.cell.Cell.TheVariants as cell;
ghost use Rattle.row_text.specs.Slices.{IsSlice, cells_of_slice, kind_of};
ghost use Rattle.batch_vec.specs.Columns.{buffer_bytes};

use crate::bits::bits_of;
use crate::numbers::{int_bytes, sum_bytes};
use crate::offsets::{end_of, offset_bytes};
use query_model::Kind;
use row_text::{ColumnSlice, RowsSlice};
use std::alloc::{AllocError, Global};

// The bytes of the two buffers of a column: validity and data, or offsets and texts.
#[derive(Debug, Drop)]
struct ColumnBytes {
    first: Vec<u8>,
    second: Vec<u8>,
}

// The bytes of a column's buffers.
#[tactic(auto, using(crate::proofs::EncodingLemmas::ints_encoded, crate::proofs::EncodingLemmas::sums_encoded, crate::proofs::EncodingLemmas::texts_encoded))]
fn column_encoded(alloc: Global, column: &ColumnSlice<'_>) -> Result<ColumnBytes, AllocError>
    requires slices { IsSlice column.now }
    ensures value { IfOk result (λ both. both.first.items ∷ both.second.items ∷ []
        ≡ column_bytes (kind_of column.now) (cells_of_slice column.now)) }
{
    match column {
        ColumnSlice::Ints { values, known } => Ok(ColumnBytes {
            first: bits_of(alloc, known)?,
            second: int_bytes(alloc, values, known)?,
        }),
        ColumnSlice::Sums { values, known } => Ok(ColumnBytes {
            first: bits_of(alloc, known)?,
            second: sum_bytes(alloc, values, known)?,
        }),
        ColumnSlice::Texts { start, ends, bytes } => Ok(ColumnBytes {
            first: offset_bytes(alloc, *start, ends)?,
            second: text_bytes(alloc, *start, ends, bytes)?,
        }),
    }
}

// The bytes of texts, which lie one after another.
#[tactic(auto, using(crate::proofs::EncodingLemmas::texts_cut, crate::proofs::EncodingLemmas::rising_order, crate::proofs::EncodingLemmas::end_within))]
fn text_bytes(alloc: Global, start: u32, ends: &[u32], bytes: &[u8]) -> Result<Vec<u8>, AllocError>
    requires rising { Rising start ends.now (length bytes.now) }
    ensures value { IfOk result (λ copy. copy.items ≡ flat_map text_bytes (map cell.Text (cut_from start ends.now bytes.now))) }
{
    let end = end_of(start, ends);
    bytes[start as usize..end as usize].to_vec(alloc)
}

/// The kinds of columns, and the bytes of their buffers, two a column.
#[derive(Debug, Drop)]
pub(crate) struct RowBytes {
    pub kinds: Vec<Kind>,
    pub buffers: Vec<Vec<u8>>,
}

/// The columns of rows as bytes.
pub(crate) fn encoded(alloc: Global, rows: &RowsSlice<'_>) -> Result<RowBytes, AllocError>
    ensures kinds { IfOk result (λ all. all.kinds.items ≡ rows.now.kinds) }
    ensures bytes { IfOk result (λ all. map (λ buffer. buffer.items) all.buffers.items ≡ buffer_bytes rows.now.kinds rows.now.rows) }
{
    let mut kinds = Vec::new(alloc);
    let mut buffers = Vec::new(alloc);
    'columns: while let Some(column) = rows.column(kinds.len()) {
        let both = column_encoded(alloc, &column)?;
        kinds.push(slice_kind(&column))?;
        buffers.push(both.first)?;
        buffers.push(both.second)?;
    }
    Ok(RowBytes { kinds, buffers })
}

// The kind of a column.
fn slice_kind(column: &ColumnSlice<'_>) -> Kind
    ensures value { result ≡ kind_of column.now }
{
    match column {
        ColumnSlice::Ints { .. } => Kind::Int,
        ColumnSlice::Sums { .. } => Kind::Sum,
        ColumnSlice::Texts { .. } => Kind::Text,
    }
}
