//! Numbers as bytes, the least byte first, in two's complement. One that isn't known is as 0.
ghost use Rattle.std.specs.Prelude.{◌≡◌, ◌/◌, ◌<◌, length, map, get_or, IfOk};
ghost use Rattle.std.specs.Int.{w64, w128};
ghost use Rattle.std.specs.List.{flat_map, range_with_len};
ghost use Rattle.query_model.specs.Bytes.{number_bytes};
ghost use Rattle.query_model.specs.declared.cell.Cell.TheVariants as cell;
ghost use Rattle.row_text.specs.Stored.{numbers};
ghost use Rattle.batch_vec.specs.Numbers.{int_at, int_from, sum_at, sum_from};

use std::alloc::{AllocError, Global};

/// Numbers of 64 bits as bytes.
pub(crate) fn int_bytes(
    alloc: Global,
    values: &[i64],
    known: &[bool],
) -> Result<Vec<u8>, AllocError>
    requires marked { length values.now ≡ length known.now }
    ensures value { IfOk result (λ bytes. bytes.items ≡ flat_map (number_bytes w64) (numbers cell.Int values.now known.now)) }
{
    let mut bytes = Vec::with_capacity(alloc, values.len().saturating_mul(8))?;
    'values: for place in 0..values.len() {
        bytes.extend_from_slice(&bytes_of_int(values, known, place))?;
    }
    Ok(bytes)
}

// The bytes of the number of a place.
#[tactic(auto, using(crate::proofs::NumberLemmas::unknown_int))]
fn bytes_of_int(values: &[i64], known: &[bool], place: usize) -> [u8; 8]
    requires marked { length values.now ≡ length known.now }
    requires within { place < length values.now }
    ensures value { result ≡ number_bytes w64 (get_or (numbers cell.Int values.now known.now) place cell.Null) }
{
    if known[place] {
        bytes_of_known_int(values[place])
    } else {
        [0; 8]
    }
}

// The bytes of a number.
fn bytes_of_known_int(value: i64) -> [u8; 8]
    ensures value { result ≡ number_bytes w64 (cell.Int value) }
{
    value.to_le_bytes()
}

/// Numbers of 128 bits as bytes.
pub(crate) fn sum_bytes(
    alloc: Global,
    values: &[i128],
    known: &[bool],
) -> Result<Vec<u8>, AllocError>
    requires marked { length values.now ≡ length known.now }
    ensures value { IfOk result (λ bytes. bytes.items ≡ flat_map (number_bytes w128) (numbers cell.Sum values.now known.now)) }
{
    let mut bytes = Vec::with_capacity(alloc, values.len().saturating_mul(16))?;
    'values: for place in 0..values.len() {
        bytes.extend_from_slice(&bytes_of_sum(values, known, place))?;
    }
    Ok(bytes)
}

// The bytes of the number of a place.
#[tactic(auto, using(crate::proofs::NumberLemmas::unknown_sum))]
fn bytes_of_sum(values: &[i128], known: &[bool], place: usize) -> [u8; 16]
    requires marked { length values.now ≡ length known.now }
    requires within { place < length values.now }
    ensures value { result ≡ number_bytes w128 (get_or (numbers cell.Sum values.now known.now) place cell.Null) }
{
    if known[place] {
        bytes_of_known_sum(values[place])
    } else {
        [0; 16]
    }
}

// The bytes of a number.
fn bytes_of_known_sum(value: i128) -> [u8; 16]
    ensures value { result ≡ number_bytes w128 (cell.Sum value) }
{
    value.to_le_bytes()
}

/// Bytes as numbers of 64 bits.
pub(crate) fn ints_of(alloc: Global, bytes: &[u8]) -> Result<Vec<i64>, AllocError>
    ensures value { IfOk result (λ values. values.items ≡ map (int_at bytes.now) (range_with_len 0 (length bytes.now / 8))) }
{
    let (chunks, _) = bytes.as_chunks::<8>();
    let mut values = Vec::with_capacity(alloc, chunks.len())?;
    'chunks: for chunk in chunks {
        values.push_reserved(int_of(chunk));
    }
    Ok(values)
}

/// Bytes as numbers of 128 bits.
pub(crate) fn sums_of(alloc: Global, bytes: &[u8]) -> Result<Vec<i128>, AllocError>
    ensures value { IfOk result (λ values. values.items ≡ map (sum_at bytes.now) (range_with_len 0 (length bytes.now / 16))) }
{
    let (chunks, _) = bytes.as_chunks::<16>();
    let mut values = Vec::with_capacity(alloc, chunks.len())?;
    'chunks: for chunk in chunks {
        values.push_reserved(sum_of(chunk));
    }
    Ok(values)
}

// Bytes as a number.
#[tactic(auto, unfolding(crate::specs::Numbers::int_from))]
fn int_of(bytes: &[u8; 8]) -> i64
    ensures value { result ≡ int_from bytes.now }
{
    i64::from_le_bytes(*bytes)
}

// Bytes as a number.
#[tactic(auto, unfolding(crate::specs::Numbers::sum_from))]
fn sum_of(bytes: &[u8; 16]) -> i128
    ensures value { result ≡ sum_from bytes.now }
{
    i128::from_le_bytes(*bytes)
}
