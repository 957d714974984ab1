//! The places among texts where each begins and the last one ends, as numbers of 4 bytes from 0 on.
ghost use Rattle.std.specs.Prelude.{◌≡◌, ◌-◌, ◌/◌, ℕ, length, map, IfOk};
ghost use Rattle.std.specs.Int.{w32, from_le_bytes};
ghost use Rattle.std.specs.List.{range_with_len};
ghost use Rattle.csv.specs.Records.{Rising, last_end};
ghost use Rattle.batch_vec.specs.Offsets.{end_at, offsets_of};

use std::alloc::{AllocError, Global};

/// The bytes of the places of texts that begin at `start` and end at these places.
pub(crate) fn offset_bytes(alloc: Global, start: u32, ends: &[u32]) -> Result<Vec<u8>, AllocError>
    requires rising { (size : ℕ) × Rising start ends.now size }
    ensures value { IfOk result (λ bytes. bytes.items ≡ offsets_of start ends.now) }
{
    let mut bytes = Vec::with_capacity(alloc, ends.len().saturating_add(1).saturating_mul(4))?;
    bytes.extend_from_slice(&0_u32.to_le_bytes())?;
    'ends: for end in ends {
        bytes.extend_from_slice(&(end - start).to_le_bytes())?;
    }
    Ok(bytes)
}

/// Where the last text ends.
#[tactic(auto, using(crate::proofs::OffsetLemmas::end_none, crate::proofs::OffsetLemmas::end_last))]
pub(crate) fn end_of(start: u32, ends: &[u32]) -> u32
    ensures value { result ≡ last_end start ends.now }
{
    if ends.is_empty() {
        start
    } else {
        ends[ends.len() - 1]
    }
}

/// Where each text ends, by such bytes.
pub(crate) fn ends_of(alloc: Global, bytes: &[u8]) -> Result<Vec<u32>, AllocError>
    ensures value { IfOk result (λ ends. ends.items ≡ map (end_at bytes.now) (range_with_len 0 (length bytes.now / 4 - 1))) }
{
    let (chunks, _) = bytes.as_chunks::<4>();
    let mut ends = Vec::with_capacity(alloc, chunks.len())?;
    'chunks: for place in 1..chunks.len() {
        ends.push_reserved(place_of(&chunks[place]));
    }
    Ok(ends)
}

// Bytes as a place.
fn place_of(bytes: &[u8; 4]) -> u32
    ensures value { result ≡ from_le_bytes w32 bytes.now }
{
    u32::from_le_bytes(*bytes)
}
