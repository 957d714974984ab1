//! Marks as bits, eight to a byte, the least first.
ghost use Rattle.std.specs.Prelude.{◌≡◌, ◌*◌, ◌<◌, ◌≤◌, length, map, IfOk};
ghost use Rattle.std.specs.List.{range_with_len};
ghost use Rattle.query_model.specs.Bytes.{bit_at, bit_byte, bit_bytes, bit_of, number_of_bits};
ghost use Rattle.query_model.specs.Buffers.{validity_length};
ghost use Rattle.batch_vec.specs.Marks.{is_set};

use std::alloc::{AllocError, Global};

/// Marks as bytes of bits. Those that are left over in the last byte are 0.
pub(crate) fn bits_of(alloc: Global, known: &[bool]) -> Result<Vec<u8>, AllocError>
    ensures value { IfOk result (λ bytes. bytes.items ≡ bit_bytes (map bit_of known.now)) }
{
    let count = known.len().div_ceil(8);
    let mut bytes = Vec::with_capacity(alloc, count)?;
    'bytes: for place in 0..count {
        bytes.push_reserved(byte_at(known, place));
    }
    Ok(bytes)
}

// The byte of a place.
fn byte_at(known: &[bool], place: usize) -> u8
    requires within { place < validity_length (length known.now) }
    ensures value { result ≡ bit_byte (map bit_of known.now) place }
{
    let rest = &known[8 * place..];
    byte_of(&rest[..rest.len().min(8)])
}

// A byte of eight bits at most.
fn byte_of(known: &[bool]) -> u8
    requires few { length known.now ≤ 8 }
    ensures value { result ≡ number_of_bits (map bit_of known.now) }
{
    let mut byte = 0;
    let mut left = known.len();
    'bits: while left > 0 {
        left -= 1;
        byte = 2 * byte + bit_of(known[left]);
    }
    byte
}

// A mark as a bit.
fn bit_of(known: bool) -> u8
    ensures value { result ≡ bit_of known }
{
    if known { 1 } else { 0 }
}

/// The first bits of bytes as marks.
pub(crate) fn marks_of(alloc: Global, bytes: &[u8], count: usize) -> Result<Vec<bool>, AllocError>
    requires enough { validity_length count ≤ length bytes.now }
    ensures value { IfOk result (λ known. known.items ≡ map (is_set bytes.now) (range_with_len 0 count)) }
{
    let mut known = Vec::with_capacity(alloc, count)?;
    'marks: for place in 0..count {
        known.push_reserved(is_set(bytes, place));
    }
    Ok(known)
}

// Whether the bit of a place is set.
fn is_set(bytes: &[u8], place: usize) -> bool
    requires within { place < 8 * length bytes.now }
    ensures value { result ≡ is_set bytes.now place }
{
    bytes[place / 8] >> (place % 8) & 1 == 1
}
