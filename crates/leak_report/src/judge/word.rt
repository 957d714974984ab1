//! The lines of a text and the words of a line, and the numbers that words are.
ghost use Rattle.std.specs.Prelude.{◌≡◌, ◌==◌, not, filter, map, slice_index, IfOk};
ghost use Rattle.std.specs.List.{slice_split};
ghost use Rattle.leak_report.specs.ReadReport as spec;

use mem_num::{AllocId, is_name_byte};
use std::alloc::{AllocError, Global};

/// The lines of a text, without those that are empty.
#[tactic(auto, unfolding(crate::specs::ReadReport::lines_in))]
pub(crate) fn lines_in<'a>(alloc: Global, text: &'a [u8]) -> Result<Vec<&'a [u8]>, AllocError>
    ensures { IfOk result (λ lines. map (λ line. line.now) lines.items ≡ spec.lines_in text.now) }
{
    let parts = parts_of_text(alloc, text)?;
    with_bytes(alloc, &parts)
}

fn parts_of_text<'a>(alloc: Global, text: &'a [u8]) -> Result<Vec<&'a [u8]>, AllocError>
    ensures { IfOk result (λ parts. map (λ part. part.now) parts.items ≡ slice_split (λ byte. byte == 10) text.now) }
{
    text.split(|byte| *byte == b'\n').collect(alloc)
}

/// The numbers and names of a line.
#[tactic(auto, unfolding(crate::specs::ReadReport::words_in))]
pub(crate) fn words_in<'a>(alloc: Global, line: &'a [u8]) -> Result<Vec<&'a [u8]>, AllocError>
    ensures { IfOk result (λ words. map (λ word. word.now) words.items ≡ spec.words_in line.now) }
{
    let parts = parts_of_line(alloc, line)?;
    with_bytes(alloc, &parts)
}

fn parts_of_line<'a>(alloc: Global, line: &'a [u8]) -> Result<Vec<&'a [u8]>, AllocError>
    ensures { IfOk result (λ parts. map (λ part. part.now) parts.items
        ≡ slice_split (λ byte. not (spec.is_word_byte byte)) line.now) }
{
    line.split(|byte| !is_word_byte(*byte)).collect(alloc)
}

// Some parts without those that are empty.
fn with_bytes<'a>(alloc: Global, parts: &[&'a [u8]]) -> Result<Vec<&'a [u8]>, AllocError>
    ensures { IfOk result (λ kept. map (λ part. part.now) kept.items
        ≡ filter spec.has_bytes (map (λ part. part.now) parts.now)) }
{
    let mut kept = Vec::new(alloc);
    for part in parts {
        if has_bytes(part) {
            kept.push(*part)?;
        }
    }
    Ok(kept)
}

#[tactic(auto, unfolding(crate::specs::ReadReport::has_bytes))]
fn has_bytes(part: &[u8]) -> bool
    ensures { result ≡ spec.has_bytes part.now }
{
    !part.is_empty()
}

fn is_word_byte(byte: u8) -> bool
    ensures { result ≡ spec.is_word_byte byte }
{
    is_name_byte(byte) || byte == b'?'
}

/// The first byte of a line, 0 where it has none.
pub(crate) fn first_byte(line: &[u8]) -> u8
    ensures { result ≡ slice_index line.now 0 }
{
    match line {
        [first, ..] => *first,
        [] => 0,
    }
}

/// How many levels deep a line stands: two spaces a level.
pub(crate) fn depth_of(line: &[u8]) -> usize
    ensures { result ≡ spec.depth_of line.now }
{
    line.iter().take_while(|byte| **byte == b' ').count() / 2
}

/// The number that a word is, or the greatest of 64 bits where it is greater. What is no digit counts for some digit: a text is
/// judged by what is printed of what was read.
pub(crate) fn value_in(word: &[u8]) -> u64
    ensures { result ≡ spec.value_in word.now }
{
    word.iter()
        .fold(0, |number, byte| with_digit(number, *byte))
}

fn with_digit(number: u64, byte: u8) -> u64
    ensures { result ≡ spec.with_digit number byte }
{
    number
        .saturating_mul(10)
        .saturating_add(u64::from(byte.saturating_sub(48)))
}

/// The same, or the greatest of 32 bits.
pub(crate) fn short_value_in(word: &[u8]) -> u32
    ensures { result ≡ spec.short_value_in word.now }
{
    value_in(word).min(4_294_967_295) as u32
}

/// The allocator of that number.
pub(crate) fn id_in(word: &[u8]) -> AllocId
    ensures { result ≡ spec.id_in word.now }
{
    AllocId(short_value_in(word))
}
