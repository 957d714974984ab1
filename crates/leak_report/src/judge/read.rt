//! The allocators and chunks that the lines of a text say, whatever the text. A line's parent is the last line before that is one
//! level higher, and allocators come in order of number.
ghost use Rattle.std.specs.Prelude.{◌≡◌, ◌+◌, ◌≤◌, ◌==◌, [], ◌∷◌, ◌++◌, nat_lt, count_by, length, map, IfOk, OnOk};
ghost use Rattle.std.specs.List.{filter_map, list_any};
ghost use Rattle.leak_report.specs.ReadReport as spec;

use super::printed::{PrintedAllocator, PrintedChunk, TreeLine};
use super::word::{depth_of, first_byte, id_in, short_value_in, value_in, words_in};
use mem_model::Ledger;
use mem_num::AllocId;
use std::alloc::{AllocError, Global};

/// The allocators that some lines say, in order of number.
pub(crate) fn allocators_in(
    alloc: Global,
    lines: &[&[u8]],
) -> Result<Vec<PrintedAllocator>, AllocError>
    ensures { IfOk result (λ allocators. allocators.items
        ≡ spec.with_lines [] [] (filter_map spec.tree_line_in (map (λ line. line.now) lines.now))) }
{
    let mut levels = Vec::new(alloc);
    let mut allocators = Vec::new(alloc);
    for text in lines {
        if let Some(line) = tree_line_in(alloc, text)? {
            add_line(&mut levels, &mut allocators, line)?;
        }
    }
    Ok(allocators)
}

/// The chunks that some lines say.
pub(crate) fn chunks_in(alloc: Global, lines: &[&[u8]]) -> Result<Vec<PrintedChunk>, AllocError>
    ensures { IfOk result (λ chunks. chunks.items
        ≡ filter_map spec.chunk_in (map (λ line. line.now) lines.now)) }
{
    let mut chunks = Vec::new(alloc);
    for text in lines {
        if let Some(chunk) = chunk_in(alloc, text)? {
            chunks.push(chunk)?;
        }
    }
    Ok(chunks)
}

// Adds the allocator of a line, by the depths and numbers of the lines before it.
fn add_line(
    levels: &mut Vec<(usize, AllocId)>,
    allocators: &mut Vec<PrintedAllocator>,
    line: TreeLine,
) -> Result<(), AllocError>
    ensures levels { OnOk result (levels.new.items ≡ levels.old.items ++ (line.depth, line.number) ∷ []) }
    ensures allocators { OnOk result (allocators.new.items ≡ spec.with_allocator allocators.old.items
        (spec.allocator_of_line line (spec.parent_after levels.old.items line.depth))) }
{
    let parent = parent_after(levels, line.depth);
    levels.push((line.depth, line.number))?;
    add_allocator(allocators, PrintedAllocator::of_line(line, parent))
}

// The parent of a line that stands so deep, by the depths and numbers of the lines before it.
fn parent_after(levels: &[(usize, AllocId)], depth: usize) -> Option<AllocId>
    ensures { result ≡ spec.parent_after levels.now depth }
{
    let mut parent = None;
    for (above, number) in levels {
        if is_level_higher(*above, depth) {
            parent = Some(*number);
        }
    }
    parent
}

fn is_level_higher(above: usize, depth: usize) -> bool
    ensures { result ≡ (depth == above + 1) }
{
    depth > 0 && above == depth - 1
}

// Adds an allocator in order of number, unless one has its number.
fn add_allocator(
    allocators: &mut Vec<PrintedAllocator>,
    new: PrintedAllocator,
) -> Result<(), AllocError>
    ensures { OnOk result (allocators.new.items ≡ spec.with_allocator allocators.old.items new) }
{
    if is_printed(allocators, new.number) {
        return Ok(());
    }
    let place = place_of(allocators, new.number);
    allocators.insert(place, new)?;
    Ok(())
}

/// Whether an allocator is printed.
pub(crate) fn is_printed(allocators: &[PrintedAllocator], number: AllocId) -> bool
    ensures { result ≡ list_any (λ printed. printed.number.0 == number.0) allocators.now }
{
    allocators.iter().any(|printed| printed.number == number)
}

fn place_of(allocators: &[PrintedAllocator], number: AllocId) -> usize
    ensures place { result ≡ count_by (λ printed. nat_lt printed.number.0 number.0) allocators.now }
    ensures within { result ≤ length allocators.now }
{
    allocators
        .iter()
        .filter(|printed| printed.is_before(number))
        .count()
}

// The line of the tree that a line is.
fn tree_line_in(alloc: Global, line: &[u8]) -> Result<Option<TreeLine>, AllocError>
    ensures { IfOk result (λ found. found ≡ spec.tree_line_in line.now) }
{
    let first = first_byte(line);
    if first == b' ' || first == b'#' {
        let words = words_in(alloc, line)?;
        tree_line_with(alloc, depth_of(line), &words)
    } else {
        Ok(None)
    }
}

fn tree_line_with(
    alloc: Global,
    depth: usize,
    words: &[&[u8]],
) -> Result<Option<TreeLine>, AllocError>
    ensures { IfOk result (λ found. found ≡ spec.tree_line_with depth (map (λ word. word.now) words.now)) }
{
    let [number, _, name, reservation, held, peak, limit, ..] = words else {
        return Ok(None);
    };
    let name = Vec::from_slice(alloc, name)?;
    Ok(Some(TreeLine {
        depth,
        number: id_in(number),
        name,
        reservation: value_in(reservation),
        held: value_in(held),
        peak: value_in(peak),
        limit: value_in(limit),
    }))
}

// The chunk that a line is.
fn chunk_in(alloc: Global, line: &[u8]) -> Result<Option<PrintedChunk>, AllocError>
    ensures { IfOk result (λ found. found ≡ spec.chunk_in line.now) }
{
    if first_byte(line) == b'c' {
        let words = words_in(alloc, line)?;
        chunk_with(alloc, &words)
    } else {
        Ok(None)
    }
}

fn chunk_with(alloc: Global, words: &[&[u8]]) -> Result<Option<PrintedChunk>, AllocError>
    ensures { IfOk result (λ found. found ≡ spec.chunk_with (map (λ word. word.now) words.now)) }
{
    let [_, number, _, size, _, owner, _, more @ ..] = words else {
        return Ok(None);
    };
    let ledgers = ledgers_with(alloc, more)?;
    Ok(Some(PrintedChunk {
        number: short_value_in(number),
        size: value_in(size),
        owner: id_in(owner),
        ledgers,
    }))
}

fn ledgers_with(alloc: Global, words: &[&[u8]]) -> Result<Vec<Ledger>, AllocError>
    ensures { IfOk result (λ ledgers. ledgers.items ≡ spec.ledgers_with (map (λ word. word.now) words.now)) }
{
    let mut ledgers = Vec::new(alloc);
    let mut left = words;
    while let [at, count, more @ ..] = left {
        ledgers.push(Ledger {
            at: id_in(at),
            count: value_in(count),
        })?;
        left = more;
    }
    Ok(ledgers)
}
