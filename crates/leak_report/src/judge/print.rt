//! The text of allocators and chunks, as a report prints it.
ghost use Rattle.std.specs.Prelude.{◌≡◌, ◌+◌, ◌^◌, ◌<◌, ◌++◌, length, string_bytes, IfOk, OnOk};
ghost use Rattle.std.specs.List.{flat_map};
ghost use Rattle.leak_report.specs.ReadReport.{report_with};
ghost use Rattle.leak_report.specs.Report.{has_parent, head_of, tree_line_of, lines_text, printed_text, tail_of, tree_line_text};
ghost use Rattle.mem_model.specs.Chunk as model;
ghost use Rattle.leak_report.specs.ReportText as spec;

use super::printed::{PrintedAllocator, PrintedChunk};
use crate::report::add_chunk_line;
use mem_num::AllocId;
use std::alloc::{AllocError, Global};

/// The text of a report of these allocators and chunks, to which there are so many references.
pub(crate) fn text_of(
    alloc: Global,
    allocators: &[PrintedAllocator],
    chunks: &[PrintedChunk],
    references: u128,
) -> Result<Vec<u8>, AllocError>
    requires { references ≡ model.references_of chunks.now }
    ensures { IfOk result (λ text. text.items ≡ printed_text (report_with allocators.now chunks.now)) }
{
    let mut text = Vec::new(alloc);
    add_lines(alloc, &mut text, allocators, 0, None)?;
    let chunks = chunks_text(alloc, chunks, references)?;
    text.extend_from_slice(chunks.as_bytes())?;
    Ok(text)
}

// Adds the lines of the allocators with this parent, each with those below it.
fn add_lines(
    alloc: Global,
    text: &mut Vec<u8>,
    allocators: &[PrintedAllocator],
    depth: usize,
    parent: Option<AllocId>,
) -> Result<(), AllocError>
    requires { depth + length allocators.now < 2 ^ 64 }
    ensures { OnOk result (text.new.items ≡ text.old.items ++ lines_text allocators.now depth parent) }
{
    let [first, later @ ..] = allocators else {
        return Ok(());
    };
    if !is_child(first, parent) {
        add_lines(alloc, text, later, depth, parent)?;
        return Ok(());
    }
    add_line(alloc, text, first, depth)?;
    add_lines(alloc, text, later, depth + 1, Some(first.number()))?;
    add_lines(alloc, text, later, depth, parent)?;
    Ok(())
}

// Whether an allocator has this parent, or none.
fn is_child(printed: &PrintedAllocator, parent: Option<AllocId>) -> bool
    ensures { result ≡ has_parent parent printed.now }
{
    match parent {
        Some(parent) => printed.parent == Some(parent),
        None => printed.parent.is_none(),
    }
}

// Adds the line of an allocator, so many levels deep.
fn add_line(
    alloc: Global,
    text: &mut Vec<u8>,
    printed: &PrintedAllocator,
    depth: usize,
) -> Result<(), AllocError>
    ensures { OnOk result (text.new.items ≡ text.old.items ++ tree_line_text (tree_line_of depth printed.now)) }
{
    let indent = "  ".repeat(alloc, depth)?;
    let head = head_text(alloc, printed)?;
    let tail = tail_text(alloc, printed)?;
    text.extend_from_slice(indent.as_bytes())?;
    text.extend_from_slice(head.as_bytes())?;
    text.extend_from_slice(printed.name())?;
    text.extend_from_slice(tail.as_bytes())?;
    Ok(())
}

// What stands before the name of an allocator, without the spaces.
fn head_text(alloc: Global, printed: &PrintedAllocator) -> Result<String, AllocError>
    ensures { IfOk result (λ text. string_bytes text ≡ head_of printed.now) }
{
    let number = printed.number;
    format!(in alloc; "{number} Allocator(")
}

// What stands behind it.
fn tail_text(alloc: Global, printed: &PrintedAllocator) -> Result<String, AllocError>
    ensures { IfOk result (λ text. string_bytes text ≡ tail_of printed.now) }
{
    let reservation = printed.reservation;
    let held = printed.held;
    let peak = printed.peak;
    let limit = printed.limit;
    format!(in alloc; ") {reservation}/{held}/{peak}/{limit} (res/actual/peak/limit)\n")
}

// The lines of some chunks, and how many references there are to them.
fn chunks_text(
    alloc: Global,
    chunks: &[PrintedChunk],
    references: u128,
) -> Result<String, AllocError>
    requires { references ≡ model.references_of chunks.now }
    ensures { IfOk result (λ text. string_bytes text ≡ spec.chunks_text chunks.now) }
{
    let mut text = String::new(alloc);
    add_chunks(&mut text, chunks)?;
    write!(text, "refs {references}\n")?;
    Ok(text)
}

fn add_chunks(text: &mut String, chunks: &[PrintedChunk]) -> Result<(), AllocError>
    ensures { OnOk result (string_bytes text.new
        ≡ string_bytes text.old ++ flat_map spec.chunk_text chunks.now) }
{
    for chunk in chunks {
        add_chunk_line(text, chunk.number, chunk.size, chunk.owner, &chunk.ledgers)?;
    }
    Ok(())
}
