//! Whether a text is a lawful report. It is read as some report, whatever it is; that report is tested part by part, and its text is
//! compared with the one that was given. Only the report that a text is read as can be lawful with this text.
ghost use Rattle.std.specs.Prelude.{◌≡◌, ◌^◌, ◌<◌, ◌↔◌, IsTrue, IfOk};
ghost use Rattle.leak_report.specs.LawfulReport.{IsLawful, IsLawfulReport};
ghost use Rattle.leak_report.specs.ReadReport.{read_report, report_with};
ghost use Rattle.mem_model.specs.Chunk as model;

mod check;
mod print;
mod printed;
mod read;
mod word;

use check::{are_lawful, charges_of, have_names, hold, nodes_of, numbers_fit, references_of};
use mem_model::{is_allocator_tree, rise};
use mem_num::NoMemory;
use print::text_of;
use printed::{PrintedAllocator, PrintedChunk};
use read::{allocators_in, chunks_in};
use std::alloc::{AllocError, Global};
use word::lines_in;

/// Whether a text is that of a lawful report. It is plain and slow: it goes over pairs of allocators, of chunks and of ledgers, and
/// calls itself as deep as there are allocators.
pub fn is_lawful_report(alloc: Global, text: &[u8]) -> Result<bool, NoMemory>
    ensures { IfOk result (λ lawful. IsTrue lawful ↔ IsLawfulReport text.now) }
{
    match judged(alloc, text) {
        Ok(lawful) => Ok(lawful),
        Err(_) => Err(NoMemory),
    }
}

fn judged(alloc: Global, text: &[u8]) -> Result<bool, AllocError>
    ensures { IfOk result (λ lawful. IsTrue lawful ↔ IsLawfulReport text.now) }
{
    let (allocators, chunks) = parts_of(alloc, text)?;
    let Some(references) = references_of(&chunks) else {
        return Ok(false);
    };
    if !is_lawful(alloc, &allocators, &chunks)? {
        return Ok(false);
    }
    let printed = text_of(alloc, &allocators, &chunks, references)?;
    Ok(are_same(&printed, text))
}

// The allocators and chunks of the report that a text is read as.
fn parts_of(
    alloc: Global,
    text: &[u8],
) -> Result<(Vec<PrintedAllocator>, Vec<PrintedChunk>), AllocError>
    ensures { IfOk result (λ read. report_with read.0.items read.1.items ≡ read_report text.now) }
{
    let lines = lines_in(alloc, text)?;
    let allocators = allocators_in(alloc, &lines)?;
    let chunks = chunks_in(alloc, &lines)?;
    Ok((allocators, chunks))
}

// Whether the report of these allocators and chunks is lawful.
fn is_lawful(
    alloc: Global,
    allocators: &[PrintedAllocator],
    chunks: &[PrintedChunk],
) -> Result<bool, AllocError>
    requires { model.references_of chunks.now < 2 ^ 128 }
    ensures { IfOk result (λ lawful. IsTrue lawful ↔ IsLawful (report_with allocators.now chunks.now)) }
{
    let nodes = nodes_of(alloc, allocators)?;
    let charges = charges_of(alloc, chunks)?;
    if !have_names(allocators) || !numbers_fit(allocators, chunks) {
        return Ok(false);
    }
    if !is_allocator_tree(&nodes) || !hold(allocators, &nodes, &charges) || !rise(chunks) {
        return Ok(false);
    }
    Ok(are_lawful(allocators, chunks))
}

fn are_same(one: &[u8], other: &[u8]) -> bool
    ensures { IsTrue result ↔ (one.now ≡ other.now) }
{
    one == other
}

#[cfg(test)]
mod tests;
