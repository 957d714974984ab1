//! The text of a report: the lines of the tree, a line for each live chunk in order of number, and how many references there are.
ghost use Rattle.std.specs.Prelude.{◌≡◌, ◌<◌, ◌^◌, ◌++◌, map, All, IfOk, OnOk, string_bytes};
ghost use Rattle.std.specs.List.{flat_map};
ghost use Rattle.alloc_tree.specs.Chunks.{chunk_of};
ghost use Rattle.alloc_tree.specs.Names.{AreNames};
ghost use Rattle.mem_model.specs.LawfulState.{IsLawfulState};
ghost use Rattle.mem_model.specs.Ledgers.{total_of};
ghost use Rattle.mem_model.specs.MeasuredTree.{peak_at};
ghost use Rattle.leak_report.specs.LawfulReport.{IsLawfulReport};
ghost use Rattle.leak_report.specs.ReportText as spec;

use crate::text::{placed_nodes, placed_text};
use alloc_tree::{Names, SoloTree};
use ledger_map::Ledgers;
use mem_model::Ledger;
use mem_num::{AllocId, NoMemory};
use std::alloc::{AllocError, Global};

/// The text of a tree, and then its live chunks: a line for each, in order of number, with the allocator that is charged for
/// it and the references of each allocator. The last line has how many references there are. The lines of chunks are this
/// project's own.
pub fn report_text(alloc: Global, tree: &SoloTree, names: &[Names]) -> Result<String, NoMemory>
    ensures text { IfOk result (λ text. string_bytes text
        ≡ spec.report_text (map (λ n. n.bindings) names.now) (peak_at tree.now) tree.now.state) }
    ensures lawful { IfOk result (λ text. IsLawfulReport (string_bytes text)) }
{
    are_names(names);
    // As many chunks at most as numbers of 32 bits.
    let _drawn = tree.drawn();
    let Ok(nodes) = placed_nodes(alloc, tree) else {
        return Err(NoMemory);
    };
    let Ok(mut text) = placed_text(alloc, &nodes, names) else {
        return Err(NoMemory);
    };
    match add_chunks(&mut text, tree) {
        Ok(()) => Ok(text),
        Err(_) => Err(NoMemory),
    }
}

// Every name that is bound is a name. It does nothing but ask each of them for that of the root.
fn are_names(names: &[Names])
    ensures { All AreNames (map (λ n. n.bindings) names.now) }
{
    let [first, others @ ..] = names else {
        return;
    };
    let _root = first.name_of(AllocId::ROOT);
    are_names(others);
}

// Adds the lines of the live chunks, and how many references there are to them; those of each chunk have 64 bits.
fn add_chunks(text: &mut String, tree: &SoloTree) -> Result<(), AllocError>
    requires { IsLawfulState tree.now.state }
    ensures text { OnOk result (string_bytes text.new
        ≡ string_bytes text.old ++ spec.chunks_text tree.now.state.chunks) }
    ensures references { OnOk result (All (λ chunk. total_of chunk.ledgers < 2 ^ 64) tree.now.state.chunks) }
{
    // A chunk has at most 2^58 references, but there may be 2^32 chunks.
    let mut references = 0u128;
    for (number, ledgers) in tree.chunks() {
        add_chunk(text, *number, ledgers)?;
        references += u128::from(ledgers.total());
    }
    write!(text, "refs {references}\n")
}

// Adds the line of a chunk.
fn add_chunk(text: &mut String, number: u32, ledgers: &Ledgers) -> Result<(), AllocError>
    ensures { OnOk result (string_bytes text.new
        ≡ string_bytes text.old ++ spec.chunk_text (chunk_of (number, ledgers.now))) }
{
    let size = ledgers.size();
    let owner = ledgers.owner();
    add_chunk_line(text, number, size, owner, ledgers.entries())
}

/// Adds the line of a chunk, by what is printed of it.
pub(crate) fn add_chunk_line(
    text: &mut String,
    number: u32,
    size: u64,
    owner: AllocId,
    ledgers: &[Ledger],
) -> Result<(), AllocError>
    ensures { OnOk result (string_bytes text.new ≡ string_bytes text.old
        ++ spec.chunk_text (record { number = number; size = size; owner = owner; ledgers = ledgers.now })) }
{
    write!(text, "chunk {number} size {size} owner {owner} refs")?;
    add_ledgers(text, ledgers)?;
    text.push_str("\n")
}

// Adds ledgers to the line of their chunk.
fn add_ledgers(text: &mut String, ledgers: &[Ledger]) -> Result<(), AllocError>
    ensures { OnOk result (string_bytes text.new
        ≡ string_bytes text.old ++ flat_map spec.ledger_text ledgers.now) }
{
    for ledger in ledgers {
        let Ledger { at, count } = *ledger;
        write!(text, " {at}:{count}")?;
    }
    Ok(())
}

#[cfg(test)]
mod tests;
