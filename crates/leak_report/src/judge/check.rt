//! Whether a report of allocators and chunks is lawful, part by part.
ghost use Rattle.std.specs.Prelude.{◌≡◌, ◌+◌, ◌-◌, ◌^◌, ◌<◌, ◌≤◌, ◌↔◌, ◌==◌, ◌&&◌, nat_lt, min, map, All, IsTrue, IfOk, IfSome, IfNone};
ghost use Rattle.std.specs.List.{list_all, list_any};
ghost use Rattle.mem_num.specs.declared.bounds.TheConstants.{MOST_NUMBERS};
ghost use Rattle.mem_model.specs.Charge.{charged_at};
ghost use Rattle.mem_model.specs.Chunk.{charges_of, references_of};
ghost use Rattle.mem_model.specs.Held.{held_of};
ghost use Rattle.mem_model.specs.LawfulChunk.{IsLawfulChunk};
ghost use Rattle.mem_model.specs.Ledgers.{AreInOrder, count_of, total_of};
ghost use Rattle.leak_report.specs.LawfulReport as spec;
ghost use Rattle.leak_report.specs.ReadReport.{report_with};

use super::printed::{PrintedAllocator, PrintedChunk};
use super::read::is_printed;
use mem_model::{Charge, Ledger, TreeNode, has_ledger, rise};
use mem_num::{AllocId, LARGEST, is_name};
use std::alloc::{AllocError, Global};

/// Whether every name is a name, or what stands for one.
pub(crate) fn have_names(allocators: &[PrintedAllocator]) -> bool
    ensures { IsTrue result ↔ All (λ printed. spec.IsPrintedName printed.name) allocators.now }
{
    allocators.iter().all(|printed| has_name(printed))
}

fn has_name(printed: &PrintedAllocator) -> bool
    ensures { IsTrue result ↔ spec.IsPrintedName printed.now.name }
{
    is_printed_name(&printed.name)
}

fn is_printed_name(name: &[u8]) -> bool
    ensures { IsTrue result ↔ spec.IsPrintedName name.now }
{
    match name {
        [b'?'] => true,
        _ => is_name(name),
    }
}

/// Whether all numbers fit, where 128 bits count the references.
pub(crate) fn numbers_fit(allocators: &[PrintedAllocator], chunks: &[PrintedChunk]) -> bool
    requires { references_of chunks.now < 2 ^ 128 }
    ensures { IsTrue result ↔ spec.NumbersFit (report_with allocators.now chunks.now) }
{
    if !allocators_fit(allocators) || !chunks_fit(chunks) {
        return false;
    }
    counts_fit(chunks)
}

// Whether the numbers of allocators fit: they do by their types.
fn allocators_fit(allocators: &[PrintedAllocator]) -> bool
    ensures { IsTrue result ↔ All spec.AllocatorFits allocators.now }
{
    allocators.iter().all(|printed| allocator_fits(printed))
}

fn allocator_fits(printed: &PrintedAllocator) -> bool
    ensures { IsTrue result ↔ spec.AllocatorFits printed.now }
{
    let _number = printed.number.0;
    let _reservation = printed.reservation;
    let _held = printed.held;
    let _peak = printed.peak;
    let _limit = printed.limit;
    true
}

// Whether the numbers of chunks fit: they do by their types.
fn chunks_fit(chunks: &[PrintedChunk]) -> bool
    ensures { IsTrue result ↔ All (λ chunk. chunk.number < MOST_NUMBERS) chunks.now }
{
    chunks.iter().all(|chunk| chunk_fits(chunk))
}

fn chunk_fits(chunk: &PrintedChunk) -> bool
    ensures { IsTrue result ↔ (chunk.now.number < MOST_NUMBERS) }
{
    let _number = chunk.number;
    true
}

// Whether the references of their ledgers fit: they do by their types.
fn counts_fit(chunks: &[PrintedChunk]) -> bool
    ensures { IsTrue result ↔ All (λ chunk. All (λ ledger. ledger.count < 2 ^ 64) chunk.ledgers) chunks.now }
{
    chunks.iter().all(|chunk| ledgers_of_fit(chunk))
}

fn ledgers_of_fit(chunk: &PrintedChunk) -> bool
    ensures { IsTrue result ↔ All (λ ledger. ledger.count < 2 ^ 64) chunk.now.ledgers }
{
    ledgers_fit(&chunk.ledgers)
}

fn ledgers_fit(ledgers: &[Ledger]) -> bool
    ensures { IsTrue result ↔ All (λ ledger. ledger.count < 2 ^ 64) ledgers.now }
{
    ledgers.iter().all(|ledger| ledger_fits(ledger))
}

fn ledger_fits(ledger: &Ledger) -> bool
    ensures { IsTrue result ↔ (ledger.now.count < 2 ^ 64) }
{
    let _count = ledger.count;
    true
}

/// The allocators as those of a tree.
pub(crate) fn nodes_of(
    alloc: Global,
    allocators: &[PrintedAllocator],
) -> Result<Vec<TreeNode>, AllocError>
    ensures { IfOk result (λ nodes. nodes.items ≡ map spec.printed_node allocators.now) }
{
    let mut nodes = Vec::new(alloc);
    for printed in allocators {
        nodes.push(printed.node())?;
    }
    Ok(nodes)
}

/// What chunks charge.
pub(crate) fn charges_of(alloc: Global, chunks: &[PrintedChunk]) -> Result<Vec<Charge>, AllocError>
    ensures { IfOk result (λ charges. charges.items ≡ charges_of chunks.now) }
{
    let mut charges = Vec::new(alloc);
    for chunk in chunks {
        charges.push(Charge {
            at: chunk.owner,
            amount: chunk.size,
        })?;
    }
    Ok(charges)
}

/// Whether each allocator holds what it is said to hold.
pub(crate) fn hold(allocators: &[PrintedAllocator], nodes: &[TreeNode], charges: &[Charge]) -> bool
    ensures { IsTrue result ↔ All (λ printed. printed.held ≡ held_of nodes.now charges.now printed.number.0) allocators.now }
{
    for printed in allocators {
        if !holds(printed, nodes, charges) {
            return false;
        }
    }
    true
}

fn holds(printed: &PrintedAllocator, nodes: &[TreeNode], charges: &[Charge]) -> bool
    ensures { IsTrue result ↔ (printed.now.held ≡ held_of nodes.now charges.now printed.now.number.0) }
{
    u128::from(printed.held) == held_of(nodes, charges, printed.number)
}

// What an allocator holds, or the greatest number of 128 bits where it would hold more.
fn held_of(nodes: &[TreeNode], charges: &[Charge], at: AllocId) -> u128
    ensures { result ≡ min (held_of nodes.now charges.now at.0) (2 ^ 128 - 1) }
{
    let [node, later @ ..] = nodes else {
        return charged_at(charges, at);
    };
    let held = held_of(later, charges, at);
    if !node.is_open_child(at) {
        return held;
    }
    let child = held_of(later, charges, node.number);
    held.saturating_add(child.max(u128::from(node.reservation)))
}

fn charged_at(charges: &[Charge], at: AllocId) -> u128
    ensures { result ≡ min (charged_at charges.now at.0) (2 ^ 128 - 1) }
{
    let mut total: u128 = 0;
    for charge in charges {
        if charge.at == at {
            total = total.saturating_add(u128::from(charge.amount));
        }
    }
    total
}

/// Whether each chunk is lawful, where these allocators are open.
pub(crate) fn are_lawful(allocators: &[PrintedAllocator], chunks: &[PrintedChunk]) -> bool
    ensures { IsTrue result ↔ All (IsLawfulChunk
        (λ n. list_any (λ printed. printed.number.0 == n) allocators.now)) chunks.now }
{
    for chunk in chunks {
        if !is_lawful_chunk(allocators, chunk) {
            return false;
        }
    }
    true
}

fn is_lawful_chunk(allocators: &[PrintedAllocator], chunk: &PrintedChunk) -> bool
    ensures { IsTrue result ↔ IsLawfulChunk
        (λ n. list_any (λ printed. printed.number.0 == n) allocators.now) chunk.now }
{
    is_lawful_line(
        allocators,
        chunk.number,
        chunk.size,
        chunk.owner,
        &chunk.ledgers,
    )
}

fn is_lawful_line(
    allocators: &[PrintedAllocator],
    number: u32,
    size: u64,
    owner: AllocId,
    ledgers: &[Ledger],
) -> bool
    ensures { IsTrue result ↔ IsLawfulChunk
        (λ n. list_any (λ printed. printed.number.0 == n) allocators.now)
        (record { number = number; size = size; owner = owner; ledgers = ledgers.now }) }
{
    if number == 0 || size == 0 || size > LARGEST {
        return false;
    }
    if !are_in_order(ledgers) || !has_ledger(ledgers, owner) {
        return false;
    }
    are_open(allocators, ledgers)
}

fn are_in_order(ledgers: &[Ledger]) -> bool
    ensures { IsTrue result ↔ AreInOrder ledgers.now }
{
    rise(ledgers) && ledgers.iter().all(|ledger| ledger.count >= 1)
}

fn are_open(allocators: &[PrintedAllocator], ledgers: &[Ledger]) -> bool
    ensures { result ≡ list_all (λ ledger. list_any (λ printed. printed.number.0 == ledger.at.0) allocators.now) ledgers.now }
{
    ledgers
        .iter()
        .all(|ledger| is_printed(allocators, ledger.at))
}

/// How many references there are to chunks, if 128 bits count them.
pub(crate) fn references_of(chunks: &[PrintedChunk]) -> Option<u128>
    ensures some { IfSome result (λ references. references ≡ references_of chunks.now) }
    ensures none { IfNone result (2 ^ 128 ≤ references_of chunks.now) }
{
    let mut references = 0;
    for chunk in chunks {
        references = with_counts(references, &chunk.ledgers)?;
    }
    Some(references)
}

// So many references and those of some ledgers.
fn with_counts(references: u128, ledgers: &[Ledger]) -> Option<u128>
    ensures some { IfSome result (λ sum. sum ≡ references + total_of ledgers.now) }
    ensures none { IfNone result (2 ^ 128 ≤ references + total_of ledgers.now) }
{
    let mut sum = references;
    for ledger in ledgers {
        sum = sum.checked_add(u128::from(ledger.count))?;
    }
    Some(sum)
}
