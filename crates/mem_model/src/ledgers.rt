//! The ledgers of a chunk, as a list in order of number.
ghost use Rattle.std.specs.Prelude.{◌≡◌, ◌<◌, ◌^◌, ◌==◌, ◌&&◌, nat_lt, filter, IfOk};
ghost use Rattle.std.specs.List.{list_any};
ghost use Rattle.mem_model.specs.Ledgers as spec;

use crate::ledger::Ledger;
use mem_num::AllocId;
use std::alloc::{AllocError, Global};

/// How many references an allocator has.
pub fn count_of(ledgers: &[Ledger], at: AllocId) -> u64
    requires { spec.count_of ledgers.now at.0 < 2 ^ 64 }
    ensures { result ≡ spec.count_of ledgers.now at.0 }
{
    ledgers
        .iter()
        .map(|ledger| if ledger.at == at { ledger.count } else { 0 })
        .sum()
}

/// Whether an allocator has a reference.
pub fn has_ledger(ledgers: &[Ledger], at: AllocId) -> bool
    ensures { result ≡ nat_lt 0 (spec.count_of ledgers.now at.0) }
{
    is_listed(ledgers, at)
}

fn is_listed(ledgers: &[Ledger], at: AllocId) -> bool
    ensures { result ≡ list_any (λ ledger. (ledger.at.0 == at.0) && nat_lt 0 ledger.count) ledgers.now }
{
    ledgers
        .iter()
        .any(|ledger| ledger.at == at && ledger.count > 0)
}

/// How many references there are.
pub fn total_of(ledgers: &[Ledger]) -> u64
    requires { spec.total_of ledgers.now < 2 ^ 64 }
    ensures { result ≡ spec.total_of ledgers.now }
{
    ledgers.iter().map(|ledger| ledger.count).sum()
}

fn ledgers_below(alloc: Global, ledgers: &[Ledger], at: AllocId) -> Result<Vec<Ledger>, AllocError>
    ensures { IfOk result (λ below. below.items ≡ filter (spec.is_below at.0) ledgers.now) }
{
    let mut below = Vec::new(alloc);
    for ledger in ledgers {
        if ledger.at.0 < at.0 {
            below.push(*ledger)?;
        }
    }
    Ok(below)
}

fn ledgers_above(alloc: Global, ledgers: &[Ledger], at: AllocId) -> Result<Vec<Ledger>, AllocError>
    ensures { IfOk result (λ above. above.items ≡ filter (spec.is_above at.0) ledgers.now) }
{
    let mut above = Vec::new(alloc);
    for ledger in ledgers {
        if at.0 < ledger.at.0 {
            above.push(*ledger)?;
        }
    }
    Ok(above)
}

/// The same ledgers, but for an allocator that has so many references.
#[tactic(auto, unfolding(crate::specs::Ledgers::with_count))]
pub fn with_count(
    alloc: Global,
    ledgers: &[Ledger],
    at: AllocId,
    count: u64,
) -> Result<Vec<Ledger>, AllocError>
    ensures { IfOk result (λ changed. changed.items ≡ spec.with_count ledgers.now at.0 count) }
{
    let mut changed = ledgers_below(alloc, ledgers, at)?;
    if count > 0 {
        changed.push(Ledger { at, count })?;
    }
    let above = ledgers_above(alloc, ledgers, at)?;
    changed.extend_from_slice(&above)?;
    Ok(changed)
}
