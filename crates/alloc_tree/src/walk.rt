//! Walks from an allocator towards the root, as far as an amount passes the reservations on the way.
ghost use Rattle.std.specs.Prelude.{◌≡◌, ℕ, ◌+◌, ◌<◌, ◌^◌, List, Some, IsSome, true, false};
ghost use Rattle.mem_model.specs.declared.charge.Charge.{Charge};
ghost use Rattle.mem_model.specs.TreeNode.{IsAllocatorTree};
ghost use Rattle.mem_model.specs.Balance.{Balances, ExceedsByAmount};
ghost use Rattle.alloc_tree.specs.Rows.{nodes_in, held_by, peaks_in, row_at, HoldCharges, IsOpenAt};
ghost use Rattle.alloc_tree.specs.Walk.{KeepsNodes, AddsCharge, AnswersRequest, MovesCharge, ForcesCharge, MovesAmount};
ghost use Rattle.alloc_tree.specs.Walk.{charge_sample, peak_refusal, refusal_after, with_charge};

use crate::row::Row;
use crate::uses::row_of;
use mem_model::beyond_reservation;
use mem_num::{AllocId, Full};

/// Requests a charge at an allocator. One that is refused is undone by one release where it began. After
/// `Accountant.allocateBytes`.
pub(crate) fn request(rows: &mut [Option<Row>], at: AllocId, amount: u64) -> Result<(), Full>
    requires tree { IsAllocatorTree (nodes_in rows.old) }
    requires open { IsOpenAt rows.old at.0 }
    requires fits { (n : ℕ) → held_by rows.old n + amount < 2 ^ 64 }
    requires balanced { (charges : List Charge) × HoldCharges rows.old charges }
    ensures kept { KeepsNodes rows.old rows.new }
    ensures answers { (charges : List Charge) → HoldCharges rows.old charges
        → AnswersRequest charges (record { at = at; amount = amount }) rows.old rows.new result }
{
    match raise(rows, at, amount, false) {
        None => Ok(()),
        Some(full) => {
            lower(rows, at, amount);
            Err(full)
        }
    }
}

/// Charges an amount at an allocator whatever the limits are, and answers whether every level is within its limit. After
/// `Accountant.forceAllocate`.
pub(crate) fn force(rows: &mut [Option<Row>], at: AllocId, amount: u64) -> bool
    requires tree { IsAllocatorTree (nodes_in rows.old) }
    requires open { IsOpenAt rows.old at.0 }
    requires fits { (n : ℕ) → held_by rows.old n + amount < 2 ^ 64 }
    ensures kept { KeepsNodes rows.old rows.new }
    ensures forced { (charges : List Charge) → HoldCharges rows.old charges
        → ForcesCharge charges (record { at = at; amount = amount }) rows.old rows.new result }
{
    raise(rows, at, amount, true).is_none()
}

/// Moves an amount from an allocator to another one: it is forced onto that one first, so that for a moment both hold it.
/// Answers whether every level was within its limit then. After `BufferLedger.transferOwnership`.
pub(crate) fn move_charge(rows: &mut [Option<Row>], from: AllocId, to: AllocId, amount: u64) -> bool
    requires tree { IsAllocatorTree (nodes_in rows.old) }
    requires from { IsOpenAt rows.old from.0 }
    requires to { IsOpenAt rows.old to.0 }
    requires fits { (n : ℕ) → held_by rows.old n + amount < 2 ^ 64 }
    requires covered { (before : List Charge) × (after : List Charge) × HoldCharges rows.old before
        × MovesAmount before after from to amount }
    ensures kept { KeepsNodes rows.old rows.new }
    ensures moved { (before after : List Charge) → HoldCharges rows.old before
        → MovesAmount before after from to amount
        → MovesCharge before after (record { at = to; amount = amount }) rows.old rows.new result }
{
    let fits = force(rows, to, amount);
    lower(rows, from, amount);
    fits
}

/// Adds an amount at an allocator, and above it what is beyond the reservations below; also where a limit is passed. Answers
/// the lowest level past its limit. A level's peak sees the new number if the charge is forced, or else unless that level or
/// one below is past its limit. After `Accountant.allocate`.
pub(crate) fn raise(
    rows: &mut [Option<Row>],
    at: AllocId,
    amount: u64,
    is_forced: bool,
) -> Option<Full>
    requires tree { IsAllocatorTree (nodes_in rows.old) }
    requires open { IsOpenAt rows.old at.0 }
    requires fits { (n : ℕ) → held_by rows.old n + amount < 2 ^ 64 }
    ensures kept { KeepsNodes rows.old rows.new }
    ensures charged { (charges : List Charge) → HoldCharges rows.old charges
        → AddsCharge is_forced charges (record { at = at; amount = amount }) rows.old rows.new result }
{
    let mut refusal = None;
    let mut level = at;
    let mut pending = amount;
    while pending > 0 {
        let row = row_of(rows, level);
        refusal = refusal_after(at, level, row, pending, refusal);
        rows[level.0 as usize] = Some(with_charge(row, pending, is_forced, refusal));
        let Some(parent) = row.parent else {
            break;
        };
        pending = beyond_reservation(row.reservation, row.held, row.held + pending);
        level = parent;
    }
    refusal
}

/// Subtracts an amount at an allocator, and above it what was beyond the reservations below. After `Accountant.releaseBytes`.
pub(crate) fn lower(rows: &mut [Option<Row>], at: AllocId, amount: u64)
    requires tree { IsAllocatorTree (nodes_in rows.old) }
    requires open { IsOpenAt rows.old at.0 }
    requires covered { (charges : List Charge) × ExceedsByAmount (nodes_in rows.old) charges (held_by rows.old) (Some at) amount }
    ensures kept { KeepsNodes rows.old rows.new }
    ensures peaks { peaks_in rows.new ≡ peaks_in rows.old }
    ensures released { (charges : List Charge) → ExceedsByAmount (nodes_in rows.old) charges (held_by rows.old) (Some at) amount
        → Balances (nodes_in rows.old) charges (held_by rows.new) }
{
    let mut level = at;
    let mut pending = amount;
    while pending > 0 {
        let row = row_of(rows, level);
        let held = row.held - pending;
        rows[level.0 as usize] = Some(Row { held, ..row });
        let Some(parent) = row.parent else {
            break;
        };
        pending = beyond_reservation(row.reservation, held, row.held);
        level = parent;
    }
}

// The refusal of a request at `at`, once an amount was added at a level.
fn refusal_after(
    at: AllocId,
    level: AllocId,
    row: Row,
    amount: u64,
    refusal: Option<Full>,
) -> Option<Full>
    requires { row.held + amount < 2 ^ 64 }
    ensures { result ≡ refusal_after at level row amount refusal }
{
    if refusal.is_some() || row.held + amount <= row.limit {
        return refusal;
    }
    Some(Full {
        node: level,
        held: row.held,
        amount,
        limit: row.limit,
        local: level == at,
    })
}

// A level's row with an amount more; its peak sees it where the charge is forced, or nothing was refused up to there.
fn with_charge(row: Row, amount: u64, is_forced: bool, refusal: Option<Full>) -> Row
    requires { row.held + amount < 2 ^ 64 }
    ensures { result ≡ with_charge row amount (peak_refusal is_forced refusal) }
{
    let held = row.held + amount;
    let peak = if is_forced || refusal.is_none() {
        row.peak.max(held)
    } else {
        row.peak
    };
    Row { held, peak, ..row }
}
