//! What a query asks for, batch by batch, by the definitions: slow, and for comparison.
ghost use Rattle.std.specs.Prelude.{◌≡◌, filter, flat_map, nat_lt, IfOk};
ghost use Rattle.query_model.specs.Answer as spec_answer;
ghost use Rattle.query_model.specs.Buffers as spec_buffers;
ghost use Rattle.query_model.specs.Requests as spec;

use crate::answer::answer_of;
use crate::buffers::buffer_sizes;
use crate::cells::Cells;
use crate::filter::meeting;
use crate::output::Output;
use crate::plan::Plan;
use crate::query_kinds::{answer_kinds, kinds_of};
use mem_model::Charge;
use mem_num::AllocId;
use std::alloc::{AllocError, Global};

/// The allocator in which the rows of a batch are stored.
pub const SCAN: AllocId = AllocId(1);

/// The one for the rows that meet the tests.
pub const FILTER: AllocId = AllocId(2);

/// The one to which picked columns move.
pub const PROJECT: AllocId = AllocId(3);

/// The one for the groups of a batch.
pub const SUMS: AllocId = AllocId(4);

/// The one that holds the answer in the end.
pub const RESULT: AllocId = AllocId(5);

/// What a batch asks for, in order, by the definition; batch 0 is the merge, before which the reservations are asked for. Rows past
/// the bounds of a table, and a sum that passes 128 bits, are answered as want of memory.
pub fn requests_of(
    alloc: Global,
    plan: &Plan,
    rows: &[Cells],
    batch: usize,
) -> Result<Vec<Charge>, AllocError>
    ensures value { IfOk result (λ requests. requests.items ≡ spec.requests_of plan.now rows.now batch) }
{
    if batch == 0 {
        let mut requests = reservation_requests(alloc, &plan.reserves)?;
        let groups = group_sizes(alloc, plan, rows)?;
        requests.extend_from_slice(&requests_at(alloc, RESULT, &groups)?)?;
        Ok(requests)
    } else {
        rows_requests(alloc, plan, batch_rows(plan, rows, batch))
    }
}

/// The rows of a batch, which are numbered from 1 on. Takes no memory.
pub fn batch_rows<'a>(plan: &Plan, rows: &'a [Cells], batch: usize) -> &'a [Cells]
    ensures value { result.now ≡ spec.batch_rows plan.now rows.now batch }
{
    let size = plan.batch as usize;
    let from = size.saturating_mul(batch.saturating_sub(1)).min(rows.len());
    let to = from.saturating_add(size).min(rows.len());
    &rows[from..to]
}

// The buffers that the rows of a batch ask for.
fn rows_requests(alloc: Global, plan: &Plan, rows: &[Cells]) -> Result<Vec<Charge>, AllocError>
    ensures { IfOk result (λ requests. requests.items ≡ spec.rows_requests plan.now rows.now) }
{
    let kinds = kinds_of(alloc, plan.columns.as_slice())?;
    let scan = buffer_sizes(alloc, &kinds, rows)?;
    let met = meeting(alloc, plan.tests.as_slice(), rows)?;
    let filtered = buffer_sizes(alloc, &kinds, &met)?;
    let groups = group_sizes(alloc, plan, rows)?;
    let mut requests = requests_at(alloc, SCAN, &scan)?;
    requests.extend_from_slice(&requests_at(alloc, FILTER, &filtered)?)?;
    requests.extend_from_slice(&requests_at(alloc, SUMS, &groups)?)?;
    Ok(requests)
}

// The sizes of the groups of rows, where a plan groups.
fn group_sizes(alloc: Global, plan: &Plan, rows: &[Cells]) -> Result<Vec<u64>, AllocError>
    ensures { IfOk result (λ sizes. sizes.items ≡ spec.group_sizes plan.now rows.now plan.now.output) }
{
    match &plan.output {
        Output::Select(_) => Ok(Vec::new(alloc)),
        Output::Group { key: _, sums: _ } => answer_sizes(alloc, plan, rows),
    }
}

// The sizes of the buffers of what rows answer.
fn answer_sizes(alloc: Global, plan: &Plan, rows: &[Cells]) -> Result<Vec<u64>, AllocError>
    ensures { IfOk result (λ sizes.
        sizes.items ≡ spec_buffers.buffer_sizes (spec.answer_kinds plan.now) (spec_answer.answer_of plan.now rows.now)) }
{
    let kinds = answer_kinds(alloc, plan)?;
    let answer = answer_of(alloc, plan, rows)?;
    buffer_sizes(alloc, &kinds, &answer)
}

/// How many batches rows make. Takes no memory.
pub fn batch_count(plan: &Plan, rows: &[Cells]) -> usize
    ensures value { result ≡ spec.batch_count plan.now rows.now }
{
    let size = plan.batch as usize;
    if size == 0 {
        0
    } else {
        rows.len().div_ceil(size)
    }
}

/// The sizes of the buffers that hold the answer in the end, by the definition. Rows past the bounds of a table, and a sum that passes
/// 128 bits, are answered as want of memory.
pub fn result_sizes(alloc: Global, plan: &Plan, rows: &[Cells]) -> Result<Vec<u64>, AllocError>
    ensures value { IfOk result (λ sizes. sizes.items ≡ spec.result_sizes plan.now rows.now) }
{
    match &plan.output {
        Output::Select(_) => kept_sizes(alloc, plan, rows),
        Output::Group { key: _, sums: _ } => answer_sizes(alloc, plan, rows),
    }
}

// The sizes of the buffers of each batch's answer.
fn kept_sizes(alloc: Global, plan: &Plan, rows: &[Cells]) -> Result<Vec<u64>, AllocError>
    ensures { IfOk result (λ sizes. sizes.items ≡ flat_map (λ part.
        spec_buffers.buffer_sizes (spec.answer_kinds plan.now) (spec_answer.answer_of plan.now part))
        (spec.batches_of plan.now rows.now)) }
{
    let mut kept = Vec::new(alloc);
    for batch in 0..batch_count(plan, rows) {
        let sizes = answer_sizes(alloc, plan, batch_rows(plan, rows, batch + 1))?;
        kept.extend_from_slice(&sizes)?;
    }
    Ok(kept)
}

// Requests at an allocator.
fn requests_at(alloc: Global, at: AllocId, sizes: &[u64]) -> Result<Vec<Charge>, AllocError>
    ensures { IfOk result (λ requests. requests.items ≡ spec.requests_at at sizes.now) }
{
    let mut requests = Vec::new(alloc);
    for size in sizes {
        requests.push(Charge { at, amount: *size })?;
    }
    Ok(requests)
}

// The reservations that aren't 0, as requests at the root.
fn reservation_requests(alloc: Global, reserves: &[u64]) -> Result<Vec<Charge>, AllocError>
    ensures { IfOk result (λ requests.
        requests.items ≡ spec.requests_at spec.root_id (filter (nat_lt 0) reserves.now)) }
{
    let mut some = Vec::new(alloc);
    for reservation in reserves {
        if *reservation > 0 {
            some.push(*reservation)?;
        }
    }
    requests_at(alloc, AllocId::ROOT, &some)
}
