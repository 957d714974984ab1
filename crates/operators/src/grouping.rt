//! The rows of a batch as sums by group.
ghost use Rattle.std.specs.Prelude.{◌≡◌, ◌≤◌, ◌<◌, All, Err, Some, IfOk, length, map, slice_get};
ghost use Rattle.mem_num.specs.declared.bounds.TheConstants.{LARGEST};
ghost use Rattle.mem_num.specs.declared.full.Full.{Full as AnyFull};
ghost use Rattle.mem_buf.specs.Answers.{IsPastLimit};
ghost use Rattle.mem_buf.specs.Callers.{CanPay};
ghost use Rattle.mem_buf.specs.Chain.{Runs};
ghost use Rattle.query_model.specs.Answer.{groups_of};
ghost use Rattle.query_model.specs.Buffers.{buffer_lengths};
ghost use Rattle.query_model.specs.declared.bounds.TheConstants.{MOST_ROWS};
ghost use Rattle.query_model.specs.declared.kind.Kind.TheVariants as kind;
ghost use Rattle.query_model.specs.Requests.{sum_kinds};
ghost use Rattle.operators.specs.Instead.{IsStoreInstead};

use crate::groups::Groups;
use crate::storing_instead::store_instead;
use batch_vec::{Batch, OpRefused, release_batch, rows_of};
use mem_buf::Memory;
use mem_num::AllocId;
use row_text::Rows;
use std::alloc::{AllocError, Global};

/// Stores a row for each key in a column of a batch, in order of the keys' bytes as they are printed, with the sums of other columns,
/// and then gives the batch back, whatever the answer.
pub fn group_sums<M: Memory>(
    alloc: Global,
    mem: &M,
    token: &mut M::Token,
    at: AllocId,
    key: u32,
    sums: &[u32],
    input: Batch<M::Hold>,
) -> Result<Batch<M::Hold>, OpRefused>
    requires key { key < length input.kinds }
    requires ints { All (λ sum. slice_get input.kinds sum ≡ Some kind.Int) sums.now }
    requires few { length input.rows ≤ MOST_ROWS }
    requires pinned { 1 ≤ (M.model.view token.old).pins at.0 }
    requires sized { All (λ length. length ≤ LARGEST)
        (buffer_lengths (sum_kinds (length sums.now)) (groups_of key sums.now input.rows)) }
    requires budget { CanPay (M.model.view token.old) at
        (buffer_lengths (sum_kinds (length sums.now)) (groups_of key sums.now input.rows)) }

    // The batch holds the groups.
    ensures kinds { IfOk result (λ batch. batch.kinds ≡ sum_kinds (length sums.now)) }
    ensures rows { IfOk result (λ batch. batch.rows ≡ groups_of key sums.now input.rows) }

    // Just its buffers were asked for, and then those of the input were given back. A level that is full would have gone past its limit.
    ensures calls { Runs M.model (IsStoreInstead M.model.reference (M.model.view token.old) at
        (buffer_lengths (sum_kinds (length sums.now)) (groups_of key sums.now input.rows)) (map M.model.reference input.holds) result)
        token.old token.new }
    ensures full { (full : AnyFull) → result ≡ Err (OpRefused.Full full) → IsPastLimit (M.model.view token.old) full }
{
    match groups_of(alloc, key, sums, &input) {
        Ok(rows) => store_instead(alloc, mem, token, at, &rows.as_slice(), input),
        Err(AllocError) => {
            release_batch(mem, token, input);
            Err(OpRefused::NoMemory)
        }
    }
}

/// The groups as rows.
pub(crate) fn groups_of<H>(
    alloc: Global,
    key: u32,
    sums: &[u32],
    input: &Batch<H>,
) -> Result<Rows, AllocError>
    requires key { key < length input.now.kinds }
    requires ints { All (λ sum. slice_get input.now.kinds sum ≡ Some kind.Int) sums.now }
    requires few { length input.now.rows ≤ MOST_ROWS }
    ensures kinds { IfOk result (λ rows. rows.kinds ≡ sum_kinds (length sums.now)) }
    ensures rows { IfOk result (λ rows. rows.rows ≡ groups_of key sums.now input.now.rows) }
{
    let Ok(rows) = rows_of(alloc, input) else {
        return Err(AllocError);
    };
    let all = rows.as_slice();
    let _count = all.len();
    let mut groups = Groups::new(alloc, sums.len())?;
    groups.add(alloc, &all, key, sums)?;
    groups.rows(alloc)
}
