//! Sums by group of several batches as one.
ghost use Rattle.std.specs.Prelude.{◌≡◌, ◌≤◌, ◌++◌, All, Err, List, IfOk, OnOk, length, map};
ghost use Rattle.std.specs.List.{flat_map, range_with_len};
ghost use Rattle.mem_num.specs.declared.bounds.TheConstants.{LARGEST};
ghost use Rattle.mem_num.specs.declared.full.Full.{Full as AnyFull};
ghost use Rattle.mem_buf.specs.Answers.{IsPastLimit};
ghost use Rattle.mem_buf.specs.Callers.{CanPay};
ghost use Rattle.mem_buf.specs.Chain.{Runs};
ghost use Rattle.query_model.specs.Answer.{groups_of};
ghost use Rattle.query_model.specs.Buffers.{buffer_lengths};
ghost use Rattle.query_model.specs.declared.cell.Cell.{Cell as AnyCell};
ghost use Rattle.query_model.specs.Requests.{sum_kinds};
ghost use Rattle.operators.specs.Groups.{AreGroups, HaveRoom, rows_in_all};
ghost use Rattle.operators.specs.Instead.{IsStoreInstead, references_of};
ghost use Rattle.operators.specs.Summable.{AreSummable};

use crate::groups::Groups;
use crate::storing_instead::{release_batches, store_instead_of_all};
use batch_vec::{Batch, OpRefused, rows_of};
use mem_buf::Memory;
use mem_num::AllocId;
use row_text::Rows;
use std::alloc::{AllocError, Global};

/// Stores a row for each key in the first column of some batches, in order of the keys' bytes, with the sums of the columns behind it,
/// and then gives the batches back, whatever the answer.
pub fn merge_groups<M: Memory>(
    alloc: Global,
    mem: &M,
    token: &mut M::Token,
    at: AllocId,
    sums: u32,
    input: Vec<Batch<M::Hold>>,
) -> Result<Batch<M::Hold>, OpRefused>
    requires groups { All (λ batch. batch.kinds ≡ sum_kinds sums) input.items }
    requires summable { AreSummable 0 (range_with_len 1 sums) (rows_in_all input.items) }
    requires pinned { 1 ≤ (M.model.view token.old).pins at.0 }
    requires sized { All (λ length. length ≤ LARGEST)
        (buffer_lengths (sum_kinds sums) (groups_of 0 (range_with_len 1 sums) (rows_in_all input.items))) }
    requires budget { CanPay (M.model.view token.old) at
        (buffer_lengths (sum_kinds sums) (groups_of 0 (range_with_len 1 sums) (rows_in_all input.items))) }

    // The batch holds the groups of all rows.
    ensures kinds { IfOk result (λ batch. batch.kinds ≡ sum_kinds sums) }
    ensures rows { IfOk result (λ batch. batch.rows ≡ groups_of 0 (range_with_len 1 sums) (rows_in_all input.items)) }

    // Just its buffers were asked for, and then those of all batches were given back. A level that is full would have gone past its limit.
    ensures calls { Runs M.model (IsStoreInstead M.model.reference (M.model.view token.old) at
        (buffer_lengths (sum_kinds sums) (groups_of 0 (range_with_len 1 sums) (rows_in_all input.items)))
        (references_of M.model.reference input.items) result) token.old token.new }
    ensures full { (full : AnyFull) → result ≡ Err (OpRefused.Full full) → IsPastLimit (M.model.view token.old) full }
{
    match merged(alloc, sums, input.as_slice()) {
        Ok(rows) => store_instead_of_all(alloc, mem, token, at, &rows.as_slice(), input),
        Err(AllocError) => {
            release_batches(mem, token, input);
            Err(OpRefused::NoMemory)
        }
    }
}

// The groups of all batches as rows.
fn merged<H>(alloc: Global, sums: u32, input: &[Batch<H>]) -> Result<Rows, AllocError>
    requires groups { All (λ batch. batch.kinds ≡ sum_kinds sums) input.now }
    requires summable { AreSummable 0 (range_with_len 1 sums) (rows_in_all input.now) }
    ensures kinds { IfOk result (λ rows. rows.kinds ≡ sum_kinds sums) }
    ensures rows { IfOk result (λ rows. rows.rows ≡ groups_of 0 (range_with_len 1 sums) (rows_in_all input.now)) }
{
    let columns = columns_behind(alloc, sums)?;
    let mut groups = Groups::new(alloc, sums as usize)?;
    'input: for batch in input {
        add_batch(alloc, &mut groups, batch, columns.as_slice())?;
    }
    groups.rows(alloc)
}

// Adds the rows of a batch.
fn add_batch<H>(
    alloc: Global,
    groups: &mut Groups,
    batch: &Batch<H>,
    columns: &[u32],
) -> Result<(), AllocError>
    requires groups { batch.now.kinds ≡ sum_kinds (length columns.now) }
    requires behind { columns.now ≡ range_with_len 1 (length columns.now) }
    requires room { (before : List (List AnyCell)) × AreGroups 0 columns.now before groups.old
        × HaveRoom 0 columns.now (before ++ batch.now.rows) }
    ensures groups { (before : List (List AnyCell)) → AreGroups 0 columns.now before groups.old
        → OnOk result (AreGroups 0 columns.now (before ++ batch.now.rows) groups.new) }
{
    let Ok(rows) = rows_of(alloc, batch) else {
        return Err(AllocError);
    };
    groups.add(alloc, &rows.as_slice(), 0, columns)
}

// The numbers of the columns from 1 on.
fn columns_behind(alloc: Global, sums: u32) -> Result<Vec<u32>, AllocError>
    ensures value { IfOk result (λ columns. columns.items ≡ range_with_len 1 sums) }
{
    let mut columns = Vec::new(alloc);
    'columns: for place in 0..sums {
        columns.push(place + 1)?;
    }
    Ok(columns)
}
