//! Rows of a table as a batch.
ghost use Rattle.std.specs.Prelude.{◌≡◌, ◌≤◌, All, Err, IfOk};
ghost use Rattle.mem_num.specs.declared.bounds.TheConstants.{LARGEST};
ghost use Rattle.mem_num.specs.declared.full.Full.{Full as AnyFull};
ghost use Rattle.mem_buf.specs.Answers.{IsPastLimit};
ghost use Rattle.mem_buf.specs.Callers.{CanPay};
ghost use Rattle.mem_buf.specs.Chain.{Runs};
ghost use Rattle.query_model.specs.Buffers.{buffer_lengths};
ghost use Rattle.batch_vec.specs.Batches.{IsStoreRows};

use batch_vec::{Batch, OpRefused, store_rows};
use mem_buf::Memory;
use mem_num::AllocId;
use row_text::RowsSlice;
use std::alloc::Global;

/// Stores rows in buffers of an allocator, as `store_rows` does.
pub fn scan<M: Memory>(
    alloc: Global,
    mem: &M,
    token: &mut M::Token,
    at: AllocId,
    rows: &RowsSlice<'_>,
) -> Result<Batch<M::Hold>, OpRefused>
    requires pinned { 1 ≤ (M.model.view token.old).pins at.0 }
    requires sized { All (λ length. length ≤ LARGEST) (buffer_lengths rows.now.kinds rows.now.rows) }
    requires budget { CanPay (M.model.view token.old) at (buffer_lengths rows.now.kinds rows.now.rows) }

    // The batch holds the rows.
    ensures kinds { IfOk result (λ batch. batch.kinds ≡ rows.now.kinds) }
    ensures rows { IfOk result (λ batch. batch.rows ≡ rows.now.rows) }

    // Just these buffers were asked for, and a level that is full would have gone past its limit.
    ensures calls { Runs M.model (IsStoreRows M.model.reference (M.model.view token.old) at
        (buffer_lengths rows.now.kinds rows.now.rows) result) token.old token.new }
    ensures full { (full : AnyFull) → result ≡ Err (OpRefused.Full full) → IsPastLimit (M.model.view token.old) full }
{
    store_rows(alloc, mem, token, at, rows)
}
