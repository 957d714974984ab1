//! Storing rows in the place of the batches that they were made of.
ghost use Rattle.std.specs.Prelude.{◌≡◌, ◌≤◌, All, Err, IfOk, List, length, map};
ghost use Rattle.std.specs.List.{flat_map};
ghost use Rattle.std.specs.Vec.Iter.{into_iter_items, into_iter_len};
ghost use Rattle.mem_num.specs.declared.bounds.TheConstants.{LARGEST};
ghost use Rattle.mem_num.specs.declared.full.Full.{Full as AnyFull};
ghost use Rattle.mem_buf.specs.Answers.{IsPastLimit};
ghost use Rattle.mem_buf.specs.Callers.{CanPay, GivesBack};
ghost use Rattle.mem_buf.specs.Chain.{Runs};
ghost use Rattle.query_model.specs.Buffers.{buffer_lengths};
ghost use Rattle.operators.specs.Instead.{IsStoreInstead, references_of};

use batch_vec::{Batch, OpRefused, release_batch, store_rows};
use mem_buf::Memory;
use mem_num::AllocId;
use row_text::RowsSlice;
use std::alloc::Global;
use std::vec::IntoIter;

/// Stores rows, and then, whatever the answer, gives a batch back.
pub(crate) fn store_instead<M: Memory>(
    alloc: Global,
    mem: &M,
    token: &mut M::Token,
    at: AllocId,
    rows: &RowsSlice<'_>,
    input: Batch<M::Hold>,
) -> Result<Batch<M::Hold>, OpRefused>
    requires pinned { 1 ≤ (M.model.view token.old).pins at.0 }
    requires sized { All (λ length. length ≤ LARGEST) (buffer_lengths rows.now.kinds rows.now.rows) }
    requires budget { CanPay (M.model.view token.old) at (buffer_lengths rows.now.kinds rows.now.rows) }
    ensures kinds { IfOk result (λ batch. batch.kinds ≡ rows.now.kinds) }
    ensures rows { IfOk result (λ batch. batch.rows ≡ rows.now.rows) }
    ensures calls { Runs M.model (IsStoreInstead M.model.reference (M.model.view token.old) at
        (buffer_lengths rows.now.kinds rows.now.rows) (map M.model.reference input.holds) result) token.old token.new }
    ensures full { (full : AnyFull) → result ≡ Err (OpRefused.Full full) → IsPastLimit (M.model.view token.old) full }
{
    let stored = store_rows(alloc, mem, token, at, rows);
    release_batch(mem, token, input);
    stored
}

/// The same of several batches, which are given back one after the other.
pub(crate) fn store_instead_of_all<M: Memory>(
    alloc: Global,
    mem: &M,
    token: &mut M::Token,
    at: AllocId,
    rows: &RowsSlice<'_>,
    input: Vec<Batch<M::Hold>>,
) -> Result<Batch<M::Hold>, OpRefused>
    requires pinned { 1 ≤ (M.model.view token.old).pins at.0 }
    requires sized { All (λ length. length ≤ LARGEST) (buffer_lengths rows.now.kinds rows.now.rows) }
    requires budget { CanPay (M.model.view token.old) at (buffer_lengths rows.now.kinds rows.now.rows) }
    ensures kinds { IfOk result (λ batch. batch.kinds ≡ rows.now.kinds) }
    ensures rows { IfOk result (λ batch. batch.rows ≡ rows.now.rows) }
    ensures calls { Runs M.model (IsStoreInstead M.model.reference (M.model.view token.old) at
        (buffer_lengths rows.now.kinds rows.now.rows) (references_of M.model.reference input.items) result) token.old token.new }
    ensures full { (full : AnyFull) → result ≡ Err (OpRefused.Full full) → IsPastLimit (M.model.view token.old) full }
{
    let stored = store_rows(alloc, mem, token, at, rows);
    release_batches(mem, token, input);
    stored
}

/// Releases the holds of batches, one batch after the other. Takes no memory.
pub fn release_batches<M: Memory>(mem: &M, token: &mut M::Token, input: Vec<Batch<M::Hold>>)
    ensures calls { Runs M.model (GivesBack (references_of M.model.reference input.items)) token.old token.new }
{
    release_left(mem, token, input.into_iter());
}

/// The same of the batches that are left.
pub(crate) fn release_left<M: Memory>(
    mem: &M,
    token: &mut M::Token,
    input: IntoIter<Batch<M::Hold>>,
)
    requires { into_iter_len input ≡ length (into_iter_items input) }
    ensures calls { Runs M.model (GivesBack (references_of M.model.reference (into_iter_items input))) token.old token.new }
{
    let mut left = input;
    while let Some(batch) = left.next() {
        release_batch(mem, token, batch);
    }
    left.destroy_empty();
}
