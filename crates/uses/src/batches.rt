//! Batches: rows pass through buffers of any memory.
ghost use Rattle.std.specs.Prelude.{◌≡◌, ◌≤◌, ◌<◌, ◌∷◌, [], All, IfOk, length, map};
ghost use Rattle.mem_num.specs.declared.bounds.TheConstants.{LARGEST};
ghost use Rattle.mem_buf.specs.Callers.{CanPay, CanShare};
ghost use Rattle.query_model.specs.Answer.{picked};
ghost use Rattle.query_model.specs.Buffers.{buffer_lengths};
ghost use Rattle.query_model.specs.Requests.{picked_kinds};
ghost use Rattle.batch_vec.specs.Moving.{of_columns};

use batch_vec::{Batch, OpRefused, release_batch, rows_of, store_rows};
use mem_buf::Memory;
use mem_num::{AllocId, NoMemory};
use operators::project;
use row_text::{Rows, RowsSlice};
use std::alloc::Global;

/// Stores rows at an allocator, reads them back from the buffers, and gives these back.
///
/// Shows `kinds` and `rows` of `store_rows` and of `rows_of`: over every memory, what comes back is what was stored.
pub fn pass_through<M: Memory>(
    alloc: Global,
    mem: &M,
    token: &mut M::Token,
    at: AllocId,
    rows: &RowsSlice<'_>,
) -> Result<Rows, OpRefused>
    requires pinned { 1 ≤ (M.model.view token.old).pins at.0 }
    requires sized { All (λ length. length ≤ LARGEST) (buffer_lengths rows.now.kinds rows.now.rows) }
    requires budget { CanPay (M.model.view token.old) at (buffer_lengths rows.now.kinds rows.now.rows) }
    ensures same { IfOk result (λ again. again ≡ rows.now) }
{
    let batch = match store_rows(alloc, mem, token, at, rows) {
        Ok(batch) => batch,
        Err(refused) => return Err(refused),
    };
    let again = rows_of(alloc, &batch);
    release_batch(mem, token, batch);
    match again {
        Ok(rows) => Ok(rows),
        Err(NoMemory) => Err(OpRefused::NoMemory),
    }
}

/// Passes one column of a batch to an allocator without a copy, and gives the others back.
///
/// Shows `kinds` and `rows` of `project`: the column's rows stay as they are.
#[tactic(auto, unfolding(query_model::specs::Fit::are_different))]
pub fn pass_column<M: Memory>(
    alloc: Global,
    mem: &M,
    token: &mut M::Token,
    at: AllocId,
    column: u32,
    input: Batch<M::Hold>,
) -> Result<Batch<M::Hold>, NoMemory>
    requires pinned { 1 ≤ (M.model.view token.old).pins at.0 }
    requires within { column < length input.kinds }
    requires budget { CanShare (M.model.view token.old) at (of_columns (map M.model.reference input.holds) (column ∷ [])) }
    ensures kinds { IfOk result (λ batch. batch.kinds ≡ picked_kinds input.kinds (column ∷ [])) }
    ensures rows { IfOk result (λ batch. batch.rows ≡ map (picked (column ∷ [])) input.rows) }
{
    project(alloc, mem, token, at, &[column], input)
}
