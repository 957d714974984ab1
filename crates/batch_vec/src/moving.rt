//! Moving a batch to another allocator.
ghost use Rattle.std.specs.Prelude.{◌≡◌, ◌≤◌, map, IfOk};
ghost use Rattle.mem_buf.specs.Callers.{CanShare};
ghost use Rattle.mem_buf.specs.Chain.{Runs};
ghost use Rattle.batch_vec.specs.Moving.{IsMoveBatch};

use crate::batch::Batch;
use mem_buf::{Memory, move_buffers};
use mem_num::{AllocId, NoMemory, RefRefused};
use std::alloc::Global;

/// Moves the buffers of a batch to an allocator, in order: each is transferred, and its source's hold is released. No byte is copied.
/// Where one finds no memory, all are given back. After `TransferPair.transfer`.
pub fn move_batch<M: Memory>(
    alloc: Global,
    mem: &M,
    token: &mut M::Token,
    at: AllocId,
    batch: Batch<M::Hold>,
) -> Result<Batch<M::Hold>, NoMemory>
    requires pinned { 1 ≤ (M.model.view token.old).pins at.0 }
    requires budget { CanShare (M.model.view token.old) at (map M.model.reference batch.holds) }

    // The rows stay as they are.
    ensures kinds { IfOk result (λ moved. moved.kinds ≡ batch.kinds) }
    ensures rows { IfOk result (λ moved. moved.rows ≡ batch.rows) }
    ensures calls { Runs M.model (IsMoveBatch M.model.reference at batch.holds result) token.old token.new }
{
    let Batch {
        count,
        kinds,
        buffers,
    } = batch;
    match move_buffers(alloc, mem, token, at, buffers) {
        Ok(buffers) => Ok(Batch {
            count,
            kinds,
            buffers,
        }),
        Err(RefRefused::Closed(_)) => Err(NoMemory),
        Err(RefRefused::NoMemory) => Err(NoMemory),
    }
}
