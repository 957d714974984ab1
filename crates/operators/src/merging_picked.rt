//! Moving the batches of a selection to its result.
ghost use Rattle.std.specs.Prelude.{◌≡◌, ◌≤◌, map, IfOk};
ghost use Rattle.mem_buf.specs.Callers.{CanShare};
ghost use Rattle.mem_buf.specs.Chain.{Runs};
ghost use Rattle.operators.specs.Instead.{references_of};
ghost use Rattle.operators.specs.Moving.{IsMergePicked};

use crate::storing_instead::{release_batches, release_left};
use batch_vec::{Batch, move_batch};
use mem_buf::Memory;
use mem_num::{AllocId, NoMemory};
use std::alloc::Global;

/// Moves batches to an allocator, one after the other: each buffer is transferred, and its source's hold is released. Where memory
/// runs out, all are given back.
pub fn merge_picked<M: Memory>(
    alloc: Global,
    mem: &M,
    token: &mut M::Token,
    at: AllocId,
    input: Vec<Batch<M::Hold>>,
) -> Result<Vec<Batch<M::Hold>>, NoMemory>
    requires pinned { 1 ≤ (M.model.view token.old).pins at.0 }
    requires budget { CanShare (M.model.view token.old) at (references_of M.model.reference input.items) }

    // The batches stay as they are, in their order.
    ensures kinds { IfOk result (λ moved. map (λ batch. batch.kinds) moved.items ≡ map (λ batch. batch.kinds) input.items) }
    ensures rows { IfOk result (λ moved. map (λ batch. batch.rows) moved.items ≡ map (λ batch. batch.rows) input.items) }
    ensures calls { Runs M.model (IsMergePicked M.model.reference at (references_of M.model.reference input.items) result)
        token.old token.new }
{
    let Ok(mut moved) = Vec::with_capacity(alloc, input.len()) else {
        release_batches(mem, token, input);
        return Err(NoMemory);
    };
    let mut left = input.into_iter();
    while let Some(batch) = left.next() {
        match move_batch(alloc, mem, token, at, batch) {
            Ok(batch) => moved.push_reserved(batch),
            Err(NoMemory) => {
                release_left(mem, token, left);
                release_batches(mem, token, moved);
                return Err(NoMemory);
            }
        }
    }
    left.destroy_empty();
    Ok(moved)
}
