//! Picking columns out of a batch.
ghost use Rattle.std.specs.Prelude.{◌≡◌, ◌≤◌, ◌<◌, true, nat_eq, length, map, All, IfOk};
ghost use Rattle.mem_buf.specs.Callers.{CanShare};
ghost use Rattle.mem_buf.specs.Chain.{Runs};
ghost use Rattle.query_model.specs.Answer.{picked};
ghost use Rattle.query_model.specs.Fit.{are_different};
ghost use Rattle.query_model.specs.Requests.{picked_kinds};
ghost use Rattle.batch_vec.specs.Moving.{of_columns};
ghost use Rattle.operators.specs.Moving.{IsProject};

use batch_vec::{Batch, Picked, move_batch, pick_columns, release_batch};
use mem_buf::{Memory, give_back};
use mem_num::{AllocId, NoMemory};
use std::alloc::Global;

/// Moves the picked columns of a batch to an allocator, in the order of the picks, and gives the others back. No byte is copied and no
/// buffer is asked for. Where memory runs out, all columns are given back.
pub fn project<M: Memory>(
    alloc: Global,
    mem: &M,
    token: &mut M::Token,
    at: AllocId,
    picks: &[u32],
    input: Batch<M::Hold>,
) -> Result<Batch<M::Hold>, NoMemory>
    requires pinned { 1 ≤ (M.model.view token.old).pins at.0 }
    requires within { All (λ pick. pick < length input.kinds) picks.now }
    requires different { are_different nat_eq picks.now ≡ true }
    requires budget { CanShare (M.model.view token.old) at (of_columns (map M.model.reference input.holds) picks.now) }

    // The picked columns of the same rows.
    ensures kinds { IfOk result (λ batch. batch.kinds ≡ picked_kinds input.kinds picks.now) }
    ensures rows { IfOk result (λ batch. batch.rows ≡ map (picked picks.now) input.rows) }
    ensures calls { Runs M.model (IsProject M.model.reference at (length input.kinds) picks.now (map M.model.reference input.holds) result)
        token.old token.new }
{
    match pick_columns(alloc, picks, input) {
        Ok(Picked { batch, rest }) => {
            let moved = move_batch(alloc, mem, token, at, batch);
            give_back(mem, token, rest);
            moved
        }
        Err(input) => {
            release_batch(mem, token, input);
            Err(NoMemory)
        }
    }
}
