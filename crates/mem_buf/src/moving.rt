//! Moving buffers to another allocator.
ghost use Rattle.std.specs.Prelude.{◌≡◌, [], ◌∷◌, map, IfOk};
ghost use Rattle.mem_buf.specs.Callers.{CanShare};
ghost use Rattle.mem_buf.specs.Chain.{Runs};
ghost use Rattle.mem_buf.specs.Moving.{IsMoveAll, IsMoveOne};

use crate::arrow_buf::ArrowBuf;
use crate::giving_back::{give_back, give_back_rest};
use crate::memory::Memory;
use mem_num::{AllocId, RefRefused};
use std::alloc::Global;

/// Moves each buffer to the target, in order: it is transferred, and its source's hold is released. No byte is copied. Where one is
/// refused, those that are left and those that were moved are given back. After `TransferPair.transfer`.
pub fn move_buffers<M: Memory>(
    alloc: Global,
    mem: &M,
    token: &mut M::Token,
    target: AllocId,
    bufs: Vec<ArrowBuf<M::Hold>>,
) -> Result<Vec<ArrowBuf<M::Hold>>, RefRefused>
    requires budget { CanShare (M.model.view token.old) target (map (λ buf. M.model.reference buf.hold) bufs.items) }
    ensures views { IfOk result (λ moved. map (λ buf. buf.view) moved.items ≡ map (λ buf. buf.view) bufs.items) }
    ensures calls { Runs M.model (IsMoveAll M.model.reference target (map (λ buf. M.model.reference buf.hold) bufs.items) result)
        token.old token.new }
{
    let Ok(mut moved) = Vec::with_capacity(alloc, bufs.len()) else {
        give_back(mem, token, bufs);
        return Err(RefRefused::NoMemory);
    };
    let mut left = bufs.into_iter();
    while let Some(buf) = left.next() {
        match move_one(mem, token, target, buf) {
            Ok(buf) => moved.push_reserved(buf),
            Err((buf, refused)) => {
                let ArrowBuf { hold, view: _ } = buf;
                let _ = mem.release(token, hold);
                give_back_rest(mem, token, left);
                give_back(mem, token, moved);
                return Err(refused);
            }
        }
    }
    left.destroy_empty();
    Ok(moved)
}

// Transfers a buffer and releases its source. One that isn't moved comes back.
fn move_one<M: Memory>(
    mem: &M,
    token: &mut M::Token,
    target: AllocId,
    buf: ArrowBuf<M::Hold>,
) -> Result<ArrowBuf<M::Hold>, (ArrowBuf<M::Hold>, RefRefused)>
    requires budget { CanShare (M.model.view token.old) target (M.model.reference buf.hold ∷ []) }
    ensures calls { Runs M.model (IsMoveOne M.model.reference target buf result) token.old token.new }
{
    let ArrowBuf { mut hold, view } = buf;
    match mem.transfer(token, &mut hold, target) {
        Ok((moved, _)) => {
            let _ = mem.release(token, hold);
            Ok(ArrowBuf { hold: moved, view })
        }
        Err(refused) => Err((ArrowBuf { hold, view }, refused)),
    }
}
