//! Storing bytes in a buffer.
ghost use Rattle.std.specs.Prelude.{◌≡◌, ◌≤◌, length, IfOk, IfErr};
ghost use Rattle.mem_buf.specs.TokenView.{CanName, size_for, bytes_for, turns_for};
ghost use Rattle.mem_buf.specs.MemoryCall.{named};
ghost use Rattle.mem_buf.specs.Answers.{IsGrantRefusal};
ghost use Rattle.mem_buf.specs.Chain.{Runs};
ghost use Rattle.mem_buf.specs.Callers.{IsStore};
ghost use Rattle.mem_buf.specs.View.{bytes_in};

use crate::arrow_buf::ArrowBuf;
use crate::memory::Memory;
use crate::view::View;
use mem_num::{AllocId, BufferRefused, Rounding, rounded};
use std::alloc::{AllocError, Global};
use std::sync::Arc;

/// Asks for a buffer for some bytes and stores them there, which copies them once. It is refused as too large first; then the bytes
/// are copied, and then the memory is asked. A copy that finds no memory leaves the token and the tree as they were.
pub fn store_bytes<M: Memory>(
    alloc: Global,
    mem: &M,
    token: &mut M::Token,
    at: AllocId,
    bytes: &[u8],
) -> Result<ArrowBuf<M::Hold>, BufferRefused>
    requires named { CanName (M.model.view token.old) at }
    requires bytes { bytes_for (M.model.view token.old) at (length bytes.now) ≤ (M.model.view token.old).bytes }
    requires turn { turns_for (M.model.view token.old) at (length bytes.now) ≤ (M.model.view token.old).turns }
    ensures stored { IfOk result (λ buf. bytes_in buf.view ≡ bytes.now) }
    ensures refused { IfErr result (IsGrantRefusal (M.model.view token.old) at (length bytes.now)
        (size_for (M.model.view token.old) at (length bytes.now))) }
    ensures calls { Runs M.model (IsStore at (length bytes.now) (size_for (M.model.view token.old) at (length bytes.now))
        (named (λ buf. M.model.reference buf.hold) result)) token.old token.new }
{
    rounded(Rounding::Power, bytes.len() as u64)?;
    let Ok(copy) = bytes.to_vec(alloc) else {
        return Err(BufferRefused::NoMemory);
    };
    store_vec(alloc, mem, token, at, copy)
}

/// Asks for a buffer for the bytes of a vector, which becomes the buffer's: nothing is copied. It is refused as too large first, and
/// then the memory is asked. A buffer that finds no memory leaves the token and the tree as they were.
pub fn store_vec<M: Memory>(
    alloc: Global,
    mem: &M,
    token: &mut M::Token,
    at: AllocId,
    bytes: Vec<u8>,
) -> Result<ArrowBuf<M::Hold>, BufferRefused>
    requires named { CanName (M.model.view token.old) at }
    requires bytes { bytes_for (M.model.view token.old) at (length bytes.items) ≤ (M.model.view token.old).bytes }
    requires turn { turns_for (M.model.view token.old) at (length bytes.items) ≤ (M.model.view token.old).turns }
    ensures stored { IfOk result (λ buf. bytes_in buf.view ≡ bytes.items) }
    ensures refused { IfErr result (IsGrantRefusal (M.model.view token.old) at (length bytes.items)
        (size_for (M.model.view token.old) at (length bytes.items))) }
    ensures calls { Runs M.model (IsStore at (length bytes.items) (size_for (M.model.view token.old) at (length bytes.items))
        (named (λ buf. M.model.reference buf.hold) result)) token.old token.new }
{
    let len = bytes.len() as u64;
    rounded(Rounding::Power, len)?;
    let Ok(view) = whole(alloc, bytes) else {
        return Err(BufferRefused::NoMemory);
    };
    match mem.grant(token, at, len) {
        Ok(hold) => Ok(ArrowBuf { hold, view }),
        Err(refused) => Err(refused),
    }
}

// A view of all bytes of a vector.
fn whole(alloc: Global, bytes: Vec<u8>) -> Result<View, AllocError>
    ensures value { IfOk result (λ view. bytes_in view ≡ bytes.items) }
{
    let len = bytes.len() as u64;
    let bytes = Arc::new(alloc, bytes)?;
    Ok(View {
        from: 0,
        len,
        bytes,
    })
}
