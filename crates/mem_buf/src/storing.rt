//! Storing lists of bytes in buffers.
ghost use Rattle.std.specs.Prelude.{◌≡◌, map, length, IfOk};
ghost use Rattle.mem_buf.specs.Callers.{CanPay};
ghost use Rattle.mem_buf.specs.Chain.{Runs};
ghost use Rattle.mem_buf.specs.Storing.{IsStoreAll};
ghost use Rattle.mem_buf.specs.View.{bytes_in};

use crate::arrow_buf::ArrowBuf;
use crate::giving_back::give_back;
use crate::memory::Memory;
use crate::store::store_vec;
use mem_num::{AllocId, BufferRefused};
use std::alloc::Global;

/// Stores the bytes of each vector in a buffer of its own, in order, as `store_vec` does. Where one is refused, those before it are
/// given back.
pub fn store_vecs<M: Memory>(
    alloc: Global,
    mem: &M,
    token: &mut M::Token,
    at: AllocId,
    inputs: Vec<Vec<u8>>,
) -> Result<Vec<ArrowBuf<M::Hold>>, BufferRefused>
    requires budget { CanPay (M.model.view token.old) at (map length (map (λ input. input.items) inputs.items)) }
    ensures stored { IfOk result (λ bufs. map (λ buf. bytes_in buf.view) bufs.items ≡ map (λ input. input.items) inputs.items) }
    ensures calls { Runs M.model (IsStoreAll M.model.reference (M.model.view token.old) at
        (map length (map (λ input. input.items) inputs.items)) result) token.old token.new }
{
    let Ok(mut bufs) = Vec::with_capacity(alloc, inputs.len()) else {
        return Err(BufferRefused::NoMemory);
    };
    for input in inputs {
        match store_vec(alloc, mem, token, at, input) {
            Ok(buf) => bufs.push_reserved(buf),
            Err(refused) => {
                give_back(mem, token, bufs);
                return Err(refused);
            }
        }
    }
    Ok(bufs)
}
