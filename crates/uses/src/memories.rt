//! Memories: lists of bytes are stored in buffers of any memory, and all that was stored is given back on a refusal.
ghost use Rattle.std.specs.Prelude.{◌≡◌, ◌≢◌, map, length, Err, IfOk};
ghost use Rattle.mem_buf.specs.Callers.{CanPay};
ghost use Rattle.mem_buf.specs.Chain.{Runs};
ghost use Rattle.mem_buf.specs.View.{bytes_in};
ghost use Rattle.mem_buf.specs.Storing.{IsStoreAll};
ghost use Rattle.uses.specs.TreeStoring.{LeavesStored};

use alloc_tree::{Solo, SoloTree, calls_of_one_thread_are_calls_of_its_tree};
use mem_buf::{ArrowBuf, Memory, give_back, store_bytes};
use mem_num::{AllocId, BufferRefused, Ref};
use std::alloc::Global;

/// Stores each of some lists of bytes in a buffer of its own, in order. Where one is refused, those before it are given back.
///
/// Shows `calls` of `store_bytes` and `give_back`: over every memory, the calls that were made are just the requests and, after a
/// refusal, the releases. Each call's budget follows from that of all (`CanPay`).
pub fn store_all<M: Memory>(
    alloc: Global,
    mem: &M,
    token: &mut M::Token,
    at: AllocId,
    inputs: &[Vec<u8>],
) -> Result<Vec<ArrowBuf<M::Hold>>, BufferRefused>
    requires budget { CanPay (M.model.view token.old) at (map length (map (λ input. input.items) inputs.now)) }
    ensures stored { IfOk result (λ bufs. map (λ buf. bytes_in buf.view) bufs.items ≡ map (λ input. input.items) inputs.now) }
    ensures calls { Runs M.model (IsStoreAll M.model.reference (M.model.view token.old) at
        (map length (map (λ input. input.items) inputs.now)) result) token.old token.new }
{
    let Ok(mut bufs) = Vec::with_capacity(alloc, inputs.len()) else {
        return Err(BufferRefused::NoMemory);
    };
    for input in inputs {
        match store_bytes(alloc, mem, token, at, input.as_slice()) {
            Ok(buf) => bufs.push_reserved(buf),
            Err(refused) => {
                give_back(mem, token, bufs);
                return Err(refused);
            }
        }
    }
    Ok(bufs)
}

/// How many lists `store_in_tree` takes at most.
const MOST_LISTS: u32 = 65_536;

/// The same over the tree of one thread, for at most 65,536 lists. More of them, and a tree that has fewer calls left, are answered
/// as want of memory.
///
/// Shows the law `calls_of_one_thread_are_calls_of_its_tree`: what a caller over every memory does is known here to the last number,
/// since the tree is left in the state after just the listed calls.
pub fn store_in_tree(
    alloc: Global,
    tree: &mut SoloTree,
    at: AllocId,
    inputs: &[Vec<u8>],
) -> Result<Vec<ArrowBuf<Ref>>, BufferRefused>
    ensures stored { IfOk result (λ bufs. map (λ buf. bytes_in buf.view) bufs.items ≡ map (λ input. input.items) inputs.now) }
    ensures after { result ≢ Err BufferRefused.NoMemory → LeavesStored tree.old tree.new at
        (map length (map (λ input. input.items) inputs.now)) result }
{
    if inputs.len() > MOST_LISTS as usize || tree.calls() >= u32::MAX - MOST_LISTS {
        return Err(BufferRefused::NoMemory);
    }
    calls_of_one_thread_are_calls_of_its_tree();
    store_all(alloc, &Solo, tree, at, inputs)
}

#[cfg(test)]
mod tests {
    use super::*;
    use mem_num::Full;
    use std::alloc::AllocGlobal;
    use std::process::Abort;
    use std::test::Fail;

    const ROOT: AllocId = AllocId::ROOT;

    fn inputs(rt: &impl AllocGlobal) -> Result<Vec<Vec<u8>>, Fail> {
        let mut inputs = Vec::new(rt.alloc());
        for input in [b"one".as_slice(), b"", b"three"] {
            inputs.push(input.to_vec(rt.alloc())?)?;
        }
        Ok(inputs)
    }

    fn open(rt: &(impl Abort + AllocGlobal), limit: u64) -> Result<SoloTree, Fail> {
        assert!(rt; limit <= 1_024);
        match SoloTree::open(rt.alloc(), limit) {
            Ok(tree) => Ok(tree),
            Err(_) => panic!(rt; "no memory"),
        }
    }

    #[test]
    fn each_list_has_a_buffer_of_its_own(rt: HostRuntime) -> Result<(), Fail> {
        let mut tree = open(&rt, 1_024)?;
        match store_in_tree(rt.alloc(), &mut tree, ROOT, &inputs(&rt)?) {
            Ok(bufs) => {
                assert_eq!(rt; bufs.len(), 3);
                for (buf, bytes) in bufs.iter().zip([b"one".as_slice(), b"", b"three"]) {
                    assert_eq!(rt; buf.view.bytes(), bytes);
                }
                give_back(&Solo, &mut tree, bufs);
            }
            Err(_) => panic!(rt; "refused"),
        }
        assert_eq!(rt; tree.drawn(), 2);
        assert_eq!(rt; tree.chunks().count(), 0);
        Ok(())
    }

    #[test]
    fn a_refusal_gives_back_what_was_stored(rt: HostRuntime) -> Result<(), Fail> {
        let mut tree = open(&rt, 8)?;
        match store_in_tree(rt.alloc(), &mut tree, ROOT, &inputs(&rt)?) {
            Ok(_) => panic!(rt; "granted"),
            Err(refused) => {
                let full = Full {
                    node: ROOT,
                    held: 4,
                    amount: 8,
                    limit: 8,
                    local: true,
                };
                assert_eq!(rt; refused, BufferRefused::Full(full));
            }
        }
        assert_eq!(rt; tree.chunks().count(), 0);
        Ok(())
    }
}
