//! The tree of one thread as a memory.

mod laws;
mod told;

use crate::solo_tree::{SoloTree, every_tree_counts_its_calls, every_tree_is_lawful};
pub use laws::{
    calls_of_one_thread_are_calls_of_its_tree, calls_that_were_planned_leave_what_the_plan_leaves,
};
use mem_buf::Memory;
use mem_num::{AllocId, BufferRefused, ChildRefused, NotClosed, Ref, RefRefused};
use told::{empty_buffer, further, gone, moved};

/// The memory of one thread, whose token is the tree. It shows bytes that never fall, a turn for each call that may still be counted, and
/// its open allocators as pins. A call on a reference that was given back changes nothing: it gets the empty buffer, or `false`.
#[derive(Clone, Copy, Debug, PartialEq, Eq)]
pub struct Solo;

impl Memory for Solo {
    type Token = SoloTree;

    type Hold = Ref;

    ghost use Rattle.alloc_tree.specs.SoloMeaning.{solo_model};

    ghost model = { solo_model };

    fn child(
        &self,
        token: &mut SoloTree,
        parent: AllocId,
        reservation: u64,
        limit: u64,
    ) -> Result<AllocId, ChildRefused> {
        every_tree_is_lawful(token);
        every_tree_counts_its_calls(token);
        token.child(parent, reservation, limit)
    }

    fn unpin(&self, _token: &mut SoloTree, _at: AllocId) {}

    fn close(&self, token: &mut SoloTree, at: AllocId) -> Result<(), NotClosed> {
        every_tree_is_lawful(token);
        token.close(at)
    }

    fn grant(&self, token: &mut SoloTree, at: AllocId, request: u64) -> Result<Ref, BufferRefused> {
        every_tree_is_lawful(token);
        every_tree_counts_its_calls(token);
        token.grant(at, request)
    }

    fn retain(
        &self,
        token: &mut SoloTree,
        of: &mut Ref,
        target: AllocId,
    ) -> Result<Ref, RefRefused> {
        every_tree_is_lawful(token);
        every_tree_counts_its_calls(token);
        if of.chunk == 0 {
            return Ok(empty_buffer(target));
        }
        further(target, token.retain(*of, target))
    }

    fn transfer(
        &self,
        token: &mut SoloTree,
        of: &mut Ref,
        target: AllocId,
    ) -> Result<(Ref, bool), RefRefused> {
        every_tree_is_lawful(token);
        every_tree_counts_its_calls(token);
        if of.chunk == 0 {
            return Ok((empty_buffer(target), true));
        }
        moved(target, token.transfer(*of, target))
    }

    fn release(&self, token: &mut SoloTree, of: Ref) -> bool {
        every_tree_is_lawful(token);
        if of.chunk == 0 {
            return false;
        }
        gone(token.release(of))
    }

    fn name_of(&self, of: &Ref) -> Ref {
        *of
    }
}

#[cfg(test)]
mod tests;
