//! The shared tree as a memory.

use crate::hold::Hold;
use crate::token::Token;
use crate::tree::Tree;
use mem_buf::Memory;
use mem_num::{AllocId, BufferRefused, ChildRefused, NotClosed, Ref, RefRefused};
use std::sync::Wait;

/// The tree that threads share, with the runtime by which they wait for its lock.
#[derive(Drop)]
pub struct Running<'a, R> {
    pub tree: &'a Tree,
    pub rt: &'a R,
}

impl<'a, R: Wait> Memory for Running<'a, R> {
    type Token = Token;

    type Hold = Hold;

    ghost use Rattle.mem_alloc.specs.Counts.{running_model};

    ghost model = { running_model };

    fn child(
        &self,
        token: &mut Token,
        parent: AllocId,
        reservation: u64,
        limit: u64,
    ) -> Result<AllocId, ChildRefused> {
        self.tree.child(self.rt, token, parent, reservation, limit)
    }

    fn unpin(&self, token: &mut Token, at: AllocId) {
        self.tree.unpin(self.rt, token, at);
    }

    fn close(&self, token: &mut Token, at: AllocId) -> Result<(), NotClosed> {
        self.tree.close(self.rt, token, at)
    }

    fn grant(&self, token: &mut Token, at: AllocId, request: u64) -> Result<Hold, BufferRefused> {
        self.tree.grant(self.rt, token, at, request)
    }

    fn retain(
        &self,
        token: &mut Token,
        of: &mut Hold,
        target: AllocId,
    ) -> Result<Hold, RefRefused> {
        self.tree.retain(self.rt, token, of, target)
    }

    fn transfer(
        &self,
        token: &mut Token,
        of: &mut Hold,
        target: AllocId,
    ) -> Result<(Hold, bool), RefRefused> {
        self.tree.transfer(self.rt, token, of, target)
    }

    fn release(&self, token: &mut Token, of: Hold) -> bool {
        self.tree.release(self.rt, token, of)
    }

    fn name_of(&self, of: &Hold) -> Ref {
        of.name()
    }
}
