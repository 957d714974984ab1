//! Allocators of the shared tree: making, pinning and closing them, and what is seen of them.
ghost use Rattle.std.specs.Prelude.{◌≡◌, ℕ, ◌+◌, ◌<◌, ◌≤◌, ◌↔◌, Err, IfOk, IfErr, IsOk, IsErr, OnOk, OnErr};
ghost use Rattle.mem_num.specs.declared.bounds.TheConstants.{MAX_LIMIT, MAX_RESERVATION, MOST_ALLOCATORS};
ghost use Rattle.mem_num.specs.declared.closed.Closed.{Closed};
ghost use Rattle.mem_num.specs.declared.full.Full.{Full};
ghost use Rattle.mem_buf.specs.Answers.{IsChildAnswer, IsPastLimit};
ghost use Rattle.mem_buf.specs.Chain.{MakesCall};
ghost use Rattle.mem_buf.specs.MemoryCall.{MemoryCall};
ghost use Rattle.mem_alloc.specs.Counts.{running_model};
ghost use Rattle.mem_alloc.specs.Pins.{HasMorePins};
ghost use Rattle.mem_alloc.specs.RunningToken.{pins_of, running_view};
ghost use Rattle.mem_alloc.specs.Tokens.{SpendsATurn};

use crate::token::Token;
use crate::tree::Tree;
use mem_num::{AllocId, ChildRefused, Closed, Node, NotClosed};
use std::sync::Wait;
use std::thread::yield_now;

impl Tree {
    /// Makes a child of an allocator, with a reservation and a limit in bytes. On Ok the token pins it. It is refused by its arguments
    /// first, which spends nothing, then as closed, then where no number is left, then as full. Else it spends a turn. After
    /// `BufferAllocator.newChildAllocator`.
    pub fn child<R: Wait>(
        &self,
        rt: &R,
        token: &mut Token,
        parent: AllocId,
        reservation: u64,
        limit: u64,
    ) -> Result<AllocId, ChildRefused>
        requires turn { 1 ≤ token.old.turns }
        requires reservation { reservation ≤ MAX_RESERVATION }
        requires limit { limit ≤ MAX_LIMIT }
        ensures above { result ≡ Err (ChildRefused.ReserveAboveLimit reservation limit) ↔ limit < reservation }
        ensures closed { (closed : Closed) → result ≡ Err (ChildRefused.Closed closed) → closed.node ≡ parent }
        ensures unpinned { (closed : Closed) → result ≡ Err (ChildRefused.Closed closed) → pins_of token.old parent.0 ≡ 0 }
        ensures nodes { (next : ℕ) → result ≡ Err (ChildRefused.Nodes next) → MOST_ALLOCATORS ≤ next }
        ensures full { (full : Full) → result ≡ Err (ChildRefused.Full full) → IsPastLimit (running_view token.old) full }
        ensures makes { MakesCall running_model (MemoryCall.Child parent reservation limit result) token.old token.new }
    {
        if reservation > limit {
            return Err(ChildRefused::ReserveAboveLimit { reservation, limit });
        }
        let answer = self.child_under_lock(rt, token, parent, reservation, limit);
        token.spend(0, 1);
        let made = answer?;
        token.add_pin(rt, made);
        Ok(made)
    }

    fn child_under_lock<R: Wait>(
        &self,
        rt: &R,
        token: &Token,
        parent: AllocId,
        reservation: u64,
        limit: u64,
    ) -> Result<AllocId, ChildRefused>
        requires reservation { reservation ≤ MAX_RESERVATION }
        requires limit { limit ≤ MAX_LIMIT }
        ensures answer { IsChildAnswer (running_view token.now) parent reservation limit result }
        ensures number { IfOk result (λ made. made.0 < MOST_ALLOCATORS) }
        ensures unpinned { (closed : Closed) → result ≡ Err (ChildRefused.Closed closed) → pins_of token.now parent.0 ≡ 0 }
    {
        for _ in rt.forever() {
            if let Some(answer) = self
                .locked
                .lock(rt)
                .child(rt, token, parent, reservation, limit)
            {
                return answer;
            }
            yield_now();
        }
        unreachable!()
    }

    /// Closes an allocator that nothing uses and nobody pins, this token included, and releases its reservation at its parent. After
    /// `BufferAllocator.close`, which throws where this refuses.
    pub fn close<R: Wait>(&self, rt: &R, token: &mut Token, at: AllocId) -> Result<(), NotClosed>
        ensures in_use { (uses : ℕ) → result ≡ Err (NotClosed.InUse uses) → 1 ≤ uses }
        ensures makes { MakesCall running_model (MemoryCall.Close at result) token.old token.new }
    {
        self.locked.lock(rt).close(rt, at)
    }

    /// Pins an allocator, which isn't closed while it is pinned.
    pub fn pin<R: Wait>(&self, rt: &R, token: &mut Token, at: AllocId) -> Result<(), Closed>
        requires turn { 1 ≤ token.old.turns }
        ensures closed { IfErr result (λ closed. closed.node ≡ at) }
        ensures unpinned { IsErr result → pins_of token.old at.0 ≡ 0 }
        ensures pinned { OnOk result (HasMorePins token.old.pins token.new.pins at 1) }
        ensures refused { OnErr result (token.new.pins ≡ token.old.pins) }
        ensures spends { SpendsATurn token.old token.new }
    {
        let answer = self.pin_under_lock(rt, token, at);
        token.spend(0, 1);
        answer?;
        token.add_pin(rt, at);
        Ok(())
    }

    fn pin_under_lock<R: Wait>(&self, rt: &R, token: &Token, at: AllocId) -> Result<(), Closed>
        ensures number { IsOk result → at.0 < MOST_ALLOCATORS }
        ensures closed { IfErr result (λ closed. closed.node ≡ at) }
        ensures unpinned { IsErr result → pins_of token.now at.0 ≡ 0 }
    {
        for _ in rt.forever() {
            if let Some(answer) = self.locked.lock(rt).pin(rt, token, at) {
                return answer;
            }
            yield_now();
        }
        unreachable!()
    }

    /// Gives a pin of the token back. It can't be refused.
    pub fn unpin<R: Wait>(&self, rt: &R, token: &mut Token, at: AllocId)
        requires pinned { 1 ≤ pins_of token.old at.0 }
        ensures less { HasMorePins token.new.pins token.old.pins at 1 }
        ensures makes { MakesCall running_model (MemoryCall.Unpin at) token.old token.new }
    {
        token.drop_pin(at);
        self.locked.lock(rt).unpin(at);
    }

    /// The numbers of an allocator at some moment, its pins among its uses; those of a closed one of zeros where it isn't made.
    pub fn look<R: Wait>(&self, rt: &R, token: &mut Token, at: AllocId) -> Node
        ensures token { token.new ≡ token.old }
    {
        self.locked.lock(rt).look(rt, at)
    }

    /// How many bytes more an allocator could be given at some moment. After `BaseAllocator.getHeadroom`.
    pub fn headroom<R: Wait>(&self, rt: &R, token: &mut Token, at: AllocId) -> Result<i128, Closed>
        ensures closed { IfErr result (λ closed. closed.node ≡ at) }
        ensures unpinned { IsErr result → pins_of token.old at.0 ≡ 0 }
        ensures token { token.new ≡ token.old }
    {
        for _ in rt.forever() {
            if let Some(answer) = self.locked.lock(rt).headroom(token, at) {
                return answer;
            }
            yield_now();
        }
        unreachable!()
    }

    /// Whether an allocator or one above it held more than its limit at some moment. After `BaseAllocator.isOverLimit`.
    pub fn over_limit<R: Wait>(
        &self,
        rt: &R,
        token: &mut Token,
        at: AllocId,
    ) -> Result<bool, Closed>
        ensures closed { IfErr result (λ closed. closed.node ≡ at) }
        ensures unpinned { IsErr result → pins_of token.old at.0 ≡ 0 }
        ensures token { token.new ≡ token.old }
    {
        for _ in rt.forever() {
            if let Some(answer) = self.locked.lock(rt).over_limit(token, at) {
                return answer;
            }
            yield_now();
        }
        unreachable!()
    }
}
