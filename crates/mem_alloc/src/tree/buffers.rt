//! Buffers of the shared tree: asking for one, sharing it, and giving it back.
ghost use Rattle.std.specs.Prelude.{◌≡◌, ◌≢◌, ◌<◌, ◌≤◌, ◌↔◌, true, false, Err, IfOk, IsOk};
ghost use Rattle.mem_num.specs.declared.bounds.TheConstants.{LARGEST};
ghost use Rattle.mem_num.specs.declared.closed.Closed.{Closed};
ghost use Rattle.mem_num.specs.declared.full.Full.{Full};
ghost use Rattle.mem_buf.specs.Answers.{IsFurther, IsGranted, IsGrantAnswer, IsPastLimit, IsRetainAnswer, IsTransferAnswer};
ghost use Rattle.mem_buf.specs.Chain.{MakesCall};
ghost use Rattle.mem_buf.specs.MemoryCall.{MemoryCall, named, named_fit};
ghost use Rattle.mem_buf.specs.TokenView.{bytes_for, is_empty, size_for, turns_for, turns_to_share};
ghost use Rattle.mem_alloc.specs.Counts.{running_model};
ghost use Rattle.mem_alloc.specs.RunningToken.{pins_of, running_view};

use crate::hold::Hold;
use crate::token::Token;
use crate::tree::Tree;
use mem_num::{AllocId, BufferRefused, Ref, RefRefused, Rounding, rounded};
use std::sync::Wait;
use std::thread::yield_now;

// The reference of the empty buffer at an allocator.
fn empty_buffer(at: AllocId) -> Ref
    ensures value { result ≡ record { chunk = 0; alloc = at; size = 0 } }
{
    Ref {
        chunk: 0,
        alloc: at,
        size: 0,
    }
}

// The reference of a target to the chunk of another, where one was given; else to the empty buffer.
fn further(of: Ref, target: AllocId, given: Ref) -> Ref
    requires given { IsFurther of target given }
    ensures further { IsFurther of target result }
    ensures size { is_empty result ≡ false → result.size ≡ of.size }
{
    if given.chunk == 0 {
        return empty_buffer(target);
    }
    Ref {
        alloc: target,
        ..of
    }
}

impl Tree {
    /// Asks for a buffer of some bytes at an allocator. It is refused as too large first, then as closed, then as full. Spends a turn and
    /// the rounded bytes also where it is refused, but as too large. After `BufferAllocator.buffer`.
    pub fn grant<R: Wait>(
        &self,
        rt: &R,
        token: &mut Token,
        at: AllocId,
        request: u64,
    ) -> Result<Hold, BufferRefused>
        requires bytes { bytes_for (running_view token.old) at request ≤ token.old.bytes }
        requires turn { turns_for (running_view token.old) at request ≤ token.old.turns }
        ensures granted { IfOk result (IsGranted at (size_for (running_view token.old) at request)) }
        ensures too_large { result ≢ Err BufferRefused.NoMemory
            → (result ≡ Err (BufferRefused.TooLarge (record { request = request }))
            ↔ LARGEST < size_for (running_view token.old) at request) }
        ensures closed { (closed : Closed) → result ≡ Err (BufferRefused.Closed closed) → closed.node ≡ at }
        ensures unpinned { (closed : Closed) → result ≡ Err (BufferRefused.Closed closed) → pins_of token.old at.0 ≡ 0 }
        ensures full { (full : Full) → result ≡ Err (BufferRefused.Full full) → IsPastLimit (running_view token.old) full }
        ensures makes { MakesCall running_model (MemoryCall.Grant at request (named (λ hold. hold) result)) token.old token.new }
    {
        let size = rounded(Rounding::Power, request)?;
        let answer = self.grant_under_lock(rt, token, at, request);
        token.spend(size, u64::from(size > 0));
        let of = answer?;
        token.take(rt, of);
        Ok(Hold::new(of))
    }

    fn grant_under_lock<R: Wait>(
        &self,
        rt: &R,
        token: &Token,
        at: AllocId,
        request: u64,
    ) -> Result<Ref, BufferRefused>
        ensures answer { IsGrantAnswer (running_view token.now) at request (size_for (running_view token.now) at request)
            (named (λ hold. hold) result) }
    {
        for _ in rt.forever() {
            if let Some(answer) = self.locked.lock(rt).grant(token, at, request) {
                return answer;
            }
            yield_now();
        }
        unreachable!()
    }

    /// Refers to the chunk of a hold from the target too, and moves no charge. A further hold of the empty buffer is never refused and
    /// spends nothing; else it spends a turn. After `BufferLedger.retain`.
    pub fn retain<R: Wait>(
        &self,
        rt: &R,
        token: &mut Token,
        of: &mut Hold,
        target: AllocId,
    ) -> Result<Hold, RefRefused>
        requires turn { turns_to_share of.old ≤ token.old.turns }
        ensures same { of.new ≡ of.old }
        ensures further { IfOk result (IsFurther of.old target) }
        ensures size { IfOk result (λ hold. is_empty hold ≡ false → hold.size ≡ of.old.size) }
        ensures empty { is_empty of.old ≡ true → IsOk result }
        ensures closed { (closed : Closed) → result ≡ Err (RefRefused.Closed closed) → closed.node ≡ target }
        ensures unpinned { (closed : Closed) → result ≡ Err (RefRefused.Closed closed) → pins_of token.old target.0 ≡ 0 }
        ensures makes { MakesCall running_model (MemoryCall.Retain of.old target (named (λ hold. hold) result)) token.old token.new }
    {
        let name = of.name();
        if name.chunk == 0 {
            return Ok(Hold::new(empty_buffer(target)));
        }
        let answer = self.retain_under_lock(rt, token, name, target);
        token.spend(0, 1);
        let given = further(name, target, answer?);
        token.take(rt, given);
        Ok(Hold::new(given))
    }

    fn retain_under_lock<R: Wait>(
        &self,
        rt: &R,
        token: &Token,
        of: Ref,
        target: AllocId,
    ) -> Result<Ref, RefRefused>
        ensures answer { IsRetainAnswer (running_view token.now) of target (named (λ hold. hold) result) }
    {
        for _ in rt.forever() {
            if let Some(answer) = self.locked.lock(rt).retain(token, of, target) {
                return answer;
            }
            yield_now();
        }
        unreachable!()
    }

    /// Refers to the chunk of a hold from the target too, charges the target from then on where the source was charged, and tells
    /// whether every level was within its limit. The source's hold stays and is still to be released. Refuses and spends as `retain`
    /// does. After `BufferLedger.transferOwnership`.
    pub fn transfer<R: Wait>(
        &self,
        rt: &R,
        token: &mut Token,
        of: &mut Hold,
        target: AllocId,
    ) -> Result<(Hold, bool), RefRefused>
        requires turn { turns_to_share of.old ≤ token.old.turns }
        ensures same { of.new ≡ of.old }
        ensures further { IfOk result (λ moved. IsFurther of.old target moved.0) }
        ensures size { IfOk result (λ moved. is_empty moved.0 ≡ false → moved.0.size ≡ of.old.size) }
        ensures empty { is_empty of.old ≡ true → IsOk result }
        ensures fits { is_empty of.old ≡ true → IfOk result (λ moved. moved.1 ≡ true) }
        ensures closed { (closed : Closed) → result ≡ Err (RefRefused.Closed closed) → closed.node ≡ target }
        ensures unpinned { (closed : Closed) → result ≡ Err (RefRefused.Closed closed) → pins_of token.old target.0 ≡ 0 }
        ensures makes { MakesCall running_model (MemoryCall.Transfer of.old target (named_fit (λ hold. hold) result))
            token.old token.new }
    {
        let name = of.name();
        if name.chunk == 0 {
            return Ok((Hold::new(empty_buffer(target)), true));
        }
        let answer = self.transfer_under_lock(rt, token, name, target);
        token.spend(0, 1);
        let (moved, fits) = answer?;
        let given = further(name, target, moved);
        token.take(rt, given);
        Ok((Hold::new(given), fits))
    }

    fn transfer_under_lock<R: Wait>(
        &self,
        rt: &R,
        token: &Token,
        of: Ref,
        target: AllocId,
    ) -> Result<(Ref, bool), RefRefused>
        ensures answer { IsTransferAnswer (running_view token.now) of target (named_fit (λ hold. hold) result) }
    {
        for _ in rt.forever() {
            if let Some(answer) = self.locked.lock(rt).transfer(token, of, target) {
                return answer;
            }
            yield_now();
        }
        unreachable!()
    }

    /// Gives a hold back, and tells whether its ledger went. It can't be refused. After `BufferLedger.release`.
    pub fn release<R: Wait>(&self, rt: &R, token: &mut Token, of: Hold) -> bool
        ensures empty { is_empty of ≡ true → result ≡ false }
        ensures makes { MakesCall running_model (MemoryCall.Release of result) token.old token.new }
    {
        let name = of.name();
        if name.chunk == 0 {
            return false;
        }
        token.give(rt, name);
        self.locked.lock(rt).release(name)
    }
}
