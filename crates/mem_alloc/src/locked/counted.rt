//! Calls that the locked tree counts, and the release, which it doesn't.
ghost use Rattle.std.specs.Prelude.{◌≡◌, ℕ, ◌<◌, ◌≤◌, ◌↔◌, IsSome, IsNone, IfSome, IfOk, OnOk, OnErr, Err};
ghost use Rattle.mem_num.specs.declared.bounds.TheConstants.{MAX_LIMIT, MAX_RESERVATION, MOST_ALLOCATORS};
ghost use Rattle.mem_num.specs.declared.closed.Closed.{Closed};
ghost use Rattle.mem_buf.specs.Answers.{IsChildAnswer, IsGrantAnswer, IsRetainAnswer, IsTransferAnswer};
ghost use Rattle.mem_buf.specs.Chain.{MakesCall};
ghost use Rattle.mem_buf.specs.MemoryCall.{MemoryCall, named, named_fit};
ghost use Rattle.mem_buf.specs.TokenView.{size_for};
ghost use Rattle.alloc_tree.specs.SoloMeaning.{solo_model};
ghost use Rattle.mem_alloc.specs.Locked.{IsReady};
ghost use Rattle.mem_alloc.specs.Pins.{HasMorePins};
ghost use Rattle.mem_alloc.specs.RunningToken.{pins_of, running_view};

use crate::locked::Locked;
use crate::token::Token;
use alloc_tree::Solo;
use mem_buf::Memory;
use mem_num::{AllocId, BufferRefused, ChildRefused, Ref, RefRefused};
use std::sync::Wait;

impl Locked {
    /// Asks the tree for a buffer.
    pub fn grant(
        &mut self,
        token: &Token,
        at: AllocId,
        request: u64,
    ) -> Option<Result<Ref, BufferRefused>>
        ensures ready { IsSome result ↔ IsReady token.now self.old.tree at }
        ensures makes { IfSome result (λ answer.
            MakesCall solo_model (MemoryCall.Grant at request (named (λ hold. hold) answer)) self.old.tree self.new.tree) }
        ensures answer { IfSome result (λ answer.
            IsGrantAnswer (running_view token.now) at request (size_for (running_view token.now) at request)
            (named (λ hold. hold) answer)) }
        ensures none { IsNone result → self.new ≡ self.old }
        ensures pins { self.new.pins ≡ self.old.pins }
    {
        if !self.is_ready(token, at) {
            return None;
        }
        Some(Solo.grant(&mut self.tree, at, request))
    }

    /// Refers to a chunk from the target too.
    pub fn retain(
        &mut self,
        token: &Token,
        of: Ref,
        target: AllocId,
    ) -> Option<Result<Ref, RefRefused>>
        ensures ready { IsSome result ↔ IsReady token.now self.old.tree target }
        ensures makes { IfSome result (λ answer.
            MakesCall solo_model (MemoryCall.Retain of target (named (λ hold. hold) answer)) self.old.tree self.new.tree) }
        ensures answer { IfSome result (λ answer.
            IsRetainAnswer (running_view token.now) of target (named (λ hold. hold) answer)) }
        ensures none { IsNone result → self.new ≡ self.old }
        ensures pins { self.new.pins ≡ self.old.pins }
    {
        if !self.is_ready(token, target) {
            return None;
        }
        let mut of = of;
        Some(Solo.retain(&mut self.tree, &mut of, target))
    }

    /// Refers to a chunk from the target too, and charges the target where the source was charged.
    pub fn transfer(
        &mut self,
        token: &Token,
        of: Ref,
        target: AllocId,
    ) -> Option<Result<(Ref, bool), RefRefused>>
        ensures ready { IsSome result ↔ IsReady token.now self.old.tree target }
        ensures makes { IfSome result (λ answer.
            MakesCall solo_model (MemoryCall.Transfer of target (named_fit (λ hold. hold) answer)) self.old.tree self.new.tree) }
        ensures answer { IfSome result (λ answer.
            IsTransferAnswer (running_view token.now) of target (named_fit (λ hold. hold) answer)) }
        ensures none { IsNone result → self.new ≡ self.old }
        ensures pins { self.new.pins ≡ self.old.pins }
    {
        if !self.is_ready(token, target) {
            return None;
        }
        let mut of = of;
        Some(Solo.transfer(&mut self.tree, &mut of, target))
    }

    /// Gives a reference back.
    pub fn release(&mut self, of: Ref) -> bool
        ensures makes { MakesCall solo_model (MemoryCall.Release of result) self.old.tree self.new.tree }
        ensures pins { self.new.pins ≡ self.old.pins }
    {
        Solo.release(&mut self.tree, of)
    }

    /// Makes a child, and a pin on it.
    pub fn child<R: Wait>(
        &mut self,
        rt: &R,
        token: &Token,
        parent: AllocId,
        reservation: u64,
        limit: u64,
    ) -> Option<Result<AllocId, ChildRefused>>
        requires reservation { reservation ≤ MAX_RESERVATION }
        requires limit { limit ≤ MAX_LIMIT }
        ensures ready { IsSome result ↔ IsReady token.now self.old.tree parent }
        ensures makes { IfSome result (λ answer.
            MakesCall solo_model (MemoryCall.Child parent reservation limit answer) self.old.tree self.new.tree) }
        ensures answer { IfSome result (λ answer. IsChildAnswer (running_view token.now) parent reservation limit answer) }
        ensures number { IfSome result (λ answer. IfOk answer (λ made. made.0 < MOST_ALLOCATORS)) }
        ensures unpinned { IfSome result (λ answer.
            (closed : Closed) → answer ≡ Err (ChildRefused.Closed closed) → pins_of token.now parent.0 ≡ 0) }
        ensures none { IsNone result → self.new ≡ self.old }
        ensures pinned { IfSome result (λ answer. IfOk answer (λ made. HasMorePins self.old.pins self.new.pins made 1)) }
        ensures refused { IfSome result (λ answer. OnErr answer (self.new.pins ≡ self.old.pins)) }
    {
        if !self.is_ready(token, parent) {
            return None;
        }
        let answer = self.make(token, parent, reservation, limit);
        if let Ok(made) = answer {
            self.pins.add(rt, made);
        }
        Some(answer)
    }

    // Makes a child, where that can be answered and counted.
    fn make(
        &mut self,
        token: &Token,
        parent: AllocId,
        reservation: u64,
        limit: u64,
    ) -> Result<AllocId, ChildRefused>
        requires reservation { reservation ≤ MAX_RESERVATION }
        requires limit { limit ≤ MAX_LIMIT }
        requires ready { IsReady token.now self.old.tree parent }
        ensures makes { MakesCall solo_model (MemoryCall.Child parent reservation limit result) self.old.tree self.new.tree }
        ensures answer { IsChildAnswer (running_view token.now) parent reservation limit result }
        ensures number { IfOk result (λ made. made.0 < MOST_ALLOCATORS) }
        ensures unpinned { (closed : Closed) → result ≡ Err (ChildRefused.Closed closed) → pins_of token.now parent.0 ≡ 0 }
        ensures pins { self.new.pins ≡ self.old.pins }
    {
        Solo.child(&mut self.tree, parent, reservation, limit)
    }
}
