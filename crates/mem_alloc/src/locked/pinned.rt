//! Pins on the locked tree, and closing, which they keep from an allocator.
ghost use Rattle.std.specs.Prelude.{◌≡◌, ◌+◌, ◌<◌, ◌≤◌, ◌↔◌, true, IsSome, IsNone, IfSome, IfErr, IsOk, IsErr, OnOk, OnErr, Err, slice_index};
ghost use Rattle.mem_num.specs.declared.bounds.TheConstants.{MOST_ALLOCATORS};
ghost use Rattle.mem_model.specs.TreeState.{is_open};
ghost use Rattle.mem_buf.specs.Answers.{IsCloseAnswer};
ghost use Rattle.mem_buf.specs.Chain.{MakesCall};
ghost use Rattle.mem_buf.specs.MemoryCall.{MemoryCall};
ghost use Rattle.alloc_tree.specs.SoloMeaning.{solo_model};
ghost use Rattle.mem_alloc.specs.Locked.{IsOpenIfPinned, known_uses};
ghost use Rattle.mem_alloc.specs.Pins.{HasMorePins};
ghost use Rattle.mem_alloc.specs.RunningToken.{pins_of};

use crate::locked::Locked;
use crate::token::Token;
use crate::wait::sum;
use alloc_tree::{Solo, every_tree_is_lawful};
use mem_buf::Memory;
use mem_num::{AllocId, Closed, NotClosed};
use std::sync::Wait;

impl Locked {
    /// Closes an allocator that nothing uses and nobody pins.
    pub fn close<R: Wait>(&mut self, rt: &R, at: AllocId) -> Result<(), NotClosed>
        ensures pinned { 1 ≤ slice_index self.old.pins at.0
            → result ≡ Err (NotClosed.InUse (slice_index self.old.pins at.0 + known_uses self.old.tree at)) }
        ensures kept { 1 ≤ slice_index self.old.pins at.0 → self.new ≡ self.old }
        ensures makes { slice_index self.old.pins at.0 ≡ 0 → MakesCall solo_model (MemoryCall.Close at result) self.old.tree self.new.tree }
        ensures answer { IsCloseAnswer result }
        ensures pins { self.new.pins ≡ self.old.pins }
    {
        let pins = self.pins.count(at);
        if pins > 0 {
            let uses = sum(rt, pins, self.known_uses(at));
            return Err(NotClosed::InUse { uses });
        }
        Solo.close(&mut self.tree, at)
    }

    /// Pins an allocator that is open.
    pub fn pin<R: Wait>(&mut self, rt: &R, token: &Token, at: AllocId) -> Option<Result<(), Closed>>
        ensures ready { IsSome result ↔ IsOpenIfPinned token.now self.old.tree at }
        ensures open { IfSome result (λ answer. IsOk answer ↔ is_open self.old.tree.state at.0 ≡ true) }
        ensures number { IfSome result (λ answer. IsOk answer → at.0 < MOST_ALLOCATORS) }
        ensures closed { IfSome result (λ answer. IfErr answer (λ closed. closed ≡ record { node = at; uses = 0 })) }
        ensures unpinned { IfSome result (λ answer. IsErr answer → pins_of token.now at.0 ≡ 0) }
        ensures pinned { IfSome result (λ answer. OnOk answer (HasMorePins self.old.pins self.new.pins at 1)) }
        ensures refused { IfSome result (λ answer. OnErr answer (self.new.pins ≡ self.old.pins)) }
        ensures none { IsNone result → self.new ≡ self.old }
        ensures tree { self.new.tree ≡ self.old.tree }
    {
        every_tree_is_lawful(&self.tree);
        if self.is_open(at) {
            self.pins.add(rt, at);
            return Some(Ok(()));
        }
        if token.pins(at) > 0 {
            return None;
        }
        Some(Err(Closed { node: at, uses: 0 }))
    }

    /// Takes a pin away, where there is one.
    pub fn unpin(&mut self, at: AllocId)
        ensures less { 1 ≤ slice_index self.old.pins at.0 → HasMorePins self.new.pins self.old.pins at 1 }
        ensures none { slice_index self.old.pins at.0 ≡ 0 → self.new.pins ≡ self.old.pins }
        ensures tree { self.new.tree ≡ self.old.tree }
    {
        if self.pins.count(at) > 0 {
            self.pins.take(at);
        }
    }
}
