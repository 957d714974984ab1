//! Asking for a buffer.
ghost use Rattle.std.specs.Prelude.{◌≡◌, ◌+◌, ◌<◌, ◌≤◌, ◌^◌, [], ◌∷◌, ◌++◌, IfOk, OnOk, OnErr};
ghost use Rattle.mem_num.specs.declared.bounds.TheConstants.{MAX_RESERVATION};
ghost use Rattle.mem_model.specs.PeakSample.{IsSoundSample};
ghost use Rattle.mem_model.specs.Grant as spec;
ghost use Rattle.plain_tree.specs.PlainTree.{MeetsCall, IsChargeable};

use super::PlainTree;
use crate::chunk::{Chunk, copies_of};
use mem_model::{Charge, PeakSample, TreeNode};
use mem_num::{AllocId, BufferRefused, Closed, Ref, Rounding, rounded};
use std::alloc::{AllocError, Global};

impl PlainTree {
    // A chunk of the next number is made for a request.
    fn push_chunk(
        &mut self,
        alloc: Global,
        request: Charge,
        sample: PeakSample,
    ) -> Result<(), AllocError>
        requires numbers { self.old.state.drawn < u32.MAX }
        requires chargeable { IsChargeable self.old.state request }
        requires sound { IsSoundSample sample }
        ensures ok { OnOk result (self.new ≡ record {
          state = spec.after_charge self.old.state request None;
          samples = self.old.samples ++ sample ∷ [];
        }) }
        ensures err { OnErr result (self.new ≡ self.old) }
    {
        let number = self.drawn + 1;
        let mut chunks = copies_of(alloc, &self.chunks)?;
        chunks.push(Chunk::new(alloc, number, request.amount, request.at)?)?;
        self.samples.push(sample)?;
        self.chunks = chunks;
        self.drawn = number;
        Ok(())
    }

    // A refused request has spent its number.
    fn spend_chunk(&mut self, sample: PeakSample) -> Result<(), AllocError>
        requires numbers { self.old.state.drawn < u32.MAX }
        requires sound { IsSoundSample sample }
        ensures ok { OnOk result (self.new ≡ record {
          state = record self.old.state { drawn = self.old.state.drawn + 1 };
          samples = self.old.samples ++ sample ∷ [];
        }) }
        ensures err { OnErr result (self.new ≡ self.old) }
    {
        self.samples.push(sample)?;
        self.drawn += 1;
        Ok(())
    }

    fn after_charge(
        &mut self,
        alloc: Global,
        request: Charge,
        refusing: Option<TreeNode>,
        sample: PeakSample,
    ) -> Result<(), AllocError>
        requires numbers { self.old.state.drawn < u32.MAX }
        requires chargeable { IsChargeable self.old.state request }
        requires sound { IsSoundSample sample }
        ensures ok { OnOk result (self.new ≡ record {
          state = spec.after_charge self.old.state request refusing;
          samples = self.old.samples ++ sample ∷ [];
        }) }
        ensures err { OnErr result (self.new ≡ self.old) }
    {
        match refusing {
            None => self.push_chunk(alloc, request, sample),
            Some(_) => self.spend_chunk(sample),
        }
    }

    fn charge_answer(
        &self,
        alloc: Global,
        request: Charge,
        refusing: Option<TreeNode>,
    ) -> Result<Result<Ref, BufferRefused>, AllocError>
        requires numbers { self.now.state.drawn < u32.MAX }
        requires small { request.amount ≤ MAX_RESERVATION }
        ensures answer { IfOk result (λ answer. answer ≡ spec.charge_answer self.now.state request refusing) }
    {
        let Some(level) = refusing else {
            return Ok(Ok(Ref {
                chunk: self.drawn + 1,
                alloc: request.at,
                size: request.amount,
            }));
        };
        let full = self.refusal(alloc, request, level)?;
        Ok(Err(BufferRefused::Full(full)))
    }

    fn charge(
        &mut self,
        alloc: Global,
        request: Charge,
    ) -> Result<Result<Ref, BufferRefused>, AllocError>
        requires numbers { self.old.state.drawn < u32.MAX }
        requires chargeable { IsChargeable self.old.state request }
        ensures call { IfOk result (λ answer.
            MeetsCall (spec.charge_result self.old.state request) self.old self.new answer) }
        ensures err { OnErr result (self.new ≡ self.old) }
    {
        let refusing = self.refusing(alloc, request)?;
        let answer = self.charge_answer(alloc, request, refusing)?;
        let sample = self.sample(alloc, request)?;
        self.after_charge(alloc, request, refusing, sample)?;
        Ok(answer)
    }

    /// Asks for a buffer of `request` bytes at an allocator. After `BaseAllocator.buffer`.
    pub fn grant(
        &mut self,
        alloc: Global,
        at: AllocId,
        request: u64,
    ) -> Result<Result<Ref, BufferRefused>, AllocError>
        requires numbers { self.old.state.drawn < u32.MAX }
        ensures call { IfOk result (λ answer.
            MeetsCall (spec.grant_result self.old.state at request) self.old self.new answer) }

        // Memory ran out, and nothing changed.
        ensures err { OnErr result (self.new ≡ self.old) }
    {
        let size = match rounded(Rounding::Power, request) {
            Ok(size) => size,
            Err(refused) => return Ok(Err(BufferRefused::TooLarge(refused))),
        };
        if !self.is_open(at) {
            let closed = Closed { node: at, uses: 0 };
            return Ok(Err(BufferRefused::Closed(closed)));
        }
        if size == 0 {
            let empty = Ref {
                chunk: 0,
                alloc: at,
                size: 0,
            };
            return Ok(Ok(empty));
        }
        self.charge(alloc, Charge { at, amount: size })
    }
}
