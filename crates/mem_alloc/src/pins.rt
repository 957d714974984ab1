//! Pins, counted by allocator.
ghost use Rattle.std.specs.Prelude.{◌≡◌, ℕ, ◌+◌, ◌<◌, ◌≤◌, ◌^◌, slice_index};
ghost use Rattle.mem_num.specs.declared.bounds.TheConstants.{MOST_ALLOCATORS};

use crate::wait::sum;
use mem_num::AllocId;
use std::marker::Model;
use std::sync::Wait;

// As many as there are numbers of allocators.
const NUMBERS: usize = 64;

/// How many pins there are on each allocator, seen as the list of its counts, by number.
#[derive(Debug, Drop)]
pub(crate) struct Pins {
    counts: [u64; NUMBERS],
}

impl Model for Pins {
    ghost use Rattle.std.specs.Prelude.{ℕ, List};
    ghost use Rattle.mem_alloc.specs.Pins.{AreSmall};

    ghost Value = { List ℕ };

    ghost view = { λ pins. pins.counts };

    ghost invariant = { λ pins. AreSmall pins.counts };
}

impl Pins {
    ghost use Rattle.mem_alloc.specs.Pins.{AreSmall, HasMorePins};

    /// No pins.
    pub fn new() -> Pins
        ensures none { (n : ℕ) → slice_index result n ≡ 0 }
    {
        Pins {
            counts: [0; NUMBERS],
        }
    }

    /// How many there are on an allocator.
    pub fn count(&self, at: AllocId) -> u64
        ensures value { result ≡ slice_index self.now at.0 }
    {
        let place = at.0 as usize;
        if place < NUMBERS {
            self.counts[place]
        } else {
            0
        }
    }

    /// Adds a pin on an allocator.
    #[tactic(auto, using(crate::proofs::PinLemmas::set_small, crate::proofs::PinLemmas::set_more, crate::proofs::PinLemmas::set_less))]
    pub fn add<R: Wait>(&mut self, rt: &R, at: AllocId)
        requires number { at.0 < MOST_ALLOCATORS }
        ensures more { HasMorePins self.old self.new at 1 }
    {
        let place = at.0 as usize;
        self.counts[place] = sum(rt, self.counts[place], 1);
    }

    /// Takes a pin on an allocator away.
    #[tactic(auto, using(crate::proofs::PinLemmas::set_small, crate::proofs::PinLemmas::set_more, crate::proofs::PinLemmas::set_less))]
    pub fn take(&mut self, at: AllocId)
        requires pinned { 1 ≤ slice_index self.old at.0 }
        ensures less { HasMorePins self.new self.old at 1 }
    {
        let place = at.0 as usize;
        self.counts[place] -= 1;
    }

    /// Moves a pin on an allocator to other pins.
    #[tactic(auto, using(crate::proofs::PinLemmas::set_small, crate::proofs::PinLemmas::set_more, crate::proofs::PinLemmas::set_less))]
    pub fn pass(&mut self, to: &mut Pins, at: AllocId)
        requires pinned { 1 ≤ slice_index self.old at.0 }
        requires room { slice_index self.old at.0 + slice_index to.old at.0 < 2 ^ 64 }
        ensures less { HasMorePins self.new self.old at 1 }
        ensures more { HasMorePins to.old to.new at 1 }
    {
        let place = at.0 as usize;
        self.counts[place] -= 1;
        to.counts[place] += 1;
    }

    /// Adds the pins of others.
    pub fn add_all<R: Wait>(&mut self, rt: &R, others: &Pins)
        ensures more { (n : ℕ) → slice_index self.new n ≡ slice_index self.old n + slice_index others.now n }
    {
        for place in 0..NUMBERS {
            self.counts[place] = sum(rt, self.counts[place], others.counts[place]);
        }
    }

    /// Tells that each count has 64 bits.
    pub fn bound(&self)
        ensures small { AreSmall self.now }
    {
        let _ = &self.counts;
    }
}
