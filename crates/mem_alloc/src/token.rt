//! A caller's token.
ghost use Rattle.std.specs.Prelude.{◌≡◌, ℕ, ◌+◌, ◌≤◌, ◌<◌, ◌^◌};
ghost use Rattle.mem_num.specs.declared.bounds.TheConstants.{MOST_ALLOCATORS};

use crate::pins::Pins;
use crate::wait::sum;
use acct_words::Budget;
use mem_num::{AllocId, Ref};
use std::marker::Model;
use std::sync::Wait;

/// A caller token: what its owner may still ask for, how many references it was given and gave back, and its pins. It can't be copied.
#[derive(Debug, Drop)]
pub struct Token {
    budget: Budget,
    taken: u64,
    given: u64,
    pins: Pins,
}

impl Model for Token {
    ghost use Rattle.mem_alloc.specs.RunningToken.{RunningToken};

    ghost Value = { RunningToken };

    ghost view = { λ token. record {
      bytes = token.budget.bytes;
      turns = token.budget.turns;
      taken = token.taken;
      given = token.given;
      pins = token.pins;
    } };

    ghost invariant = { λ token. Unit {0} };
}

impl Token {
    ghost use Rattle.mem_alloc.specs.Counts.{references};
    ghost use Rattle.mem_alloc.specs.Pins.{HasMorePins};
    ghost use Rattle.mem_alloc.specs.RunningToken.{pins_of};
    ghost use Rattle.mem_alloc.specs.Tokens.{IsCut, IsJoined, Spends, times_in};

    /// A token that was given nothing yet, without pins.
    pub(crate) fn new(budget: Budget) -> Token
        ensures bytes { result.bytes ≡ budget.bytes }
        ensures turns { result.turns ≡ budget.turns }
        ensures taken { result.taken ≡ 0 }
        ensures given { result.given ≡ 0 }
        ensures pins { (n : ℕ) → pins_of result n ≡ 0 }
    {
        Token {
            budget,
            taken: 0,
            given: 0,
            pins: Pins::new(),
        }
    }

    /// The bytes and calls that it may still spend.
    pub fn budget(&self) -> Budget
        ensures bytes { result.bytes ≡ self.now.bytes }
        ensures turns { result.turns ≡ self.now.turns }
    {
        self.budget
    }

    /// How many references it was given. Those of the empty buffer don't count.
    pub fn taken(&self) -> u64
        ensures value { result ≡ self.now.taken }
    {
        self.taken
    }

    /// How many references it gave back. Those of the empty buffer don't count.
    pub fn given(&self) -> u64
        ensures value { result ≡ self.now.given }
    {
        self.given
    }

    /// How many pins it has on an allocator.
    pub fn pins(&self, at: AllocId) -> u64
        ensures value { result ≡ pins_of self.now at.0 }
    {
        self.pins.count(at)
    }

    /// Spends bytes and turns.
    pub(crate) fn spend(&mut self, bytes: u64, turns: u64)
        requires bytes { bytes ≤ self.old.bytes }
        requires turns { turns ≤ self.old.turns }
        ensures spends { Spends self.old self.new bytes turns 0 0 }
        ensures pins { self.new.pins ≡ self.old.pins }
    {
        self.budget = Budget {
            bytes: self.budget.bytes - bytes,
            turns: self.budget.turns - turns,
        };
    }

    /// A reference was given to it.
    pub(crate) fn take<R: Wait>(&mut self, rt: &R, of: Ref)
        ensures taken { Spends self.old self.new 0 0 (references of) 0 }
        ensures pins { self.new.pins ≡ self.old.pins }
    {
        if of.chunk != 0 {
            self.taken = sum(rt, self.taken, 1);
        }
    }

    /// It gave a reference back.
    pub(crate) fn give<R: Wait>(&mut self, rt: &R, of: Ref)
        ensures given { Spends self.old self.new 0 0 0 (references of) }
        ensures pins { self.new.pins ≡ self.old.pins }
    {
        if of.chunk != 0 {
            self.given = sum(rt, self.given, 1);
        }
    }

    /// One pin more.
    pub(crate) fn add_pin<R: Wait>(&mut self, rt: &R, at: AllocId)
        requires number { at.0 < MOST_ALLOCATORS }
        ensures kept { Spends self.old self.new 0 0 0 0 }
        ensures more { HasMorePins self.old.pins self.new.pins at 1 }
    {
        self.pins.add(rt, at);
    }

    /// One pin less.
    pub(crate) fn drop_pin(&mut self, at: AllocId)
        requires pinned { 1 ≤ pins_of self.old at.0 }
        ensures kept { Spends self.old self.new 0 0 0 0 }
        ensures less { HasMorePins self.new.pins self.old.pins at 1 }
    {
        self.pins.take(at);
    }

    /// Cuts off a token with part of the budget, and with a pin for each that is listed. Spends a turn.
    pub(crate) fn split(&mut self, budget: Budget, pins: &[AllocId]) -> Token
        requires bytes { budget.bytes ≤ self.old.bytes }
        requires turns { budget.turns + 1 ≤ self.old.turns }
        requires pinned { (n : ℕ) → times_in pins.now n ≤ pins_of self.old n }
        ensures cut { IsCut self.old self.new result budget pins.now }
    {
        let mut right = Token::new(budget);
        self.pins.bound();
        self.pass_pins(&mut right, pins);
        self.budget = Budget {
            bytes: self.budget.bytes - budget.bytes,
            turns: self.budget.turns - budget.turns - 1,
        };
        right
    }

    // Moves a pin for each that is listed.
    fn pass_pins(&mut self, right: &mut Token, pins: &[AllocId])
        requires pinned { (n : ℕ) → times_in pins.now n ≤ pins_of self.old n }
        requires room { (n : ℕ) → pins_of self.old n + pins_of right.old n < 2 ^ 64 }
        ensures kept { Spends self.old self.new 0 0 0 0 }
        ensures right_kept { Spends right.old right.new 0 0 0 0 }
        ensures left_pins { (n : ℕ) → pins_of self.new n + times_in pins.now n ≡ pins_of self.old n }
        ensures right_pins { (n : ℕ) → pins_of right.new n ≡ pins_of right.old n + times_in pins.now n }
    {
        let [at, others @ ..] = pins else {
            return;
        };
        self.pass_pin(right, *at);
        self.pass_pins(right, others);
    }

    fn pass_pin(&mut self, right: &mut Token, at: AllocId)
        requires pinned { 1 ≤ pins_of self.old at.0 }
        requires room { pins_of self.old at.0 + pins_of right.old at.0 < 2 ^ 64 }
        ensures kept { Spends self.old self.new 0 0 0 0 }
        ensures right_kept { Spends right.old right.new 0 0 0 0 }
        ensures less { HasMorePins self.new.pins self.old.pins at 1 }
        ensures more { HasMorePins right.old.pins right.new.pins at 1 }
    {
        self.pins.pass(&mut right.pins, at);
    }

    /// Puts two tokens together.
    pub(crate) fn join<R: Wait>(&mut self, rt: &R, other: Token)
        ensures joined { IsJoined self.old other self.new }
    {
        self.budget = Budget {
            bytes: sum(rt, self.budget.bytes, other.budget.bytes),
            turns: sum(rt, self.budget.turns, other.budget.turns),
        };
        self.taken = sum(rt, self.taken, other.taken);
        self.given = sum(rt, self.given, other.given);
        self.pins.add_all(rt, &other.pins);
    }
}
