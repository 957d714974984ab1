//! The tree that threads share.
ghost use Rattle.std.specs.Prelude.{◌≡◌, ℕ, ◌+◌, ◌≤◌, IfOk, IfErr, OnOk, OnErr, sum_by};
ghost use Rattle.mem_model.specs.LawfulState.{IsLawfulState};
ghost use Rattle.mem_alloc.specs.Counts.{references};
ghost use Rattle.mem_alloc.specs.RunningToken.{pins_of};
ghost use Rattle.mem_alloc.specs.Tokens.{IsCut, IsFirst, IsJoined, times_in};

mod buffers;
mod nodes;

use crate::hold::Hold;
use crate::locked::Locked;
use crate::start::Start;
use crate::token::Token;
use acct_words::Budget;
use alloc_tree::{SoloTree, every_tree_is_lawful};
use mem_num::{AllocId, NoMemory};
use std::alloc::Global;
use std::sync::{Mutex, Wait};

/// The tree of allocators that threads share: a lock round the tree of one thread. Each call takes the lock once, or again where other
/// callers have to act first: none is answered that what its token pins is closed.
#[derive(Drop)]
pub struct Tree {
    locked: Mutex<Locked>,
}

impl Tree {
    /// A tree with its root alone, and the token of its first caller, which pins the root. After `RootAllocator`.
    pub fn open<R: Wait>(rt: &R, alloc: Global, start: Start) -> Result<(Tree, Token), NoMemory>
        ensures first { IfOk result (λ opened. IsFirst opened.1 start.budget) }
    {
        let Start { root_limit, budget } = start;
        let locked = Locked::open(rt, alloc, root_limit)?;
        let mut token = Token::new(budget);
        token.add_pin(rt, AllocId::ROOT);
        Ok((
            Tree {
                locked: Mutex::new(locked),
            },
            token,
        ))
    }

    /// Cuts a token off, with part of the budget and a pin for each that is listed. Spends a turn, and waits for nobody.
    pub fn split(&self, token: &mut Token, budget: Budget, pins: &[AllocId]) -> Token
        requires bytes { budget.bytes ≤ token.old.bytes }
        requires turns { budget.turns + 1 ≤ token.old.turns }
        requires pinned { (n : ℕ) → times_in pins.now n ≤ pins_of token.old n }
        ensures cut { IsCut token.old token.new result budget pins.now }
    {
        token.split(budget, pins)
    }

    /// Puts a token back that was cut off.
    pub fn join<R: Wait>(&self, rt: &R, token: &mut Token, other: Token)
        ensures joined { IsJoined token.old other token.new }
    {
        token.join(rt, other);
    }

    /// Ends the shared tree, and gives the tree of one thread that it was. The holds are those that weren't given back.
    pub fn settle(self, token: Token, holds: Vec<Hold>) -> Result<SoloTree, NoMemory>
        requires given { sum_by references holds.items + token.given ≡ token.taken }
        ensures lawful { IfOk result (λ tree. IsLawfulState tree.state) }
    {
        let tree = self.locked.into_inner().tree;
        every_tree_is_lawful(&tree);
        Ok(tree)
    }
}
