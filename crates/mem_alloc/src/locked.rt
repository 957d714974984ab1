//! What lies under the lock: the tree of one thread, and the pins of all callers. A call that answers `None` has changed nothing, and has
//! to be made again later: other callers act in between.
ghost use Rattle.std.specs.Prelude.{◌≡◌, ◌+◌, ◌<◌, ◌≤◌, ◌↔◌, IsTrue, IsSome, IsNone, IfSome, IfOk, IfErr, IsErr, OnOk, OnErr, Err, IsOk, slice_index};
ghost use Rattle.mem_num.specs.declared.bounds.TheConstants.{MAX_LIMIT, MAX_RESERVATION, MOST_ALLOCATORS};
ghost use Rattle.mem_model.specs.Headroom.{headroom_answer, over_limit_answer};
ghost use Rattle.mem_model.specs.MeasuredTree.{IsOpened};
ghost use Rattle.mem_model.specs.TreeState.{is_open};
ghost use Rattle.mem_buf.specs.Answers.{IsAnswer, IsChildAnswer, IsCloseAnswer};
ghost use Rattle.mem_buf.specs.Chain.{MakesCall};
ghost use Rattle.mem_buf.specs.MemoryCall.{MemoryCall, named, named_fit};
ghost use Rattle.alloc_tree.specs.Counting.{HasCallsLeft};
ghost use Rattle.alloc_tree.specs.SoloMeaning.{solo_model};
ghost use Rattle.mem_alloc.specs.Counts.{running_model};
ghost use Rattle.mem_alloc.specs.Locked.{IsOpenIfPinned, IsReady, found_at, known_uses, seen_node};
ghost use Rattle.mem_alloc.specs.Pins.{HasMorePins};
ghost use Rattle.mem_alloc.specs.RunningToken.{pins_of, running_view};

mod counted;
mod pinned;

use crate::pins::Pins;
use crate::token::Token;
use crate::wait::sum;
use alloc_tree::{SoloTree, every_tree_is_lawful};
use mem_num::{AllocId, Closed, NoMemory, Node};
use std::alloc::Global;
use std::sync::Wait;

/// The tree, and the pins of all callers on its allocators.
#[derive(Drop)]
pub(crate) struct Locked {
    pub tree: SoloTree,
    pub pins: Pins,
}

impl Locked {
    /// A tree with its root alone, and a pin on it.
    pub fn open<R: Wait>(rt: &R, alloc: Global, root_limit: u64) -> Result<Locked, NoMemory>
        requires limit { root_limit ≤ MAX_LIMIT }
        ensures opened { IfOk result (λ locked. IsOpened root_limit locked.tree) }
    {
        let tree = SoloTree::open(alloc, root_limit)?;
        let mut pins = Pins::new();
        pins.add(rt, AllocId::ROOT);
        Ok(Locked { tree, pins })
    }

    // Whether an allocator was made and isn't closed.
    fn is_open(&self, at: AllocId) -> bool
        ensures value { result ≡ is_open self.now.tree.state at.0 }
    {
        every_tree_is_lawful(&self.tree);
        match self.tree.node(at) {
            Some(placed) => !placed.node.closed,
            None => false,
        }
    }

    // Whether an allocator is open, if a token pins it.
    fn is_open_if_pinned(&self, token: &Token, at: AllocId) -> bool
        ensures value { IsTrue result ↔ IsOpenIfPinned token.now self.now.tree at }
    {
        token.pins(at) == 0 || self.is_open(at)
    }

    // Whether a call of a token at an allocator can be answered and counted now.
    fn is_ready(&self, token: &Token, at: AllocId) -> bool
        ensures value { IsTrue result ↔ IsReady token.now self.now.tree at }
    {
        self.tree.calls() < u32::MAX - 1 && self.is_open_if_pinned(token, at)
    }

    // The uses that the tree knows of an allocator.
    fn known_uses(&self, at: AllocId) -> u64
        ensures value { result ≡ known_uses self.now.tree at }
    {
        match self.tree.node(at) {
            Some(placed) => placed.node.uses,
            None => 0,
        }
    }

    /// The numbers of an allocator, whose pins are uses too.
    pub fn look<R: Wait>(&self, rt: &R, at: AllocId) -> Node
        ensures value { result ≡ seen_node (slice_index self.now.pins at.0) (found_at self.now.tree at) }
    {
        match self.tree.node(at) {
            Some(placed) => Node {
                uses: sum(rt, placed.node.uses, self.pins.count(at)),
                ..placed.node
            },
            None => Node {
                reservation: 0,
                held: 0,
                peak: 0,
                limit: 0,
                uses: 0,
                closed: true,
            },
        }
    }

    /// How many bytes more an allocator could be given.
    pub fn headroom(&self, token: &Token, at: AllocId) -> Option<Result<i128, Closed>>
        ensures open { IsSome result ↔ IsOpenIfPinned token.now self.now.tree at }
        ensures value { IfSome result (λ answer. answer ≡ headroom_answer self.now.tree.state at) }
        ensures closed { IfSome result (λ answer. IfErr answer (λ closed. closed.node ≡ at)) }
        ensures unpinned { IfSome result (λ answer. IsErr answer → pins_of token.now at.0 ≡ 0) }
    {
        if !self.is_open_if_pinned(token, at) {
            return None;
        }
        Some(self.tree.headroom(at))
    }

    /// Whether an allocator or one above it holds more than its limit.
    pub fn over_limit(&self, token: &Token, at: AllocId) -> Option<Result<bool, Closed>>
        ensures open { IsSome result ↔ IsOpenIfPinned token.now self.now.tree at }
        ensures value { IfSome result (λ answer. answer ≡ over_limit_answer self.now.tree.state at) }
        ensures closed { IfSome result (λ answer. IfErr answer (λ closed. closed.node ≡ at)) }
        ensures unpinned { IfSome result (λ answer. IsErr answer → pins_of token.now at.0 ≡ 0) }
    {
        if !self.is_open_if_pinned(token, at) {
            return None;
        }
        Some(self.tree.over_limit(at))
    }
}
