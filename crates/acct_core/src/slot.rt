//! A running claim, and what each event does to it and to one row.
ghost use Rattle.std.specs.Prelude.{◌≡◌, ◌+◌, ◌≤◌, ◌↔◌, IfOk, IsTrue, OnErr, None, vec_capacity, vec_len};
ghost use Rattle.mem_num.specs.declared.bounds.TheConstants.{MOST_ALLOCATORS};
ghost use Rattle.acct_core.specs.Effects as effects;
ghost use Rattle.acct_core.specs.Stages.{levels_ahead};

mod request;
mod uses;

use crate::event::Event;
use crate::level_step::LevelStep;
use crate::not_now::NotNow;
use crate::row::Row;
use crate::stage::Stage;
use crate::told::Told;
use mem_num::{MOST_ALLOCATORS, NoMemory};
use std::alloc::Global;

/// A running claim. Its list of steps has room for one at each level, so that no event takes memory.
#[derive(Drop)]
pub struct Slot {
    pub node: u32,
    pub under: Option<u32>,
    pub stage: Stage,
    pub steps: Vec<LevelStep>,
    pub ghost deep: { MOST_ALLOCATORS ≤ vec_capacity steps },
    pub ghost room: { vec_len steps + levels_ahead stage ≤ vec_capacity steps },
}

impl Slot {
    ghost use Rattle.acct_core.specs.Slots.{IsSafe, TakesEvent, claim_of};
    ghost use Rattle.acct_core.specs.Applies.{with_child};
    ghost use Rattle.acct_core.specs.Claims.{no_claim};
    ghost use Rattle.acct_core.specs.Lawful.{PaysFor};

    /// A free claim, with room for a step at each level.
    pub fn free(alloc: Global) -> Result<Slot, NoMemory>
        ensures { IfOk result (λ slot. claim_of slot ≡ no_claim) }
    {
        let Ok(steps) = Vec::with_capacity(alloc, MOST_ALLOCATORS as usize) else {
            return Err(NoMemory);
        };
        Ok(Slot {
            node: 0,
            under: None,
            stage: Stage::Free,
            steps,
        })
    }

    /// Does what an event of a claim does to the claim and to the row that it changes.
    pub fn take(&mut self, event: Event, row: &mut Row) -> Result<Told, NotNow>
        requires { IsSafe event self.old row.old }
        ensures ok { IfOk result (λ told. TakesEvent event self.old row.old told self.new row.new) }
        ensures not_now { OnErr result (effects.effect_of event (claim_of self.old) row.old ≡ None) }
        ensures unchanged { OnErr result ((self.new ≡ self.old) × (row.new ≡ row.old)) }
    {
        match event {
            Event::Enter { node, .. } => self.enter(node.0, row),
            Event::Begin { size, force, .. } => self.begin(size, force, row),
            Event::Up { .. } => self.up(row),
            Event::Undo { .. } => self.undo(row),
            Event::Release { .. } => self.release(row),
            Event::Down { .. } => self.down(row),
            Event::Leave { .. } => self.leave(row),
            Event::Open { .. } => Err(NotNow),
            Event::Close { .. } => Err(NotNow),
        }
    }

    /// The row that an event of this claim changes.
    pub fn level_of(&self, event: Event) -> u32
        ensures { result ≡ effects.level_of event (claim_of self.now) }
    {
        match event {
            Event::Enter { node, .. } => node.0,
            Event::Up { .. } => self.next_level(),
            Event::Down { .. } => self.next_level(),
            Event::Close { node } => node.0,
            _ => self.node,
        }
    }

    /// The level at which the claim changes a held number next.
    fn next_level(&self) -> u32
        ensures { result ≡ effects.next_level self.now.node (claim_of self.now).phase }
    {
        match self.stage {
            Stage::Up { next, .. } => next,
            Stage::Down { next, .. } => next,
            _ => self.node,
        }
    }

    /// Puts a child on the claim, or takes it away.
    pub fn set_child(&mut self, child: Option<u32>)
        ensures { claim_of self.new ≡ with_child child (claim_of self.old) }
    {
        self.under = child;
    }

    /// Whether the claim pays for this reservation, and no child stands on it.
    pub fn can_carry(&self, reservation: u64) -> bool
        ensures { IsTrue result ↔ ((self.now.under ≡ None) × PaysFor reservation (claim_of self.now).phase) }
    {
        if self.under.is_some() {
            return false;
        }
        match self.stage {
            Stage::In => reservation == 0,
            Stage::Held { size, .. } => reservation == size,
            _ => false,
        }
    }
}
