//! The machine: the accounts of a tree of allocators, and the events that callers make one by one.
ghost use Rattle.std.specs.Prelude.{map, replicate, IfSome, IfNone, IsTrue, All, length, ◌≡◌, ◌^◌, ◌<◌, ◌≤◌, ◌↔◌, IfOk, IsOk, OnErr};
ghost use Rattle.std.specs.List.{HoldsAt};
ghost use Rattle.std.specs.Option.{SomeIff};
ghost use Rattle.acct_core.specs.Claims.{no_claim};
ghost use Rattle.acct_core.specs.Opening.{opening_rows as first_rows};
ghost use Rattle.acct_core.specs.Rows.{is_at};
ghost use Rattle.acct_core.specs.Slots.{claim_of};

use crate::event::Event;
use crate::not_now::NotNow;
use crate::row::Row;
use crate::slot::Slot;
use crate::told::Told;
use mem_num::{AllocId, MAX_LIMIT, MOST_ALLOCATORS, NoMemory, Node};
use std::alloc::Global;
use std::marker::Model;

/// The accounts of a tree of allocators, with claims on them. Contracts see the account and the bytes that are left.
#[derive(Drop)]
pub struct Core {
    rows: Vec<Row>,
    slots: Vec<Slot>,
    bytes: u64,
    /// How many allocators were made: the next number.
    made: u32,
}

impl Model for Core {
    ghost use Rattle.std.specs.Prelude.{◌≡◌};
    ghost use Rattle.acct_core.specs.State.{State, IsLawfulMachine, made_count, state_of};

    ghost Value = { State };

    ghost view = { λ core. state_of core.rows.items core.slots.items core.bytes };

    ghost invariant = { λ core. IsLawfulMachine (state_of core.rows.items core.slots.items core.bytes) × (core.made ≡ made_count core.rows.items) };
}

impl Core {
    ghost use Rattle.acct_core.specs.Opening.{opening};
    ghost use Rattle.acct_core.specs.Rows.{row};
    ghost use Rattle.acct_core.specs.Runs.{Runs};
    ghost use Rattle.acct_core.specs.State.{shown_node, CanTake, StepsTo, IsLawfulMachine, IsOfClaim, spent};
    ghost use Rattle.acct_core.specs.Effects.{claim_number};
    ghost use Rattle.acct_core.specs.declared.event.Event.TheVariants as event;

    /// A tree of the root alone, with so many claims, on which requests of so many bytes may be made. All memory is taken here.
    pub fn open(alloc: Global, root_limit: u64, claims: u32, bytes: u64) -> Result<Core, NoMemory>
        requires limit { root_limit ≤ MAX_LIMIT }
        requires bytes { bytes ≤ 2 ^ 61 }
        ensures opening { IfOk result (λ core. core ≡ opening root_limit claims bytes) }
        ensures lawful { IfOk result IsLawfulMachine }
    {
        let rows = opening_rows(alloc, root_limit)?;
        let slots = free_slots(alloc, claims)?;
        Ok(Core {
            rows,
            slots,
            bytes,
            made: 1,
        })
    }

    /// Takes one event, if it is in phase, and tells what it found. Takes no memory.
    pub fn step(&mut self, event: Event) -> Result<Told, NotNow>
        // What is done and told is the event table's.
        ensures step { IfOk result (λ told. StepsTo self.old event told self.new) }
        ensures lawful { IsLawfulMachine self.new }

        // An event is refused exactly where it can't be taken, and changes nothing.
        ensures taken { IsOk result ↔ CanTake self.old event }
        ensures unchanged { OnErr result (self.new ≡ self.old) }
    {
        match event {
            Event::Enter { claim, .. } => self.turn(event, claim, 0),
            Event::Begin { claim, size, .. } => self.turn(event, claim, size),
            Event::Up { claim } => self.turn(event, claim, 0),
            Event::Undo { claim } => self.turn(event, claim, 0),
            Event::Release { claim } => self.turn(event, claim, 0),
            Event::Down { claim } => self.turn(event, claim, 0),
            Event::Leave { claim } => self.turn(event, claim, 0),
            Event::Open {
                claim,
                reservation,
                limit,
            } => self.open_child(claim, reservation, limit),
            Event::Close { node } => self.close(node),
        }
    }

    /// What an allocator may hold, holds and reserves; none where it wasn't made. Its peak is 0, since peaks are no part of these
    /// accounts.
    pub fn node(&self, at: AllocId) -> Option<Node>
        ensures { SomeIff result (IsTrue (row self.now.account.rows at.0).shape.made) (shown_node (row self.now.account.rows at.0)) }
    {
        let row = self.rows.get(at.0 as usize)?;
        if row.shape.made {
            Some(row.node())
        } else {
            None
        }
    }

    /// Takes the events one by one, going past those that can't be taken.
    pub fn run(&mut self, events: &[Event])
        ensures runs { Runs self.old events.now self.new }
        ensures lawful { IsLawfulMachine self.new }
    {
        // Reading a field tells the proof what always holds of the accounts.
        let _ = &self.rows;
        for event in events {
            let _ = self.step(*event);
        }
    }

    /// Takes an event that sets one claim and one row, and spends so many bytes.
    fn turn(&mut self, event: Event, claim: u32, size: u64) -> Result<Told, NotNow>
        requires kind { IsOfClaim event }
        requires number { claim ≡ claim_number event }
        requires spends { size ≡ spent event }
        ensures step { IfOk result (λ told. StepsTo self.old event told self.new) }
        ensures lawful { IsLawfulMachine self.new }
        ensures taken { IsOk result ↔ CanTake self.old event }
        ensures unchanged { OnErr result (self.new ≡ self.old) }
    {
        if size > self.bytes {
            return Err(NotNow);
        }
        let Some(slot) = self.slots.get_mut(claim as usize) else {
            return Err(NotNow);
        };
        let level = slot.level_of(event);
        let Some(row) = self.rows.get_mut(level as usize) else {
            return Err(NotNow);
        };
        let told = slot.take(event, row)?;
        self.bytes -= size;
        Ok(told)
    }

    /// Makes a child with the next number, which stands on a claim that pays for its reservation.
    fn open_child(&mut self, claim: u32, reservation: u64, limit: u64) -> Result<Told, NotNow>
        ensures step { IfOk result (λ told. StepsTo self.old (event.Open claim reservation limit) told self.new) }
        ensures lawful { IsLawfulMachine self.new }
        ensures taken { IsOk result ↔ CanTake self.old (event.Open claim reservation limit) }
        ensures unchanged { OnErr result (self.new ≡ self.old) }
    {
        if limit < reservation || self.made >= MOST_ALLOCATORS {
            return Err(NotNow);
        }
        let Some(slot) = self.slots.get_mut(claim as usize) else {
            return Err(NotNow);
        };
        if !slot.can_carry(reservation) {
            return Err(NotNow);
        }
        let number = self.made;
        let parent = slot.node;
        slot.set_child(Some(number));
        self.rows[number as usize] = Row::child(parent, reservation, limit);
        self.made += 1;
        Ok(Told::Opened(AllocId(number)))
    }

    /// Closes a node that has no uses, and frees the claim on which it stood.
    fn close(&mut self, node: AllocId) -> Result<Told, NotNow>
        ensures step { IfOk result (λ told. StepsTo self.old (event.Close node) told self.new) }
        ensures lawful { IsLawfulMachine self.new }
        ensures taken { IsOk result ↔ CanTake self.old (event.Close node) }
        ensures unchanged { OnErr result (self.new ≡ self.old) }
    {
        let Some(row) = self.rows.get_mut(node.0 as usize) else {
            return Err(NotNow);
        };
        if !row.shape.is_open {
            return Err(NotNow);
        }
        let uses = row.uses;
        if uses > 0 {
            return Ok(Told::InUse { uses });
        }
        row.shape.is_open = false;
        if let Some(i) = backing(self.slots.as_slice(), node.0) {
            self.slots[i].set_child(None);
        }
        Ok(Told::Closed)
    }
}

/// The slot on which a node stands.
fn backing(slots: &[Slot], node: u32) -> Option<usize>
    ensures some { IfSome result (λ place. (place < length slots.now) × HoldsAt (λ slot. IsTrue (is_at slot.under node)) slots.now place) }
    ensures none { IfNone result (All (λ slot. ¬ IsTrue (is_at slot.under node)) slots.now) }
{
    slots.iter().position(|slot| slot.under == Some(node))
}

/// The rows of the root and of the numbers that are left.
fn opening_rows(alloc: Global, root_limit: u64) -> Result<Vec<Row>, NoMemory>
    ensures { IfOk result (λ rows. rows.items ≡ first_rows root_limit) }
{
    let Ok(mut rows) = vec![in alloc; Row::blank(); MOST_ALLOCATORS as usize] else {
        return Err(NoMemory);
    };
    rows[0] = Row::root(root_limit);
    Ok(rows)
}

/// So many free claims, with room for their steps.
fn free_slots(alloc: Global, count: u32) -> Result<Vec<Slot>, NoMemory>
    ensures { IfOk result (λ slots. map claim_of slots.items ≡ replicate count no_claim) }
{
    let Ok(mut slots) = Vec::with_capacity(alloc, count as usize) else {
        return Err(NoMemory);
    };
    for _ in 0..count {
        let slot = Slot::free(alloc)?;
        if slots.push(slot).is_err() {
            return Err(NoMemory);
        }
    }
    Ok(slots)
}

#[cfg(test)]
mod tests;
