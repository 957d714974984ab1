//! The ledgers of one chunk, and who owns it.
ghost use Rattle.std.specs.Prelude.{◌≡◌, ◌^◌, ◌≤◌, ◌<◌, ◌↔◌, ◌≢◌, [], ◌∷◌, IsOk, IsErr, IfOk, IfErr, OnOk, OnErr};
ghost use Rattle.ledger_map.specs.LedgerState.{AreLawfulLedgers};

use crate::after::After;
use crate::counts::{Entries, add_one, take_one};
use crate::place::place_of;
use mem_model::Ledger;
use mem_num::{AllocId, LARGEST, NoMemory, Released};
use smallvec::SmallVec;
use std::alloc::Global;
use std::marker::Model;

/// The ledgers of one chunk, at most one an allocator, and its owner, which is charged for it. After Arrow Java's
/// `AllocationManager`, which keeps its `BufferLedger`s in a map by allocator.
#[derive(Debug, Drop)]
pub struct Ledgers {
    size: u64,
    owner: AllocId,
    ledgers: Entries,
}

// A cache line.
const _: () = prove!(size_of::<Ledgers>() == 64);

impl Model for Ledgers {
    ghost use Rattle.ledger_map.specs.LedgerState.{LedgerState};

    ghost Value = { LedgerState };

    ghost use Rattle.ledger_map.specs.Fields.{ledger_state, AreSoundLedgers};

    ghost view = { ledger_state };

    ghost invariant = { AreSoundLedgers };
}

impl Ledgers {
    ghost use Rattle.mem_model.specs.Ledgers.{count_of, total_of};
    ghost use Rattle.ledger_map.specs.LedgerState.{IsUnchanged, AddsOne, TakesOne};
    ghost use Rattle.ledger_map.specs.Release.{new_owner, after_of, IsAfter};

    /// The ledgers of a chunk of `size` bytes, to which its owner has one reference. Two ledgers lie in the value itself, so one
    /// more fits without memory.
    pub fn new(alloc: Global, size: u64, owner: AllocId) -> Result<Ledgers, NoMemory>
        requires some_bytes { 1 ≤ size }
        requires few_bytes { size ≤ LARGEST }
        ensures size { IfOk result (λ made. made.size ≡ size) }
        ensures owner { IfOk result (λ made. made.owner ≡ owner) }
        ensures ledgers { IfOk result (λ made. made.ledgers ≡ record { at = owner; count = 1 } ∷ []) }
        ensures spare { IfOk result (λ made. made.spare ≡ 1) }
        ensures lawful { IfOk result AreLawfulLedgers }
    {
        let mut ledgers = SmallVec::new(alloc);
        ledgers.push_reserved(Ledger {
            at: owner,
            count: 1,
        });
        Ok(Ledgers {
            size,
            owner,
            ledgers,
        })
    }

    /// The bytes of the chunk.
    pub fn size(&self) -> u64
        ensures { result ≡ self.now.size }
    {
        self.size
    }

    /// The allocator that is charged for the chunk.
    pub fn owner(&self) -> AllocId
        ensures { result ≡ self.now.owner }
    {
        self.owner
    }

    /// The ledgers, in order of number.
    pub fn entries(&self) -> &[Ledger]
        ensures { result.now ≡ self.now.ledgers }
    {
        self.ledgers.as_slice()
    }

    /// How many references an allocator has, 0 where it has no ledger.
    pub fn count(&self, at: AllocId) -> u64
        ensures { result ≡ count_of self.now.ledgers at.0 }
    {
        let ledgers = self.ledgers.as_slice();
        match place_of(ledgers, at) {
            Ok(place) => ledgers[place].count,
            Err(_) => 0,
        }
    }

    /// How many references there are, at most 2^58.
    pub fn total(&self) -> u64
        ensures value { result ≡ total_of self.now.ledgers }
        ensures few { result ≤ 2 ^ 58 }
    {
        let ledgers = self.ledgers.as_slice();
        ledgers.iter().map(|ledger| ledger.count).sum()
    }

    /// Makes room for one more ledger, and takes no memory where there is room.
    pub fn room(&mut self) -> Result<(), NoMemory>
        ensures made { OnOk result (1 ≤ self.new.spare) }
        ensures had_room { 1 ≤ self.old.spare → IsOk result }
        ensures does_nothing { 1 ≤ self.old.spare → self.new ≡ self.old }
        ensures unchanged { IsUnchanged self.old self.new }
        ensures kept { self.old.spare ≤ self.new.spare }
        ensures lawful { AreLawfulLedgers self.new }
    {
        self.ledgers.reserve(1).map_err(|_| NoMemory)
    }

    /// Adds one reference of an allocator, on a new ledger where it has none. It moves no charge, as `BufferLedger.retain`.
    /// Takes no memory.
    pub fn retain(&mut self, at: AllocId)
        requires live { self.old.ledgers ≢ [] }
        requires room { count_of self.old.ledgers at.0 ≡ 0 → 1 ≤ self.old.spare }
        requires few_references { total_of self.old.ledgers < 2 ^ 58 }
        ensures added { AddsOne self.old self.new at.0 }
        ensures lawful { AreLawfulLedgers self.new }
    {
        add_one(&mut self.ledgers, at);
    }

    /// Takes one reference of an allocator away, after `BufferLedger.release`. Where the owner's ledger goes, the chunk is
    /// the least remaining number's, which is this project's own. Takes no memory.
    pub fn release(&mut self, at: AllocId) -> Result<After, Released>
        // It is refused exactly where the allocator has no reference, and then changes nothing.
        ensures released { IsErr result ↔ (count_of self.old.ledgers at.0 ≡ 0) }
        ensures refusal { IfErr result (λ refusal. refusal ≡ record { chunk = 0; alloc = at }) }
        ensures err { OnErr result (self.new ≡ self.old) }

        // Else one reference goes. The answer follows from those that are left, and the owner from the answer.
        ensures taken { OnOk result (TakesOne self.old self.new at.0) }
        ensures after { IfOk result (λ after. after ≡ after_of at.0 self.old.owner self.new.ledgers) }
        ensures owner { IfOk result (λ after. self.new.owner ≡ new_owner self.old.owner after) }
        ensures rule { IfOk result (IsAfter at.0 self.old self.new) }
        ensures lawful { AreLawfulLedgers self.new }
    {
        let Some(left) = take_one(&mut self.ledgers, at) else {
            return Err(Released {
                chunk: 0,
                alloc: at,
            });
        };
        let after = After::of_release(at, left, self.owner, self.ledgers.as_slice());
        self.owner = after.owner_from(self.owner);
        Ok(after)
    }

    /// Makes an allocator that has references the owner. It moves no reference. Takes no memory.
    pub fn make_owner(&mut self, at: AllocId)
        requires { 1 ≤ count_of self.old.ledgers at.0 }
        ensures owner { self.new ≡ record self.old { owner = at } }
        ensures lawful { AreLawfulLedgers self.new }
    {
        self.owner = at;
    }
}

/// The law that the ledgers of every chunk are lawful: they are in order, none is without a reference, and while one remains the
/// owner has one.
pub fn ledgers_are_lawful(ledgers: &Ledgers)
    ensures { AreLawfulLedgers ledgers.now }
{
    // Reading a field tells the proof what always holds of the value.
    let _ = &ledgers.size;
}

#[cfg(test)]
mod tests;
