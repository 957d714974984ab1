//! The live chunks of a tree.
ghost use Rattle.std.specs.Prelude.{◌≡◌, ◌≢◌, ℕ, ◌<◌, ◌≤◌, ◌^◌, [], ◌∷◌, ◌++◌, map, All, OnOk, OnErr};
ghost use Rattle.std.specs.List.{find};
ghost use Rattle.std.specs.Option.{ForSome, option_map};
ghost use Rattle.mem_num.specs.declared.bounds.TheConstants.{LARGEST};
ghost use Rattle.mem_model.specs.Chunk as model;
ghost use Rattle.mem_model.specs.Chunk.{AreInNumberOrder, chunk_at};
ghost use Rattle.mem_model.specs.Ledgers.{count_of, total_of};
ghost use Rattle.mem_model.specs.References.{refers_to};
ghost use Rattle.mem_model.specs.Release.{without_chunk};
ghost use Rattle.alloc_tree.specs.Chunks.{chunk_of, with_changed, after_of_release, without_reference};

use ledger_map::{After, Ledgers, ledgers_are_lawful};
use mem_num::{AllocId, NoMemory, Ref};
use std::alloc::Global;
use std::collections::BTreeMap;
use std::collections::btree_map::Iter;
use std::marker::Model;

/// The live chunks by number, seen as the list of them.
#[derive(Drop)]
pub(crate) struct Chunks {
    alloc: Global,
    by_number: BTreeMap<u32, Ledgers>,
}

impl Model for Chunks {
    ghost use Rattle.std.specs.Prelude.{List, map};
    ghost use Rattle.mem_model.specs.Chunk.{AreInNumberOrder, Chunk};
    ghost use Rattle.ledger_map.specs.LedgerState.{LedgerState};
    ghost use Rattle.alloc_tree.specs.Chunks.{chunk_of};

    ghost Value = { List Chunk };

    ghost view = { λ chunks. map chunk_of chunks.by_number.entries };

    ghost invariant = { λ chunks. AreInNumberOrder (map chunk_of chunks.by_number.entries) };
}

impl Chunks {
    pub fn new(alloc: Global) -> Chunks
        ensures { result ≡ [] }
    {
        Chunks {
            alloc,
            by_number: BTreeMap::new(alloc),
        }
    }

    /// Adds a chunk with one reference, that of its owner. Its number is greater than any other.
    pub fn push(&mut self, number: u32, size: u64, owner: AllocId) -> Result<(), NoMemory>
        requires last { All (λ chunk. chunk.number < number) self.old }
        requires some_bytes { 1 ≤ size }
        requires few_bytes { size ≤ LARGEST }
        ensures pushed { OnOk result (self.new ≡ self.old ++ model.new_chunk number size owner ∷ []) }
        ensures err { OnErr result (self.new ≡ self.old) }
    {
        let ledgers = Ledgers::new(self.alloc, size, owner)?;
        let Ok(_) = self.by_number.insert(number, ledgers) else {
            return Err(NoMemory);
        };
        Ok(())
    }

    /// The ledgers of a chunk. Takes time by the logarithm of how many chunks are live.
    pub fn get(&self, number: u32) -> Option<&Ledgers>
        ensures chunk { option_map (λ ledgers. chunk_of (number, ledgers.now)) result ≡ chunk_at self.now number }
        ensures ordered { AreInNumberOrder self.now }
    {
        self.by_number.get(&number)
    }

    /// The ledgers of the chunk that a reference is to, if it wasn't given back.
    pub fn referred(&self, of: Ref) -> Option<&Ledgers>
        ensures { option_map (λ ledgers. chunk_of (of.chunk, ledgers.now)) result ≡ find (refers_to of) self.now }
    {
        let ledgers = self.get(of.chunk)?;
        if ledgers.count(of.alloc) == 0 {
            return None;
        }
        Some(ledgers)
    }

    /// The chunks in order of number.
    pub fn iter(&self) -> Iter<'_, u32, Ledgers>
        ensures { map chunk_of result ≡ self.now }
    {
        self.by_number.iter()
    }

    /// Adds a reference of an allocator to a chunk. A ledger that wasn't there may take memory, which is taken first.
    pub fn retain(&mut self, number: u32, at: AllocId) -> Result<(), NoMemory>
        requires live { ForSome (chunk_at self.old number) (λ chunk. chunk.ledgers ≢ []) }
        requires room { ForSome (chunk_at self.old number) (λ chunk. total_of chunk.ledgers < 2 ^ 58) }
        ensures retained { OnOk result (self.new ≡ with_changed (model.retained at.0) number self.old) }
        ensures err { OnErr result (self.new ≡ self.old) }
    {
        let Some(ledgers) = self.by_number.get_mut(&number) else {
            return Ok(());
        };
        if ledgers.count(at) > 0 {
            ledgers.retain(at);
            return Ok(());
        }
        ledgers.room()?;
        ledgers.retain(at);
        Ok(())
    }

    /// Takes a reference away, and the chunk with the last one. Answers what is left, with the chunk's size; `None` where the
    /// reference was given back before. Takes no memory.
    pub fn release(&mut self, of: Ref) -> Option<(After, u64)>
        ensures after { result ≡ option_map (after_of_release of.alloc) (find (refers_to of) self.old) }
        ensures left { self.new ≡ without_reference of self.old }
    {
        let ledgers = self.by_number.get_mut(&of.chunk)?;
        ledgers_are_lawful(ledgers);
        let size = ledgers.size();
        let Ok(after) = ledgers.release(of.alloc) else {
            return None;
        };
        if !ledgers.entries().is_empty() {
            return Some((after, size));
        }
        self.by_number.remove(&of.chunk);
        Some((after, size))
    }

    /// Charges another allocator for a chunk, one that refers to it. Takes no memory.
    pub fn make_owner(&mut self, number: u32, at: AllocId)
        requires refers { ForSome (chunk_at self.old number) (λ chunk. 1 ≤ count_of chunk.ledgers at.0) }
        ensures { self.new ≡ with_changed (λ chunk. record chunk { owner = at }) number self.old }
    {
        let Some(ledgers) = self.by_number.get_mut(&number) else {
            return;
        };
        ledgers.make_owner(at);
    }

    /// Takes a chunk away, if it is there. Takes no memory.
    pub fn remove(&mut self, number: u32)
        ensures { self.new ≡ without_chunk number self.old }
    {
        self.by_number.remove(&number);
    }
}
