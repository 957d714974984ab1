//! The tree of one thread.
ghost use Rattle.std.specs.Prelude.{◌≡◌, ◌+◌, ◌<◌, ◌≤◌, ◌^◌, IfOk, map};
ghost use Rattle.std.specs.Option.{option_map};
ghost use Rattle.mem_num.specs.declared.bounds.TheConstants.{MAX_LIMIT, MOST_NUMBERS};
ghost use Rattle.mem_num.specs.declared.buffer_ref.Ref.{Ref};
ghost use Rattle.mem_model.specs.LawfulState.{IsLawfulState};
ghost use Rattle.mem_model.specs.TreeState.{is_open};
ghost use Rattle.mem_model.specs.MeasuredTree.{IsOpened, peak_at, placed_at};
ghost use Rattle.mem_model.specs.Chunk.{chunk_at};
ghost use Rattle.mem_model.specs.References.{HasRoomFor};
ghost use Rattle.alloc_tree.specs.Chunks.{chunk_of};
ghost use Rattle.alloc_tree.specs.Counting.{CountsCalls, HasCallsLeft, count_after};

mod child;
mod close;
mod grant;
mod headroom;
mod release;
mod retain;
mod transfer;

use crate::chunks::Chunks;
use crate::rows::Rows;
use ledger_map::Ledgers;
use mem_num::{AllocId, Closed, NoMemory, Node, Placed};
use std::alloc::Global;
use std::collections::btree_map::Iter;
use std::marker::Model;

/// The tree of allocators of one thread, seen as its allocators and live chunks, the numbers to give next, the peak of each
/// allocator, and how many calls have drawn a number or added a reference. After `RootAllocator` and `BaseAllocator` of Arrow
/// Java. It keeps what each allocator holds, so a request costs its levels, and a look-up of an allocator takes the same time in
/// every tree.
#[derive(Drop)]
pub struct SoloTree {
    rows: Rows,
    chunks: Chunks,
    next: u32,
    drawn: u32,
    calls: u32,
}

impl Model for SoloTree {
    ghost use Rattle.mem_model.specs.MeasuredTree.{MeasuredTree};

    ghost Value = { MeasuredTree };

    ghost use Rattle.alloc_tree.specs.Fields.{tree_of, IsCountedSolo};

    ghost view = { tree_of };

    ghost invariant = { IsCountedSolo };
}

impl SoloTree {
    /// A tree with its root alone, which may hold `root_limit` bytes. Takes the memory of all allocators.
    pub fn open(alloc: Global, root_limit: u64) -> Result<SoloTree, NoMemory>
        requires limit { root_limit ≤ MAX_LIMIT }
        ensures opened { IfOk result (IsOpened root_limit) }
    {
        let Ok(rows) = Rows::opened(alloc, root_limit) else {
            return Err(NoMemory);
        };
        Ok(SoloTree {
            rows,
            chunks: Chunks::new(alloc),
            next: 1,
            drawn: 0,
            calls: 0,
        })
    }

    /// An allocator with its numbers, if it was made. After `BaseAllocator.getAllocatedMemory`, `getPeakMemoryAllocation` and
    /// their like.
    pub fn node(&self, at: AllocId) -> Option<Placed>
        ensures { result ≡ placed_at (peak_at self.now) self.now.state at.0 }
    {
        let row = self.rows.get(at)?;
        Some(row.placed(at))
    }

    /// The number of the next allocator.
    pub fn next(&self) -> u32
        ensures { result ≡ self.now.state.next }
    {
        self.next
    }

    /// How many calls have drawn a number of an allocator or of a chunk, or added a reference. The count stands still at
    /// `u32::MAX`.
    pub fn calls(&self) -> u32
        ensures { result ≡ self.now.calls }
    {
        self.calls
    }

    /// How many chunk numbers were given.
    pub fn drawn(&self) -> u32
        ensures { result ≡ self.now.state.drawn }
    {
        self.drawn
    }

    /// The ledgers of a chunk, if it is live.
    pub fn chunk(&self, number: u32) -> Option<&Ledgers>
        ensures { option_map (λ ledgers. chunk_of (number, ledgers.now)) result ≡ chunk_at self.now.state.chunks number }
    {
        self.chunks.get(number)
    }

    /// The live chunks with their ledgers, in order of number.
    pub fn chunks(&self) -> Iter<'_, u32, Ledgers>
        ensures { map chunk_of result ≡ self.now.state.chunks }
    {
        self.chunks.iter()
    }

    // Whether an allocator was made and isn't closed.
    fn is_open(&self, at: AllocId) -> bool
        ensures { result ≡ is_open self.now.state at.0 }
    {
        self.rows.get_open(at).is_some()
    }
}

// The count of calls with one more.
fn one_more(calls: u32) -> u32
    ensures { result ≡ count_after calls 1 }
{
    calls.saturating_add(1)
}

/// The law that every tree is in a lawful state: its allocators are a tree within their bounds, and its live chunks are lawful.
pub fn every_tree_is_lawful(tree: &SoloTree)
    ensures { IsLawfulState tree.now.state }
{
    // Reading a field tells the proof what always holds of the tree.
    let _ = &tree.rows;
}

/// The law that the count of every tree covers the numbers that calls drew and the references that they added. So while calls are
/// left to be counted, numbers are left for a chunk and for an allocator, and any chunk has room for a reference more.
#[tactic(auto, using(crate::proofs::CountLemmas::room_left))]
pub fn every_tree_counts_its_calls(tree: &SoloTree)
    ensures counts { CountsCalls tree.now }
    ensures chunk_number { HasCallsLeft tree.now → tree.now.state.drawn + 1 < MOST_NUMBERS }
    ensures allocator_number { HasCallsLeft tree.now → tree.now.state.next + 1 < MOST_NUMBERS }
    ensures room { HasCallsLeft tree.now → (of : Ref) → HasRoomFor tree.now.state of }
{
    // Reading a field tells the proof what always holds of the tree.
    let _ = &tree.rows;
}

#[cfg(test)]
mod tests;
