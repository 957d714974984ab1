//! Moving the charge for a chunk of a tree to another allocator.
ghost use Rattle.std.specs.Prelude.{◌≡◌, ◌≢◌, ◌≤◌, Err};
ghost use Rattle.std.specs.Option.{ForSome};
ghost use Rattle.mem_model.specs.Calls.{one_if_ok};
ghost use Rattle.mem_model.specs.Ledgers.{count_of};
ghost use Rattle.mem_model.specs.MeasuredTree.{IsAfterCall};
ghost use Rattle.mem_model.specs.References.{HasRoomFor};
ghost use Rattle.mem_model.specs.Transfer.{transfer_result};
ghost use Rattle.mem_model.specs.Chunk.{chunk_at};
ghost use Rattle.alloc_tree.specs.Counting.{count_after};
ghost use Rattle.alloc_tree.specs.TakeOver.{take_over_result};

use crate::solo_tree::SoloTree;
use mem_num::{AllocId, Ref, SoloRefused};

impl SoloTree {
    /// Adds a reference of the target to the chunk of a reference, and charges the target from then on where the source was;
    /// answers whether every level was within its limit. After `BufferLedger.transferOwnership`. A ledger that wasn't there may
    /// take memory, nothing else does.
    pub fn transfer(&mut self, of: Ref, target: AllocId) -> Result<(Ref, bool), SoloRefused>
        requires room { HasRoomFor self.old.state of }
        ensures answer { result ≢ Err SoloRefused.NoMemory → result ≡ (transfer_result self.old.state of target).answer }
        ensures after { result ≢ Err SoloRefused.NoMemory → IsAfterCall self.old (transfer_result self.old.state of target) self.new }
        ensures no_memory { result ≡ Err SoloRefused.NoMemory → self.new ≡ self.old }

        // It is counted where it adds a reference.
        ensures counted { self.new.calls ≡ count_after self.old.calls (one_if_ok result) }
    {
        // Reading a field tells the proof what always holds of the tree.
        let _ = &self.rows;
        let reference = self.retain(of, target)?;
        let fits = self.take_over(of, target);
        Ok((reference, fits))
    }

    // Moves the charge for a chunk, if the source is charged for it and isn't the target, which has a reference.
    fn take_over(&mut self, of: Ref, target: AllocId) -> bool
        requires refers { ForSome (chunk_at self.old.state.chunks of.chunk) (λ chunk. 1 ≤ count_of chunk.ledgers target.0) }
        ensures answer { result ≡ (take_over_result self.old.state of target).answer }
        ensures after { IsAfterCall self.old (take_over_result self.old.state of target) self.new }
        ensures uncounted { self.new.calls ≡ self.old.calls }
    {
        let Some(ledgers) = self.chunks.get(of.chunk) else {
            return true;
        };
        if ledgers.owner() != of.alloc || target == of.alloc {
            return true;
        }
        let size = ledgers.size();
        let fits = self.rows.move_charge(of.alloc, target, size);
        self.chunks.make_owner(of.chunk, target);
        fits
    }
}
