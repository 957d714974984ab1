//! Referring to a chunk of a tree from one allocator more.
ghost use Rattle.std.specs.Prelude.{◌≡◌, ◌≢◌, ◌↔◌, IsTrue, Err};
ghost use Rattle.mem_model.specs.Calls.{one_if_ok};
ghost use Rattle.mem_model.specs.MeasuredTree.{IsAfterCall};
ghost use Rattle.mem_model.specs.References.{HasRoomFor};
ghost use Rattle.mem_model.specs.Retain.{retain_result};
ghost use Rattle.alloc_tree.specs.Counting.{count_after};

use crate::solo_tree::{SoloTree, one_more};
use mem_num::{AllocId, Closed, Ref, Released, SoloRefused};

impl SoloTree {
    /// Whether the chunk of a reference can have one more, as `retain` and `transfer` ask.
    pub fn has_room_for(&self, of: Ref) -> bool
        ensures { IsTrue result ↔ HasRoomFor self.now.state of }
    {
        match self.chunk(of.chunk) {
            Some(ledgers) => ledgers.total() < u32::MAX.into(),
            None => true,
        }
    }

    /// Adds a reference of the target to the chunk of a reference. It moves no charge. After `BufferLedger.retain`. A ledger
    /// that wasn't there may take memory, nothing else does.
    pub fn retain(&mut self, of: Ref, target: AllocId) -> Result<Ref, SoloRefused>
        requires room { HasRoomFor self.old.state of }
        ensures answer { result ≢ Err SoloRefused.NoMemory → result ≡ (retain_result self.old.state of target).answer }
        ensures after { result ≢ Err SoloRefused.NoMemory → IsAfterCall self.old (retain_result self.old.state of target) self.new }
        ensures no_memory { result ≡ Err SoloRefused.NoMemory → self.new ≡ self.old }

        // It is counted where it adds a reference.
        ensures counted { self.new.calls ≡ count_after self.old.calls (one_if_ok result) }
    {
        let Some(ledgers) = self.chunks.referred(of) else {
            return Err(SoloRefused::Released(Released {
                chunk: of.chunk,
                alloc: of.alloc,
            }));
        };
        let reference = Ref {
            chunk: of.chunk,
            alloc: target,
            size: ledgers.size(),
        };
        let count = ledgers.count(target);
        if !self.is_open(target) {
            return Err(SoloRefused::Closed(Closed {
                node: target,
                uses: 0,
            }));
        }
        let Ok(_) = self.chunks.retain(of.chunk, target) else {
            return Err(SoloRefused::NoMemory);
        };
        self.calls = one_more(self.calls);
        if count > 0 {
            return Ok(reference);
        }
        self.rows.add_use(target);
        Ok(reference)
    }
}
