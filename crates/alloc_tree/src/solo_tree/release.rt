//! Giving a reference back to a tree.
ghost use Rattle.std.specs.Prelude.{◌≡◌};
ghost use Rattle.mem_model.specs.MeasuredTree.{IsAfterCall};
ghost use Rattle.mem_model.specs.Release.{release_result};

use crate::solo_tree::SoloTree;
use ledger_map::After;
use mem_num::{Ref, Released};

impl SoloTree {
    /// Gives a reference back, and answers whether its ledger went. The chunk goes with its last ledger; where the owner's goes
    /// before, the chunk's charge moves to the next owner. After `BufferLedger.release`. Takes no memory.
    pub fn release(&mut self, of: Ref) -> Result<bool, Released>
        ensures answer { result ≡ (release_result self.old.state of).answer }
        ensures after { IsAfterCall self.old (release_result self.old.state of) self.new }
        ensures uncounted { self.new.calls ≡ self.old.calls }
    {
        let Some((after, size)) = self.chunks.release(of) else {
            return Err(Released {
                chunk: of.chunk,
                alloc: of.alloc,
            });
        };
        match after {
            After::Same => Ok(false),
            After::Gone => {
                self.rows.drop_use(of.alloc);
                Ok(true)
            }
            After::Moved(next) => {
                self.rows.move_charge(of.alloc, next, size);
                self.rows.drop_use(of.alloc);
                Ok(true)
            }
            After::Freed => {
                self.rows.release(of.alloc, size);
                self.rows.drop_use(of.alloc);
                Ok(true)
            }
        }
    }
}
