//! Giving a reference back.
ghost use Rattle.std.specs.Prelude.{◌≡◌, ◌≤◌, ◌^◌, ◌++◌, IfOk, OnOk, OnErr};
ghost use Rattle.mem_num.specs.declared.bounds.TheConstants.{LARGEST};
ghost use Rattle.plain_tree.specs.PlainTree.{MeetsCall};
ghost use Rattle.mem_model.specs.Release.{release_result, release_samples};

use super::PlainTree;
use crate::chunk::Chunk;
use mem_model::Charge;
use mem_num::{AllocId, Ref, Released};
use std::alloc::{AllocError, Global};

impl PlainTree {
    // Measures the moment at which a charge is forced onto the next owner, if there is another one.
    fn measure_release(
        &mut self,
        alloc: Global,
        owner: AllocId,
        left: &Chunk,
    ) -> Result<(), AllocError>
        requires { left.now.size ≤ LARGEST }
        ensures ok { OnOk result (self.new ≡ record self.old {
          samples = self.old.samples ++ release_samples self.old.state owner left.now;
        }) }
        ensures err { OnErr result (self.new ≡ self.old) }
    {
        if left.owner == owner {
            return Ok(());
        }
        let force = Charge {
            at: left.owner,
            amount: left.size,
        };
        self.measure_force(alloc, force)
    }

    /// Gives a reference back, and answers whether its ledger went. After `BufferLedger.release`.
    pub fn release(&mut self, alloc: Global, of: Ref) -> Result<Result<bool, Released>, AllocError>
        ensures call { IfOk result (λ answer.
            MeetsCall (release_result self.old.state of) self.old self.new answer) }

        // Memory ran out, and nothing changed.
        ensures err { OnErr result (self.new ≡ self.old) }
    {
        let Some(chunk) = self.referred_chunk(of) else {
            return Ok(Err(Released {
                chunk: of.chunk,
                alloc: of.alloc,
            }));
        };
        let owner = chunk.owner;
        let left = chunk.released(alloc, of.alloc)?;
        let chunks = self.chunks_after(alloc, &left)?;
        self.measure_release(alloc, owner, &left)?;
        self.put_chunks(chunks);
        Ok(Ok(!left.has_ledger(of.alloc)))
    }
}
