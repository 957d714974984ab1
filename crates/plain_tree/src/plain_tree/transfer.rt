//! Moving the charge for a chunk to another allocator.
ghost use Rattle.std.specs.Prelude.{◌≡◌, IfOk, OnErr};
ghost use Rattle.plain_tree.specs.PlainTree.{MeetsCall};
ghost use Rattle.mem_model.specs.References.{HasRoomFor};
ghost use Rattle.mem_model.specs.Transfer.{transfer_result};

use super::PlainTree;
use super::references::reference_to;
use crate::chunk::Chunk;
use mem_model::Charge;
use mem_num::{AllocId, Closed, Ref, Released, SoloRefused};
use std::alloc::{AllocError, Global};

impl PlainTree {
    /// Adds a reference of the target, which is charged from then on where the source was; the answer tells whether
    /// every level of the charge is within its limit. After `BufferLedger.transferOwnership`.
    pub fn transfer(
        &mut self,
        alloc: Global,
        of: Ref,
        target: AllocId,
    ) -> Result<Result<(Ref, bool), SoloRefused>, AllocError>
        requires room { HasRoomFor self.old.state of }
        ensures call { IfOk result (λ answer.
            MeetsCall (transfer_result self.old.state of target) self.old self.new answer) }

        // Memory ran out, and nothing changed.
        ensures err { OnErr result (self.new ≡ self.old) }
    {
        let Some(chunk) = self.referred_chunk(of) else {
            return Ok(Err(SoloRefused::Released(Released {
                chunk: of.chunk,
                alloc: of.alloc,
            })));
        };
        if !self.is_open(target) {
            return Ok(Err(SoloRefused::Closed(Closed {
                node: target,
                uses: 0,
            })));
        }
        let retained = chunk.retained(alloc, target)?;
        let reference = reference_to(&retained, target);
        if !chunk.moves_charge(of.alloc, target) {
            let chunks = self.chunks_with(alloc, &retained)?;
            self.put_chunks(chunks);
            return Ok(Ok((reference, true)));
        }
        let force = Charge {
            at: target,
            amount: retained.size,
        };
        let fits = self.is_within_limits(alloc, force)?;
        let moved = Chunk {
            owner: target,
            ..retained
        };
        let chunks = self.chunks_with(alloc, &moved)?;
        self.measure_force(alloc, force)?;
        self.put_chunks(chunks);
        Ok(Ok((reference, fits)))
    }
}
