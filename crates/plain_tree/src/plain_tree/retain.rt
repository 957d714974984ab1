//! Referring to a chunk from one allocator more.
ghost use Rattle.std.specs.Prelude.{◌≡◌, IfOk, OnErr};
ghost use Rattle.plain_tree.specs.PlainTree.{MeetsCall};
ghost use Rattle.mem_model.specs.References.{HasRoomFor};
ghost use Rattle.mem_model.specs.Retain.{retain_result};

use super::PlainTree;
use super::references::reference_to;
use mem_num::{AllocId, Closed, Ref, Released, SoloRefused};
use std::alloc::{AllocError, Global};

impl PlainTree {
    /// Adds a reference of the target, which moves no charge. After `BufferLedger.retain` and `ArrowBuf.getReferenceManager`.
    pub fn retain(
        &mut self,
        alloc: Global,
        of: Ref,
        target: AllocId,
    ) -> Result<Result<Ref, SoloRefused>, AllocError>
        requires room { HasRoomFor self.old.state of }
        ensures call { IfOk result (λ answer.
            MeetsCall (retain_result self.old.state of target) self.old self.new answer) }

        // Memory ran out, and nothing changed.
        ensures err { OnErr result (self.new ≡ self.old) }
    {
        let Some(chunk) = self.referred_chunk(of) else {
            return Ok(Err(SoloRefused::Released(Released {
                chunk: of.chunk,
                alloc: of.alloc,
            })));
        };
        if !self.is_open(target) {
            return Ok(Err(SoloRefused::Closed(Closed {
                node: target,
                uses: 0,
            })));
        }
        let retained = chunk.retained(alloc, target)?;
        let chunks = self.chunks_with(alloc, &retained)?;
        self.put_chunks(chunks);
        Ok(Ok(reference_to(&retained, target)))
    }
}
