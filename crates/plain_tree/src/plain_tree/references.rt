//! The chunk of a reference, and chunks where one of them has changed.
ghost use Rattle.std.specs.Prelude.{◌≡◌, ◌==◌, IfOk, IfSome};
ghost use Rattle.std.specs.List.{find};
ghost use Rattle.std.specs.Option.{option_map};
ghost use Rattle.mem_model.specs.Chunk as spec;
ghost use Rattle.mem_model.specs.References.{refers_to, referred_chunk};
ghost use Rattle.plain_tree.specs.PlainTree.{HasFewReferences, IsReferred, IsSoundTree};
ghost use Rattle.mem_model.specs.Release as release;

use super::PlainTree;
use crate::chunk::Chunk;
use mem_num::{AllocId, Ref};
use std::alloc::{AllocError, Global};

fn find_number(chunks: &[Chunk], number: u32) -> Option<&Chunk>
    ensures { option_map (λ chunk. chunk.now) result ≡ find (λ chunk. chunk.number == number) chunks.now }
{
    chunks.iter().find(|chunk| chunk.number == number)
}

fn find_chunk(chunks: &[Chunk], of: Ref) -> Option<&Chunk>
    ensures { option_map (λ chunk. chunk.now) result ≡ find (refers_to of) chunks.now }
{
    chunks.iter().find(|chunk| chunk.number == of.chunk && chunk.has_ledger(of.alloc))
}

/// A reference of an allocator to a chunk.
pub(super) fn reference_to(chunk: &Chunk, alloc: AllocId) -> Ref
    ensures { result ≡ record { chunk = chunk.now.number; alloc = alloc; size = chunk.now.size } }
{
    Ref {
        chunk: chunk.number,
        alloc,
        size: chunk.size,
    }
}

fn with_chunk(alloc: Global, chunks: &[Chunk], new: &Chunk) -> Result<Vec<Chunk>, AllocError>
    ensures { IfOk result (λ changed. changed.items ≡ spec.with_chunk new.now chunks.now) }
{
    let mut changed = Vec::new(alloc);
    for old in chunks {
        let kept = if old.number == new.number { new } else { old };
        changed.push(kept.copy(alloc)?)?;
    }
    Ok(changed)
}

fn without_chunk(alloc: Global, chunks: &[Chunk], number: u32) -> Result<Vec<Chunk>, AllocError>
    ensures { IfOk result (λ kept. kept.items ≡ release.without_chunk number chunks.now) }
{
    let mut kept = Vec::new(alloc);
    for chunk in chunks {
        if chunk.number != number {
            kept.push(chunk.copy(alloc)?)?;
        }
    }
    Ok(kept)
}

fn after_release(alloc: Global, chunks: &[Chunk], left: &Chunk) -> Result<Vec<Chunk>, AllocError>
    ensures { IfOk result (λ kept. kept.items ≡ release.after_release left.now chunks.now) }
{
    if left.has_ledger(left.owner) {
        with_chunk(alloc, chunks, left)
    } else {
        without_chunk(alloc, chunks, left.number)
    }
}

impl PlainTree {
    fn find_referred(&self, of: Ref) -> Option<&Chunk>
        ensures value { option_map (λ chunk. chunk.now) result ≡ referred_chunk self.now.state of }
        ensures sound { IsSoundTree self.now }
    {
        find_chunk(&self.chunks, of)
    }

    fn find_numbered(&self, number: u32) -> Option<&Chunk>
        ensures value { option_map (λ chunk. chunk.now) result ≡ find (λ chunk. chunk.number == number) self.now.state.chunks }
        ensures sound { IsSoundTree self.now }
    {
        find_number(&self.chunks, number)
    }

    /// The chunk that a reference is to, if it wasn't given back.
    pub(super) fn referred_chunk(&self, of: Ref) -> Option<&Chunk>
        ensures value { option_map (λ chunk. chunk.now) result ≡ referred_chunk self.now.state of }
        ensures referred { IfSome result (λ chunk. IsReferred self.now.state of chunk.now) }
        ensures sound { IsSoundTree self.now }
    {
        self.find_referred(of)
    }

    /// The chunk of a number, if it is live.
    pub(super) fn numbered_chunk(&self, number: u32) -> Option<&Chunk>
        ensures value { option_map (λ chunk. chunk.now) result ≡ find (λ chunk. chunk.number == number) self.now.state.chunks }
        ensures few { IfSome result (λ chunk. HasFewReferences chunk.now) }
    {
        self.find_numbered(number)
    }

    /// The chunks, where one stands in the place of that of its number.
    pub(super) fn chunks_with(&self, alloc: Global, new: &Chunk) -> Result<Vec<Chunk>, AllocError>
        ensures { IfOk result (λ changed. changed.items ≡ spec.with_chunk new.now self.now.state.chunks) }
    {
        with_chunk(alloc, &self.chunks, new)
    }

    /// The chunks, where a release left one of them so.
    pub(super) fn chunks_after(&self, alloc: Global, left: &Chunk) -> Result<Vec<Chunk>, AllocError>
        ensures { IfOk result (λ kept. kept.items ≡ release.after_release left.now self.now.state.chunks) }
    {
        after_release(alloc, &self.chunks, left)
    }
}
