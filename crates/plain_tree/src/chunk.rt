//! A live chunk.
ghost use Rattle.std.specs.Prelude.{◌≡◌, ◌+◌, ◌<◌, ◌≤◌, ◌^◌, IfOk};
ghost use Rattle.mem_model.specs.Chunk as spec;
ghost use Rattle.mem_model.specs.Ledgers.{count_of};
ghost use Rattle.mem_model.specs.Transfer.{moves_charge};

use mem_model::{Charge, Ledger, count_of, has_ledger, with_count};
use mem_num::AllocId;
use std::alloc::{AllocError, Global};
use std::marker::Model;

/// A chunk of memory that is referred to. After Arrow Java's `AllocationManager`, whose owning ledger's allocator is charged
/// the whole size.
#[derive(Debug, Drop)]
pub struct Chunk {
    /// From 1 on; no number is given twice.
    pub(crate) number: u32,
    /// In bytes, rounded.
    pub(crate) size: u64,
    /// The allocator that is charged the size.
    pub(crate) owner: AllocId,
    /// Who refers to it, in order of number.
    pub(crate) ledgers: Vec<Ledger>,
}

impl Model for Chunk {
    ghost use Rattle.mem_model.specs.Chunk as spec;

    ghost Value = { spec.Chunk };

    ghost view = { λ chunk. record { number = chunk.number; size = chunk.size; owner = chunk.owner; ledgers = chunk.ledgers.items } };
}

impl Chunk {
    /// A chunk to which its owner alone refers, once.
    pub(crate) fn new(
        alloc: Global,
        number: u32,
        size: u64,
        owner: AllocId,
    ) -> Result<Chunk, AllocError>
        ensures { IfOk result (λ chunk. chunk ≡ spec.new_chunk number size owner) }
    {
        let mut ledgers = Vec::new(alloc);
        ledgers.push(Ledger {
            at: owner,
            count: 1,
        })?;
        Ok(Chunk {
            number,
            size,
            owner,
            ledgers,
        })
    }

    /// The same chunk once more.
    pub(crate) fn copy(&self, alloc: Global) -> Result<Chunk, AllocError>
        ensures { IfOk result (λ copy. copy ≡ self.now) }
    {
        let ledgers = Vec::from_slice(alloc, &self.ledgers)?;
        Ok(Chunk { ledgers, ..*self })
    }

    /// Whether an allocator refers to it.
    pub(crate) fn has_ledger(&self, at: AllocId) -> bool
        ensures { result ≡ spec.has_ledger at.0 self.now }
    {
        has_ledger(&self.ledgers, at)
    }

    /// Whether a transfer from one allocator to another moves the charge.
    pub(crate) fn moves_charge(&self, source: AllocId, target: AllocId) -> bool
        ensures { result ≡ moves_charge source target self.now }
    {
        self.owner == source && target != source
    }

    /// The chunk with a reference more of an allocator.
    pub(crate) fn retained(&self, alloc: Global, at: AllocId) -> Result<Chunk, AllocError>
        requires { count_of self.now.ledgers at.0 + 1 < 2 ^ 64 }
        ensures { IfOk result (λ chunk. chunk ≡ spec.retained at.0 self.now) }
    {
        let count = count_of(&self.ledgers, at) + 1;
        let ledgers = with_count(alloc, &self.ledgers, at, count)?;
        Ok(Chunk { ledgers, ..*self })
    }

    /// The chunk with a reference less of an allocator that has one.
    pub(crate) fn released(&self, alloc: Global, at: AllocId) -> Result<Chunk, AllocError>
        requires few { count_of self.now.ledgers at.0 < 2 ^ 64 }
        requires some { 1 ≤ count_of self.now.ledgers at.0 }
        ensures { IfOk result (λ chunk. chunk ≡ spec.released at.0 self.now) }
    {
        let count = count_of(&self.ledgers, at) - 1;
        let ledgers = with_count(alloc, &self.ledgers, at, count)?;
        let owner = next_owner(self.owner, &ledgers);
        Ok(Chunk {
            owner,
            ledgers,
            ..*self
        })
    }
}

// Who owns a chunk with these ledgers, by the owner before.
fn next_owner(owner: AllocId, ledgers: &[Ledger]) -> AllocId
    ensures { result ≡ spec.next_owner owner ledgers.now }
{
    match ledgers {
        [] => owner,
        _ if has_ledger(ledgers, owner) => owner,
        [first, ..] => first.at,
    }
}

/// The same chunks once more.
pub(crate) fn copies_of(alloc: Global, chunks: &[Chunk]) -> Result<Vec<Chunk>, AllocError>
    ensures { IfOk result (λ copies. copies.items ≡ chunks.now) }
{
    let mut copies = Vec::new(alloc);
    for chunk in chunks {
        copies.push(chunk.copy(alloc)?)?;
    }
    Ok(copies)
}

/// The charges that some chunks make: each chunk's size at its owner.
pub fn charges_of(alloc: Global, chunks: &[Chunk]) -> Result<Vec<Charge>, AllocError>
    ensures { IfOk result (λ charges. charges.items ≡ spec.charges_of chunks.now) }
{
    chunks
        .iter()
        .map(|chunk| Charge {
            at: chunk.owner,
            amount: chunk.size,
        })
        .collect(alloc)
}

#[cfg(test)]
mod tests {
    use super::*;
    use std::test::Fail;

    #[test]
    fn a_chunk_is_charged_to_its_owner(rt: HostRuntime) -> Result<(), Fail> {
        let alloc = rt.alloc();
        let mut charges = Vec::new(alloc);
        for (number, size, owner) in [(1, 1_024, 1), (2, 2, 2), (4, 16, 1)] {
            let chunk = Chunk::new(alloc, number, size, AllocId(owner))?;
            charges.extend_from_slice(&charges_of(alloc, &[chunk])?)?;
        }
        let charged: Vec<(u32, u64)> = charges
            .iter()
            .map(|charge| (charge.at.0, charge.amount))
            .collect(alloc)?;
        assert_eq!(rt;
            charged.as_slice(),
            [(1, 1_024), (2, 2), (1, 16)].as_slice()
        );
        Ok(())
    }
}
