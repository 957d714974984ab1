//! The tree of one thread as its definition, slow: each call computes by the definitions alone, and keeps no held number and
//! no peak.
ghost use Rattle.std.specs.Prelude.{◌≡◌, [], ◌∷◌, ◌++◌, ◌<◌, ◌≤◌, ◌^◌, ◌↔◌, All, IsTrue, IfOk, OnOk, OnErr};
ghost use Rattle.mem_num.specs.declared.bounds.TheConstants.{MAX_LIMIT, MAX_RESERVATION};
ghost use Rattle.mem_model.specs.Request as trial;
ghost use Rattle.mem_model.specs.PeakSample.{IsSoundSample, request_sample};
ghost use Rattle.mem_model.specs.TreeState as tree;
ghost use Rattle.plain_tree.specs.PlainTree.{HasFewReferences, opened_sampled};
ghost use Rattle.mem_model.specs.LawfulState.{IsLawfulState};
ghost use Rattle.mem_model.specs.References.{HasRoomFor};
ghost use Rattle.mem_model.specs.Force as spec_of_force;

use crate::chunk::{Chunk, charges_of};
use mem_model::{
    Charge, PeakSample, TreeNode, force_sample, refusal_of, refusing_level, request_sample,
    total_of,
};
use mem_num::{AllocId, Full, Ref};
use std::alloc::{AllocError, Global};
use std::marker::Model;

mod child;
mod close;
mod grant;
mod headroom;
mod node;
mod references;
mod release;
mod retain;
#[cfg(test)]
mod tests;
mod transfer;

/// A tree of one thread. After Arrow Java's `RootAllocator`, which keeps the numbers that are summed here.
#[derive(Drop)]
pub struct PlainTree {
    nodes: Vec<TreeNode>,
    chunks: Vec<Chunk>,
    samples: Vec<PeakSample>,
    next: u32,
    drawn: u32,
}

impl Model for PlainTree {
    ghost use Rattle.plain_tree.specs.PlainTree.{SampledTree};

    ghost Value = { SampledTree };

    ghost use Rattle.plain_tree.specs.Fields as fields;

    ghost view = { fields.sampled_tree };

    ghost invariant = { fields.HasSoundFields };
}

fn root(limit: u64) -> TreeNode
    ensures { result ≡ tree.root_node limit }
{
    TreeNode {
        number: AllocId::ROOT,
        parent: None,
        reservation: 0,
        limit,
        closed: false,
    }
}

impl PlainTree {
    /// A tree with its root alone, which may hold `limit` bytes.
    pub fn open(alloc: Global, limit: u64) -> Result<PlainTree, AllocError>
        requires limit { limit ≤ MAX_LIMIT }
        ensures opened { IfOk result (λ made. made ≡ opened_sampled limit) }
    {
        let mut nodes = Vec::new(alloc);
        nodes.push(root(limit))?;
        Ok(PlainTree {
            nodes,
            chunks: Vec::new(alloc),
            samples: Vec::new(alloc),
            next: 1,
            drawn: 0,
        })
    }

    /// Whether a chunk's number is left, as a request for a buffer asks.
    pub fn has_chunk_number(&self) -> bool
        ensures { IsTrue result ↔ (self.now.state.drawn < u32.MAX) }
    {
        self.drawn < u32::MAX
    }

    /// Whether an allocator's number is left, as a child asks.
    pub fn has_node_number(&self) -> bool
        ensures { IsTrue result ↔ (self.now.state.next < u32.MAX) }
    {
        self.next < u32::MAX
    }

    /// Whether the chunk of a reference can have one more, as `retain` and `transfer` ask.
    pub fn has_room_for(&self, of: Ref) -> bool
        ensures { IsTrue result ↔ HasRoomFor self.now.state of }
    {
        match self.numbered_chunk(of.chunk) {
            Some(chunk) => total_of(&chunk.ledgers) < u64::from(u32::MAX),
            None => true,
        }
    }

    fn is_open(&self, at: AllocId) -> bool
        ensures { result ≡ tree.is_open self.now.state at.0 }
    {
        self.nodes
            .iter()
            .any(|node| node.number == at && !node.closed)
    }

    fn charges(&self, alloc: Global) -> Result<Vec<Charge>, AllocError>
        ensures { IfOk result (λ charges. charges.items ≡ tree.charges_in self.now.state) }
    {
        charges_of(alloc, &self.chunks)
    }

    // The level that refuses a request.
    fn refusing(&self, alloc: Global, request: Charge) -> Result<Option<TreeNode>, AllocError>
        requires small { request.amount ≤ MAX_RESERVATION }
        ensures level { IfOk result (λ level.
            level ≡ trial.refusing_level self.now.state.nodes (tree.charges_in self.now.state) request) }
    {
        let charges = self.charges(alloc)?;
        refusing_level(alloc, &self.nodes, &charges, request)
    }

    fn refusal(&self, alloc: Global, request: Charge, level: TreeNode) -> Result<Full, AllocError>
        requires small { request.amount ≤ MAX_RESERVATION }
        ensures numbers { IfOk result (λ full.
            full ≡ trial.refusal_of self.now.state.nodes (tree.charges_in self.now.state) request level) }
    {
        let charges = self.charges(alloc)?;
        refusal_of(alloc, &self.nodes, &charges, request, level)
    }

    // The moment of a request.
    fn sample(&self, alloc: Global, request: Charge) -> Result<PeakSample, AllocError>
        requires small { request.amount ≤ MAX_RESERVATION }
        ensures sample { IfOk result (λ sample.
            sample ≡ request_sample self.now.state.nodes (tree.charges_in self.now.state) request) }
        ensures sound { IfOk result IsSoundSample }
    {
        let charges = self.charges(alloc)?;
        request_sample(alloc, &self.nodes, &charges, request)
    }

    // Whether no level is past its limit with a forced charge.
    fn is_within_limits(&self, alloc: Global, force: Charge) -> Result<bool, AllocError>
        requires small { force.amount ≤ MAX_RESERVATION }
        ensures { IfOk result (λ fits. fits ≡ spec_of_force.is_within_limits self.now.state force) }
    {
        let refusing = self.refusing(alloc, force)?;
        Ok(refusing.is_none())
    }

    // Measures the moment of a forced charge.
    fn measure_force(&mut self, alloc: Global, force: Charge) -> Result<(), AllocError>
        requires small { force.amount ≤ MAX_RESERVATION }
        ensures ok { OnOk result (self.new ≡ record self.old {
          samples = self.old.samples ++ spec_of_force.force_sample self.old.state force ∷ [];
        }) }
        ensures err { OnErr result (self.new ≡ self.old) }
    {
        let charges = self.charges(alloc)?;
        let sample = force_sample(alloc, &self.nodes, &charges, force)?;
        self.samples.push(sample)?;
        Ok(())
    }

    // Other chunks stand in the place of those that are there.
    fn put_chunks(&mut self, chunks: Vec<Chunk>)
        requires lawful { IsLawfulState (record self.old.state { chunks = chunks.items }) }
        requires references { All HasFewReferences chunks.items }
        ensures { self.new ≡ record self.old { state = record self.old.state { chunks = chunks.items } } }
    {
        self.chunks = chunks;
    }

    fn uses(&self, at: AllocId) -> u64
        ensures { result ≡ tree.uses_of self.now.state at.0 }
    {
        let ledgers = self
            .chunks
            .iter()
            .filter(|chunk| chunk.has_ledger(at))
            .count();
        let children = self
            .nodes
            .iter()
            .filter(|node| node.is_open_child(at))
            .count();
        (ledgers + children) as u64
    }
}
