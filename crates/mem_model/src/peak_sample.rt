//! Moments at which peaks are measured.
ghost use Rattle.std.specs.Prelude.{◌≡◌, ◌↔◌, IsTrue, All};
ghost use Rattle.mem_model.specs.PeakSample as spec;

use crate::bound::fits;
use crate::charge::Charge;
use crate::held::held_of;
use crate::tree_node::{TreeNode, is_allocator_tree};
use mem_num::AllocId;
use std::marker::Model;

/// The charges at a moment when peaks are measured, with the allocators for which it counts.
#[derive(Drop)]
pub struct PeakSample {
    nodes: Vec<TreeNode>,
    charges: Vec<Charge>,
    counts: Vec<AllocId>,
}

impl Model for PeakSample {
    ghost use Rattle.mem_model.specs.PeakSample as spec;

    ghost Value = { spec.PeakSample };

    ghost view = { λ s. record { nodes = s.nodes.items; charges = s.charges.items; counts = s.counts.items } };
}

impl PeakSample {
    pub fn new(nodes: Vec<TreeNode>, charges: Vec<Charge>, counts: Vec<AllocId>) -> PeakSample
        ensures { result ≡ record { nodes = nodes.items; charges = charges.items; counts = counts.items } }
    {
        PeakSample {
            nodes,
            charges,
            counts,
        }
    }

    /// Whether it is a sample of a tree whose numbers 64 bits hold.
    pub fn is_sound(&self) -> bool
        ensures { IsTrue result ↔ spec.IsSoundSample self.now }
    {
        is_allocator_tree(&self.nodes) && fits(&self.nodes, &self.charges)
    }

    fn counts_for(&self, at: AllocId) -> bool
        ensures { result ≡ spec.is_counted at.0 self.now }
    {
        self.counts.iter().any(|id| *id == at)
    }

    fn held_by(&self, at: AllocId) -> u64
        requires { spec.IsSoundSample self.now }
        ensures { result ≡ spec.held_in at.0 self.now }
    {
        held_of(&self.nodes, &self.charges, at)
    }
}

/// The peak of an allocator, in bytes: the greatest that it holds in the samples that count for it, or 0.
pub fn peak_of(samples: &[PeakSample], at: AllocId) -> u64
    requires { All spec.IsSoundSample samples.now }
    ensures { result ≡ spec.peak_of samples.now at.0 }
{
    let mut peak = 0;
    for sample in samples {
        if sample.counts_for(at) {
            peak = peak.max(sample.held_by(at));
        }
    }
    peak
}
