//! Making a child.
ghost use Rattle.std.specs.Prelude.{◌≡◌, ◌+◌, ◌<◌, ◌≤◌, ◌^◌, [], ◌∷◌, ◌++◌, nat_lt, IfOk, OnOk, OnErr};
ghost use Rattle.mem_num.specs.declared.bounds.TheConstants.{MAX_LIMIT, MAX_RESERVATION};
ghost use Rattle.mem_model.specs.PeakSample.{IsSoundSample};
ghost use Rattle.mem_model.specs.Child as spec;
ghost use Rattle.plain_tree.specs.PlainTree.{MeetsCall, IsNewChild};

use super::PlainTree;
use mem_model::{Charge, PeakSample, TreeNode};
use mem_num::{AllocId, ChildRefused, Closed, MOST_ALLOCATORS};
use std::alloc::{AllocError, Global};

fn with_node(alloc: Global, nodes: &[TreeNode], node: TreeNode) -> Result<Vec<TreeNode>, AllocError>
    ensures { IfOk result (λ more. more.items ≡ nodes.now ++ node ∷ []) }
{
    let mut more = Vec::from_slice(alloc, nodes)?;
    more.push(node)?;
    Ok(more)
}

impl PlainTree {
    // The child of the next number.
    fn push_child(
        &mut self,
        alloc: Global,
        parent: AllocId,
        reservation: u64,
        limit: u64,
        sample: PeakSample,
    ) -> Result<(), AllocError>
        requires child { IsNewChild self.old.state parent reservation limit }
        requires sound { IsSoundSample sample }
        ensures ok { OnOk result (self.new ≡ record {
          state = spec.after_child self.old.state (spec.child_node self.old.state parent reservation limit) None;
          samples = self.old.samples ++ sample ∷ [];
        }) }
        ensures err { OnErr result (self.new ≡ self.old) }
    {
        let child = TreeNode {
            number: AllocId(self.next),
            parent: Some(parent),
            reservation,
            limit,
            closed: false,
        };
        let nodes = with_node(alloc, &self.nodes, child)?;
        self.samples.push(sample)?;
        self.nodes = nodes;
        self.next += 1;
        Ok(())
    }

    // A child that is refused for its reservation has spent its number.
    fn spend_number(&mut self, sample: PeakSample) -> Result<(), AllocError>
        requires numbers { self.old.state.next < u32.MAX }
        requires sound { IsSoundSample sample }
        ensures ok { OnOk result (self.new ≡ record {
          state = record self.old.state { next = self.old.state.next + 1 };
          samples = self.old.samples ++ sample ∷ [];
        }) }
        ensures err { OnErr result (self.new ≡ self.old) }
    {
        self.samples.push(sample)?;
        self.next += 1;
        Ok(())
    }

    fn after_child(
        &mut self,
        alloc: Global,
        parent: AllocId,
        reservation: u64,
        limit: u64,
        refusing: Option<TreeNode>,
        sample: PeakSample,
    ) -> Result<(), AllocError>
        requires child { IsNewChild self.old.state parent reservation limit }
        requires sound { IsSoundSample sample }
        ensures ok { OnOk result (self.new ≡ record {
          state = spec.after_child self.old.state (spec.child_node self.old.state parent reservation limit) refusing;
          samples = self.old.samples ++ sample ∷ [];
        }) }
        ensures err { OnErr result (self.new ≡ self.old) }
    {
        match refusing {
            None => self.push_child(alloc, parent, reservation, limit, sample),
            Some(_) => self.spend_number(sample),
        }
    }

    fn child_answer(
        &self,
        alloc: Global,
        request: Charge,
        refusing: Option<TreeNode>,
    ) -> Result<Result<AllocId, ChildRefused>, AllocError>
        requires small { request.amount ≤ MAX_RESERVATION }
        ensures answer { IfOk result (λ answer. answer ≡ spec.child_answer self.now.state request refusing) }
    {
        let Some(level) = refusing else {
            return Ok(Ok(AllocId(self.next)));
        };
        let full = self.refusal(alloc, request, level)?;
        Ok(Err(ChildRefused::Full(full)))
    }

    fn made(
        &mut self,
        alloc: Global,
        parent: AllocId,
        reservation: u64,
        limit: u64,
    ) -> Result<Result<AllocId, ChildRefused>, AllocError>
        requires child { IsNewChild self.old.state parent reservation limit }
        ensures call { IfOk result (λ answer.
            MeetsCall (spec.made_result self.old.state parent reservation limit) self.old self.new answer) }
        ensures err { OnErr result (self.new ≡ self.old) }
    {
        let request = Charge {
            at: parent,
            amount: reservation,
        };
        let refusing = self.refusing(alloc, request)?;
        let answer = self.child_answer(alloc, request, refusing)?;
        let sample = self.sample(alloc, request)?;
        self.after_child(alloc, parent, reservation, limit, refusing, sample)?;
        Ok(answer)
    }

    // One number past the last that an allocator may have is spent.
    fn past_nodes(&mut self) -> ChildRefused
        requires numbers { self.old.state.next < u32.MAX }
        ensures answer { result ≡ ChildRefused.Nodes (self.old.state.next) }
        ensures tree { self.new ≡ record self.old {
          state = record self.old.state { next = self.old.state.next + 1 };
        } }
    {
        let next = self.next;
        self.next = next + 1;
        ChildRefused::Nodes {
            next: u64::from(next),
        }
    }

    fn has_node_left(&self) -> bool
        ensures { result ≡ nat_lt self.now.state.next MOST_ALLOCATORS }
    {
        self.next < MOST_ALLOCATORS
    }

    /// Makes a child of an allocator, which sets `reservation` bytes aside for it. After `BaseAllocator.newChildAllocator`.
    pub fn child(
        &mut self,
        alloc: Global,
        parent: AllocId,
        reservation: u64,
        limit: u64,
    ) -> Result<Result<AllocId, ChildRefused>, AllocError>
        requires reservation { reservation ≤ MAX_RESERVATION }
        requires limit { limit ≤ MAX_LIMIT }
        requires numbers { self.old.state.next < u32.MAX }
        ensures call { IfOk result (λ answer.
            MeetsCall (spec.child_result self.old.state parent reservation limit) self.old self.new answer) }

        // Memory ran out, and nothing changed.
        ensures err { OnErr result (self.new ≡ self.old) }
    {
        if limit < reservation {
            return Ok(Err(ChildRefused::ReserveAboveLimit { reservation, limit }));
        }
        if !self.is_open(parent) {
            let closed = Closed {
                node: parent,
                uses: 0,
            };
            return Ok(Err(ChildRefused::Closed(closed)));
        }
        if !self.has_node_left() {
            return Ok(Err(self.past_nodes()));
        }
        self.made(alloc, parent, reservation, limit)
    }
}
