//! What an allocator holds.
ghost use Rattle.std.specs.Prelude.{◌≡◌, ◌+◌, ◌^◌, ◌<◌};
ghost use Rattle.mem_model.specs.Charge.{charged_at};
ghost use Rattle.mem_model.specs.TreeNode.{IsAllocatorTree};
ghost use Rattle.mem_model.specs.Bound.{all_of};
ghost use Rattle.mem_model.specs.Held as spec;

use crate::charge::{self, Charge};
use crate::tree_node::TreeNode;
use mem_num::AllocId;

/// What an allocator holds, in bytes, summed afresh: its own charges and, for each open child, the greater of what the child
/// holds and what it reserves. After `Accountant.getAllocatedMemory`, which keeps the number instead.
#[tactic(auto, using(crate::proofs::HeldLemmas::held_of_equation, crate::proofs::BoundLemmas::held_of_bound))]
pub fn held_of(nodes: &[TreeNode], charges: &[Charge], at: AllocId) -> u64
    requires tree { IsAllocatorTree nodes.now }
    requires fits { all_of nodes.now charges.now < 2 ^ 64 }
    ensures value { result ≡ spec.held_of nodes.now charges.now at.0 }

    // The number is what its own charges and its open children say, each child by its own number.
    ensures equation { result ≡ charged_at charges.now at.0
        + spec.counted_children (spec.held_of nodes.now charges.now) nodes.now at.0 }
{
    sum_down(nodes, charges, at)
}

// The children of an allocator stand behind it in the list.
fn sum_down(nodes: &[TreeNode], charges: &[Charge], at: AllocId) -> u64
    requires { spec.held_of nodes.now charges.now at.0 < 2 ^ 64 }
    ensures { result ≡ spec.held_of nodes.now charges.now at.0 }
{
    let [node, later @ ..] = nodes else {
        return charge::charged_at(charges, at);
    };
    let held = sum_down(later, charges, at);
    if node.is_open_child(at) {
        sum_down(later, charges, node.number).max(node.reservation) + held
    } else {
        held
    }
}
