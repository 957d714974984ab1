//! All that could be held at once.
ghost use Rattle.std.specs.Prelude.{◌↔◌, ℕ, ◌^◌, ◌<◌, IsTrue};
ghost use Rattle.mem_model.specs.Bound.{all_of};
ghost use Rattle.mem_model.specs.Charge.{charged_at};

use crate::charge::Charge;
use crate::tree_node::TreeNode;

/// Whether 64 bits hold every charge and every reservation together. Nobody holds more, so no number of such a tree wraps.
pub fn fits(nodes: &[TreeNode], charges: &[Charge]) -> bool
    ensures all { IsTrue result ↔ (all_of nodes.now charges.now < 2 ^ 64) }

    // Then they hold what any one allocator is charged, too.
    ensures charged { IsTrue result → (n : ℕ) → charged_at charges.now n < 2 ^ 64 }
{
    let mut all: u64 = 0;
    for charge in charges {
        let Some(sum) = all.checked_add(charge.amount) else {
            return false;
        };
        all = sum;
    }
    for node in nodes {
        let Some(sum) = all.checked_add(node.reservation) else {
            return false;
        };
        all = sum;
    }
    true
}
