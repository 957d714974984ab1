//! Closing the allocators of a query, the root last.
ghost use Rattle.std.specs.Prelude.{◌≡◌, ◌<◌, ◌^◌, length};
ghost use Rattle.pipeline.specs.Closing.{closing_order, closings_done, after_closings};

use alloc_tree::SoloTree;
use mem_num::AllocId;

/// Result, sums, project, filter, scan, and the root last.
const CLOSING_ORDER: [AllocId; 6] = [
    AllocId(5),
    AllocId(4),
    AllocId(3),
    AllocId(2),
    AllocId(1),
    AllocId::ROOT,
];

/// Closes each allocator of a query that nothing uses, and tells how many were closed.
pub(crate) fn close_all(tree: &mut SoloTree) -> u32
    ensures done { result ≡ closings_done tree.old.state closing_order }
    ensures after { tree.new.state ≡ after_closings tree.old.state closing_order }
{
    close_each(tree, &CLOSING_ORDER)
}

// Closes these allocators, one after the other, and tells how many were closed.
fn close_each(tree: &mut SoloTree, order: &[AllocId]) -> u32
    requires few { length order.now < 2 ^ 32 }
    ensures done { result ≡ closings_done tree.old.state order.now }
    ensures after { tree.new.state ≡ after_closings tree.old.state order.now }
{
    let mut done = 0;
    for at in order {
        if tree.close(*at).is_ok() {
            done += 1;
        }
    }
    done
}

#[cfg(test)]
mod tests;
