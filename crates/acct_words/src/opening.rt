//! The words with which a table opens.
ghost use Rattle.std.specs.Prelude.{◌≡◌, ℕ, ◌+◌, ◌*◌, ◌^◌, ◌<◌, ◌≤◌, ◌↔◌, length, true, IfOk, IsTrue};
ghost use Rattle.mem_num.specs.declared.bounds.TheConstants.{MOST_ALLOCATORS};
ghost use Rattle.acct_words.specs.Openings.{AreFilledFrom, AreOpeningWords, ComeAfterParents, IsFixedTree};

use crate::fixed::Fixed;
use mem_num::{MAX_RESERVATION, MOST_ALLOCATORS, NoMemory};
use std::alloc::Global;

/// Writes what is fixed of an allocator, and counts the allocator at its parent; those of larger numbers were counted before.
fn fill_level(nodes: &[Fixed], words: &mut [u64], level: usize)
    requires level { level < length nodes.now }
    requires tree { IsFixedTree nodes.now }
    requires filled { AreFilledFrom nodes.now (level + 1) words.old }
    ensures { AreFilledFrom nodes.now level words.new }
{
    let node = &nodes[level];
    words[16 * level + 33] = node.limit;
    words[16 * level + 35] = node.reservation;
    words[16 * level + 36] = node.parent.0 as u64;
    if level > 0 {
        let counted = words[16 * level + 32].max(node.reservation);
        words[16 * node.parent.0 as usize + 32] += counted;
    }
}

/// The words of a tree in which nothing is charged.
pub fn opening_words(alloc: Global, nodes: &[Fixed]) -> Result<Vec<u64, Global>, NoMemory>
    requires tree { IsFixedTree nodes.now }
    ensures { IfOk result (λ words. AreOpeningWords nodes.now words.items) }
{
    let Ok(mut words) = vec![in alloc; 0; 16 * nodes.len() + 32] else {
        return Err(NoMemory);
    };
    words[16] = 1;
    let mut level = nodes.len();
    while level > 0 {
        level -= 1;
        fill_level(nodes, words.as_mut_slice(), level);
    }
    Ok(words)
}

/// Whether each allocator but the first comes after its parent.
fn come_after_parents(nodes: &[Fixed]) -> bool
    ensures { IsTrue result ↔ ComeAfterParents nodes.now }
{
    let mut number = 1;
    while number < nodes.len() {
        if nodes[number].parent.0 as usize >= number {
            return false;
        }
        number += 1;
    }
    true
}

/// Whether a table can be opened over this tree.
pub fn is_fixed_tree(nodes: &[Fixed]) -> bool
    ensures { IsTrue result ↔ IsFixedTree nodes.now }
{
    if nodes.is_empty() || nodes.len() > MOST_ALLOCATORS as usize {
        return false;
    }
    let root = &nodes[0];
    root.parent.0 == 0
        && root.reservation == 0
        && come_after_parents(nodes)
        && nodes.iter().all(|node| node.reservation <= node.limit
            && node.reservation <= MAX_RESERVATION)
}
