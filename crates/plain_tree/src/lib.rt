//! The tree of one thread as its definitions, slow: what other trees are tested beside. No product crate stands on it.
#![tactic(auto)]

mod chunk;
mod plain_tree;

pub use chunk::{Chunk, charges_of};
pub use plain_tree::PlainTree;
