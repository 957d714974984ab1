//! The tree of allocators that threads share: a lock round the tree of one thread. Each caller acts by a token of its own, which counts
//! the references that it was given and gave back.
#![tactic(auto)]

mod hold;
mod laws;
mod locked;
mod pins;
mod running;
mod start;
mod token;
mod tree;
mod wait;

pub use acct_words::{Budget, MOST_BYTES, MOST_TURNS};
pub use hold::Hold;
pub use laws::calls_count_their_references;
pub use running::Running;
pub use start::Start;
pub use token::Token;
pub use tree::Tree;

#[cfg(test)]
mod tests;
