//! The memory that buffers are asked from, as every tree of allocators answers it, and buffers with their bytes.
#![tactic(auto)]

mod arrow_buf;
mod giving_back;
mod laws;
mod listed;
mod listed_answer;
mod listed_memory;
mod memory;
mod moving;
mod slice_refused;
mod store;
mod storing;
mod view;

pub use arrow_buf::ArrowBuf;
pub use giving_back::give_back;
pub use laws::{calls_in_a_row_are_one_chain, calls_spend_a_turn_each_at_most};
pub use listed::Listed;
pub use listed_answer::ListedAnswer;
pub use listed_memory::ListedMemory;
pub use memory::Memory;
pub use moving::move_buffers;
pub use slice_refused::{OutOfBuffer, SliceRefused};
pub use store::{store_bytes, store_vec};
pub use storing::store_vecs;
pub use view::View;

#[cfg(test)]
mod tests;
