//! Batches: rows whose columns stand in buffers of a memory, laid out as the Arrow columnar format has them.
#![tactic(auto)]

mod batch;
mod bits;
mod decoding;
mod encoding;
mod fitting;
mod moving;
mod numbers;
mod offsets;
mod picking;
mod refused;
mod rows;
mod store;

pub use batch::{Batch, release_batch};
pub use fitting::buffers_fit;
pub use moving::move_batch;
pub use picking::{Picked, pick_columns};
pub use refused::OpRefused;
pub use rows::rows_of;
pub use store::store_rows;

#[cfg(test)]
mod tests;
