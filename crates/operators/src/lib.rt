//! The operators of a query: each takes a batch, asks a memory for the buffers of another one, and gives the first one back.
#![tactic(auto)]

mod filtering;
mod gathering;
mod grouping;
mod groups;
mod keys;
mod laws;
mod merging;
mod merging_picked;
mod projecting;
mod scanning;
mod selecting;
mod storing_instead;
mod sums;
mod texts;

pub use filtering::filter;
pub use grouping::group_sums;
pub use laws::sums_of_parts_can_be_merged;
pub use merging::merge_groups;
pub use merging_picked::merge_picked;
pub use projecting::project;
pub use scanning::scan;
pub use storing_instead::release_batches;

#[cfg(test)]
mod tests;
