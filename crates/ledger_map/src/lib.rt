//! The ledgers of one chunk: how many references each allocator has to it, and which of them is charged for it.
#![tactic(auto)]

mod after;
mod counts;
mod ledgers;
mod place;

pub use after::After;
pub use ledgers::{Ledgers, ledgers_are_lawful};
