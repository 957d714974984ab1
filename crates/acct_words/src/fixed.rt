//! What a table is opened with.

use crate::budget::Budget;
use mem_num::AllocId;
use std::alloc::Global;

/// An allocator of a tree that is given at opening. Its number is its place; the root's parent is the root. Amounts are in bytes.
#[derive(Clone, Copy, Debug, PartialEq, Eq)]
pub struct Fixed {
    pub parent: AllocId,
    pub reservation: u64,
    pub limit: u64,
}

/// What a table is told once.
#[derive(Drop)]
pub struct Opening {
    pub nodes: Vec<Fixed, Global>,
    pub budget: Budget,
}
