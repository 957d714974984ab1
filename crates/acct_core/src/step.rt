//! What a step on a held number tells.

use mem_num::AllocId;

/// One addition or subtraction at a node: held before, the amount, the node's limit, in bytes, and whether no level follows.
#[derive(Clone, Copy, Debug, PartialEq, Eq)]
pub struct Step {
    pub node: AllocId,
    pub old: u64,
    pub amount: u64,
    pub limit: u64,
    pub last: bool,
}
