//! What a caller does in one atomic step.

use mem_num::AllocId;

/// One atomic step of one caller. Sizes are in bytes.
#[derive(Clone, Copy, Debug, PartialEq, Eq)]
pub enum Event {
    /// Adds a use to a node, whether it is open or not.
    Enter {
        claim: u32,
        node: AllocId,
    },
    /// Begins a request at the claim's node.
    Begin {
        claim: u32,
        size: u64,
        force: bool,
    },
    /// Adds what is pending at the next level, and reads the limit there.
    Up {
        claim: u32,
    },
    /// Turns a failed request round.
    Undo {
        claim: u32,
    },
    /// Turns a charge that is held round.
    Release {
        claim: u32,
    },
    /// Subtracts what is pending at the next level.
    Down {
        claim: u32,
    },
    /// Gives the use of the node back.
    Leave {
        claim: u32,
    },
    /// Makes a child, for whose reservation the claim pays.
    Open {
        claim: u32,
        reservation: u64,
        limit: u64,
    },
    /// Closes a node that has no uses.
    Close {
        node: AllocId,
    },
}
