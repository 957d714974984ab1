//! What an event tells its caller.

use crate::step::Step;
use mem_num::AllocId;

/// What an event that was taken tells. A node is turned away from, or in use, with the uses that were found.
#[derive(Clone, Copy, Debug, PartialEq, Eq)]
pub enum Told {
    Entered,
    Bounced { uses: u64 },
    Began,
    Step(Step),
    Turned,
    Left,
    Opened(AllocId),
    Closed,
    InUse { uses: u64 },
}
