//! Why a query has no answer.

use mem_num::Full;

/// Why a query has no answer.
#[derive(Clone, Copy, Debug, PartialEq, Eq)]
pub enum QueryRefused {
    /// A request would have taken a level past its limit, in this batch; batch 0 is the opening and the merge. Of several batches, the
    /// least.
    Full { full: Full, batch: u32 },
    /// Memory ran out.
    NoMemory,
}
