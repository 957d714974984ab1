//! A request that passes a limit.
ghost use Rattle.std.specs.Prelude.{Some};

use crate::alloc_id::AllocId;
use std::fmt;

/// A request that some level has no room for, with the numbers of the lowest such level, after the outcome details of
/// Arrow Java's `AllocationOutcome`.
#[derive(Clone, Copy, Debug, PartialEq, Eq)]
pub struct Full {
    /// The lowest level that the request would take past its limit.
    pub node: AllocId,
    /// What that level held before, in bytes.
    pub held: u64,
    /// How many bytes more it would have held.
    pub amount: u64,
    /// The limit of that level, in bytes.
    pub limit: u64,
    /// Whether that level is the one at which the request began.
    pub local: bool,
}

/// As `full #0 held 1024 amount 2 limit 1024 local`, where the last word is `parent` for a level above the first.
impl fmt::Display for Full {
    ghost use Rattle.mem_num.specs.Text.{full_text};

    ghost output = { λ full. Some (full_text full) };

    fn fmt<W: fmt::Write>(&self, f: &mut fmt::Formatter<W>) -> fmt::Result {
        let Full {
            node,
            held,
            amount,
            limit,
            local,
        } = *self;
        let place = if local { "local" } else { "parent" };
        write!(
            f,
            "full {node} held {held} amount {amount} limit {limit} {place}"
        )
    }
}
