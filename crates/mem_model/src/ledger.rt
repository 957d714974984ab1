//! One allocator's use of a chunk.
ghost use Rattle.std.specs.Prelude.{◌≡◌};

use crate::numbered::Numbered;
use mem_num::AllocId;

/// How many references an allocator has to a chunk, after Arrow Java's `BufferLedger`.
#[derive(Clone, Copy, Debug, PartialEq, Eq)]
pub struct Ledger {
    pub at: AllocId,
    pub count: u64,
}

/// Its number is that of its allocator.
impl Numbered for Ledger {
    ghost number_of = { λ ledger. ledger.at.0 };

    fn number(&self) -> u32 {
        self.at.0
    }
}

/// No ledger: it fills a place that isn't in use.
impl Default for Ledger {
    ghost is_default = { λ ledger. ledger.count ≡ 0 };

    fn default() -> Self {
        Ledger {
            at: AllocId::ROOT,
            count: 0,
        }
    }
}
