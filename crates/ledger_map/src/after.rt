//! What a release leaves.
ghost use Rattle.std.specs.Prelude.{◌≡◌};

use mem_model::Ledger;
use mem_num::AllocId;

/// What became of a chunk's ledgers when one reference was released.
#[derive(Clone, Copy, Debug, PartialEq, Eq)]
pub enum After {
    /// The ledger has references left.
    Same,
    /// The ledger is gone; the owner is another allocator, and stays so.
    Gone,
    /// The owner's ledger is gone, and this allocator is the owner from now on: that with the least number of those that
    /// remain.
    Moved(AllocId),
    /// The last ledger is gone, and with it the chunk.
    Freed,
}

impl After {
    ghost use Rattle.mem_model.specs.Ledgers.{count_of};
    ghost use Rattle.ledger_map.specs.Release.{after_of, new_owner};

    /// What the release of a reference answers, by how many references its allocator has left, by the owner before, and by
    /// the ledgers that remain.
    pub(crate) fn of_release(at: AllocId, left: u64, owner: AllocId, remaining: &[Ledger]) -> After
        requires { left ≡ count_of remaining.now at.0 }
        ensures { result ≡ after_of at.0 owner remaining.now }
    {
        match remaining {
            [] => After::Freed,
            _ if left > 0 => After::Same,
            [first, ..] if owner == at => After::Moved(first.at),
            _ => After::Gone,
        }
    }

    /// Who owns the chunk then, by the owner before.
    pub(crate) fn owner_from(self, before: AllocId) -> AllocId
        ensures { result ≡ new_owner before self }
    {
        match self {
            After::Moved(next) => next,
            _ => before,
        }
    }
}
