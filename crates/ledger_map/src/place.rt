//! Where an allocator's ledger stands among those of a chunk.
ghost use Rattle.std.specs.Prelude.{◌≡◌, ◌≤◌, ◌↔◌, IsOk, IfOk, IfErr, MatchResult, length};
ghost use Rattle.mem_model.specs.Ledgers.{AreInOrder, count_of};
ghost use Rattle.mem_model.specs.LedgerPlace.{IsLedgerAt, place_in};

use mem_model::Ledger;
use mem_num::AllocId;

/// The place of an allocator's ledger, or as an `Err` the place where it belongs.
pub(crate) fn place_of(ledgers: &[Ledger], at: AllocId) -> Result<usize, usize>
    requires { AreInOrder ledgers.now }
    ensures found { IsOk result ↔ (1 ≤ count_of ledgers.now at.0) }
    ensures place { MatchResult result (λ place. place ≡ place_in ledgers.now at.0)
        (λ place. place ≡ place_in ledgers.now at.0) }
    ensures ledger { IfOk result (IsLedgerAt ledgers.now at.0) }
    ensures absent { IfErr result (λ place. place ≤ length ledgers.now) }
{
    let place = ledgers_before(ledgers, at);
    match ledgers.get(place) {
        Some(ledger) if ledger.at == at => Ok(place),
        _ => Err(place),
    }
}

/// How many ledgers are of smaller numbers. A chunk has few, so they are counted one by one.
fn ledgers_before(ledgers: &[Ledger], at: AllocId) -> usize
    ensures { result ≡ place_in ledgers.now at.0 }
{
    ledgers.iter().filter(|ledger| ledger.at.0 < at.0).count()
}
