//! What passes a reservation.
ghost use Rattle.std.specs.Prelude.{◌≡◌};
ghost use Rattle.mem_model.specs.Reservation as spec;

/// How many bytes more a parent counts once a child's bytes have risen from `low` to `high`, and how many less once they have
/// fallen from `high` to `low`. After `Accountant.allocate` and `releaseBytes`. Takes no memory.
pub fn beyond_reservation(reservation: u64, low: u64, high: u64) -> u64
    ensures { result ≡ spec.beyond_reservation reservation low high }
{
    high.max(reservation).saturating_sub(low.max(reservation))
}
