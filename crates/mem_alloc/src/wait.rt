//! Sums that fit.
ghost use Rattle.std.specs.Prelude.{◌≡◌, ◌+◌};

use std::sync::Wait;

/// The sum of two counts. It waits for ever where that has more than 64 bits, which no run comes to: each counts turns or bytes of one
/// budget.
pub(crate) fn sum<R: Wait>(rt: &R, a: u64, b: u64) -> u64
    ensures value { result ≡ a + b }
{
    if let Some(total) = a.checked_add(b) {
        return total;
    }
    for _ in rt.forever() {}
    unreachable!()
}
