//! What is charged to whom.
ghost use Rattle.std.specs.Prelude.{◌≡◌, ◌^◌, ◌<◌};
ghost use Rattle.mem_model.specs.Charge as spec;

use mem_num::AllocId;

/// An amount, in bytes, that an allocator is charged.
#[derive(Clone, Copy, Debug, PartialEq, Eq)]
pub struct Charge {
    pub at: AllocId,
    pub amount: u64,
}

/// What the charges at one allocator add up to, in bytes.
pub fn charged_at(charges: &[Charge], at: AllocId) -> u64
    requires fits { spec.charged_at charges.now at.0 < 2 ^ 64 }
    ensures { result ≡ spec.charged_at charges.now at.0 }
{
    let mut total = 0;
    for charge in charges {
        if charge.at == at {
            total += charge.amount;
        }
    }
    total
}
