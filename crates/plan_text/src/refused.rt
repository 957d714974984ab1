//! Why a plan was not read.
ghost use Rattle.std.specs.Prelude.{◌≡◌};
ghost use Rattle.plan_text.specs.declared.refused.PlanRefused.TheVariants.{NoMemory};

use std::alloc::{AllocError, AllocFailed};

/// Why a plan was not read.
#[derive(Clone, Copy, Debug, PartialEq, Eq)]
pub enum PlanRefused {
    /// The bytes are no plan.
    Bad,
    /// Memory ran out.
    NoMemory,
}

impl From<AllocError> for PlanRefused {
    ghost from_gives = { λ _ refused. refused ≡ NoMemory };

    fn from(_refused: AllocError) -> PlanRefused {
        PlanRefused::NoMemory
    }
}

impl<T: Drop> From<AllocFailed<T>> for PlanRefused {
    ghost from_gives = { λ _ refused. refused ≡ NoMemory };

    fn from(_refused: AllocFailed<T>) -> PlanRefused {
        PlanRefused::NoMemory
    }
}
