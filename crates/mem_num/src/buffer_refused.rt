//! Why no buffer was given.
ghost use Rattle.std.specs.Prelude.{◌≡◌};

use crate::closed::Closed;
use crate::full::Full;
use crate::no_memory::NoMemory;
use crate::too_large::TooLarge;

/// Why a request for a buffer was refused, the first cause that stands.
#[derive(Clone, Copy, Debug, PartialEq, Eq)]
pub enum BufferRefused {
    TooLarge(TooLarge),
    Closed(Closed),
    Full(Full),
    NoMemory,
}

impl From<TooLarge> for BufferRefused {
    ghost use Rattle.mem_num.specs.declared.buffer_refused.BufferRefused.TheVariants.{TooLarge as AsTooLarge};

    ghost from_gives = { λ cause refused. refused ≡ AsTooLarge cause };

    fn from(cause: TooLarge) -> BufferRefused {
        BufferRefused::TooLarge(cause)
    }
}

impl From<NoMemory> for BufferRefused {
    ghost use Rattle.mem_num.specs.declared.buffer_refused.BufferRefused.TheVariants.{NoMemory as AsNoMemory};

    ghost from_gives = { λ _ refused. refused ≡ AsNoMemory };

    fn from(_cause: NoMemory) -> BufferRefused {
        BufferRefused::NoMemory
    }
}
