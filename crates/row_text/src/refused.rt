//! Why a table was not read.
ghost use Rattle.std.specs.Prelude.{◌≡◌};
ghost use Rattle.row_text.specs.declared.refused.RowsRefused.TheVariants.{NoMemory};

use std::alloc::AllocError;

/// Why a table was not read.
#[derive(Clone, Copy, Debug, PartialEq, Eq)]
pub enum RowsRefused {
    /// The first row that breaks a rule: the header is row 0, and rows are counted from 1.
    Bad { row: u64 },
    /// Memory ran out.
    NoMemory,
}

impl From<AllocError> for RowsRefused {
    ghost from_gives = { λ _ refused. refused ≡ NoMemory };

    fn from(_refused: AllocError) -> RowsRefused {
        RowsRefused::NoMemory
    }
}
