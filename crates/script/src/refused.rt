//! Why a script was not read.
ghost use Rattle.std.specs.Prelude.{◌≡◌};
ghost use Rattle.script.specs.declared.refused.ScriptRefused.TheVariants.{NoMemory};

use std::alloc::AllocError;

/// Why a script was not read.
#[derive(Debug, Drop)]
pub enum ScriptRefused {
    /// The first unreadable line, by its number: lines are counted from 1, those that are skipped too.
    Bad { line: u64 },
    /// Memory ran out.
    NoMemory,
}

impl From<AllocError> for ScriptRefused {
    ghost from_gives = { λ _ refused. refused ≡ NoMemory };

    fn from(_refused: AllocError) -> ScriptRefused {
        ScriptRefused::NoMemory
    }
}
