//! Forced charges.
ghost use Rattle.std.specs.Prelude.{◌≡◌, ℕ, ◌^◌, ◌<◌, ◌≤◌, true, List, [], ◌∷◌, length, None};
ghost use Rattle.mem_num.specs.declared.bounds.TheConstants.{MAX_RESERVATION};
ghost use Rattle.acct_core.specs.declared.level_step.LevelStep.{LevelStep};
ghost use Rattle.acct_words.specs.Calls.{IsOf, HasRoom};
ghost use Rattle.acct_words.specs.Climbs.{GoesUpLevel, IsForced, refusal_of};
ghost use Rattle.acct_words.specs.Entries.StepKind.{AddHeld};
ghost use Rattle.acct_words.specs.Moves.{forcing};

use crate::climb::climb_on;
use crate::peak::end_level;
use crate::rule::Counters;
use crate::steps::{Token, begin_force};
use mem_num::Full;

/// Begins a force: adds at its allocator, and reads the limit there.
fn force_level(
    words: &Counters,
    token: &mut Token,
    at: usize,
    size: u64,
) -> (Option<Full>, Option<(usize, u64)>)
    requires table { IsOf words.now token.old }
    requires level { at < length words.now.key.nodes.items }
    requires chunk { HasRoom size token.old.me.0 }
    requires size { (1 ≤ size) × (size ≤ MAX_RESERVATION) }
    ensures table { (token.new.table_id ≡ token.old.table_id) × (token.new.me.1 ≡ token.old.me.1) }
    ensures level { GoesUpLevel at (AddHeld size) (forcing size) true true at size token.old.me.0 token.new.me.0
        result.0 result.1 }
{
    let found = begin_force(words, token, at, size);
    end_level(words, token, at, at, size, found, true, true)
}

/// Charges the chunk in hand a second time, at an allocator and further up, and undoes nothing.
pub fn force(words: &Counters, token: &mut Token, at: usize, size: u64) -> Option<Full>
    requires table { IsOf words.now token.old }
    requires level { at < length words.now.key.nodes.items }
    requires chunk { HasRoom size token.old.me.0 }
    requires size { (1 ≤ size) × (size ≤ MAX_RESERVATION) }
    ensures table { (token.new.table_id ≡ token.old.table_id) × (token.new.me.1 ≡ token.old.me.1) }
    ensures forced { (steps : List LevelStep) × IsForced at size token.old.me.0 token.new.me.0 steps None
        × (result ≡ refusal_of at steps) }
{
    let (full, next) = force_level(words, token, at, size);
    climb_on(words, token, at, true, full, next)
}
