//! The way of a request up the levels.
ghost use Rattle.std.specs.Prelude.{◌≡◌, ℕ, ◌+◌, ◌-◌, ◌^◌, ◌<◌, ◌≤◌, true, false, List, [], ◌∷◌, length, Some, None};
ghost use Rattle.mem_num.specs.declared.bounds.TheConstants.{MAX_RESERVATION, MOST_ALLOCATORS};
ghost use Rattle.acct_core.specs.declared.level_step.LevelStep.{LevelStep};
ghost use Rattle.acct_words.specs.Calls.{IsOf, GoesUp, HasEmptyChunk};
ghost use Rattle.acct_words.specs.Climbs.{GoesOn, GoesUpLevel, IsCharged, IsGoing, IsInTree, first_of, refusal_of};
ghost use Rattle.acct_words.specs.Entries.StepKind.{AddHeld, BeginCharge};
ghost use Rattle.acct_words.specs.Moves.{beginning, rising};

use crate::peak::end_level;
use crate::rule::Counters;
use crate::steps::{Token, begin, rise};
use mem_num::Full;

/// Keeps the first of two refusals. Where there is no second one nothing is written: a loop over levels copies none.
fn keep_first(full: &mut Option<Full>, refused: Option<Full>)
    ensures { full.new ≡ first_of full.old refused }
{
    if full.is_some() {
        return;
    }
    if let Some(refusal) = refused {
        *full = Some(refusal);
    }
}

/// Begins a charge: adds at its allocator, and reads the limit there.
fn begin_level(
    words: &Counters,
    token: &mut Token,
    at: usize,
    size: u64,
) -> (Option<Full>, Option<(usize, u64)>)
    requires table { IsOf words.now token.old }
    requires level { at < length words.now.key.nodes.items }
    requires chunk { HasEmptyChunk token.old.me.0 }
    requires size { (1 ≤ size) × (size ≤ MAX_RESERVATION) × (size ≤ token.old.me.0.own.bytes) }
    ensures table { (token.new.table_id ≡ token.old.table_id) × (token.new.me.1 ≡ token.old.me.1) }
    ensures level { GoesUpLevel at (BeginCharge size) (beginning size) false true at size token.old.me.0 token.new.me.0
        result.0 result.1 }
{
    let found = begin(words, token, at, size);
    end_level(words, token, at, at, size, found, false, true)
}

/// Goes up one level of a request that is forced or not, and is clean so far or not: adds there, and reads the limit.
fn climb_level(
    words: &Counters,
    token: &mut Token,
    at: usize,
    level: usize,
    amount: u64,
    forced: bool,
    clean: bool,
) -> (Option<Full>, Option<(usize, u64)>)
    requires table { IsOf words.now token.old }
    requires level { level < length words.now.key.nodes.items }
    requires up { GoesUp level amount token.old.me.0 }
    ensures table { (token.new.table_id ≡ token.old.table_id) × (token.new.me.1 ≡ token.old.me.1) }
    ensures level { GoesUpLevel at (AddHeld amount) rising forced clean level amount token.old.me.0 token.new.me.0
        result.0 result.1 }
{
    let found = rise(words, token, level, amount);
    end_level(words, token, at, level, amount, found, forced, clean)
}

/// Goes up the levels that are left, and answers the refusal of the lowest level that went past its limit.
pub fn climb_on(
    words: &Counters,
    token: &mut Token,
    at: usize,
    forced: bool,
    mut full: Option<Full>,
    mut next: Option<(usize, u64)>,
) -> Option<Full>
    requires table { IsOf words.now token.old }
    requires inside { IsInTree (length words.now.key.nodes.items) next }
    requires going { IsGoing at forced token.old.me.0 full next }
    ensures table { (token.new.table_id ≡ token.old.table_id) × (token.new.me.1 ≡ token.old.me.1) }
    ensures went { GoesOn at forced token.old.me.0 token.new.me.0 full result next None }
{
    while let Some((level, amount)) = next {
        let clean = full.is_none();
        let (refused, further) = climb_level(words, token, at, level, amount, forced, clean);
        keep_first(&mut full, refused);
        next = further;
    }
    full
}

/// Charges the chunk in hand at an allocator and further up, and answers the refusal of the lowest level that went past its limit.
pub fn climb(words: &Counters, token: &mut Token, at: usize, size: u64) -> Option<Full>
    requires table { IsOf words.now token.old }
    requires level { at < length words.now.key.nodes.items }
    requires chunk { HasEmptyChunk token.old.me.0 }
    requires size { (1 ≤ size) × (size ≤ MAX_RESERVATION) × (size ≤ token.old.me.0.own.bytes) }
    ensures table { (token.new.table_id ≡ token.old.table_id) × (token.new.me.1 ≡ token.old.me.1) }
    ensures climbed { (steps : List LevelStep) × IsCharged at size token.old.me.0 token.new.me.0 steps None
        × (result ≡ refusal_of at steps) }
{
    let (full, next) = begin_level(words, token, at, size);
    climb_on(words, token, at, false, full, next)
}
