//! Peaks, and what a request does at a level once it has added there.
ghost use Rattle.std.specs.Prelude.{◌≡◌, ℕ, ◌+◌, ◌^◌, ◌<◌, ◌≤◌, ◌&&◌, ◌||◌, is_none, true, List, [], ◌∷◌, length, Some};
ghost use Rattle.mem_num.specs.declared.bounds.TheConstants.{MOST_ALLOCATORS};
ghost use Rattle.acct_core.specs.declared.level_step.LevelStep.{LevelStep};
ghost use Rattle.acct_words.specs.declared.fixed.Fixed.{Fixed};
ghost use Rattle.acct_words.specs.Calls.{IsOf};
ghost use Rattle.acct_words.specs.Climbs.{EndsLevel, IsRaise, refusal_of, showing};
ghost use Rattle.acct_words.specs.Entries.{Entry};
ghost use Rattle.acct_words.specs.Plays.{HasReached, KnowsLevel, known_at};

use crate::level::{asked_next, read_level};
use crate::rule::Counters;
use crate::steps::{Token, raise, read_peak};
use mem_num::{AllocId, Full};

/// Raises the peak of a level where that is due and it is below this: a peak that stays costs no write.
fn raise_peak(words: &Counters, token: &mut Token, level: usize, to: u64, due: bool)
    requires table { IsOf words.now token.old }
    requires level { level < length words.now.key.nodes.items }
    requires reached { HasReached to token.old.me.0 }
    ensures table { (token.new.table_id ≡ token.old.table_id) × (token.new.me.1 ≡ token.old.me.1) }
    ensures view { (entries : List Entry) × IsRaise level to due entries
        × (token.new.me.0 ≡ showing token.old.me.0 entries) }
{
    if due {
        if read_peak(words, token, level) < to {
            raise(words, token, level, to);
        }
    }
}

/// The refusal of a step that went past its limit.
pub fn refused_at(at: usize, level: usize, found: u64, amount: u64, limit: u64) -> Option<Full>
    requires small { (found + amount < 2 ^ 63) × (level < MOST_ALLOCATORS) }
    ensures { (step : LevelStep) → step ≡ record { level = level; old = found; amount = amount; limit = limit } →
        result ≡ refusal_of at (step ∷ []) }
{
    if found + amount <= limit {
        return None;
    }
    Some(Full {
        node: AllocId(level as u32),
        held: found,
        amount,
        limit,
        local: level == at,
    })
}

/// Whether the peak of a level is due: where the request is forced, or is clean so far and isn't refused there.
fn is_due(forced: bool, clean: bool, refused: &Option<Full>) -> bool
    ensures { result ≡ (forced || (clean && is_none refused.now)) }
{
    forced || (clean && refused.is_none())
}

/// Ends a level at which an amount was just added: reads what is fixed there, raises the peak where the request is forced or is clean so
/// far and stays within this limit, and answers the refusal there and what is asked next.
pub fn end_level(
    words: &Counters,
    token: &mut Token,
    at: usize,
    level: usize,
    amount: u64,
    found: u64,
    forced: bool,
    clean: bool,
) -> (Option<Full>, Option<(usize, u64)>)
    requires table { IsOf words.now token.old }
    requires level { level < length words.now.key.nodes.items }
    requires small { found + amount < 2 ^ 63 }
    requires reached { HasReached (found + amount) token.old.me.0 }
    requires known { KnowsLevel level token.old.me.0 }
    ensures table { (token.new.table_id ≡ token.old.table_id) × (token.new.me.1 ≡ token.old.me.1) }
    ensures level { (fixed : Fixed) → known_at level token.old.me.0.known ≡ Some fixed →
        EndsLevel at level amount found forced clean token.old.me.0 token.new.me.0 fixed result.0 result.1 }
{
    let (limit, above) = read_level(words, token, level);
    let refused = refused_at(at, level, found, amount, limit);
    let due = is_due(forced, clean, &refused);
    raise_peak(words, token, level, found + amount, due);
    (refused, asked_next(level, above, amount, found))
}
