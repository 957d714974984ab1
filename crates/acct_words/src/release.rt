//! The way of a release up the levels.
ghost use Rattle.std.specs.Prelude.{◌≡◌, ℕ, ◌+◌, ◌-◌, ◌^◌, ◌<◌, ◌≤◌, List, [], ◌∷◌, ◌++◌, length, Some, None};
ghost use Rattle.acct_words.specs.Entries.{Entry};
ghost use Rattle.acct_words.specs.Calls.{GoesDown, IsOf, TurnsBack};
ghost use Rattle.acct_words.specs.Falls.{GoesDownLevel, IsReleased};
ghost use Rattle.acct_words.specs.Moves.{falling, turning};

use crate::level::{given_next, read_above};
use crate::rule::Counters;
use crate::steps::{Token, fall, turn};

/// Turns the charge at a level round: subtracts its whole size there.
fn turn_level(words: &Counters, token: &mut Token, level: usize, size: u64) -> Option<(usize, u64)>
    requires table { IsOf words.now token.old }
    requires level { level < length words.now.key.nodes.items }
    requires turns { TurnsBack level size token.old.me.0 }
    ensures table { (token.new.table_id ≡ token.old.table_id) × (token.new.me.1 ≡ token.old.me.1) }
    ensures level { GoesDownLevel turning level size token.old.me.0 token.new.me.0 result }
{
    let found = turn(words, token, level, size);
    let above = read_above(words, token, level);
    given_next(level, above, size, found)
}

/// Goes on by one level: subtracts what is pending there.
fn fall_level(
    words: &Counters,
    token: &mut Token,
    level: usize,
    amount: u64,
) -> Option<(usize, u64)>
    requires table { IsOf words.now token.old }
    requires level { level < length words.now.key.nodes.items }
    requires down { GoesDown level amount token.old.me.0 }
    ensures table { (token.new.table_id ≡ token.old.table_id) × (token.new.me.1 ≡ token.old.me.1) }
    ensures level { GoesDownLevel falling level amount token.old.me.0 token.new.me.0 result }
{
    let found = fall(words, token, level, amount);
    let above = read_above(words, token, level);
    given_next(level, above, amount, found)
}

/// Releases the charge of the chunk in hand at an allocator, there and further up.
pub fn release(words: &Counters, token: &mut Token, at: usize, size: u64)
    requires table { IsOf words.now token.old }
    requires level { at < length words.now.key.nodes.items }
    requires charge { TurnsBack at size token.old.me.0 }
    ensures table { (token.new.table_id ≡ token.old.table_id) × (token.new.me.1 ≡ token.old.me.1) }
    ensures released { (entries : List Entry) × IsReleased at size token.old.me.0 token.new.me.0 entries None }
{
    let mut next = turn_level(words, token, at, size);
    while let Some((level, amount)) = next {
        next = fall_level(words, token, level, amount);
    }
}
