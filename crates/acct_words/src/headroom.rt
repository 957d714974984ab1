//! How much more an allocator could hold, by loads on the way up from it.
ghost use Rattle.std.specs.Prelude.{◌≡◌, ℕ, ◌+◌, ◌^◌, ◌<◌, ◌≤◌, ◌≤ℤ◌, ◌+ℤ◌, ◌-ℤ◌, pos, negsuc, List, [], ◌∷◌, length};
ghost use Rattle.std.specs.Int.{int_min};
ghost use Rattle.acct_words.specs.Calls.{IsOf};
ghost use Rattle.acct_words.specs.Headrooms.{SeenLevel, ViewSees, headroom_on, is_over_on};

use crate::level::read_level;
use crate::rule::Counters;
use crate::steps::{Token, meet};

/// What a limit leaves free, less than nothing where more is held.
fn free_in(limit: u64, held: u64) -> i128
    ensures { result ≡ pos limit -ℤ pos held }
{
    i128::from(limit) - i128::from(held)
}

/// The lesser of what a limit leaves free and of what those above it leave beside what is reserved and not used.
fn least(free: i128, above: i128, unused: u64) -> i128
    requires { above ≤ℤ pos (2 ^ 64) }
    ensures { result ≡ int_min free (above +ℤ pos unused) }
{
    free.min(above + i128::from(unused))
}

/// The headroom at a level, and whether it or one above it holds more than its limit.
pub fn see(words: &Counters, token: &mut Token, level: usize) -> (i128, bool)
    requires table { IsOf words.now token.old }
    requires level { level < length words.now.key.nodes.items }
    ensures table { (token.new.table_id ≡ token.old.table_id) × (token.new.me.1 ≡ token.old.me.1) }
    ensures seen { (levels : List SeenLevel) × ViewSees level token.old.me.0 token.new.me.0 levels
        × (result.0 ≡ headroom_on levels) × (result.1 ≡ is_over_on levels) }
    ensures least { negsuc (2 ^ 64) ≤ℤ result.0 }
    ensures most { result.0 ≤ℤ pos (2 ^ 64) }
{
    let held = meet(words, token, level);
    let (limit, above) = read_level(words, token, level);
    let free = free_in(limit, held);
    if level == 0 {
        return (free, limit < held);
    }
    let unused = above.reservation.saturating_sub(held);
    let (headroom, over) = see(words, token, above.parent as usize);
    (least(free, headroom, unused), limit < held || over)
}
