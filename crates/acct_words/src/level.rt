//! What is fixed of a level, read off its words, and which level comes next.
ghost use Rattle.std.specs.Prelude.{◌≡◌, ℕ, ◌+◌, ◌^◌, ◌<◌, ◌≤◌, length, Some};
ghost use Rattle.acct_words.specs.declared.fixed.Fixed.{Fixed};
ghost use Rattle.acct_words.specs.Calls.{IsOf};
ghost use Rattle.acct_words.specs.Climbs.{IsAbove, ReadsAbove, ReadsLevel, next_asked};
ghost use Rattle.acct_words.specs.Falls.{next_given};
ghost use Rattle.acct_words.specs.Plays.{known_at};

use crate::rule::Counters;
use crate::steps::{Token, read_limit, read_parent, read_reservation};

/// What a level has to do with the one above it: what is reserved for it there, in bytes, and the parent's number.
#[derive(Clone, Copy)]
pub struct Above {
    pub reservation: u64,
    pub parent: u64,
}

/// Reads what a level has to do with the one above it.
pub fn read_above(words: &Counters, token: &mut Token, level: usize) -> Above
    requires table { IsOf words.now token.old }
    requires level { level < length words.now.key.nodes.items }
    ensures table { (token.new.table_id ≡ token.old.table_id) × (token.new.me.1 ≡ token.old.me.1) }
    ensures view { (fixed : Fixed) → known_at level token.old.me.0.known ≡ Some fixed →
        ReadsAbove level result token.old.me.0 token.new.me.0 fixed }
{
    let reservation = read_reservation(words, token, level);
    let parent = read_parent(words, token, level);
    Above {
        reservation,
        parent,
    }
}

/// Reads all that is fixed of a level: its limit, and then the rest.
pub fn read_level(words: &Counters, token: &mut Token, level: usize) -> (u64, Above)
    requires table { IsOf words.now token.old }
    requires level { level < length words.now.key.nodes.items }
    ensures table { (token.new.table_id ≡ token.old.table_id) × (token.new.me.1 ≡ token.old.me.1) }
    ensures view { (fixed : Fixed) → known_at level token.old.me.0.known ≡ Some fixed →
        ReadsLevel level result.0 result.1 token.old.me.0 token.new.me.0 fixed }
{
    let limit = read_limit(words, token, level);
    (limit, read_above(words, token, level))
}

/// Which level is asked next and for how much, after an addition at a level that held `found` before.
pub fn asked_next(level: usize, above: Above, amount: u64, found: u64) -> Option<(usize, u64)>
    requires small { found + amount < 2 ^ 63 }
    ensures { (fixed : Fixed) → IsAbove above fixed → result ≡ next_asked level fixed amount found }
{
    let counted = (found + amount).max(above.reservation) - found.max(above.reservation);
    if level == 0 || counted == 0 {
        return None;
    }
    Some((above.parent as usize, counted))
}

/// Which level is released next and by how much, after a subtraction at a level that held `found` before.
pub fn given_next(level: usize, above: Above, amount: u64, found: u64) -> Option<(usize, u64)>
    requires covered { (amount ≤ found) × (found < 2 ^ 63) }
    ensures { (fixed : Fixed) → IsAbove above fixed → result ≡ next_given level fixed amount found }
{
    let counted = found.max(above.reservation) - (found - amount).max(above.reservation);
    if level == 0 || counted == 0 {
        return None;
    }
    Some((above.parent as usize, counted))
}
