//! Charges.
ghost use Rattle.std.specs.Prelude.{◌≡◌, ℕ, ◌+◌, ◌^◌, ◌<◌, ◌≤◌, [], length, IfOk, IfErr};
ghost use Rattle.mem_num.specs.declared.bounds.TheConstants.{MAX_RESERVATION, MOST_NUMBERS};
ghost use Rattle.acct_words.specs.Bodies.{nothing};
ghost use Rattle.acct_words.specs.Calls.{IsOf};
ghost use Rattle.acct_words.specs.Charges.{ViewCharges, ViewRefuses};
ghost use Rattle.acct_words.specs.Rule.{KnowsWorstCase};

use crate::climb::climb;
use crate::release::release;
use crate::rule::Counters;
use crate::steps::{Token, draw, forget, part};
use mem_num::Full;

/// Charges a new chunk at an allocator, after `Accountant.allocateBytes`, and answers its number and its token.
pub fn charge(
    words: &Counters,
    token: &mut Token,
    at: usize,
    size: u64,
) -> Result<(u64, Token), Full>
    requires table { IsOf words.now token.old }
    requires level { at < length words.now.key.nodes.items }
    requires whole { token.old.me.0.offer ≡ nothing }
    requires budget { (1 ≤ token.old.me.0.own.turns) × (size ≤ token.old.me.0.own.bytes) }
    requires size { (1 ≤ size) × (size ≤ MAX_RESERVATION) }
    ensures table { (token.new.table_id ≡ token.old.table_id) × (token.new.me.1 ≡ token.old.me.1) }
    ensures ok { IfOk result (λ r. ViewCharges at size token.old.me.0 token.new.me.0 r.0 r.1.me.0) }
    ensures chunk { IfOk result (λ r. (r.1.table_id ≡ token.old.table_id) × (r.1.me.1 ≡ []) × (1 ≤ r.0)
        × (r.0 < MOST_NUMBERS)) }
    ensures bound { IfErr result (λ full. KnowsWorstCase token.new.me.0 (full.held + full.amount)) }
    ensures full { IfErr result (λ full. ViewRefuses at size token.old.me.0 token.new.me.0 full) }
{
    let number = draw(words, token);
    match climb(words, token, at, size) {
        None => Ok((number, part(words, token))),
        Some(full) => {
            release(words, token, at, size);
            forget(words, token);
            Err(full)
        }
    }
}
