//! The single steps. Each is one atomic instruction, and its contract says what it makes of the token's view.
ghost use Rattle.std.specs.Prelude.{◌≡◌, ℕ, ◌+◌, ◌*◌, ◌^◌, ◌<◌, ◌≤◌, Bool, List, [], ◌∷◌, length};
ghost use Rattle.acct_words.specs.declared.budget.TheConstants.{MOST_BYTES};
ghost use Rattle.mem_num.specs.declared.bounds.TheConstants.{MAX_RESERVATION, MOST_NUMBERS};
ghost use Rattle.acct_core.specs.Claims.{Claim};
ghost use Rattle.acct_core.specs.declared.level_step.LevelStep.{LevelStep};
ghost use Rattle.acct_core.specs.Phases.Phase.{Up};
ghost use Rattle.acct_core.specs.Claims.{claim_at};
ghost use Rattle.acct_words.specs.Entries.StepKind.{LoadWord, DrawChunkNumber, BeginCharge, AddHeld, SubtractHeld, ForgetChunk, RaisePeak};
ghost use Rattle.acct_words.specs.Calls.{IsOf, HasChunk, HasEmptyChunk, HasRoom, GoesUp, TurnsBack, GoesDown, HasParted};
ghost use Rattle.acct_words.specs.Moves.{drawing, beginning, forcing, rising, reading, parting, falling, turning};
ghost use Rattle.acct_words.specs.Places.{still_word, number_word, held_word, limit_word, peak_word, reservation_word, parent_word};
ghost use Rattle.acct_words.specs.Plays.{HasReached, Steps, StepsAt, TellsFixed, TellsHeld, TellsPeak, entry, first_size, paying_view};
ghost use Rattle.acct_words.specs.Bodies.{nothing, left, right, both};
ghost use Rattle.acct_words.specs.Rule.{KnowsHistory};

use crate::rule::{
    Beginning, Counters, Counting, Cut, Drawing, Falling, Forcing, Forgetting, Looking, Meeting,
    Parting, Paying, Raising, Reading, ReadingPeak, Rising, Said, Together, Turning,
};
use crate::view::Shown;
use atomic_table::Seat;

pub type Token = Seat<Said, Shown>;

/// Draws a number.
pub fn draw(words: &Counters, token: &mut Token) -> u64
    requires table { IsOf words.now token.old }
    requires turn { 1 ≤ token.old.me.0.own.turns }
    ensures table { (token.new.table_id ≡ token.old.table_id) × (token.new.me.1 ≡ token.old.me.1) }
    ensures view { Steps DrawChunkNumber drawing number_word result token.old.me.0 token.new.me.0 }
    ensures small { (1 ≤ result) × (result < MOST_NUMBERS) }
{
    words.fetch_add::<Drawing>(token, 16, 1)
}

/// Begins a charge of the first chunk at a level, and answers what was held there.
pub fn begin(words: &Counters, token: &mut Token, level: usize, size: u64) -> u64
    requires table { IsOf words.now token.old }
    requires level { level < length words.now.key.nodes.items }
    requires chunk { HasEmptyChunk token.old.me.0 }
    requires size { (1 ≤ size) × (size ≤ MAX_RESERVATION) × (size ≤ token.old.me.0.own.bytes) }
    ensures table { (token.new.table_id ≡ token.old.table_id) × (token.new.me.1 ≡ token.old.me.1) }
    ensures view { StepsAt (BeginCharge size) (beginning size) level result token.old.me.0 token.new.me.0 }
    ensures small { result + size < 2 ^ 63 }
{
    words.fetch_add::<Beginning>(token, 16 * level + 32, size)
}

/// Begins to force the first chunk's size onto a level, and answers what was held there.
pub fn begin_force(words: &Counters, token: &mut Token, level: usize, size: u64) -> u64
    requires table { IsOf words.now token.old }
    requires level { level < length words.now.key.nodes.items }
    requires chunk { HasRoom size token.old.me.0 }
    requires size { (1 ≤ size) × (size ≤ MAX_RESERVATION) }
    ensures table { (token.new.table_id ≡ token.old.table_id) × (token.new.me.1 ≡ token.old.me.1) }
    ensures view { StepsAt (AddHeld size) (forcing size) level result token.old.me.0 token.new.me.0 }
    ensures small { result + size < 2 ^ 63 }
{
    words.fetch_add::<Forcing>(token, 16 * level + 32, size)
}

/// Adds what the first chunk's first charge has pending at its next level, and answers what was held there.
pub fn rise(words: &Counters, token: &mut Token, level: usize, amount: u64) -> u64
    requires table { IsOf words.now token.old }
    requires level { level < length words.now.key.nodes.items }
    requires up { GoesUp level amount token.old.me.0 }
    ensures table { (token.new.table_id ≡ token.old.table_id) × (token.new.me.1 ≡ token.old.me.1) }
    ensures view { StepsAt (AddHeld amount) rising level result token.old.me.0 token.new.me.0 }
    ensures small { result + amount < 2 ^ 63 }
{
    words.fetch_add::<Rising>(token, 16 * level + 32, amount)
}

/// Reads the limit of a level.
pub fn read_limit(words: &Counters, token: &mut Token, level: usize) -> u64
    requires table { IsOf words.now token.old }
    requires level { level < length words.now.key.nodes.items }
    ensures table { (token.new.table_id ≡ token.old.table_id) × (token.new.me.1 ≡ token.old.me.1) }
    ensures view { Steps LoadWord reading (limit_word level) result token.old.me.0 token.new.me.0 }
    ensures tells { TellsFixed (limit_word level) result token.old.me.0 }
{
    words.load::<Reading>(token, 16 * level + 33)
}

/// Reads what is reserved for a level at its parent.
pub fn read_reservation(words: &Counters, token: &mut Token, level: usize) -> u64
    requires table { IsOf words.now token.old }
    requires level { level < length words.now.key.nodes.items }
    ensures table { (token.new.table_id ≡ token.old.table_id) × (token.new.me.1 ≡ token.old.me.1) }
    ensures view { Steps LoadWord reading (reservation_word level) result token.old.me.0 token.new.me.0 }
    ensures tells { TellsFixed (reservation_word level) result token.old.me.0 }
{
    words.load::<Reading>(token, 16 * level + 35)
}

/// Reads the number of a level's parent.
pub fn read_parent(words: &Counters, token: &mut Token, level: usize) -> u64
    requires table { IsOf words.now token.old }
    requires level { level < length words.now.key.nodes.items }
    ensures table { (token.new.table_id ≡ token.old.table_id) × (token.new.me.1 ≡ token.old.me.1) }
    ensures view { Steps LoadWord reading (parent_word level) result token.old.me.0 token.new.me.0 }
    ensures tells { TellsFixed (parent_word level) result token.old.me.0 }
{
    words.load::<Reading>(token, 16 * level + 36)
}

/// Reads what a level holds, and knows the level from then on.
pub fn meet(words: &Counters, token: &mut Token, level: usize) -> u64
    requires table { IsOf words.now token.old }
    requires level { level < length words.now.key.nodes.items }
    ensures table { (token.new.table_id ≡ token.old.table_id) × (token.new.me.1 ≡ token.old.me.1) }
    ensures view { StepsAt LoadWord (λ level fixed. reading) level result token.old.me.0 token.new.me.0 }
{
    words.load::<Meeting>(token, 16 * level + 32)
}

/// Reads the peak of a level.
pub fn read_peak(words: &Counters, token: &mut Token, level: usize) -> u64
    requires table { IsOf words.now token.old }
    requires level { level < length words.now.key.nodes.items }
    ensures table { (token.new.table_id ≡ token.old.table_id) × (token.new.me.1 ≡ token.old.me.1) }
    ensures view { Steps LoadWord reading (peak_word level) result token.old.me.0 token.new.me.0 }
    ensures tells { TellsPeak level result token.old.me.0 token.new.me.0 }
{
    words.load::<ReadingPeak>(token, 16 * level + 34)
}

/// Raises the peak of a level to what an addition led to, where it is below that.
pub fn raise(words: &Counters, token: &mut Token, level: usize, to: u64)
    requires table { IsOf words.now token.old }
    requires level { level < length words.now.key.nodes.items }
    requires reached { HasReached to token.old.me.0 }
    ensures table { (token.new.table_id ≡ token.old.table_id) × (token.new.me.1 ≡ token.old.me.1) }
    ensures view { (found : ℕ) × Steps (RaisePeak to) reading (peak_word level) found token.old.me.0 token.new.me.0 }
{
    words.fetch_max::<Raising>(token, 16 * level + 34, to);
}

/// Reads what a level holds.
pub fn look(words: &Counters, token: &mut Token, level: usize) -> u64
    requires table { IsOf words.now token.old }
    requires level { level < length words.now.key.nodes.items }
    ensures table { (token.new.table_id ≡ token.old.table_id) × (token.new.me.1 ≡ token.old.me.1) }
    ensures view { Steps LoadWord reading (held_word level) result token.old.me.0 token.new.me.0 }
    ensures tells { TellsHeld level result token.old.me.0 token.new.me.0 }
{
    words.load::<Looking>(token, 16 * level + 32)
}

/// Splits the first chunk off, with what it is charged.
pub fn part(words: &Counters, token: &mut Token) -> Token
    requires table { IsOf words.now token.old }
    requires chunk { HasChunk token.old.me.0 }
    requires whole { token.old.me.0.offer ≡ nothing }
    ensures table { (token.new.table_id ≡ token.old.table_id) × (token.new.me.1 ≡ token.old.me.1)
        × (result.table_id ≡ token.old.table_id) × (result.me.1 ≡ []) }
    ensures views { HasParted token.old.me.0 token.new.me.0 result.me.0 }
    ensures history { KnowsHistory token.new.me.0 }
{
    words.load::<Parting>(token, 0);
    words.split_seat::<Cut>(token)
}

/// Turns the charge at a level round: subtracts its whole size there, and answers what was held before.
pub fn turn(words: &Counters, token: &mut Token, level: usize, size: u64) -> u64
    requires table { IsOf words.now token.old }
    requires level { level < length words.now.key.nodes.items }
    requires turns { TurnsBack level size token.old.me.0 }
    ensures table { (token.new.table_id ≡ token.old.table_id) × (token.new.me.1 ≡ token.old.me.1) }
    ensures view { StepsAt (SubtractHeld size) turning level result token.old.me.0 token.new.me.0 }
    ensures covered { (size ≤ result) × (result < 2 ^ 63) }
{
    words.fetch_sub::<Turning>(token, 16 * level + 32, size)
}

/// Subtracts what the first chunk's first charge has pending at its next level, and answers what was held there before.
pub fn fall(words: &Counters, token: &mut Token, level: usize, amount: u64) -> u64
    requires table { IsOf words.now token.old }
    requires level { level < length words.now.key.nodes.items }
    requires down { GoesDown level amount token.old.me.0 }
    ensures table { (token.new.table_id ≡ token.old.table_id) × (token.new.me.1 ≡ token.old.me.1) }
    ensures view { StepsAt (SubtractHeld amount) falling level result token.old.me.0 token.new.me.0 }
    ensures covered { (amount ≤ result) × (result < 2 ^ 63) }
{
    words.fetch_sub::<Falling>(token, 16 * level + 32, amount)
}

/// Forgets the chunk in hand, which has no charge.
pub fn forget(words: &Counters, token: &mut Token)
    requires table { IsOf words.now token.old }
    requires chunk { HasEmptyChunk token.old.me.0 }
    ensures table { (token.new.table_id ≡ token.old.table_id) × (token.new.me.1 ≡ token.old.me.1) }
    ensures view { (found : ℕ) × Steps (ForgetChunk (first_size token.old.me.0.own.chunks)) parting still_word found
        token.old.me.0 token.new.me.0 }
    ensures history { KnowsHistory token.new.me.0 }
{
    words.load::<Forgetting>(token, 0);
}

/// Splits off a token with a part of the budget.
pub fn pay(words: &Counters, token: &mut Token, bytes: u64, turns: u64) -> Token
    requires table { IsOf words.now token.old }
    requires whole { token.old.me.0.offer ≡ nothing }
    requires budget { (bytes ≤ token.old.me.0.own.bytes) × (turns ≤ token.old.me.0.own.turns) }
    ensures table { (token.new.table_id ≡ token.old.table_id) × (token.new.me.1 ≡ token.old.me.1)
        × (result.table_id ≡ token.old.table_id) × (result.me.1 ≡ []) }
    ensures views { (name : ℕ) × (found : ℕ)
        × (token.new.me.0 ≡ left (paying_view token.old.me.0 bytes turns name number_word found))
        × (result.me.0 ≡ right (paying_view token.old.me.0 bytes turns name number_word found)) }
{
    words.compare_exchange_with::<Paying>(token, 16, 0, 0, &Said { bytes, turns });
    words.split_seat::<Cut>(token)
}

/// Takes in another token.
pub fn join(words: &Counters, token: &mut Token, other: Token)
    requires table { IsOf words.now token.old × (other.table_id ≡ words.now.table_id) × (other.me.1 ≡ []) }
    ensures table { (token.new.table_id ≡ token.old.table_id) × (token.new.me.1 ≡ token.old.me.1) }
    ensures view { (found : ℕ) × Steps LoadWord reading still_word found (both token.old.me.0 other.me.0)
        token.new.me.0 }
    ensures small { (token.new.me.0.own.bytes ≤ MOST_BYTES) × (token.new.me.0.own.turns < MOST_NUMBERS) }
{
    words.join_seat::<Together>(token, other);
    words.load::<Counting>(token, 0);
}
