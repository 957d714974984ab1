//! What follows from the rule of the table.
ghost use Rattle.std.specs.Prelude.{◌≡◌, ℕ, ◌+◌, ◌^◌, ◌<◌, ◌≤◌, Bool, All, length, slice_index, sum_by};
ghost use Rattle.atomic_table.specs.Table.{State};
ghost use Rattle.acct_core.specs.Phases.{pending_subtraction};
ghost use Rattle.acct_words.specs.Rows.{claims_of};
ghost use Rattle.acct_words.specs.Views.{Start, View};
ghost use Rattle.acct_words.specs.CallHistories.{HasBeenRefused, HasCharged, HasForced};
ghost use Rattle.acct_words.specs.Entries.{peak_shown};
ghost use Rattle.acct_words.specs.Returns.{HasComeBack, HasGivenAllBack};
ghost use Rattle.acct_words.specs.Tokens.{CallerToken, History};
ghost use Rattle.mem_num.specs.declared.full.Full.{Full};
ghost use Rattle.acct_words.specs.Places.{held_word};
ghost use Rattle.acct_words.specs.Rule.{IsSoundTable};
ghost use Rattle.acct_words.specs.declared.rule.Said.{Said};

/// Between any two steps each held word is below 2^63, so that no addition wraps, and has what is still to be subtracted there, so that
/// no subtraction passes zero.
pub fn held_words_stay_small()
    ensures small { (start : Start) (state : State Said View) → IsSoundTable start state → (number : ℕ) →
        number < length start.tree → slice_index state.words (held_word number) < 2 ^ 63 }
    ensures covers { (start : Start) (state : State Said View) → IsSoundTable start state → (number : ℕ) →
        number < length start.tree → sum_by (λ claim. pending_subtraction number claim.phase) (claims_of state.views)
        ≤ slice_index state.words (held_word number) }
{}

/// A peak has reached what was charged: whoever reads the peak of an allocator, and knows the steps of a charge that succeeded there or of
/// a force, finds at least its size.
pub fn peaks_have_reached_what_was_charged()
    ensures charged { (at size number : ℕ) (old new : History) → HasCharged at size number old new →
        (peak : ℕ) → All (λ entry. peak_shown at entry ≤ peak) new.own → size ≤ peak }
    ensures forced { (at size : ℕ) (old new : History) (within : Bool) → HasForced at size old new within →
        (peak : ℕ) → All (λ entry. peak_shown at entry ≤ peak) new.own → size ≤ peak }
{}

/// A token that alone made charges, and gave all of them back, still has done so after one more that came back or was refused: so it
/// finds what the tree holds uncharged, by `held`.
pub fn charges_that_come_back_leave_nothing()
    ensures charged { (start : Start) (at size : ℕ) (old new : CallerToken) → HasComeBack start at size old new →
        HasGivenAllBack start old → HasGivenAllBack start new }
    ensures refused { (start : Start) (at size : ℕ) (old new : CallerToken) (full : Full) →
        HasBeenRefused at size old.history new.history full → new.budget.bytes + size ≡ old.budget.bytes →
        HasGivenAllBack start old → HasGivenAllBack start new }
{}
