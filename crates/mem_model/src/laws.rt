//! The laws of a tree's state. Each function does nothing: its contract is a law, which the check proves, so that what is said
//! here is a theorem about the definitions and not about one program.
ghost use Rattle.std.specs.Prelude.{◌≡◌, ℕ, ◌+◌, ◌*◌, ◌<◌, ◌≤◌, ◌^◌, List, ◌∷◌, ◌++◌, length, false};
ghost use Rattle.mem_num.specs.declared.bounds.TheConstants.{MAX_LIMIT, MAX_RESERVATION, MOST_ALLOCATORS, MOST_NUMBERS};
ghost use Rattle.mem_num.specs.declared.alloc_id.AllocId.{AllocId};
ghost use Rattle.mem_num.specs.declared.buffer_ref.Ref.{Ref};
ghost use Rattle.mem_model.specs.declared.charge.Charge.{Charge};
ghost use Rattle.mem_model.specs.Bound.{all_of};
ghost use Rattle.mem_model.specs.Calls.{TreeCall, AreBoundedCalls, samples_of};
ghost use Rattle.mem_model.specs.Child.{child_result};
ghost use Rattle.mem_model.specs.Close.{close_result};
ghost use Rattle.mem_model.specs.Grant.{grant_result};
ghost use Rattle.mem_model.specs.Held.{held_of};
ghost use Rattle.mem_model.specs.LawfulState.{IsLawfulState};
ghost use Rattle.mem_model.specs.MeasuredTree.{raised_peaks};
ghost use Rattle.mem_model.specs.PeakSample.{PeakSample, peak_of};
ghost use Rattle.mem_model.specs.Release.{release_result};
ghost use Rattle.mem_model.specs.Retain.{retain_result};
ghost use Rattle.mem_model.specs.Transfer.{transfer_result};
ghost use Rattle.mem_model.specs.TreeState.{TreeState, opened, charges_in, is_open, uses_of};

/// A tree opens in a lawful state.
#[tactic(auto, using(crate::proofs::LawfulLemmas::opened_lawful))]
pub fn opened_tree_is_lawful()
    ensures { (limit : ℕ) → limit ≤ MAX_LIMIT → IsLawfulState (opened limit) }
{}

/// Each call leads from a lawful state to a lawful state.
pub fn each_call_keeps_the_law()
    ensures grant { (state : TreeState) (at : AllocId) (request : ℕ) →
        IsLawfulState state → IsLawfulState (grant_result state at request).state }
    ensures child { (state : TreeState) (parent : AllocId) (reservation limit : ℕ) →
        IsLawfulState state → reservation ≤ MAX_RESERVATION → limit ≤ MAX_LIMIT →
        IsLawfulState (child_result state parent reservation limit).state }
    ensures close { (state : TreeState) (at : AllocId) →
        IsLawfulState state → IsLawfulState (close_result state at).state }
    ensures retain { (state : TreeState) (of : Ref) (target : AllocId) →
        IsLawfulState state → IsLawfulState (retain_result state of target).state }
    ensures transfer { (state : TreeState) (of : Ref) (target : AllocId) →
        IsLawfulState state → IsLawfulState (transfer_result state of target).state }
    ensures release { (state : TreeState) (of : Ref) →
        IsLawfulState state → IsLawfulState (release_result state of).state }
{}

/// As long as chunk numbers have 32 bits, no number of a lawful tree wraps, nor does one with a request on trial.
pub fn numbers_stay_small()
    ensures all { (state : TreeState) → IsLawfulState state → state.drawn < MOST_NUMBERS →
        all_of state.nodes (charges_in state) ≤ 2 ^ 62 + MOST_ALLOCATORS * MAX_RESERVATION }
    ensures held { (state : TreeState) (request : Charge) (n : ℕ) →
        IsLawfulState state → state.drawn < MOST_NUMBERS → request.amount ≤ MAX_RESERVATION →
        held_of state.nodes (request ∷ charges_in state) n < 2 ^ 63 }
{}

/// As long as fewer than 2^32 calls were made, no peak wraps either.
pub fn peaks_stay_small()
    ensures { (limit : ℕ) (calls : List TreeCall) (n : ℕ) → limit ≤ MAX_LIMIT →
        AreBoundedCalls calls → length calls < MOST_NUMBERS →
        peak_of (samples_of (opened limit) calls) n < 2 ^ 63 }
{}

/// An allocator that isn't open has no uses.
pub fn closed_allocator_has_no_uses()
    ensures { (state : TreeState) (n : ℕ) → IsLawfulState state →
        is_open state n ≡ false → uses_of state n ≡ 0 }
{}

/// Later samples raise the peaks of the earlier ones, so that a tree with its samples is one with its peaks.
pub fn samples_raise_peaks()
    ensures { (samples more : List PeakSample) (n : ℕ) →
        peak_of (samples ++ more) n ≡ raised_peaks (peak_of samples) more n }
{}
