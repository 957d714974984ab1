//! The laws of calls that are planned before they run. Each function does nothing: its contract is a law, which the check proves.
ghost use Rattle.std.specs.Prelude.{◌≡◌, ℕ, ◌≤◌, List, length, Err};
ghost use Rattle.mem_num.specs.declared.alloc_id.AllocId.{AllocId};
ghost use Rattle.mem_num.specs.declared.solo_refused.SoloRefused.TheVariants.{Released as RefusedRelease};
ghost use Rattle.mem_model.specs.Calls.{Retain, Transfer, Release, CallAnswer, ToRetain, ToTransfer, ToRelease, state_after, answers_of, samples_of};
ghost use Rattle.mem_model.specs.LawfulState.{IsLawfulState};
ghost use Rattle.mem_model.specs.PlannedCalls.{PlannedCall, no_reference, reference_at, planned_result, run_planned, calls_planned};
ghost use Rattle.mem_model.specs.References.{released_at};
ghost use Rattle.mem_model.specs.TreeState.{TreeState, unchanged};

/// Planned calls run as the calls that they come to: these answer the same, leave the same state and measure the same moments.
pub fn planned_calls_run_as_the_calls_that_they_come_to()
    ensures { (state : TreeState) (plan : List PlannedCall) →
        let calls = calls_planned state plan in
        run_planned state plan ≡ record { answer = answers_of state calls; state = state_after state calls; samples = samples_of state calls } }
{}

/// A planned call at a place that gave a reference to no chunk, or none, changes nothing, and answers as for a reference that
/// was given back. A buffer of 0 bytes has a reference to no chunk.
pub fn a_place_without_a_chunk_changes_nothing()
    ensures none { (answers : List CallAnswer) (place : ℕ) →
        length answers ≤ place → reference_at answers place ≡ no_reference }
    ensures retain { (state : TreeState) (answers : List CallAnswer) (place : ℕ) (target : AllocId) →
        IsLawfulState state → (reference_at answers place).chunk ≡ 0 →
        planned_result state answers (Retain place target)
        ≡ unchanged state (ToRetain (Err (RefusedRelease (released_at (reference_at answers place))))) }
    ensures transfer { (state : TreeState) (answers : List CallAnswer) (place : ℕ) (target : AllocId) →
        IsLawfulState state → (reference_at answers place).chunk ≡ 0 →
        planned_result state answers (Transfer place target)
        ≡ unchanged state (ToTransfer (Err (RefusedRelease (released_at (reference_at answers place))))) }
    ensures release { (state : TreeState) (answers : List CallAnswer) (place : ℕ) →
        IsLawfulState state → (reference_at answers place).chunk ≡ 0 →
        planned_result state answers (Release place)
        ≡ unchanged state (ToRelease (Err (released_at (reference_at answers place)))) }
{}
