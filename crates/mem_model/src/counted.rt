//! The laws of references, chunk by chunk and allocator by allocator. Each function does nothing: its contract is a law, which the
//! check proves.
ghost use Rattle.std.specs.Prelude.{◌≡◌, ℕ, ◌+◌, ◌≤◌, true, is_some};
ghost use Rattle.mem_num.specs.declared.buffer_ref.Ref.{Ref};
ghost use Rattle.mem_model.specs.Calls.{TreeCall, after_call};
ghost use Rattle.mem_model.specs.CountedReferences.{references_to, given_to, taken_from};
ghost use Rattle.mem_model.specs.LawfulState.{IsLawfulState};
ghost use Rattle.mem_model.specs.References.{referred_chunk};
ghost use Rattle.mem_model.specs.TreeState.{TreeState};

/// Of every allocator to every chunk, the references that were there before a call and those that it gives are those that are
/// there after and those that it takes back.
pub fn references_of_each_allocator_balance()
    ensures { (state : TreeState) (call : TreeCall) (k n : ℕ) → IsLawfulState state → 1 ≤ k →
        references_to state k n + given_to state call k n
        ≡ references_to (after_call state call) k n + taken_from state call k n }
{}

/// A reference that is counted is to a live chunk: no call answers that it was given back.
pub fn counted_reference_is_to_a_live_chunk()
    ensures { (state : TreeState) (of : Ref) → 1 ≤ references_to state of.chunk of.alloc.0 →
        is_some (referred_chunk state of) ≡ true }
{}
