//! The laws of lists of calls on a tree. Each function does nothing: its contract is a law, which the check proves.
ghost use Rattle.std.specs.Prelude.{◌≡◌, ◌≢◌, ℕ, ◌+◌, ◌<◌, ◌≤◌, ◌^◌, List, length, All, AllPairs, sum_by};
ghost use Rattle.mem_num.specs.declared.bounds.TheConstants.{MAX_LIMIT};
ghost use Rattle.mem_model.specs.declared.tree_node.TreeNode.{TreeNode};
ghost use Rattle.mem_model.specs.Calls.{TreeCall, after_call, state_after, samples_of, LeadTo, AreBoundedCalls, given_by, returned_by, references_given, references_returned, references_in, HasOpenOwner, HasRootAlone, IsEmptyTree};
ghost use Rattle.mem_model.specs.Charge.{charged_at};
ghost use Rattle.mem_model.specs.Chunk.{Chunk};
ghost use Rattle.mem_model.specs.DrawnNumbers.{DrawsNumbers};
ghost use Rattle.mem_model.specs.LawfulState.{IsLawfulState};
ghost use Rattle.mem_model.specs.MeasuredTree.{MeasuredTree, IsOpened, peak_at};
ghost use Rattle.mem_model.specs.PeakSample.{peak_of};
ghost use Rattle.mem_model.specs.TreeState.{TreeState, opened, charges_in, held_at};

/// Every state that calls reach from an opening is lawful.
pub fn states_that_calls_reach_are_lawful()
    ensures { (limit : ℕ) (calls : List TreeCall) → limit ≤ MAX_LIMIT → AreBoundedCalls calls →
        IsLawfulState (state_after (opened limit) calls) }
{}

/// The peaks of a tree that calls lead to from an opening, each raising them by its samples, are the greatest over all samples: so
/// what each call is said to do to peaks says what they are in the end.
pub fn peaks_are_the_greatest_of_the_samples()
    ensures state { (limit : ℕ) (calls : List TreeCall) (first last : MeasuredTree) →
        IsOpened limit first → LeadTo first calls last → last.state ≡ state_after (opened limit) calls }
    ensures peaks { (limit : ℕ) (calls : List TreeCall) (first last : MeasuredTree) →
        IsOpened limit first → LeadTo first calls last →
        (n : ℕ) → peak_at last n ≡ peak_of (samples_of (opened limit) calls) n }
{}

/// After calls from an opening no allocator holds more than its peak.
pub fn what_is_held_is_within_the_peak()
    ensures { (limit : ℕ) (calls : List TreeCall) → limit ≤ MAX_LIMIT → AreBoundedCalls calls →
        (n : ℕ) → held_at (state_after (opened limit) calls) n ≤ peak_of (samples_of (opened limit) calls) n }
{}

/// After such calls the owner of each live chunk, which alone is charged for it, is open and refers to it, as an
/// `AllocationManager` of Arrow Java has one owning ledger; and no two live chunks have the same number.
pub fn each_live_chunk_is_charged_to_one_allocator()
    ensures owned { (limit : ℕ) (calls : List TreeCall) → limit ≤ MAX_LIMIT → AreBoundedCalls calls →
        let state = state_after (opened limit) calls in
        All (HasOpenOwner state) state.chunks }
    ensures numbered { (limit : ℕ) (calls : List TreeCall) → limit ≤ MAX_LIMIT → AreBoundedCalls calls →
        let state = state_after (opened limit) calls in
        AllPairs (λ (one other : Chunk). one.number ≢ other.number) state.chunks }
{}

/// What all allocators are charged together is what the live chunks are together, in bytes: in any lawful state, so in any that
/// calls reach.
pub fn allocators_are_charged_the_live_chunks()
    ensures { (state : TreeState) → IsLawfulState state →
        sum_by (λ (node : TreeNode). charged_at (charges_in state) node.number.0) state.nodes
        ≡ sum_by (λ (chunk : Chunk). chunk.size) state.chunks }
{}

/// A call draws at most one chunk number and one allocator number, and adds at most one reference to any chunk.
pub fn a_call_draws_at_most_one_number()
    ensures call { (state : TreeState) (call : TreeCall) → DrawsNumbers state (after_call state call) 1 }
    ensures calls { (state : TreeState) (calls : List TreeCall) → DrawsNumbers state (state_after state calls) (length calls) }
{}

/// The references that were there before and those that calls gave are those that are there after and those that were given
/// back.
pub fn references_balance()
    ensures call { (state : TreeState) (call : TreeCall) → IsLawfulState state →
        references_in state + given_by state call
        ≡ references_in (after_call state call) + returned_by state call }
    ensures calls { (state : TreeState) (calls : List TreeCall) →
        IsLawfulState state → AreBoundedCalls calls →
        references_in state + references_given state calls
        ≡ references_in (state_after state calls) + references_returned state calls }
{}

/// Calls that give every reference back and close every child leave no live chunk, and a root that holds nothing and that nothing
/// uses: `BaseAllocator.close` of Arrow Java then finds no leak.
pub fn calls_that_give_all_back_leave_an_empty_tree()
    ensures { (limit : ℕ) (calls : List TreeCall) → limit ≤ MAX_LIMIT → AreBoundedCalls calls →
        references_given (opened limit) calls ≡ references_returned (opened limit) calls →
        HasRootAlone (state_after (opened limit) calls) →
        IsEmptyTree (state_after (opened limit) calls) }
{}
