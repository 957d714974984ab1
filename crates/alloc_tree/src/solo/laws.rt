//! The laws of calls of the memory of one thread. Each function does nothing: its contract is a law, which the check proves.
ghost use Rattle.std.specs.Prelude.{◌≡◌, List, [], All};
ghost use Rattle.mem_model.specs.Calls.{state_after};
ghost use Rattle.mem_model.specs.LawfulState.{IsLawfulState};
ghost use Rattle.mem_model.specs.MeasuredTree.{MeasuredTree, IsAfterCall};
ghost use Rattle.mem_model.specs.PlannedCalls.{PlannedCall, run_planned};
ghost use Rattle.mem_buf.specs.Chain.{MakesCalls};
ghost use Rattle.mem_buf.specs.MemoryCall.{MemoryCall};
ghost use Rattle.alloc_tree.specs.SoloMeaning.{solo_model};
ghost use Rattle.alloc_tree.specs.SoloCalls.{tree_calls, HasMemory, AreAnswered};
ghost use Rattle.alloc_tree.specs.SoloPlanned.{AreBoundedPlans, ArePlanned, AreTold};

/// Calls of the memory of one thread that found memory leave the state that the same calls of the tree leave, and each was answered
/// as the tree's own call is. So what a caller over every memory does is known to the last number over this one.
pub fn calls_of_one_thread_are_calls_of_its_tree()
    ensures state { (calls : List MemoryCall) (old new : MeasuredTree) → All HasMemory calls →
        MakesCalls solo_model calls old new → new.state ≡ state_after old.state (tree_calls calls) }
    ensures answers { (calls : List MemoryCall) (old new : MeasuredTree) → All HasMemory calls →
        MakesCalls solo_model calls old new → AreAnswered old.state calls }
{}

/// Calls of the memory of one thread that found memory, and that name references as a plan does, by the calls that gave them, leave the
/// tree that running the plan leaves, with its peaks, and children and buffers were answered as the plan's are. So what is planned for a
/// caller before it runs is known to the last number.
pub fn calls_that_were_planned_leave_what_the_plan_leaves()
    ensures after { (plan : List PlannedCall) (calls : List MemoryCall) (old new : MeasuredTree) →
        IsLawfulState old.state → AreBoundedPlans plan → All HasMemory calls → ArePlanned [] plan calls →
        MakesCalls solo_model calls old new → IsAfterCall old (run_planned old.state plan) new }
    ensures told { (plan : List PlannedCall) (calls : List MemoryCall) (old new : MeasuredTree) →
        IsLawfulState old.state → AreBoundedPlans plan → All HasMemory calls → ArePlanned [] plan calls →
        MakesCalls solo_model calls old new → AreTold calls (run_planned old.state plan).answer }
{}
