//! The laws of the accounts. Each function does nothing: its contract is a law, which the check proves, so that what is said here is
//! a theorem about the event table and not about this machine alone.
ghost use Rattle.std.specs.Prelude.{◌≡◌, ℕ, ◌+◌, ◌<◌, ◌≤◌, ◌^◌, Bool, true, false, List, ◌∷◌, ◌++◌, length, sum_by, All, Some, None};
ghost use Rattle.std.specs.List.{slice_get};
ghost use Rattle.std.specs.List.Sorted.{IsPermutation};
ghost use Rattle.mem_model.specs.Held.{held_of};
ghost use Rattle.mem_model.specs.TreeNode.{IsAllocatorTree};
ghost use Rattle.mem_model.specs.WorstCase.{worst_case};
ghost use Rattle.acct_core.specs.Claims.{Account, Claim, account, claim, claim_at};
ghost use Rattle.acct_core.specs.declared.event.Event.{Event};
ghost use Rattle.acct_core.specs.declared.level_step.LevelStep.{LevelStep};
ghost use Rattle.acct_core.specs.Phases.Phase.{Free, Held, Failed};
ghost use Rattle.acct_core.specs.declared.row.Row.{Row};
ghost use Rattle.acct_core.specs.declared.told.Told.{Told};
ghost use Rattle.acct_core.specs.Applies.{Applies, AppliesToClaim};
ghost use Rattle.acct_core.specs.AtRest.{IsAtRest, charges_at_rest, tree_node, tree_nodes};
ghost use Rattle.acct_core.specs.Bounds.{own_sizes_of, reservations_of, sizes_of};
ghost use Rattle.acct_core.specs.Effects.{Effect, effect_of};
ghost use Rattle.acct_core.specs.Lawful.{IsLawfulAccount, IsLawfulFixedTree};
ghost use Rattle.acct_core.specs.NodeTree.{IsOpen};
ghost use Rattle.acct_core.specs.Phases.{any_past, pending_subtraction};
ghost use Rattle.acct_core.specs.Opening.{opening};
ghost use Rattle.acct_core.specs.Rows.{row, shapes};
ghost use Rattle.acct_core.specs.Runs.{Runs};
ghost use Rattle.acct_core.specs.State.{IsInPhase, IsLawfulMachine, IsOfClaim, State, StepsTo};

/// Every event that can be taken leads from a lawful account to a lawful account.
#[tactic(auto, using(crate::proofs::LawLemmas::each_move))]
pub fn each_event_keeps_the_law()
    ensures { (old new : Account) (event : Event) (told : Told) →
        Applies old event told new → IsLawfulAccount old → IsLawfulAccount new }
{}

/// Every step of the machine keeps the law of its state, by which no number of it wraps.
pub fn each_step_keeps_the_law()
    ensures { (old new : State) (event : Event) (told : Told) →
        StepsTo old event told new → IsLawfulMachine old → IsLawfulMachine new }
{}

/// Every run of events from a machine's opening leads to a lawful state.
pub fn each_run_keeps_the_law()
    ensures lawful { (old new : State) (events : List Event) →
        Runs old events new → IsLawfulMachine old → IsLawfulMachine new }
    ensures opening { (root_limit claims bytes : ℕ) → claims < 2 ^ 32 → bytes ≤ 2 ^ 61 →
        IsLawfulMachine (opening root_limit claims bytes) }
{}

/// In a tree that is fixed from the start the part of the law that speaks of held numbers is kept by itself.
pub fn each_event_keeps_a_fixed_tree()
    ensures { (old new : Account) (event : Event) (told : Told) →
        AppliesToClaim old event told new → IsLawfulFixedTree old → IsLawfulFixedTree new }
{}

/// Held is at least what is still to be subtracted, so no subtraction goes below zero.
#[tactic(auto, using(crate::proofs::ConsequenceLemmas::subtractions_covered))]
pub fn held_covers_pending_subtractions()
    ensures { (account : Account) → IsLawfulAccount account → (node : ℕ) → IsOpen (shapes account.rows) node →
        sum_by (λ claim. pending_subtraction node claim.phase) account.claims ≤ (row account.rows node).held }
{}

/// A node without uses may be closed: it holds nothing.
#[tactic(auto, using(crate::proofs::ConsequenceLemmas::unused_empty))]
pub fn unused_node_holds_nothing()
    ensures { (account : Account) → IsLawfulAccount account → (node : ℕ) → IsOpen (shapes account.rows) node →
        (row account.rows node).uses ≡ 0 → (row account.rows node).held ≡ 0 }
{}

/// What bounds each held number, whatever calls are in flight. A claim on which a child stands pays for the child's reservation, so that
/// each reservation counts once.
#[tactic(auto, using(crate::proofs::ConsequenceLemmas::within_worst_case, crate::proofs::ConsequenceLemmas::within_worst_case_once))]
pub fn held_is_within_the_worst_case()
    ensures all { (account : Account) → IsLawfulAccount account → (node : ℕ) →
        (row account.rows node).held ≤ worst_case (sizes_of account.claims) (reservations_of account.rows) }
    ensures once { (account : Account) → IsLawfulAccount account → (node : ℕ) →
        (row account.rows node).held ≤ worst_case (own_sizes_of account.claims) (reservations_of account.rows) }
{}

/// The allocators that were made are a tree, whatever calls are in flight. Where there is any, the first is the root, which is
/// open or closed as the account has it.
#[tactic(auto, using(crate::proofs::NodeTreeLemmas::account_tree, crate::proofs::NodeTreeLemmas::account_root))]
pub fn made_nodes_are_an_allocator_tree()
    ensures tree { (account : Account) → IsLawfulAccount account → IsAllocatorTree (tree_nodes 0 account.rows) }
    ensures root { (account : Account) → IsLawfulAccount account → (node : ℕ) → (shapes account.rows node).made ≡ true →
        slice_get (tree_nodes 0 account.rows) 0 ≡ Some (tree_node 0 (row account.rows 0)) }
{}

/// At rest the rows by number and the list of allocators that were made tell the same held numbers.
#[tactic(auto, using(crate::proofs::ConsequenceLemmas::rest_is_held_of))]
pub fn held_at_rest_is_held_of()
    ensures { (account : Account) → IsLawfulAccount account → All (λ claim. IsAtRest claim.phase) account.claims →
        (node : ℕ) → IsOpen (shapes account.rows) node →
        (row account.rows node).held ≡ held_of (tree_nodes 0 account.rows) (charges_at_rest account.claims) node }
{}

/// A request that ended failed went past a limit.
#[tactic(auto, using(crate::proofs::ConsequenceLemmas::failed_past))]
pub fn failed_request_went_past_a_limit()
    ensures { (account : Account) → IsLawfulAccount account → (place : ℕ) → place < length account.claims →
        (size : ℕ) (forced : Bool) (steps : List LevelStep) →
        (claim account place).phase ≡ Failed size forced steps → any_past steps ≡ true }
{}

/// A request that isn't forced and ended held went past none.
#[tactic(auto, using(crate::proofs::ConsequenceLemmas::held_within_limits))]
pub fn held_request_went_past_no_limit()
    ensures { (account : Account) → IsLawfulAccount account → (place : ℕ) → place < length account.claims →
        (size : ℕ) (steps : List LevelStep) →
        (claim account place).phase ≡ Held size false steps → any_past steps ≡ false }
{}

/// Which claims stand first doesn't matter.
pub fn order_of_claims_does_not_matter()
    ensures law { (rows : List Row) (claims others : List Claim) → IsPermutation claims others →
        IsLawfulAccount (account rows claims) → IsLawfulAccount (account rows others) }
    ensures fixed { (rows : List Row) (claims others : List Claim) → IsPermutation claims others →
        IsLawfulFixedTree (account rows claims) → IsLawfulFixedTree (account rows others) }
{}

/// A free claim may come and go.
#[tactic(auto, using(crate::proofs::OrderLemmas::free_more, crate::proofs::OrderLemmas::free_less, crate::proofs::OrderLemmas::free_more_fixed, crate::proofs::OrderLemmas::free_less_fixed))]
pub fn free_claims_do_not_matter()
    ensures more { (rows : List Row) (node : ℕ) (claims : List Claim) →
        IsLawfulAccount (account rows claims) → IsLawfulAccount (account rows (claim_at node Free ∷ claims)) }
    ensures less { (rows : List Row) (node : ℕ) (claims : List Claim) →
        IsLawfulAccount (account rows (claim_at node Free ∷ claims)) → IsLawfulAccount (account rows claims) }
    ensures more_fixed { (rows : List Row) (node : ℕ) (claims : List Claim) →
        IsLawfulFixedTree (account rows claims) → IsLawfulFixedTree (account rows (claim_at node Free ∷ claims)) }
    ensures less_fixed { (rows : List Row) (node : ℕ) (claims : List Claim) →
        IsLawfulFixedTree (account rows (claim_at node Free ∷ claims)) → IsLawfulFixedTree (account rows claims) }
{}

/// An event of a claim has an effect exactly where claim and row are in the event's phase.
pub fn effects_are_those_in_phase()
    ensures some { (claim : Claim) (row : Row) (event : Event) (effect : Effect) →
        effect_of event claim row ≡ Some effect → IsInPhase event claim row }
    ensures none { (claim : Claim) (row : Row) (event : Event) → IsOfClaim event →
        effect_of event claim row ≡ None → ¬ IsInPhase event claim row }
{}

/// No held number and no count of uses comes near the end of its type.
pub fn numbers_stay_small()
    ensures held { (state : State) → IsLawfulMachine state → (node : ℕ) →
        (row state.account.rows node).held < 2 ^ 62 }
    ensures uses { (state : State) → IsLawfulMachine state → (node : ℕ) →
        (row state.account.rows node).uses < 2 ^ 32 }
{}
