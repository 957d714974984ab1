//! The law where the claims come from several lists that nobody orders, and over a tree that is fixed from the start.
ghost use Rattle.std.specs.Prelude.{◌≡◌, ℕ, ◌≤◌, Bool, true, false, List, [], ◌∷◌, slice_set, Option, Some, None};
ghost use Rattle.mem_num.specs.declared.bounds.TheConstants.{MAX_RESERVATION};
ghost use Rattle.acct_core.specs.Claims.{Claim, account, claim_at};
ghost use Rattle.acct_core.specs.declared.event.Event.TheVariants.{Up as EventUp, Down as EventDown};
ghost use Rattle.acct_core.specs.declared.level_step.LevelStep.{LevelStep};
ghost use Rattle.acct_core.specs.declared.row.Row.{Row};
ghost use Rattle.acct_core.specs.Effects.{Effect, effect_of};
ghost use Rattle.acct_core.specs.FixedTrees.{CanTurnRound, IsGivenTree, settled};
ghost use Rattle.acct_core.specs.Lawful.{IsLawfulAccount, IsLawfulFixedTree};
ghost use Rattle.acct_core.specs.NodeTree.{IsOpen};
ghost use Rattle.acct_core.specs.Phases.{Phase};
ghost use Rattle.acct_core.specs.Phases.Phase.{In, Up, Held, Down};
ghost use Rattle.acct_core.specs.Rows.{row, shapes};
ghost use Rattle.acct_core.specs.SameClaims.{SameClaims};

/// Lists of the same claims are as lawful, in a tree that is fixed too.
pub fn same_claims_are_as_lawful()
    ensures law { (rows : List Row) (claims others : List Claim) → SameClaims claims others →
        IsLawfulAccount (account rows claims) → IsLawfulAccount (account rows others) }
    ensures fixed { (rows : List Row) (claims others : List Claim) → SameClaims claims others →
        IsLawfulFixedTree (account rows claims) → IsLawfulFixedTree (account rows others) }
{}

/// In a fixed tree a claim without a charge comes at an open node, and goes, and one that was released all the way is gone.
#[tactic(auto, using(crate::proofs::FixedTreeLemmas::in_more, crate::proofs::FixedTreeLemmas::in_less, crate::proofs::FixedTreeLemmas::settled_fixed))]
pub fn claim_without_a_charge_may_come_and_go()
    ensures comes { (rows : List Row) (node : ℕ) (claims : List Claim) → IsOpen (shapes rows) node →
        IsLawfulFixedTree (account rows claims) → IsLawfulFixedTree (account rows (claim_at node In ∷ claims)) }
    ensures goes { (rows : List Row) (node : ℕ) (claims : List Claim) →
        IsLawfulFixedTree (account rows (claim_at node In ∷ claims)) → IsLawfulFixedTree (account rows claims) }
    ensures settles { (rows : List Row) (node : ℕ) (phase : Phase) (claims : List Claim) →
        IsLawfulFixedTree (account rows (claim_at node phase ∷ claims)) →
        IsLawfulFixedTree (account rows (settled (claim_at node phase) claims)) }
{}

/// The first step of a request, which begins it and adds its whole size at its node in one, keeps the law of a fixed tree.
pub fn first_step_of_a_request_keeps_a_fixed_tree()
    ensures { (rows : List Row) (node size : ℕ) (claims : List Claim) (forced : Bool) (effect : Effect) →
        IsOpen (shapes rows) node → 1 ≤ size → size ≤ MAX_RESERVATION →
        effect_of (EventUp 0) (claim_at node (Up size node size forced [])) (row rows node) ≡ Some effect →
        IsLawfulFixedTree (account rows claims) → IsLawfulFixedTree (account (slice_set rows node effect.row) (effect.claim ∷ claims)) }
{}

/// The first step of a release, which turns the charge round and subtracts its whole size at its node in one, keeps it too.
pub fn first_step_of_a_release_keeps_a_fixed_tree()
    ensures { (rows : List Row) (node size : ℕ) (claims : List Claim) (phase : Phase) (effect : Effect) → CanTurnRound size phase →
        effect_of (EventDown 0) (claim_at node (Down size node size)) (row rows node) ≡ Some effect →
        IsLawfulFixedTree (account rows (claim_at node phase ∷ claims)) →
        IsLawfulFixedTree (account (slice_set rows node effect.row) (effect.claim ∷ claims)) }
{}

/// A tree that is given, in which nothing is charged and each node holds what its open children count for, is lawful.
#[tactic(auto, using(crate::proofs::FixedTreeLemmas::given_fixed))]
pub fn given_tree_is_lawful()
    ensures { (rows : List Row) → IsGivenTree rows → IsLawfulFixedTree (account rows []) }
{}

/// A held claim may forget its steps, and whether it was forced.
#[tactic(auto, using(crate::proofs::FixedTreeLemmas::forgotten_lawful))]
pub fn held_claim_may_forget_its_steps()
    ensures { (rows : List Row) (node size : ℕ) (under : Option ℕ) (forced : Bool) (steps : List LevelStep) (claims : List Claim) →
        IsLawfulAccount (account rows (record { node = node; under = under; phase = Held size forced steps } ∷ claims)) →
        IsLawfulAccount (account rows (record { node = node; under = under; phase = Held size false [] } ∷ claims)) }
{}
