//! The law for the claim that stands first, and what claims weigh in the root: for an account whose claims come from several lists.
ghost use Rattle.std.specs.Prelude.{◌≡◌, ℕ, ◌+◌, ◌-◌, ◌<◌, ◌≤◌, Bool, true, false, List, ◌∷◌, ◌++◌, length, slice_set, sum_by, Some, None};
ghost use Rattle.acct_core.specs.Claims.{Claim, account, claim_at};
ghost use Rattle.acct_core.specs.declared.event.Event.{Event};
ghost use Rattle.acct_core.specs.declared.row.Row.{Row};
ghost use Rattle.acct_core.specs.Applies.{opened_row, closed_row};
ghost use Rattle.acct_core.specs.Effects.{Effect, claim_number, effect_of, level_of};
ghost use Rattle.acct_core.specs.Heads.{claim_under, entered_phase, with_uses};
ghost use Rattle.acct_core.specs.Lawful.{IsLawfulAccount, IsLawfulFixedTree, PaysFor};
ghost use Rattle.acct_core.specs.NodeTree.{IsOpen};
ghost use Rattle.acct_core.specs.Phases.{Phase};
ghost use Rattle.acct_core.specs.Rows.{row, shapes};
ghost use Rattle.acct_core.specs.Weights.{in_root, stake};

/// An event of the first claim sets that claim and one row, and keeps the law, in a tree that is fixed too.
pub fn event_of_the_first_claim_keeps_the_law()
    ensures law { (rows : List Row) (claim : Claim) (claims : List Claim) (event : Event) (effect : Effect) →
        claim_number event ≡ 0 → effect_of event claim (row rows (level_of event claim)) ≡ Some effect →
        IsLawfulAccount (account rows (claim ∷ claims)) →
        IsLawfulAccount (account (slice_set rows (level_of event claim) effect.row) (effect.claim ∷ claims)) }
    ensures fixed { (rows : List Row) (claim : Claim) (claims : List Claim) (event : Event) (effect : Effect) →
        claim_number event ≡ 0 → effect_of event claim (row rows (level_of event claim)) ≡ Some effect →
        IsLawfulFixedTree (account rows (claim ∷ claims)) →
        IsLawfulFixedTree (account (slice_set rows (level_of event claim) effect.row) (effect.claim ∷ claims)) }
{}

/// A use more is a claim more, which is in where the node is open, and turned away where it isn't.
pub fn use_more_keeps_the_law()
    ensures { (rows : List Row) (claims : List Claim) (node : ℕ) →
        IsLawfulAccount (account rows claims) → (row rows node).shape.made ≡ true →
        IsLawfulAccount (account (slice_set rows node (with_uses (row rows node) ((row rows node).uses + 1)))
        (claim_at node (entered_phase (row rows node).shape.is_open) ∷ claims)) }
{}

/// A use less is a claim less, of one without a charge or one that was turned away.
#[tactic(auto, using(crate::proofs::HeadLemmas::leave_head))]
pub fn use_less_keeps_the_law()
    ensures { (rows : List Row) (claims : List Claim) (node : ℕ) (was_open : Bool) →
        IsLawfulAccount (account rows (claim_at node (entered_phase was_open) ∷ claims)) →
        IsLawfulAccount (account (slice_set rows node (with_uses (row rows node) ((row rows node).uses - 1))) claims) }
{}

/// A child is made on the first claim, which pays for its reservation.
pub fn child_of_the_first_claim_keeps_the_law()
    ensures { (rows : List Row) (claims : List Claim) (child parent reservation limit : ℕ) →
        IsLawfulAccount (account rows (claim_under parent None reservation ∷ claims)) →
        IsOpen (shapes rows) parent → reservation ≤ limit →
        child < length rows → (row rows child).shape.made ≡ false → parent < child →
        IsLawfulAccount (account (slice_set rows child (opened_row parent reservation limit))
        (claim_under parent (Some child) reservation ∷ claims)) }
{}

/// A child without uses, which stands on the first claim, is closed.
pub fn closing_on_the_first_claim_keeps_the_law()
    ensures { (rows : List Row) (claims : List Claim) (child parent reservation : ℕ) →
        IsLawfulAccount (account rows (claim_under parent (Some child) reservation ∷ claims)) →
        IsOpen (shapes rows) child → (row rows child).uses ≡ 0 → (row rows child).shape.parent ≡ Some parent →
        IsLawfulAccount (account (slice_set rows child (closed_row (row rows child)))
        (claim_under parent None reservation ∷ claims)) }
{}

/// A node that has no parent, and so stands on no claim, is closed where it has no uses.
pub fn closing_the_root_keeps_the_law()
    ensures { (rows : List Row) (claims : List Claim) (node : ℕ) → IsLawfulAccount (account rows claims) →
        IsOpen (shapes rows) node → (row rows node).uses ≡ 0 → (row rows node).shape.parent ≡ None →
        IsLawfulAccount (account (slice_set rows node (closed_row (row rows node))) claims) }
{}

/// A claim that pays for a reservation is as lawful as the one that stands under a child, whatever steps it went up by.
pub fn claim_that_pays_can_stand_under_a_child()
    ensures { (rows : List Row) (parent reservation : ℕ) (phase : Phase) (claims : List Claim) → PaysFor reservation phase →
        IsLawfulAccount (account rows (claim_at parent phase ∷ claims)) →
        IsLawfulAccount (account rows (claim_under parent None reservation ∷ claims)) }
{}

/// The stake of claims is at most what they have in the root, and two lists together have no greater stake than each by itself.
#[tactic(auto, using(crate::proofs::WeightLemmas::stake_le, crate::proofs::WeightLemmas::stake_append))]
pub fn stakes_are_in_the_root()
    ensures within { (claims : List Claim) → stake claims ≤ sum_by (λ claim. in_root claim.phase) claims }
    ensures joined { (claims others : List Claim) → stake (claims ++ others) ≤ stake claims + stake others }
{}
