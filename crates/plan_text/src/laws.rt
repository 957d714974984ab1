//! The laws of plans as bytes. Each function does nothing: its contract is a law, which the check proves.
ghost use Rattle.std.specs.Prelude.{◌≡◌, ℕ, List};
ghost use Rattle.query_model.specs.declared.plan.Plan.{Plan};
ghost use Rattle.query_model.specs.Fit.{IsFit};
ghost use Rattle.plan_text.specs.Plans.{IsPlanText};

/// Bytes are one plan at most: so the clauses of `read_plan` determine its answer, but for want of memory.
pub fn bytes_are_one_plan()
    ensures { (bytes : List ℕ) (plan other : Plan) →
        IsPlanText bytes plan → IsPlanText bytes other → plan ≡ other }
{}

/// Every plan fits its columns: what it tests, picks, groups and sums are columns that there are, of the kinds that this needs; and
/// its numbers have their bounds.
pub fn plans_are_fit()
    ensures { (bytes : List ℕ) (plan : Plan) → IsPlanText bytes plan → IsFit plan }
{}
