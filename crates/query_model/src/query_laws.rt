//! The laws of what a query answers. Each function does nothing: its contract is a law, which the check proves.
ghost use Rattle.std.specs.Prelude.{◌≡◌, ◌≤◌, ℕ, List, flat_map, length};
ghost use Rattle.std.specs.List.{range_with_len};
ghost use Rattle.query_model.specs.Answer.{answer_of, output_of, groups_of, merged};
ghost use Rattle.query_model.specs.Requests.{batches_of};
ghost use Rattle.query_model.specs.declared.cell.Cell.{Cell};
ghost use Rattle.query_model.specs.declared.output.Output.{Output};
ghost use Rattle.query_model.specs.declared.plan.Plan.{Plan};

/// The batches, one after the other, are the rows.
#[tactic(auto, using(crate::proofs::BatchLemmas::batches_whole))]
pub fn batches_are_the_rows()
    ensures { (plan : Plan) (rows : List (List Cell)) → 1 ≤ plan.batch →
        flat_map (λ part. part) (batches_of plan rows) ≡ rows }
{}

/// An answer doesn't depend on where its rows are cut: the answers of parts, merged, are the answer of the whole. So grouped sums
/// of a whole are the grouped sums of those of its parts.
#[tactic(auto, using(crate::proofs::CutLemmas::answers_cut, crate::proofs::CutLemmas::output_cut, crate::proofs::GroupLemmas::groups_cut))]
pub fn answers_do_not_depend_on_cuts()
    ensures answers { (plan : Plan) (parts : List (List (List Cell))) →
        merged plan.output (flat_map (answer_of plan) parts) ≡ answer_of plan (flat_map (λ part. part) parts) }
    ensures outputs { (output : Output) (parts : List (List (List Cell))) →
        merged output (flat_map (output_of output) parts) ≡ output_of output (flat_map (λ part. part) parts) }
    ensures groups { (key : ℕ) (sums : List ℕ) (parts : List (List (List Cell))) →
        groups_of 0 (range_with_len 1 (length sums)) (flat_map (groups_of key sums) parts)
        ≡ groups_of key sums (flat_map (λ part. part) parts) }
{}

/// So it doesn't depend on how many rows a batch has.
#[tactic(auto, using(crate::proofs::CutLemmas::batches_cut))]
pub fn answers_do_not_depend_on_batches()
    ensures { (plan : Plan) (rows : List (List Cell)) → 1 ≤ plan.batch →
        merged plan.output (flat_map (answer_of plan) (batches_of plan rows)) ≡ answer_of plan rows }
{}
