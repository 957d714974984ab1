//! The laws of what a query asks for. Each function does nothing: its contract is a law, which the check proves.
ghost use Rattle.std.specs.Prelude.{◌≡◌, ◌≤◌, ◌<◌, ℕ, List, None, All, drop, length, map, slice_index_or, sum, take};
ghost use Rattle.mem_num.specs.declared.bounds.TheConstants.{LARGEST};
ghost use Rattle.query_model.specs.Answer.{groups_of};
ghost use Rattle.query_model.specs.Buffers.{buffer_lengths, buffer_sizes};
ghost use Rattle.query_model.specs.Cells.{IsRow};
ghost use Rattle.query_model.specs.Filter.{meeting};
ghost use Rattle.query_model.specs.Requests.{AreAdequate, buffer_requests, byte_ceiling, sum_kinds};
ghost use Rattle.query_model.specs.SequentialCalls.{sequential_refusal};
ghost use Rattle.query_model.specs.declared.bounds.TheConstants.{MOST_ROWS};
ghost use Rattle.query_model.specs.declared.cell.Cell.{Cell};
ghost use Rattle.query_model.specs.declared.kind.Kind.{Kind};
ghost use Rattle.query_model.specs.declared.plan.Plan.{Plan};
ghost use Rattle.query_model.specs.declared.test.Test.{Test};

/// The buffers of the rows that meet tests are as many as those of all rows, none is longer, and they are charged no more.
pub fn fewer_rows_have_shorter_buffers()
    ensures count { (kinds : List Kind) (tests : List Test) (rows : List (List Cell)) →
        length (buffer_lengths kinds (meeting tests rows)) ≡ length (buffer_lengths kinds rows) }
    ensures lengths { (kinds : List Kind) (tests : List Test) (rows : List (List Cell)) (place : ℕ) →
        slice_index_or (buffer_lengths kinds (meeting tests rows)) place 0
        ≤ slice_index_or (buffer_lengths kinds rows) place 0 }
    ensures bound { (kinds : List Kind) (tests : List Test) (rows : List (List Cell)) (most : ℕ) →
        All (λ length. length ≤ most) (buffer_lengths kinds rows) →
        All (λ length. length ≤ most) (buffer_lengths kinds (meeting tests rows)) }
    ensures charges { (kinds : List Kind) (tests : List Test) (rows : List (List Cell)) →
        sum (buffer_sizes kinds (meeting tests rows)) ≤ sum (buffer_sizes kinds rows) }
{}

/// What bounds the buffers of rows bounds those of a part of them.
pub fn parts_have_shorter_buffers()
    ensures { (kinds : List Kind) (rows : List (List Cell)) (from len most : ℕ) →
        All (λ length. length ≤ most) (buffer_lengths kinds rows) →
        All (λ length. length ≤ most) (buffer_lengths kinds (take len (drop from rows))) }
{}

/// The buffers of grouped sums are within the largest size, where those of their rows are: a printed number has 40 bytes at most.
pub fn groups_have_short_buffers()
    ensures { (kinds : List Kind) (key : ℕ) (sums : List ℕ) (rows : List (List Cell)) →
        All (IsRow kinds) rows → key < length kinds → length rows ≤ MOST_ROWS →
        All (λ length. length ≤ LARGEST) (buffer_lengths kinds rows) →
        All (λ length. length ≤ LARGEST) (buffer_lengths (sum_kinds (length sums)) (groups_of key sums rows)) }
{}

/// What a batch asks for, beside the reservations, is within its ceiling.
pub fn needs_are_within_their_ceiling()
    ensures { (plan : Plan) (rows : List (List Cell)) (batch : ℕ) →
        sum (map (λ request. request.amount) (buffer_requests plan rows batch)) ≤ byte_ceiling plan rows batch }
{}

/// Adequate limits never refuse a query with one worker.
#[tactic(auto, using(crate::proofs::RefusalLemmas::adequate))]
pub fn adequate_limits_never_refuse()
    ensures { (plan : Plan) (rows : List (List Cell)) → AreAdequate plan rows → sequential_refusal plan rows ≡ None }
{}
