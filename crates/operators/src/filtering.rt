//! The rows of a batch that meet tests.
ghost use Rattle.std.specs.Prelude.{◌≡◌, ◌≤◌, All, Err, IfOk, map};
ghost use Rattle.mem_num.specs.declared.bounds.TheConstants.{LARGEST};
ghost use Rattle.mem_num.specs.declared.full.Full.{Full as AnyFull};
ghost use Rattle.mem_buf.specs.Answers.{IsPastLimit};
ghost use Rattle.mem_buf.specs.Callers.{CanPay};
ghost use Rattle.mem_buf.specs.Chain.{Runs};
ghost use Rattle.query_model.specs.Buffers.{buffer_lengths};
ghost use Rattle.query_model.specs.Filter.{meeting};
ghost use Rattle.operators.specs.Instead.{IsStoreInstead};

use crate::gathering::rows_gathered;
use crate::selecting::places_meeting;
use crate::storing_instead::store_instead;
use batch_vec::{Batch, OpRefused, release_batch, rows_of};
use mem_buf::Memory;
use mem_num::AllocId;
use query_model::Test;
use row_text::Rows;
use std::alloc::{AllocError, Global};

/// Stores the rows of a batch that meet every test, in order, and then gives the batch back, whatever the answer. A row doesn't meet
/// a test of a column that there isn't, of a null, or with a value of another kind.
pub fn filter<M: Memory>(
    alloc: Global,
    mem: &M,
    token: &mut M::Token,
    at: AllocId,
    tests: &[Test],
    input: Batch<M::Hold>,
) -> Result<Batch<M::Hold>, OpRefused>
    requires pinned { 1 ≤ (M.model.view token.old).pins at.0 }
    requires sized { All (λ length. length ≤ LARGEST) (buffer_lengths input.kinds (meeting tests.now input.rows)) }
    requires budget { CanPay (M.model.view token.old) at (buffer_lengths input.kinds (meeting tests.now input.rows)) }

    // The batch holds the rows.
    ensures kinds { IfOk result (λ batch. batch.kinds ≡ input.kinds) }
    ensures rows { IfOk result (λ batch. batch.rows ≡ meeting tests.now input.rows) }

    // Just its buffers were asked for, and then those of the input were given back. A level that is full would have gone past its limit.
    ensures calls { Runs M.model (IsStoreInstead M.model.reference (M.model.view token.old) at
        (buffer_lengths input.kinds (meeting tests.now input.rows)) (map M.model.reference input.holds) result) token.old token.new }
    ensures full { (full : AnyFull) → result ≡ Err (OpRefused.Full full) → IsPastLimit (M.model.view token.old) full }
{
    match rows_meeting(alloc, tests, &input) {
        Ok(rows) => store_instead(alloc, mem, token, at, &rows.as_slice(), input),
        Err(AllocError) => {
            release_batch(mem, token, input);
            Err(OpRefused::NoMemory)
        }
    }
}

/// The rows that meet every test.
pub(crate) fn rows_meeting<H>(
    alloc: Global,
    tests: &[Test],
    input: &Batch<H>,
) -> Result<Rows, AllocError>
    ensures kinds { IfOk result (λ rows. rows.kinds ≡ input.now.kinds) }
    ensures rows { IfOk result (λ rows. rows.rows ≡ meeting tests.now input.now.rows) }
{
    let Ok(rows) = rows_of(alloc, input) else {
        return Err(AllocError);
    };
    let all = rows.as_slice();
    let places = places_meeting(alloc, tests, &all)?;
    rows_gathered(alloc, &all, places.as_slice())
}
