//! The operators of a batch, one after another.
ghost use Rattle.std.specs.Prelude.{◌≡◌, ◌+◌, ◌<◌, ◌≤◌, All, Err, IfOk, length};
ghost use Rattle.mem_num.specs.declared.bounds.TheConstants.{LARGEST};
ghost use Rattle.mem_num.specs.declared.full.Full.{Full as AnyFull};
ghost use Rattle.mem_buf.specs.Chain.{Runs};
ghost use Rattle.query_model.specs.Answer.{answer_of};
ghost use Rattle.query_model.specs.Buffers.{buffer_lengths};
ghost use Rattle.query_model.specs.Fit.{IsFit};
ghost use Rattle.query_model.specs.Requests.{answer_kinds, kinds_of};
ghost use Rattle.query_model.specs.declared.bounds.TheConstants.{MOST_ROWS};
ghost use Rattle.pipeline.specs.BatchRun.{CanRun, IsBatchRun};

use batch_vec::{Batch, OpRefused};
use mem_buf::Memory;
use mem_num::{AllocId, NoMemory};
use operators::{filter, group_sums, project, scan};
use query_model::{Output, Plan};
use row_text::RowsSlice;
use std::alloc::Global;

/// Where the scan, the filter, the projection and the grouped sums keep what they have.
const SCAN: AllocId = AllocId(1);

const FILTER: AllocId = AllocId(2);

const PROJECT: AllocId = AllocId(3);

const SUMS: AllocId = AllocId(4);

/// Runs the operators of a plan over some of its rows, and gives their part of the answer. Whatever is refused, all that the batch
/// had is given back.
pub(crate) fn run_batch<M: Memory>(
    alloc: Global,
    mem: &M,
    token: &mut M::Token,
    plan: &Plan,
    rows: &RowsSlice<'_>,
) -> Result<Batch<M::Hold>, OpRefused>
    requires fit { IsFit plan.now }
    requires kinds { rows.now.kinds ≡ kinds_of plan.now.columns }
    requires few { length rows.now.rows ≤ MOST_ROWS }
    requires sized { All (λ length. length ≤ LARGEST) (buffer_lengths rows.now.kinds rows.now.rows) }
    requires token { CanRun (M.model.view token.old) plan.now rows.now.rows }

    // The rows that meet the tests, picked or grouped.
    ensures kinds { IfOk result (λ batch. batch.kinds ≡ answer_kinds plan.now) }
    ensures rows { IfOk result (λ batch. batch.rows ≡ answer_of plan.now rows.now.rows) }

    // Its calls are the planned ones, up to one that a level refused, if any was.
    ensures calls { Runs M.model (IsBatchRun M.model.reference plan.now rows.now.rows result) token.old token.new }
    ensures full { (full : AnyFull) → result ≡ Err (OpRefused.Full full) → full.limit < full.held + full.amount }
{
    let _count = rows.len();
    let scanned = match scan(alloc, mem, token, SCAN, rows) {
        Ok(scanned) => scanned,
        Err(refused) => return Err(refused),
    };
    let met = match filter(alloc, mem, token, FILTER, plan.tests.as_slice(), scanned) {
        Ok(met) => met,
        Err(refused) => return Err(refused),
    };
    match &plan.output {
        Output::Select(picks) => {
            match project(alloc, mem, token, PROJECT, picks.as_slice(), met) {
                Ok(picked) => Ok(picked),
                Err(NoMemory) => Err(OpRefused::NoMemory),
            }
        }
        Output::Group { key, sums } => {
            group_sums(alloc, mem, token, SUMS, *key, sums.as_slice(), met)
        }
    }
}
