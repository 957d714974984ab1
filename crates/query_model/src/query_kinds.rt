//! The kinds of a query's columns.
ghost use Rattle.std.specs.Prelude.{◌≡◌, IfOk, slice_get};
ghost use Rattle.std.specs.Option.{option_map_or};
ghost use Rattle.query_model.specs.Requests as spec;

use crate::column::Column;
use crate::kind::Kind;
use crate::output::Output;
use crate::plan::Plan;
use std::alloc::{AllocError, Global};

/// The kinds of columns.
pub fn kinds_of(alloc: Global, columns: &[Column]) -> Result<Vec<Kind>, AllocError>
    ensures value { IfOk result (λ kinds. kinds.items ≡ spec.kinds_of columns.now) }
{
    let mut kinds = Vec::new(alloc);
    for column in columns {
        kinds.push(column.kind)?;
    }
    Ok(kinds)
}

/// The kinds of the answer's columns.
pub fn answer_kinds(alloc: Global, plan: &Plan) -> Result<Vec<Kind>, AllocError>
    ensures value { IfOk result (λ kinds. kinds.items ≡ spec.answer_kinds plan.now) }
{
    match &plan.output {
        Output::Select(picks) => {
            let kinds = kinds_of(alloc, plan.columns.as_slice())?;
            picked_kinds(alloc, &kinds, picks.as_slice())
        }
        Output::Group { key: _, sums } => sum_kinds(alloc, sums.as_slice().len()),
    }
}

// The kinds of the columns that are picked.
fn picked_kinds(alloc: Global, kinds: &[Kind], picks: &[u32]) -> Result<Vec<Kind>, AllocError>
    ensures { IfOk result (λ picked. picked.items ≡ spec.picked_kinds kinds.now picks.now) }
{
    let mut picked = Vec::new(alloc);
    for pick in picks {
        picked.push(kind_at(kinds, *pick as usize))?;
    }
    Ok(picked)
}

// The kind of a column; numbers, where there is no such column.
fn kind_at(kinds: &[Kind], column: usize) -> Kind
    ensures { result ≡ option_map_or (λ kind. kind) (slice_get kinds.now column) Kind.Int }
{
    if column < kinds.len() {
        kinds[column]
    } else {
        Kind::Int
    }
}

// The kinds of a key and of so many sums.
fn sum_kinds(alloc: Global, count: usize) -> Result<Vec<Kind>, AllocError>
    ensures { IfOk result (λ kinds. kinds.items ≡ spec.sum_kinds count) }
{
    let mut kinds = Vec::new(alloc);
    kinds.push(Kind::Text)?;
    for place in 0..count {
        kinds.push(Kind::Sum)?;
    }
    Ok(kinds)
}
