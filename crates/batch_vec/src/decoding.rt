//! Bytes as columns.
ghost use Rattle.std.specs.Prelude.{◌≡◌, List, IfOk};
ghost use Rattle.query_model.specs.declared.cell.Cell.{Cell};
ghost use Rattle.batch_vec.specs.Columns.{IsColumn};

use crate::bits::marks_of;
use crate::numbers::{ints_of, sums_of};
use crate::offsets::ends_of;
use query_model::Kind;
use row_text::CellColumn;
use std::alloc::{AllocError, Global};

/// The column that two buffers hold.
pub(crate) fn decoded(
    alloc: Global,
    kind: Kind,
    count: usize,
    first: &[u8],
    second: &[u8],
) -> Result<CellColumn, AllocError>
    requires column { (cells : List Cell) × IsColumn kind count first.now second.now cells }
    ensures value { (cells : List Cell) → IsColumn kind count first.now second.now cells
        → IfOk result (λ column. column ≡ record { kind = kind; cells = cells }) }
{
    match kind {
        Kind::Int => Ok(CellColumn::ints(ints_of(alloc, second)?, marks_of(alloc, first, count)?)),
        Kind::Sum => Ok(CellColumn::sums(sums_of(alloc, second)?, marks_of(alloc, first, count)?)),
        Kind::Text => Ok(CellColumn::texts(second.to_vec(alloc)?, ends_of(alloc, first)?)),
    }
}
