//! Reading rows back.
ghost use Rattle.std.specs.Prelude.{◌≡◌, IfOk};
ghost use Rattle.batch_vec.specs.Batches.{bytes_of};
ghost use Rattle.batch_vec.specs.Columns.{IsStored, cells_from, rows_in};

use crate::batch::Batch;
use crate::decoding::decoded;
use mem_buf::ArrowBuf;
use mem_num::NoMemory;
use query_model::Kind;
use row_text::{CellColumn, Rows};
use std::alloc::{AllocError, Global};

/// A copy of the rows of a batch.
pub fn rows_of<H>(alloc: Global, batch: &Batch<H>) -> Result<Rows, NoMemory>
    ensures kinds { IfOk result (λ rows. rows.kinds ≡ batch.now.kinds) }
    ensures rows { IfOk result (λ rows. rows.rows ≡ batch.now.rows) }
{
    let count = batch.count;
    match columns_of(
        alloc,
        count,
        batch.kinds.as_slice(),
        batch.buffers.as_slice(),
    ) {
        Ok(columns) => Ok(Rows::from_columns(columns, count)),
        Err(AllocError) => Err(NoMemory),
    }
}

// The columns that buffers hold.
fn columns_of<H>(
    alloc: Global,
    count: usize,
    kinds: &[Kind],
    buffers: &[ArrowBuf<H>],
) -> Result<Vec<CellColumn>, AllocError>
    requires stored { IsStored count kinds.now (bytes_of buffers.now) (rows_in count kinds.now (bytes_of buffers.now)) }
    ensures columns { IfOk result (λ columns. columns.items ≡ cells_from 0 kinds.now (rows_in count kinds.now (bytes_of buffers.now))) }
{
    let mut columns = Vec::new(alloc);
    'kinds: for place in 0..kinds.len() {
        let first = buffers[2 * place].view.bytes();
        let second = buffers[2 * place + 1].view.bytes();
        columns.push(decoded(alloc, kinds[place], count, first, second)?)?;
    }
    Ok(columns)
}
