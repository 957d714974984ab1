//! Batches of rows.
ghost use Rattle.std.specs.Prelude.{◌≡◌, length, map};
ghost use Rattle.mem_buf.specs.Callers.{GivesBack};
ghost use Rattle.mem_buf.specs.Chain.{Runs};

use mem_buf::{ArrowBuf, Memory, give_back};
use query_model::Kind;
use std::marker::Model;

/// Rows in buffers, two a column, column by column: seen as the kinds of the columns, the rows and the buffers' holds. After
/// `VectorSchemaRoot` of Arrow Java. A batch isn't lost where its holds can't be: it is given back by `release_batch`.
#[derive(Debug)]
pub struct Batch<H> {
    pub(crate) count: usize,
    pub(crate) kinds: Vec<Kind>,
    pub(crate) buffers: Vec<ArrowBuf<H>>,
}

impl<H> Model for Batch<H> {
    ghost use Rattle.batch_vec.specs.Batches.{BatchView, bytes_of, view_of};
    ghost use Rattle.batch_vec.specs.Columns.{IsStored, rows_in};

    ghost Value = { BatchView H };

    ghost view = { λ a. view_of a.count a.kinds.items a.buffers.items };

    ghost invariant = { λ a. IsStored a.count a.kinds.items (bytes_of a.buffers.items)
        (rows_in a.count a.kinds.items (bytes_of a.buffers.items)) };
}

impl<H> Batch<H> {
    /// How many rows there are. Takes no memory.
    pub fn len(&self) -> usize
        ensures value { result ≡ length self.now.rows }
    {
        self.count
    }

    /// The kinds of the columns. Takes no memory.
    pub fn kinds(&self) -> &[Kind]
        ensures value { result.now ≡ self.now.kinds }
    {
        self.kinds.as_slice()
    }
}

/// Releases the holds of a batch, in order. Takes no memory.
pub fn release_batch<M: Memory>(mem: &M, token: &mut M::Token, batch: Batch<M::Hold>)
    ensures calls { Runs M.model (GivesBack (map M.model.reference batch.holds)) token.old token.new }
{
    let Batch {
        count: _,
        kinds: _,
        buffers,
    } = batch;
    give_back(mem, token, buffers);
}
