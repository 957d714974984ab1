//! The token of a chunk.
ghost use Rattle.std.specs.Prelude.{◌≡◌, ◌<◌, ◌≤◌};
ghost use Rattle.mem_num.specs.declared.bounds.TheConstants.{LARGEST};

use crate::steps::Token;
use std::marker::Model;

/// A chunk token: it lets its owner act on the accounts of one chunk. It can't be copied.
#[derive(Drop)]
pub struct ChunkSeat {
    pub(crate) token: Token,
    pub(crate) number: u32,
    pub(crate) size: u64,
}

impl Model for ChunkSeat {
    ghost use Rattle.acct_words.specs.Tokens.{ChunkToken, HasOneChunk, history_of, charged_in};

    ghost Value = { ChunkToken };

    ghost view = { λ seat. record {
      table = record { id = seat.token.table_id; start = seat.token.me.0.start };
      history = history_of seat.token.me.0;
      number = seat.number;
      size = seat.size;
      charged = charged_in seat.token.me.0;
    } };

    ghost invariant = { λ seat. HasOneChunk seat.token.me seat.number seat.size };
}

impl ChunkSeat {
    /// The chunk's number, from 1 on.
    pub fn number(&self) -> u32
        ensures value { result ≡ self.now.number }
        ensures some { 1 ≤ result }
    {
        self.number
    }

    /// The chunk's size in bytes.
    pub fn size(&self) -> u64
        ensures value { result ≡ self.now.size }
        ensures small { (1 ≤ result) × (result ≤ LARGEST) }
    {
        self.size
    }
}
