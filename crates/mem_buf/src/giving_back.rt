//! Giving buffers back.
ghost use Rattle.std.specs.Prelude.{◌≡◌, map, length};
ghost use Rattle.std.specs.Vec.Iter.{into_iter_items, into_iter_len};
ghost use Rattle.mem_buf.specs.Callers.{GivesBack};
ghost use Rattle.mem_buf.specs.Chain.{Runs};

use crate::arrow_buf::ArrowBuf;
use crate::memory::Memory;
use std::vec::IntoIter;

/// Releases the hold of each buffer, in order, and no other. Takes no memory.
pub fn give_back<M: Memory>(mem: &M, token: &mut M::Token, bufs: Vec<ArrowBuf<M::Hold>>)
    ensures calls { Runs M.model (GivesBack (map (λ buf. M.model.reference buf.hold) bufs.items)) token.old token.new }
{
    give_back_rest(mem, token, bufs.into_iter());
}

/// The same of the buffers that are left.
pub(crate) fn give_back_rest<M: Memory>(
    mem: &M,
    token: &mut M::Token,
    rest: IntoIter<ArrowBuf<M::Hold>>,
)
    requires { into_iter_len rest ≡ length (into_iter_items rest) }
    ensures calls { Runs M.model (GivesBack (map (λ buf. M.model.reference buf.hold) (into_iter_items rest))) token.old token.new }
{
    let mut left = rest;
    while let Some(buf) = left.next() {
        let ArrowBuf { hold, view: _ } = buf;
        let _ = mem.release(token, hold);
    }
    left.destroy_empty();
}
