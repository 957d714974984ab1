//! Asking a tree for a buffer.
ghost use Rattle.std.specs.Prelude.{◌≡◌, ◌≢◌, ◌+◌, ◌-◌, ◌<◌, ◌≤◌, ◌^◌, true, Err};
ghost use Rattle.mem_num.specs.declared.bounds.TheConstants.{LARGEST, MOST_NUMBERS};
ghost use Rattle.mem_model.specs.Grant.{grant_result, charge_result};
ghost use Rattle.mem_model.specs.MeasuredTree.{IsAfterCall};
ghost use Rattle.mem_model.specs.TreeState.{is_open};
ghost use Rattle.alloc_tree.specs.Counting.{ChargesBytes, count_after};

use crate::solo_tree::{SoloTree, one_more};
use mem_num::{AllocId, BufferRefused, Closed, Ref, Rounding, rounded};

impl SoloTree {
    /// Asks for a buffer of some bytes at an allocator, by the policy of powers of two. After `BaseAllocator.buffer`. The
    /// chunk's ledgers take memory, nothing else does.
    pub fn grant(&mut self, at: AllocId, request: u64) -> Result<Ref, BufferRefused>
        requires numbers { ChargesBytes self.old.state at request → self.old.state.drawn + 1 < MOST_NUMBERS }
        ensures answer { result ≢ Err BufferRefused.NoMemory → result ≡ (grant_result self.old.state at request).answer }
        ensures after { result ≢ Err BufferRefused.NoMemory → IsAfterCall self.old (grant_result self.old.state at request) self.new }
        ensures no_memory { result ≡ Err BufferRefused.NoMemory → self.new ≡ self.old }

        // It is counted where it draws a number.
        ensures counted { self.new.calls ≡ count_after self.old.calls (self.new.state.drawn - self.old.state.drawn) }
    {
        let size = rounded(Rounding::Power, request)?;
        if !self.is_open(at) {
            return Err(BufferRefused::Closed(Closed { node: at, uses: 0 }));
        }
        if size == 0 {
            return Ok(Ref {
                chunk: 0,
                alloc: at,
                size,
            });
        }
        self.charge(at, size)
    }

    // Charges a size, and spends a chunk number also where there is no room for it. The chunk is put in first: it alone can
    // want memory.
    fn charge(&mut self, at: AllocId, size: u64) -> Result<Ref, BufferRefused>
        requires numbers { self.old.state.drawn + 1 < MOST_NUMBERS }
        requires open { is_open self.old.state at.0 ≡ true }
        requires some_bytes { 1 ≤ size }
        requires few_bytes { size ≤ LARGEST }
        ensures answer { result ≢ Err BufferRefused.NoMemory
            → result ≡ (charge_result self.old.state (record { at = at; amount = size })).answer }
        ensures after { result ≢ Err BufferRefused.NoMemory
            → IsAfterCall self.old (charge_result self.old.state (record { at = at; amount = size })) self.new }
        ensures no_memory { result ≡ Err BufferRefused.NoMemory → self.new ≡ self.old }
        ensures counted { self.new.calls ≡ count_after self.old.calls (self.new.state.drawn - self.old.state.drawn) }
    {
        let number = self.drawn + 1;
        self.chunks.push(number, size, at)?;
        self.drawn = number;
        self.calls = one_more(self.calls);
        if let Err(full) = self.rows.request(at, size) {
            self.chunks.remove(number);
            return Err(BufferRefused::Full(full));
        }
        self.rows.add_use(at);
        Ok(Ref {
            chunk: number,
            alloc: at,
            size,
        })
    }
}
