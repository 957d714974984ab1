//! The laws of calls of a memory. Each function does nothing: its contract is a law, which the check proves.
ghost use Rattle.std.specs.Prelude.{◌+◌, ◌≤◌, List, ◌++◌, length};
ghost use Rattle.mem_buf.specs.Changes.{KeepsNames};
ghost use Rattle.mem_buf.specs.Chain.{MakesCalls};
ghost use Rattle.mem_buf.specs.MemoryCall.{MemoryCall};

use crate::memory::Memory;

/// Calls that were made after other calls are one chain with them: so what a caller of callers does is the calls of each, in order.
pub fn calls_in_a_row_are_one_chain<M: Memory>()
    ensures { (first second : List MemoryCall) (old middle new : M.Token) →
        MakesCalls M.model first old middle → MakesCalls M.model second middle new →
        MakesCalls M.model (first ++ second) old new }
{}

/// Whatever calls a caller makes, they spend a turn each at most, and the token can name afterwards what it could name before.
pub fn calls_spend_a_turn_each_at_most<M: Memory>()
    ensures turns { (calls : List MemoryCall) (old new : M.Token) → MakesCalls M.model calls old new →
        (M.model.view old).turns ≤ (M.model.view new).turns + length calls }
    ensures names { (calls : List MemoryCall) (old new : M.Token) → MakesCalls M.model calls old new →
        KeepsNames (M.model.view old) (M.model.view new) }
{}
