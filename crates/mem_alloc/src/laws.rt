//! The law of calls of the shared tree. The function does nothing: its contract is the law, which the check proves.
ghost use Rattle.std.specs.Prelude.{◌≡◌, ◌+◌, List, sum_by};
ghost use Rattle.mem_buf.specs.Chain.{MakesCalls};
ghost use Rattle.mem_buf.specs.MemoryCall.{MemoryCall};
ghost use Rattle.mem_alloc.specs.Counts.{given_by, running_model, taken_by};
ghost use Rattle.mem_alloc.specs.RunningToken.{RunningToken};

/// Whatever calls a caller makes, its token counts the references that they gave and those that they gave back.
pub fn calls_count_their_references()
    ensures counted { (calls : List MemoryCall) (old new : RunningToken) → MakesCalls running_model calls old new
        → (new.taken ≡ old.taken + sum_by taken_by calls) × (new.given ≡ old.given + sum_by given_by calls) }
{}
