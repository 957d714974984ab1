//! The laws of a chunk. Each function does nothing: its contract is a law, which the check proves.
ghost use Rattle.std.specs.Prelude.{◌≡◌, ◌≢◌, ℕ, ◌≤◌, List, [], ◌∷◌};
ghost use Rattle.mem_num.specs.declared.alloc_id.AllocId.{AllocId};
ghost use Rattle.mem_num.specs.Least.{IsLeast};
ghost use Rattle.mem_model.specs.declared.ledger.Ledger.{Ledger};
ghost use Rattle.mem_model.specs.Charge.{charged_at};
ghost use Rattle.mem_model.specs.Chunk.{Chunk, charges_of, next_owner};
ghost use Rattle.mem_model.specs.Ledgers.{AreInOrder, count_of};

/// A chunk is charged to its owner, whole, and to nobody else.
pub fn a_chunk_is_charged_to_its_owner()
    ensures owner { (chunk : Chunk) → charged_at (charges_of (chunk ∷ [])) chunk.owner.0 ≡ chunk.size }
    ensures others { (chunk : Chunk) (n : ℕ) → n ≢ chunk.owner.0 → charged_at (charges_of (chunk ∷ [])) n ≡ 0 }
{}

/// An owner without a reference is followed by the least allocator that has one; an owner that has one stays.
pub fn the_next_owner_is_the_least()
    ensures least { (owner : AllocId) (ledgers : List Ledger) →
        AreInOrder ledgers → ledgers ≢ [] → count_of ledgers owner.0 ≡ 0 →
        IsLeast (λ n. 1 ≤ count_of ledgers n) (next_owner owner ledgers).0 }
    ensures stays { (owner : AllocId) (ledgers : List Ledger) →
        1 ≤ count_of ledgers owner.0 → next_owner owner ledgers ≡ owner }
{}
