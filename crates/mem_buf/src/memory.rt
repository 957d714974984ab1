//! The calls that every tree of allocators answers.
ghost use Rattle.std.specs.Prelude.{◌≡◌, ◌≢◌, ◌<◌, ◌≤◌, ◌↔◌, ℕ, true, false, Ok, Err, IfOk, IsOk};
ghost use Rattle.mem_num.specs.declared.bounds.TheConstants.{LARGEST, MAX_LIMIT, MAX_RESERVATION, MOST_ALLOCATORS};
ghost use Rattle.mem_num.specs.declared.closed.Closed.{Closed};
ghost use Rattle.mem_num.specs.declared.full.Full.{Full};
ghost use Rattle.mem_buf.specs.TokenView.{CanName, size_for, bytes_for, turns_for, is_empty, turns_to_share};
ghost use Rattle.mem_buf.specs.MemoryCall.{MemoryCall, named, named_fit};
ghost use Rattle.mem_buf.specs.Answers.{IsPastLimit, IsGranted, IsFurther};
ghost use Rattle.mem_buf.specs.Chain.{MemoryModel, MakesCall};

use mem_num::{AllocId, BufferRefused, ChildRefused, NotClosed, Ref, RefRefused};

/// A tree of allocators that callers ask for buffers, each by a token of its own. After `BufferAllocator` of Arrow Java, whose
/// calls `AllocationManager` and `BufferLedger` carry out.
///
/// A token shows how many bytes and calls (turns) it may still spend, what it pins, which allocators it can name, and limits that it
/// knows; a pinned allocator isn't closed. What a call may change of that is said by `makes`, with what the call means to the memory
/// that answers it; so a caller over every memory is a list of calls, one after the other. Want of memory is the one answer that is
/// free. A call that is refused leaves its caller's holds as they were.
pub trait Memory {
    /// What lets a caller act on the tree.
    type Token;

    /// One counted use of a chunk, or of the empty buffer. It is given back by `release`.
    type Hold;

    /// What a token shows (`view`), the reference that a hold is (`reference`), and what a call with its answer means from the token
    /// before it to the token after it (`means`).
    ghost model: { MemoryModel Self.Token Self.Hold };

    /// Makes a child of an allocator, with a reservation and a limit in bytes. On Ok the token pins it. It is refused by its
    /// arguments first, then as closed, then where no number is left, then as full. Spends at most a turn. After
    /// `BufferAllocator.newChildAllocator`.
    fn child(
        &self,
        token: &mut Self::Token,
        parent: AllocId,
        reservation: u64,
        limit: u64,
    ) -> Result<AllocId, ChildRefused>
        requires named { CanName (model.view token.old) parent }
        requires turn { 1 ≤ (model.view token.old).turns }
        requires reservation { reservation ≤ MAX_RESERVATION }
        requires limit { limit ≤ MAX_LIMIT }
        ensures above { result ≡ Err (ChildRefused.ReserveAboveLimit reservation limit) ↔ limit < reservation }
        ensures closed { (closed : Closed) → result ≡ Err (ChildRefused.Closed closed) → closed.node ≡ parent }
        ensures nodes { (next : ℕ) → result ≡ Err (ChildRefused.Nodes next) → MOST_ALLOCATORS ≤ next }
        ensures full { (full : Full) → result ≡ Err (ChildRefused.Full full) → IsPastLimit (model.view token.old) full }
        ensures makes { MakesCall model (MemoryCall.Child parent reservation limit result) token.old token.new };

    /// Gives a pin of the token back.
    fn unpin(&self, token: &mut Self::Token, at: AllocId)
        requires pinned { 1 ≤ (model.view token.old).pins at.0 }
        ensures makes { MakesCall model (MemoryCall.Unpin at) token.old token.new };

    /// Closes an allocator that nothing uses, and releases its reservation at its parent. After `BufferAllocator.close`, which
    /// throws where this refuses.
    fn close(&self, token: &mut Self::Token, at: AllocId) -> Result<(), NotClosed>
        requires named { CanName (model.view token.old) at }
        ensures in_use { (uses : ℕ) → result ≡ Err (NotClosed.InUse uses) → 1 ≤ uses }
        ensures makes { MakesCall model (MemoryCall.Close at result) token.old token.new };

    /// Asks for a buffer of some bytes at an allocator. It is refused as too large first, exactly by its rounded size, then as
    /// closed, then as full. Spends at most a turn and the rounded bytes; a request of 0 bytes, which gives the empty buffer, and one
    /// that is too large spend nothing. After `BufferAllocator.buffer`.
    fn grant(
        &self,
        token: &mut Self::Token,
        at: AllocId,
        request: u64,
    ) -> Result<Self::Hold, BufferRefused>
        requires named { CanName (model.view token.old) at }
        requires bytes { bytes_for (model.view token.old) at request ≤ (model.view token.old).bytes }
        requires turn { turns_for (model.view token.old) at request ≤ (model.view token.old).turns }
        ensures granted { IfOk result (λ hold. IsGranted at (size_for (model.view token.old) at request) (model.reference hold)) }
        ensures too_large { result ≢ Err BufferRefused.NoMemory
            → (result ≡ Err (BufferRefused.TooLarge (record { request = request }))
            ↔ LARGEST < size_for (model.view token.old) at request) }
        ensures closed { (closed : Closed) → result ≡ Err (BufferRefused.Closed closed) → closed.node ≡ at }
        ensures unpinned { (closed : Closed) → result ≡ Err (BufferRefused.Closed closed) → (model.view token.old).pins at.0 ≡ 0 }
        ensures full { (full : Full) → result ≡ Err (BufferRefused.Full full) → IsPastLimit (model.view token.old) full }
        ensures makes { MakesCall model (MemoryCall.Grant at request (named model.reference result)) token.old token.new };

    /// Refers to the chunk of a hold from the target too, and moves no charge. A further hold of the empty buffer is never refused and
    /// spends nothing; else it spends at most a turn. After `BufferLedger.retain`.
    fn retain(
        &self,
        token: &mut Self::Token,
        of: &mut Self::Hold,
        target: AllocId,
    ) -> Result<Self::Hold, RefRefused>
        requires named { CanName (model.view token.old) target }
        requires turn { turns_to_share (model.reference of.old) ≤ (model.view token.old).turns }
        ensures same { model.reference of.new ≡ model.reference of.old }
        ensures further { IfOk result (λ hold. IsFurther (model.reference of.old) target (model.reference hold)) }
        ensures empty { is_empty (model.reference of.old) ≡ true → IsOk result }
        ensures closed { (closed : Closed) → result ≡ Err (RefRefused.Closed closed) → closed.node ≡ target }
        ensures unpinned { (closed : Closed) → result ≡ Err (RefRefused.Closed closed) → (model.view token.old).pins target.0 ≡ 0 }
        ensures makes { MakesCall model (MemoryCall.Retain (model.reference of.old) target (named model.reference result))
            token.old token.new };

    /// Refers to the chunk of a hold from the target too, charges the target from then on where the source was charged, and tells
    /// whether every level was within its limit. The source's hold stays and is still to be released. Refuses and spends as `retain`
    /// does. After `BufferLedger.transferOwnership`.
    fn transfer(
        &self,
        token: &mut Self::Token,
        of: &mut Self::Hold,
        target: AllocId,
    ) -> Result<(Self::Hold, bool), RefRefused>
        requires named { CanName (model.view token.old) target }
        requires turn { turns_to_share (model.reference of.old) ≤ (model.view token.old).turns }
        ensures same { model.reference of.new ≡ model.reference of.old }
        ensures further { IfOk result (λ moved. IsFurther (model.reference of.old) target (model.reference moved.0)) }
        ensures empty { is_empty (model.reference of.old) ≡ true → IsOk result }
        ensures fits { is_empty (model.reference of.old) ≡ true → IfOk result (λ moved. moved.1 ≡ true) }
        ensures closed { (closed : Closed) → result ≡ Err (RefRefused.Closed closed) → closed.node ≡ target }
        ensures unpinned { (closed : Closed) → result ≡ Err (RefRefused.Closed closed) → (model.view token.old).pins target.0 ≡ 0 }
        ensures makes { MakesCall model (MemoryCall.Transfer (model.reference of.old) target (named_fit model.reference result))
            token.old token.new };

    /// Gives a hold back, and tells whether its ledger went. It can't be refused. After `BufferLedger.release`.
    fn release(&self, token: &mut Self::Token, of: Self::Hold) -> bool
        ensures empty { is_empty (model.reference of) ≡ true → result ≡ false }
        ensures makes { MakesCall model (MemoryCall.Release (model.reference of) result) token.old token.new };

    /// The reference that a hold is.
    fn name_of(&self, of: &Self::Hold) -> Ref
        ensures value { result ≡ model.reference of.now };
}
