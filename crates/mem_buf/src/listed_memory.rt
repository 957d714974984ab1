//! A memory for tests, which answers from a list.
ghost use Rattle.std.specs.Prelude.{◌≡◌, ◌<◌, ◌+◌, IsTrue};

use crate::listed::Listed;
use crate::listed_answer::ListedAnswer;
use crate::memory::Memory;
use mem_num::{
    AllocId, BufferRefused, ChildRefused, Closed, Full, MOST_ALLOCATORS, NotClosed, Ref,
    RefRefused, Rounding, rounded,
};

/// A memory for tests of those who call one: each call gets the next answer of its token's list, if it can have it, and
/// charges nobody. Its calls mean that they follow that answer.
#[derive(Clone, Copy, Debug, PartialEq, Eq)]
pub struct ListedMemory;

impl Memory for ListedMemory {
    type Token = Listed;

    type Hold = Ref;

    ghost use Rattle.mem_buf.specs.Listed.{Follows, answer_at, listed_view};

    ghost model = { record {
      view = λ token. listed_view token.pinned.items;
      reference = λ hold. hold;
      means = λ call old new. Follows (answer_at old.answers.items old.taken) call;
    } };

    fn child(
        &self,
        token: &mut Listed,
        parent: AllocId,
        reservation: u64,
        limit: u64,
    ) -> Result<AllocId, ChildRefused> {
        if reservation > limit {
            return Err(ChildRefused::ReserveAboveLimit { reservation, limit });
        }
        let closed = Closed {
            node: parent,
            uses: 0,
        };
        match token.take() {
            ListedAnswer::Done(_) => {
                let made = AllocId(token.allocators.saturating_add(1));
                if token.pinned.push(made).is_err() {
                    return Err(ChildRefused::Closed(closed));
                }
                token.allocators = made.0;
                Ok(made)
            }
            ListedAnswer::Nodes { next } if next >= MOST_ALLOCATORS.into() => {
                Err(ChildRefused::Nodes { next })
            }
            ListedAnswer::Full(full) if is_past_limit(full) => Err(ChildRefused::Full(full)),
            _ => Err(ChildRefused::Closed(closed)),
        }
    }

    fn unpin(&self, _token: &mut Listed, _at: AllocId) {}

    fn close(&self, token: &mut Listed, _at: AllocId) -> Result<(), NotClosed> {
        match token.take() {
            ListedAnswer::Done(_) => Ok(()),
            ListedAnswer::InUse { uses } if uses > 0 => Err(NotClosed::InUse { uses }),
            _ => Err(NotClosed::Closed { uses: 0 }),
        }
    }

    fn grant(&self, token: &mut Listed, at: AllocId, request: u64) -> Result<Ref, BufferRefused> {
        let size = rounded(Rounding::Power, request)?;
        match token.take() {
            ListedAnswer::Done(_) if size == 0 => Ok(empty_buffer(at)),
            ListedAnswer::Done(_) => {
                token.chunks = token.chunks.saturating_add(1);
                Ok(Ref {
                    chunk: token.chunks,
                    alloc: at,
                    size,
                })
            }
            ListedAnswer::Closed if !token.has_pin(at) => {
                Err(BufferRefused::Closed(Closed { node: at, uses: 0 }))
            }
            ListedAnswer::Full(full) if size > 0 && is_past_limit(full) => {
                Err(BufferRefused::Full(full))
            }
            _ => Err(BufferRefused::NoMemory),
        }
    }

    fn retain(&self, token: &mut Listed, of: &mut Ref, target: AllocId) -> Result<Ref, RefRefused> {
        let (further, _) = self.transfer(token, of, target)?;
        Ok(further)
    }

    fn transfer(
        &self,
        token: &mut Listed,
        of: &mut Ref,
        target: AllocId,
    ) -> Result<(Ref, bool), RefRefused> {
        if of.chunk == 0 {
            return Ok((empty_buffer(target), true));
        }
        match token.take() {
            ListedAnswer::Done(fits) => Ok((
                Ref {
                    alloc: target,
                    ..*of
                },
                fits,
            )),
            ListedAnswer::Closed if !token.has_pin(target) => Err(RefRefused::Closed(Closed {
                node: target,
                uses: 0,
            })),
            _ => Err(RefRefused::NoMemory),
        }
    }

    fn release(&self, token: &mut Listed, of: Ref) -> bool {
        if of.chunk == 0 {
            return false;
        }
        token.take() == ListedAnswer::Done(true)
    }

    fn name_of(&self, of: &Ref) -> Ref {
        *of
    }
}

// The reference of the empty buffer.
fn empty_buffer(at: AllocId) -> Ref
    ensures value { result ≡ record { chunk = 0; alloc = at; size = 0 } }
{
    Ref {
        chunk: 0,
        alloc: at,
        size: 0,
    }
}

// Whether a refusal tells a level that is past its limit.
fn is_past_limit(full: Full) -> bool
    ensures value { IsTrue result → full.limit < full.held + full.amount }
{
    full.amount > full.limit.saturating_sub(full.held)
}
