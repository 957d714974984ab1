//! What a tree of one thread answers, as a memory tells it.
ghost use Rattle.std.specs.Prelude.{◌≡◌};
ghost use Rattle.alloc_tree.specs.SoloMeaning.{empty_at, told_further, told_moved, told_gone};

use mem_num::{AllocId, Ref, RefRefused, Released, SoloRefused};

/// A further reference, or the empty buffer where the first was given back.
pub(crate) fn further(target: AllocId, answer: Result<Ref, SoloRefused>) -> Result<Ref, RefRefused>
    ensures value { result ≡ told_further target answer }
{
    match answer {
        Ok(given) => Ok(given),
        Err(SoloRefused::Released(_)) => Ok(empty_buffer(target)),
        Err(SoloRefused::Closed(closed)) => Err(RefRefused::Closed(closed)),
        Err(SoloRefused::NoMemory) => Err(RefRefused::NoMemory),
    }
}

/// The same of a transfer, which fits where no charge moves.
pub(crate) fn moved(
    target: AllocId,
    answer: Result<(Ref, bool), SoloRefused>,
) -> Result<(Ref, bool), RefRefused>
    ensures value { result ≡ told_moved target answer }
{
    match answer {
        Ok((reference, fits)) => Ok((reference, fits)),
        Err(SoloRefused::Released(_)) => Ok((empty_buffer(target), true)),
        Err(SoloRefused::Closed(closed)) => Err(RefRefused::Closed(closed)),
        Err(SoloRefused::NoMemory) => Err(RefRefused::NoMemory),
    }
}

/// Whether a ledger went.
pub(crate) fn gone(answer: Result<bool, Released>) -> bool
    ensures value { result ≡ told_gone answer }
{
    match answer {
        Ok(gone) => gone,
        Err(_) => false,
    }
}

/// The empty buffer.
pub(crate) fn empty_buffer(at: AllocId) -> Ref
    ensures value { result ≡ empty_at at }
{
    Ref {
        chunk: 0,
        alloc: at,
        size: 0,
    }
}
