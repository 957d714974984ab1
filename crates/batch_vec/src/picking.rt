//! Picking columns out of a batch.
ghost use Rattle.std.specs.Prelude.{◌≡◌, ◌≤◌, ◌<◌, ◌*◌, true, nat_eq, get_or, length, map, All, IfOk, IfErr};
ghost use Rattle.std.specs.List.{list_any, position, range_with_len};
ghost use Rattle.query_model.specs.Answer.{picked};
ghost use Rattle.query_model.specs.Fit.{are_different};
ghost use Rattle.query_model.specs.Requests.{picked_kinds};
ghost use Rattle.query_model.specs.SequentialCalls.{unpicked};
ghost use Rattle.batch_vec.specs.Moving.{of_columns};

use crate::batch::Batch;
use mem_buf::ArrowBuf;
use query_model::Kind;
use std::alloc::{AllocError, Global};

/// Columns that were picked out of a batch, and the buffers of the others.
#[derive(Debug)]
pub struct Picked<H> {
    pub batch: Batch<H>,
    pub rest: Vec<ArrowBuf<H>>,
}

/// Takes columns by their numbers out of a batch, in the order of the numbers; the buffers of the others are left in theirs. No byte is
/// copied, and no memory is asked for a buffer. Where none is left for the lists, the batch comes back as it was.
pub fn pick_columns<H>(alloc: Global, picks: &[u32], batch: Batch<H>) -> Result<Picked<H>, Batch<H>>
    requires within { All (λ pick. pick < length batch.kinds) picks.now }
    requires different { are_different nat_eq picks.now ≡ true }

    // The picked columns of the same rows.
    ensures kinds { IfOk result (λ made. made.batch.kinds ≡ picked_kinds batch.kinds picks.now) }
    ensures rows { IfOk result (λ made. made.batch.rows ≡ map (picked picks.now) batch.rows) }

    // No hold is lost.
    ensures holds { IfOk result (λ made. made.batch.holds ≡ of_columns batch.holds picks.now) }
    ensures rest { IfOk result (λ made. map (λ buf. buf.hold) made.rest.items
        ≡ of_columns batch.holds (unpicked (length batch.kinds) picks.now)) }
    ensures err { IfErr result (λ same. same ≡ batch) }
{
    let Ok(kinds) = kinds_picked(alloc, picks, batch.kinds()) else {
        return Err(batch);
    };
    let Batch {
        count,
        kinds: all,
        buffers,
    } = batch;
    match take_columns(alloc, picks, all.len(), buffers) {
        Ok(Taken { picked, rest }) => Ok(Picked {
            batch: Batch {
                count,
                kinds,
                buffers: picked,
            },
            rest,
        }),
        Err(buffers) => Err(Batch {
            count,
            kinds: all,
            buffers,
        }),
    }
}

// The kinds of the columns of these numbers.
fn kinds_picked(alloc: Global, picks: &[u32], kinds: &[Kind]) -> Result<Vec<Kind>, AllocError>
    requires within { All (λ pick. pick < length kinds.now) picks.now }
    ensures value { IfOk result (λ made. made.items ≡ picked_kinds kinds.now picks.now) }
{
    let mut picked = Vec::new(alloc);
    'picks: for pick in picks {
        picked.push(kinds[*pick as usize])?;
    }
    Ok(picked)
}

// Buffers that were taken out of others.
#[derive(Debug)]
struct Taken<H> {
    picked: Vec<ArrowBuf<H>>,
    rest: Vec<ArrowBuf<H>>,
}

// Takes the two buffers of each pick, of so many columns.
fn take_columns<H>(
    alloc: Global,
    picks: &[u32],
    columns: usize,
    buffers: Vec<ArrowBuf<H>>,
) -> Result<Taken<H>, Vec<ArrowBuf<H>>>
    requires two { length buffers.items ≡ 2 * columns }
    requires within { All (λ pick. pick < columns) picks.now }
    requires different { are_different nat_eq picks.now ≡ true }
    ensures picked { IfOk result (λ taken. taken.picked.items ≡ of_columns buffers.items picks.now) }
    ensures rest { IfOk result (λ taken. taken.rest.items ≡ of_columns buffers.items (unpicked columns picks.now)) }
    ensures err { IfErr result (λ same. same ≡ buffers) }
{
    let Ok(mut left) = numbers(alloc, columns) else {
        return Err(buffers);
    };
    let Ok(mut picked) = Vec::with_capacity(alloc, 2 * picks.len()) else {
        return Err(buffers);
    };
    let mut rest = buffers;
    'picks: for pick in picks {
        let place = index_of(left.as_slice(), *pick as usize);
        let _ = left.remove(place);
        picked.push_reserved(rest.remove(2 * place));
        picked.push_reserved(rest.remove(2 * place));
    }
    Ok(Taken { picked, rest })
}

// The numbers from 0 on.
fn numbers(alloc: Global, count: usize) -> Result<Vec<usize>, AllocError>
    ensures value { IfOk result (λ made. made.items ≡ range_with_len 0 count) }
{
    let mut made = Vec::new(alloc);
    'numbers: for number in 0..count {
        made.push(number)?;
    }
    Ok(made)
}

// The place of a number that is there.
fn index_of(numbers: &[usize], number: usize) -> usize
    requires there { list_any (nat_eq number) numbers.now ≡ true }
    ensures within { result < length numbers.now }
    ensures value { get_or numbers.now result number ≡ number }
{
    match find(numbers, number) {
        Some(place) => place,
        None => 0,
    }
}

fn find(numbers: &[usize], number: usize) -> Option<usize>
    ensures value { result ≡ position (nat_eq number) numbers.now }
{
    numbers.iter().position(|other| *other == number)
}
