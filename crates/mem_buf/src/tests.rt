//! Buffers and their bytes over a listed memory.

use super::*;
use crate::listed_answer::ListedAnswer::{Done, InUse, Nodes};
use mem_num::{
    AllocId, BufferRefused, ChildRefused, Closed, Full, MAX_LIMIT, NotClosed, Ref, RefRefused,
    TooLarge,
};
use std::alloc::AllocGlobal;
use std::process::Abort;
use std::test::Fail;

const ROOT: AllocId = AllocId::ROOT;

const SCAN: AllocId = AllocId(1);

/// A level of 8 bytes that was asked for 1 more.
const FULL: Full = Full {
    node: ROOT,
    held: 8,
    amount: 1,
    limit: 8,
    local: true,
};

const CLOSED: Closed = Closed {
    node: ROOT,
    uses: 0,
};

/// The first reference that a listed memory gives, for some bytes at the root.
const FIRST: Ref = Ref {
    chunk: 1,
    alloc: ROOT,
    size: 16,
};

/// The reference of the empty buffer.
const EMPTY: Ref = Ref {
    chunk: 0,
    alloc: ROOT,
    size: 0,
};

fn listed(rt: &impl AllocGlobal, answers: &[ListedAnswer]) -> Result<Listed, Fail> {
    Ok(Listed::new(rt.alloc(), answers.to_vec(rt.alloc())?))
}

#[tactic(auto, using(crate::proofs::PayLemmas::charged_few))]
fn store(
    rt: &impl AllocGlobal,
    token: &mut Listed,
    bytes: &[u8],
) -> Result<ArrowBuf<Ref>, BufferRefused> {
    store_bytes(rt.alloc(), &ListedMemory, token, ROOT, bytes)
}

/// A view of the ten digits.
fn digits(rt: &(impl Abort + AllocGlobal)) -> Result<View, Fail> {
    let mut token = listed(rt, &[])?;
    match store(rt, &mut token, b"0123456789") {
        Ok(ArrowBuf { hold, view }) => {
            assert_eq!(rt; hold, FIRST);
            Ok(view)
        }
        Err(_) => panic!(rt; "no memory"),
    }
}

fn slice(rt: &impl Abort, view: &View, from: u64, len: u64) -> View {
    match view.slice(from, len) {
        Ok(part) => part,
        Err(_) => panic!(rt; "no slice"),
    }
}

#[test]
fn a_slice_counts_from_its_view(rt: HostRuntime) -> Result<(), Fail> {
    let whole = digits(&rt)?;
    for (from, len, bytes) in [
        (0, 10, b"0123456789".as_slice()),
        (2, 5, b"23456"),
        (9, 1, b"9"),
        (10, 0, b""),
        (0, 0, b""),
    ] {
        assert_eq!(rt;
            slice(&rt, &whole, from, len).bytes(),
            bytes,
            "{from} {len}"
        );
    }
    let part = slice(&rt, &whole, 2, 5);
    for (from, len, bytes) in [(0, 5, b"23456".as_slice()), (1, 3, b"345"), (5, 0, b"")] {
        assert_eq!(rt; slice(&rt, &part, from, len).bytes(), bytes, "{from} {len}");
    }
    Ok(())
}

#[test]
fn a_slice_that_ends_beyond_its_view_is_refused(rt: HostRuntime) -> Result<(), Fail> {
    let whole = digits(&rt)?;
    let part = slice(&rt, &whole, 2, 5);
    for (view, from, len) in [
        (&whole, 0, 11),
        (&whole, 10, 1),
        (&whole, 11, 0),
        (&whole, u64::MAX, 2),
        (&part, 0, 6),
        (&part, 3, 3),
    ] {
        let refused = SliceRefused::OutOfBuffer(OutOfBuffer { len: view.len });
        assert_eq!(rt; view.slice(from, len).err(), Some(refused), "{from} {len}");
    }
    Ok(())
}

#[test]
fn bytes_outlive_the_view_that_they_were_stored_in(rt: HostRuntime) -> Result<(), Fail> {
    let part = {
        let whole = digits(&rt)?;
        slice(&rt, &whole, 7, 3)
    };
    assert_eq!(rt; part.bytes(), b"789".as_slice());
    Ok(())
}

#[test]
fn storing_hands_a_refusal_on(rt: HostRuntime) -> Result<(), Fail> {
    for (answer, refused) in [
        (ListedAnswer::Closed, BufferRefused::Closed(CLOSED)),
        (ListedAnswer::Full(FULL), BufferRefused::Full(FULL)),
        (ListedAnswer::NoMemory, BufferRefused::NoMemory),
    ] {
        let mut token = listed(&rt, &[answer])?;
        match store(&rt, &mut token, b"0123456789") {
            Ok(_) => panic!(rt; "{answer:?}"),
            Err(told) => assert_eq!(rt; told, refused),
        }
        assert_eq!(rt; token.taken, 1);
    }
    Ok(())
}

const WORDS: [&[u8]; 3] = [b"one", b"", b"three"];

/// Stores three words, each in a buffer of its own.
fn store_words(
    rt: &(impl Abort + AllocGlobal),
    token: &mut Listed,
) -> Result<Result<Vec<ArrowBuf<Ref>>, BufferRefused>, Fail> {
    let mut words = Vec::new(rt.alloc());
    for word in WORDS {
        words.push(word.to_vec(rt.alloc())?)?;
    }
    Ok(store_few(rt, token, words))
}

// Three words at most, for which a listed token always pays.
fn store_few(
    rt: &(impl Abort + AllocGlobal),
    token: &mut Listed,
    words: Vec<Vec<u8>>,
) -> Result<Vec<ArrowBuf<Ref>>, BufferRefused> {
    if words.len() > 3 {
        return Err(BufferRefused::NoMemory);
    }
    store_vecs(rt.alloc(), &ListedMemory, token, ROOT, words)
}

#[test]
fn each_vector_becomes_a_buffer(rt: HostRuntime) -> Result<(), Fail> {
    let mut token = listed(&rt, &[])?;
    match store_words(&rt, &mut token)? {
        Ok(bufs) => {
            assert_eq!(rt; bufs.len(), 3);
            for (buf, word) in bufs.iter().zip(WORDS) {
                assert_eq!(rt; buf.view.bytes(), word);
            }
            give_back(&ListedMemory, &mut token, bufs);
        }
        Err(_) => panic!(rt; "no memory"),
    }
    assert_eq!(rt; token.chunks, 2);
    Ok(())
}

#[test]
fn vectors_before_a_refused_one_are_given_back(rt: HostRuntime) -> Result<(), Fail> {
    let mut token = listed(&rt, &[Done(true), Done(true), ListedAnswer::Full(FULL)])?;
    match store_words(&rt, &mut token)? {
        Ok(_) => panic!(rt; "granted"),
        Err(refused) => assert_eq!(rt; refused, BufferRefused::Full(FULL)),
    }
    assert_eq!(rt; token.taken, 3);
    assert_eq!(rt; token.chunks, 1);
    Ok(())
}

// Moves three buffers at most to the scan, for which a listed token always pays.
fn move_few(
    rt: &(impl Abort + AllocGlobal),
    token: &mut Listed,
    bufs: Vec<ArrowBuf<Ref>>,
) -> Result<Vec<ArrowBuf<Ref>>, RefRefused> {
    if bufs.len() > 3 {
        give_back(&ListedMemory, token, bufs);
        return Err(RefRefused::NoMemory);
    }
    move_buffers(rt.alloc(), &ListedMemory, token, SCAN, bufs)
}

#[test]
fn buffers_move_with_their_bytes(rt: HostRuntime) -> Result<(), Fail> {
    let mut token = listed(&rt, &[])?;
    match store_words(&rt, &mut token)? {
        Ok(bufs) => match move_few(&rt, &mut token, bufs) {
            Ok(moved) => {
                assert_eq!(rt; moved.len(), 3);
                for (buf, word) in moved.iter().zip(WORDS) {
                    assert_eq!(rt; buf.view.bytes(), word);
                    assert_eq!(rt; buf.hold.alloc, SCAN);
                }
                give_back(&ListedMemory, &mut token, moved);
            }
            Err(_) => panic!(rt; "no memory"),
        },
        Err(_) => panic!(rt; "no memory"),
    }
    Ok(())
}

#[test]
fn buffers_before_one_that_stays_are_given_back(rt: HostRuntime) -> Result<(), Fail> {
    // Three words are granted, the first is transferred and released, the empty one moves, and the third isn't transferred.
    let done = Done(true);
    let mut token = listed(&rt, &[done, done, done, done, done, ListedAnswer::NoMemory])?;
    match store_words(&rt, &mut token)? {
        Ok(bufs) => match move_few(&rt, &mut token, bufs) {
            Ok(_) => panic!(rt; "moved"),
            Err(refused) => assert_eq!(rt; refused, RefRefused::NoMemory),
        },
        Err(_) => panic!(rt; "no memory"),
    }
    assert_eq!(rt; token.taken, 6);
    Ok(())
}

#[test]
fn buffers_are_given_back_in_order(rt: HostRuntime) -> Result<(), Fail> {
    let mut token = listed(&rt, &[])?;
    let mut bufs = Vec::with_capacity(rt.alloc(), 2)?;
    match store(&rt, &mut token, b"one") {
        Ok(buf) => bufs.push_reserved(buf),
        Err(_) => panic!(rt; "no memory"),
    }
    match store(&rt, &mut token, b"two") {
        Ok(buf) => bufs.push_reserved(buf),
        Err(_) => panic!(rt; "no memory"),
    }
    give_back(&ListedMemory, &mut token, bufs);
    assert_eq!(rt; token.chunks, 2);
    Ok(())
}

#[test]
fn a_listed_memory_answers_from_its_list(rt: HostRuntime) -> Result<(), Fail> {
    let mem = ListedMemory;
    let mut token = listed(
        &rt,
        &[
            Done(true),
            Nodes { next: 64 },
            ListedAnswer::Full(FULL),
            InUse { uses: 2 },
            Done(true),
            Done(false),
            Done(false),
        ],
    )?;
    assert_eq!(rt; mem.child(&mut token, ROOT, 0, MAX_LIMIT), Ok(SCAN));
    assert_eq!(rt;
        mem.child(&mut token, ROOT, 0, 8),
        Err(ChildRefused::Nodes { next: 64 })
    );
    assert_eq!(rt;
        mem.child(&mut token, ROOT, 8, 8),
        Err(ChildRefused::Full(FULL))
    );
    assert_eq!(rt;
        mem.close(&mut token, SCAN),
        Err(NotClosed::InUse { uses: 2 })
    );
    let mut first = FIRST;
    assert_eq!(rt; mem.grant(&mut token, ROOT, 9), Ok(first));
    let second = Ref {
        alloc: SCAN,
        ..first
    };
    assert_eq!(rt;
        mem.transfer(&mut token, &mut first, SCAN),
        Ok((second, false))
    );
    assert_eq!(rt; mem.release(&mut token, first), false);
    assert_eq!(rt; mem.retain(&mut token, &mut first, SCAN), Ok(second));
    assert_eq!(rt; mem.release(&mut token, second), true);
    assert_eq!(rt; mem.name_of(&second), second);
    assert_eq!(rt; token.taken, 7);
    Ok(())
}

#[test]
fn an_answer_that_a_call_cannot_have_is_a_milder_one(rt: HostRuntime) -> Result<(), Fail> {
    let mem = ListedMemory;
    let within = Full { limit: 9, ..FULL };
    let mut token = listed(
        &rt,
        &[
            Done(true),
            ListedAnswer::Closed,
            ListedAnswer::Full(within),
            InUse { uses: 0 },
            Nodes { next: 63 },
        ],
    )?;
    assert_eq!(rt; mem.child(&mut token, ROOT, 0, 8), Ok(SCAN));
    // The token pins the child.
    assert_eq!(rt;
        mem.grant(&mut token, SCAN, 1),
        Err(BufferRefused::NoMemory)
    );
    assert_eq!(rt;
        mem.grant(&mut token, ROOT, 1),
        Err(BufferRefused::NoMemory)
    );
    assert_eq!(rt;
        mem.close(&mut token, SCAN),
        Err(NotClosed::Closed { uses: 0 })
    );
    assert_eq!(rt;
        mem.child(&mut token, ROOT, 0, 8),
        Err(ChildRefused::Closed(CLOSED))
    );
    Ok(())
}

#[test]
fn what_the_arguments_decide_takes_no_answer(rt: HostRuntime) -> Result<(), Fail> {
    let mem = ListedMemory;
    let mut token = listed(&rt, &[Done(true)])?;
    let mut empty = EMPTY;
    let request = 1_073_741_825;
    assert_eq!(rt;
        mem.grant(&mut token, ROOT, request),
        Err(BufferRefused::TooLarge(TooLarge { request }))
    );
    let above = ChildRefused::ReserveAboveLimit {
        reservation: 2,
        limit: 1,
    };
    assert_eq!(rt; mem.child(&mut token, ROOT, 2, 1), Err(above));
    let shared = Ref {
        alloc: SCAN,
        ..EMPTY
    };
    assert_eq!(rt; mem.retain(&mut token, &mut empty, SCAN), Ok(shared));
    assert_eq!(rt;
        mem.transfer(&mut token, &mut empty, SCAN),
        Ok((shared, true))
    );
    assert_eq!(rt; mem.release(&mut token, empty), false);
    assert_eq!(rt; token.taken, 0);
    assert_eq!(rt; mem.grant(&mut token, ROOT, 0), Ok(EMPTY));
    assert_eq!(rt; token.taken, 1);
    Ok(())
}
