//! The worked examples, run on the tree: the numbers were found by hand.

mod references;

use super::*;
use mem_num::{
    BufferRefused, ChildRefused, Full, MAX_LIMIT, MAX_RESERVATION, NotClosed, Ref, Released,
    SoloRefused,
};
use std::alloc::AllocGlobal;
use std::process::Abort;
use std::test::Fail;

/// No limit but that of the type.
const UNLIMITED: u64 = MAX_LIMIT;

const ROOT: AllocId = AllocId::ROOT;

const C: AllocId = AllocId(1);

fn open<R: Abort + AllocGlobal>(rt: &R, limit: u64) -> Result<SoloTree, Fail> {
    assert!(rt; limit <= UNLIMITED);
    match SoloTree::open(rt.alloc(), limit) {
        Ok(tree) => Ok(tree),
        Err(NoMemory) => panic!(rt; "no memory"),
    }
}

fn child(
    rt: &impl Abort,
    tree: &mut SoloTree,
    parent: AllocId,
    reservation: u64,
    limit: u64,
) -> Result<AllocId, ChildRefused> {
    assert!(rt; reservation <= MAX_RESERVATION && limit <= UNLIMITED);
    assert!(rt; tree.next() < u32::MAX);
    tree.child(parent, reservation, limit)
}

fn grant(
    rt: &impl Abort,
    tree: &mut SoloTree,
    at: AllocId,
    request: u64,
) -> Result<Ref, BufferRefused> {
    assert!(rt; tree.drawn() < u32::MAX);
    tree.grant(at, request)
}

fn retain(
    rt: &impl Abort,
    tree: &mut SoloTree,
    of: Ref,
    target: AllocId,
) -> Result<Ref, SoloRefused> {
    assert!(rt; tree.has_room_for(of));
    tree.retain(of, target)
}

fn transfer(
    rt: &impl Abort,
    tree: &mut SoloTree,
    of: Ref,
    target: AllocId,
) -> Result<(Ref, bool), SoloRefused> {
    assert!(rt; tree.has_room_for(of));
    tree.transfer(of, target)
}

/// What an allocator reserves, holds, held at most and may hold.
fn numbers(tree: &SoloTree, at: AllocId) -> Option<(u64, u64, u64, u64)> {
    let node = tree.node(at)?.node;
    Some((node.reservation, node.held, node.peak, node.limit))
}

fn buffer(chunk: u32, alloc: AllocId, size: u64) -> Ref {
    Ref { chunk, alloc, size }
}

fn full(node: AllocId, held: u64, amount: u64, limit: u64, local: bool) -> Full {
    Full {
        node,
        held,
        amount,
        limit,
        local,
    }
}

#[test]
fn a_request_is_charged_its_rounded_size(rt: HostRuntime) -> Result<(), Fail> {
    let mut tree = open(&rt, UNLIMITED)?;
    assert_eq!(rt; grant(&rt, &mut tree, ROOT, 0), Ok(buffer(0, ROOT, 0)));
    assert_eq!(rt; tree.drawn(), 0);
    assert_eq!(rt; grant(&rt, &mut tree, ROOT, 1), Ok(buffer(1, ROOT, 2)));
    assert_eq!(rt; numbers(&tree, ROOT), Some((0, 2, 2, UNLIMITED)));
    assert_eq!(rt; numbers(&tree, C), None);
    assert_eq!(rt; tree.chunk(1).map(|ledgers| ledgers.size()), Some(2));
    assert!(rt; tree.chunk(2).is_none());
    Ok(())
}

#[test]
fn a_reservation_covers_the_first_bytes(rt: HostRuntime) -> Result<(), Fail> {
    let mut tree = open(&rt, UNLIMITED)?;
    assert_eq!(rt; child(&rt, &mut tree, ROOT, 4_096, UNLIMITED), Ok(C));
    assert_eq!(rt; grant(&rt, &mut tree, C, 2_048), Ok(buffer(1, C, 2_048)));
    assert_eq!(rt; numbers(&tree, ROOT), Some((0, 4_096, 4_096, UNLIMITED)));
    assert_eq!(rt; numbers(&tree, C), Some((4_096, 2_048, 2_048, UNLIMITED)));
    assert_eq!(rt; grant(&rt, &mut tree, C, 4_096), Ok(buffer(2, C, 4_096)));
    assert_eq!(rt; numbers(&tree, ROOT), Some((0, 6_144, 6_144, UNLIMITED)));
    assert_eq!(rt; numbers(&tree, C), Some((4_096, 6_144, 6_144, UNLIMITED)));
    Ok(())
}

#[test]
fn a_refusal_names_the_lowest_level_past_its_limit(rt: HostRuntime) -> Result<(), Fail> {
    // The parent has no room, and the child's peak rose.
    let mut tree = open(&rt, 1_024)?;
    assert_eq!(rt; child(&rt, &mut tree, ROOT, 0, UNLIMITED), Ok(C));
    assert_eq!(rt; grant(&rt, &mut tree, C, 1_024), Ok(buffer(1, C, 1_024)));
    let refused = Err(BufferRefused::Full(full(ROOT, 1_024, 512, 1_024, false)));
    assert_eq!(rt; grant(&rt, &mut tree, C, 512), refused);
    assert_eq!(rt; numbers(&tree, ROOT), Some((0, 1_024, 1_024, 1_024)));
    assert_eq!(rt; numbers(&tree, C), Some((0, 1_024, 1_536, UNLIMITED)));

    // The child itself has none, and no peak rose; the refused request has spent chunk 2.
    let mut tree = open(&rt, UNLIMITED)?;
    assert_eq!(rt; child(&rt, &mut tree, ROOT, 0, 1_024), Ok(C));
    assert_eq!(rt; grant(&rt, &mut tree, C, 1_024), Ok(buffer(1, C, 1_024)));
    let refused = Err(BufferRefused::Full(full(C, 1_024, 512, 1_024, true)));
    assert_eq!(rt; grant(&rt, &mut tree, C, 512), refused);
    assert_eq!(rt; numbers(&tree, ROOT), Some((0, 1_024, 1_024, UNLIMITED)));
    assert_eq!(rt; numbers(&tree, C), Some((0, 1_024, 1_024, 1_024)));
    assert_eq!(rt; grant(&rt, &mut tree, ROOT, 2), Ok(buffer(3, ROOT, 2)));
    Ok(())
}

#[test]
fn a_tree_has_at_most_64_allocators(rt: HostRuntime) -> Result<(), Fail> {
    let mut tree = open(&rt, UNLIMITED)?;
    for number in 1..64 {
        assert_eq!(rt;
            child(&rt, &mut tree, ROOT, 0, UNLIMITED),
            Ok(AllocId(number))
        );
    }
    for next in [64, 65] {
        let refused = Err(ChildRefused::Nodes { next });
        assert_eq!(rt; child(&rt, &mut tree, ROOT, 0, UNLIMITED), refused);
    }
    // Each of them drew a number.
    assert_eq!(rt; tree.calls(), 65);
    Ok(())
}

#[test]
fn a_closed_allocator_gives_its_reservation_back(rt: HostRuntime) -> Result<(), Fail> {
    let mut tree = open(&rt, UNLIMITED)?;
    assert_eq!(rt; child(&rt, &mut tree, ROOT, 4_096, 8_192), Ok(C));
    assert_eq!(rt; tree.close(ROOT), Err(NotClosed::InUse { uses: 1 }));
    assert_eq!(rt; tree.close(C), Ok(()));
    assert_eq!(rt; numbers(&tree, ROOT), Some((0, 0, 4_096, UNLIMITED)));
    assert_eq!(rt; tree.close(ROOT), Ok(()));
    assert_eq!(rt; tree.close(ROOT), Err(NotClosed::Closed { uses: 0 }));
    let closed = Closed {
        node: ROOT,
        uses: 0,
    };
    assert_eq!(rt;
        grant(&rt, &mut tree, ROOT, 1),
        Err(BufferRefused::Closed(closed))
    );
    let refused = Err(ChildRefused::Closed(closed));
    assert_eq!(rt; child(&rt, &mut tree, ROOT, 0, 1), refused);
    Ok(())
}

#[test]
fn a_refused_child_keeps_no_reservation(rt: HostRuntime) -> Result<(), Fail> {
    let mut tree = open(&rt, 1_000)?;
    let refused = Err(ChildRefused::Full(full(ROOT, 0, 2_000, 1_000, true)));
    assert_eq!(rt; child(&rt, &mut tree, ROOT, 2_000, 3_000), refused);
    let above = Err(ChildRefused::ReserveAboveLimit {
        reservation: 10,
        limit: 5,
    });
    assert_eq!(rt; child(&rt, &mut tree, ROOT, 10, 5), above);
    assert_eq!(rt; numbers(&tree, ROOT), Some((0, 0, 0, 1_000)));
    assert_eq!(rt; child(&rt, &mut tree, ROOT, 0, 5), Ok(AllocId(2)));
    Ok(())
}

#[test]
fn a_reference_is_given_back_once(rt: HostRuntime) -> Result<(), Fail> {
    let mut tree = open(&rt, UNLIMITED)?;
    assert_eq!(rt; child(&rt, &mut tree, ROOT, 0, UNLIMITED), Ok(C));
    assert_eq!(rt; grant(&rt, &mut tree, C, 100), Ok(buffer(1, C, 128)));
    assert_eq!(rt; tree.close(C), Err(NotClosed::InUse { uses: 1 }));
    let elsewhere = Released {
        chunk: 1,
        alloc: ROOT,
    };
    assert_eq!(rt; tree.release(buffer(1, ROOT, 128)), Err(elsewhere));
    assert_eq!(rt; tree.release(buffer(1, C, 128)), Ok(true));
    let released = Released { chunk: 1, alloc: C };
    assert_eq!(rt; tree.release(buffer(1, C, 128)), Err(released));
    assert_eq!(rt; numbers(&tree, ROOT), Some((0, 0, 128, UNLIMITED)));
    assert_eq!(rt; tree.close(C), Ok(()));
    Ok(())
}

#[test]
fn an_unused_reservation_is_headroom(rt: HostRuntime) -> Result<(), Fail> {
    let mut tree = open(&rt, 1_024)?;
    assert_eq!(rt; child(&rt, &mut tree, ROOT, 512, 2_048), Ok(C));
    assert_eq!(rt; grant(&rt, &mut tree, C, 256), Ok(buffer(1, C, 256)));
    for (at, headroom) in [(C, 768), (ROOT, 512)] {
        assert_eq!(rt; tree.headroom(at), Ok(headroom));
        assert_eq!(rt; tree.over_limit(at), Ok(false));
    }
    assert_eq!(rt; tree.release(buffer(1, C, 256)), Ok(true));
    assert_eq!(rt; tree.close(C), Ok(()));
    let closed = Closed { node: C, uses: 0 };
    assert_eq!(rt; tree.headroom(C), Err(closed));
    assert_eq!(rt; tree.over_limit(C), Err(closed));
    assert_eq!(rt; tree.headroom(ROOT), Ok(1_024));
    Ok(())
}

#[test]
fn an_allocator_is_over_by_its_parent_alone(rt: HostRuntime) -> Result<(), Fail> {
    let mut tree = open(&rt, UNLIMITED)?;
    let below = AllocId(2);
    assert_eq!(rt; child(&rt, &mut tree, ROOT, 0, 512), Ok(C));
    assert_eq!(rt; child(&rt, &mut tree, C, 0, UNLIMITED), Ok(below));
    let given = buffer(1, ROOT, 1_024);
    assert_eq!(rt; grant(&rt, &mut tree, ROOT, 1_024), Ok(given));
    let moved = Ok((buffer(1, below, 1_024), false));
    assert_eq!(rt; transfer(&rt, &mut tree, given, below), moved);
    for (at, is_over) in [(below, true), (C, true), (ROOT, false)] {
        assert_eq!(rt; tree.over_limit(at), Ok(is_over));
    }
    assert_eq!(rt; tree.headroom(below), Ok(-512));
    Ok(())
}
