//! The worked examples, run on the plain tree: the numbers were found by hand.

use super::*;
use mem_num::{
    BufferRefused, ChildRefused, Closed, MAX_LIMIT, MAX_RESERVATION, NotClosed, Ref, Released,
    TooLarge,
};
use std::process::Abort;
use std::test::Fail;

mod beside;
mod references;

/// No limit but that of the type.
const UNLIMITED: u64 = MAX_LIMIT;

const ROOT: AllocId = AllocId::ROOT;

const C: AllocId = AllocId(1);

fn open<R: Abort + AllocGlobal>(rt: &R, limit: u64) -> Result<PlainTree, Fail> {
    assert!(rt; limit <= UNLIMITED);
    Ok(PlainTree::open(rt.alloc(), limit)?)
}

fn child<R: Abort + AllocGlobal>(
    rt: &R,
    tree: &mut PlainTree,
    parent: AllocId,
    reservation: u64,
    limit: u64,
) -> Result<Result<AllocId, ChildRefused>, Fail> {
    assert!(rt; reservation <= MAX_RESERVATION && limit <= UNLIMITED && tree.has_node_number());
    Ok(tree.child(rt.alloc(), parent, reservation, limit)?)
}

fn grant<R: Abort + AllocGlobal>(
    rt: &R,
    tree: &mut PlainTree,
    at: AllocId,
    request: u64,
) -> Result<Result<Ref, BufferRefused>, Fail> {
    assert!(rt; tree.has_chunk_number());
    Ok(tree.grant(rt.alloc(), at, request)?)
}

/// What an allocator reserves, holds, held at most and may hold.
fn numbers(
    rt: &impl AllocGlobal,
    tree: &PlainTree,
    at: AllocId,
) -> Result<Option<(u64, u64, u64, u64)>, Fail> {
    let Some(placed) = tree.node(rt.alloc(), at)? else {
        return Ok(None);
    };
    let node = placed.node;
    Ok(Some((node.reservation, node.held, node.peak, node.limit)))
}

fn buffer(chunk: u32, alloc: AllocId, size: u64) -> Result<Ref, BufferRefused> {
    Ok(Ref { chunk, alloc, size })
}

fn full(node: AllocId, held: u64, amount: u64, limit: u64, local: bool) -> Full {
    Full {
        node,
        held,
        amount,
        limit,
        local,
    }
}

#[test]
fn a_request_is_charged_its_rounded_size(rt: HostRuntime) -> Result<(), Fail> {
    let mut tree = open(&rt, UNLIMITED)?;
    assert_eq!(rt; grant(&rt, &mut tree, ROOT, 0)?, buffer(0, ROOT, 0));
    assert_eq!(rt; numbers(&rt, &tree, ROOT)?, Some((0, 0, 0, UNLIMITED)));
    assert_eq!(rt; grant(&rt, &mut tree, ROOT, 1)?, buffer(1, ROOT, 2));
    assert_eq!(rt; numbers(&rt, &tree, ROOT)?, Some((0, 2, 2, UNLIMITED)));
    assert_eq!(rt; numbers(&rt, &tree, C)?, None);
    Ok(())
}

#[test]
fn a_request_past_the_largest_size_is_refused(rt: HostRuntime) -> Result<(), Fail> {
    let mut tree = open(&rt, UNLIMITED)?;
    let request = 1_073_741_825;
    let refused = Err(BufferRefused::TooLarge(TooLarge { request }));
    assert_eq!(rt; grant(&rt, &mut tree, ROOT, request)?, refused);
    assert_eq!(rt; grant(&rt, &mut tree, ROOT, 16)?, buffer(1, ROOT, 16));
    Ok(())
}

#[test]
fn a_reservation_covers_the_first_bytes(rt: HostRuntime) -> Result<(), Fail> {
    let mut tree = open(&rt, UNLIMITED)?;
    assert_eq!(rt; child(&rt, &mut tree, ROOT, 4_096, UNLIMITED)?, Ok(C));
    assert_eq!(rt; grant(&rt, &mut tree, C, 2_048)?, buffer(1, C, 2_048));
    assert_eq!(rt;
        numbers(&rt, &tree, ROOT)?,
        Some((0, 4_096, 4_096, UNLIMITED))
    );
    assert_eq!(rt;
        numbers(&rt, &tree, C)?,
        Some((4_096, 2_048, 2_048, UNLIMITED))
    );
    assert_eq!(rt; grant(&rt, &mut tree, C, 4_096)?, buffer(2, C, 4_096));
    assert_eq!(rt;
        numbers(&rt, &tree, ROOT)?,
        Some((0, 6_144, 6_144, UNLIMITED))
    );
    assert_eq!(rt;
        numbers(&rt, &tree, C)?,
        Some((4_096, 6_144, 6_144, UNLIMITED))
    );
    Ok(())
}

#[test]
fn a_level_above_refuses_and_the_one_below_has_its_peak(rt: HostRuntime) -> Result<(), Fail> {
    let mut tree = open(&rt, 1_024)?;
    assert_eq!(rt; child(&rt, &mut tree, ROOT, 0, UNLIMITED)?, Ok(C));
    assert_eq!(rt; grant(&rt, &mut tree, C, 1_024)?, buffer(1, C, 1_024));
    let refused = Err(BufferRefused::Full(full(ROOT, 1_024, 512, 1_024, false)));
    assert_eq!(rt; grant(&rt, &mut tree, C, 512)?, refused);
    assert_eq!(rt; numbers(&rt, &tree, ROOT)?, Some((0, 1_024, 1_024, 1_024)));
    assert_eq!(rt; numbers(&rt, &tree, C)?, Some((0, 1_024, 1_536, UNLIMITED)));
    Ok(())
}

#[test]
fn the_lowest_level_refuses_and_its_number_is_spent(rt: HostRuntime) -> Result<(), Fail> {
    let mut tree = open(&rt, UNLIMITED)?;
    assert_eq!(rt; child(&rt, &mut tree, ROOT, 0, 1_024)?, Ok(C));
    assert_eq!(rt; grant(&rt, &mut tree, C, 1_024)?, buffer(1, C, 1_024));
    let refused = Err(BufferRefused::Full(full(C, 1_024, 512, 1_024, true)));
    assert_eq!(rt; grant(&rt, &mut tree, C, 512)?, refused);
    assert_eq!(rt;
        numbers(&rt, &tree, ROOT)?,
        Some((0, 1_024, 1_024, UNLIMITED))
    );
    assert_eq!(rt; numbers(&rt, &tree, C)?, Some((0, 1_024, 1_024, 1_024)));
    assert_eq!(rt; grant(&rt, &mut tree, ROOT, 2)?, buffer(3, ROOT, 2));
    Ok(())
}

#[test]
fn a_tree_has_64_allocators_in_its_life(rt: HostRuntime) -> Result<(), Fail> {
    let mut tree = open(&rt, UNLIMITED)?;
    for number in 1..64 {
        let made = Ok(AllocId(number));
        assert_eq!(rt; child(&rt, &mut tree, ROOT, 0, UNLIMITED)?, made);
    }
    for next in [64, 65] {
        let refused = Err(ChildRefused::Nodes { next });
        assert_eq!(rt; child(&rt, &mut tree, ROOT, 0, UNLIMITED)?, refused);
    }
    Ok(())
}

#[test]
fn headroom_is_what_limits_and_reservations_leave(rt: HostRuntime) -> Result<(), Fail> {
    let alloc = rt.alloc();
    let mut tree = open(&rt, 1_024)?;
    assert_eq!(rt; child(&rt, &mut tree, ROOT, 512, 2_048)?, Ok(C));
    assert_eq!(rt; grant(&rt, &mut tree, C, 256)?, buffer(1, C, 256));
    assert_eq!(rt; tree.headroom(alloc, C)?, Ok(768));
    assert_eq!(rt; tree.headroom(alloc, ROOT)?, Ok(512));
    assert_eq!(rt; tree.over_limit(alloc, C)?, Ok(false));
    let node = AllocId(2);
    assert_eq!(rt; tree.headroom(alloc, node)?, Err(Closed { node, uses: 0 }));
    assert_eq!(rt;
        tree.over_limit(alloc, node)?,
        Err(Closed { node, uses: 0 })
    );
    Ok(())
}

#[test]
fn a_closed_allocator_counts_for_nothing(rt: HostRuntime) -> Result<(), Fail> {
    let alloc = rt.alloc();
    let mut tree = open(&rt, UNLIMITED)?;
    assert_eq!(rt; child(&rt, &mut tree, ROOT, 4_096, 8_192)?, Ok(C));
    assert_eq!(rt; tree.close(alloc, ROOT)?, Err(NotClosed::InUse { uses: 1 }));
    assert_eq!(rt; tree.close(alloc, C)?, Ok(()));
    assert_eq!(rt; numbers(&rt, &tree, ROOT)?, Some((0, 0, 4_096, UNLIMITED)));
    assert_eq!(rt; tree.close(alloc, ROOT)?, Ok(()));
    assert_eq!(rt;
        tree.close(alloc, ROOT)?,
        Err(NotClosed::Closed { uses: 0 })
    );
    let closed = Closed {
        node: ROOT,
        uses: 0,
    };
    assert_eq!(rt;
        grant(&rt, &mut tree, ROOT, 1)?,
        Err(BufferRefused::Closed(closed))
    );
    assert_eq!(rt;
        child(&rt, &mut tree, ROOT, 0, 1)?,
        Err(ChildRefused::Closed(closed))
    );
    Ok(())
}

#[test]
fn a_refused_child_spends_its_number_at_a_limit_alone(rt: HostRuntime) -> Result<(), Fail> {
    let mut tree = open(&rt, 1_000)?;
    let refused = Err(ChildRefused::Full(full(ROOT, 0, 2_000, 1_000, true)));
    assert_eq!(rt; child(&rt, &mut tree, ROOT, 2_000, 3_000)?, refused);
    let above = ChildRefused::ReserveAboveLimit {
        reservation: 10,
        limit: 5,
    };
    assert_eq!(rt; child(&rt, &mut tree, ROOT, 10, 5)?, Err(above));
    assert_eq!(rt; child(&rt, &mut tree, ROOT, 0, 5)?, Ok(AllocId(2)));
    Ok(())
}

#[test]
fn a_reference_is_given_back_once(rt: HostRuntime) -> Result<(), Fail> {
    let alloc = rt.alloc();
    let mut tree = open(&rt, UNLIMITED)?;
    let of = Ref {
        chunk: 1,
        alloc: ROOT,
        size: 64,
    };
    assert_eq!(rt; grant(&rt, &mut tree, ROOT, 64)?, Ok(of));
    assert_eq!(rt; tree.close(alloc, ROOT)?, Err(NotClosed::InUse { uses: 1 }));
    assert_eq!(rt; tree.release(alloc, of)?, Ok(true));
    let gone = Released {
        chunk: 1,
        alloc: ROOT,
    };
    assert_eq!(rt; tree.release(alloc, of)?, Err(gone));
    assert_eq!(rt; numbers(&rt, &tree, ROOT)?, Some((0, 0, 64, UNLIMITED)));
    Ok(())
}
