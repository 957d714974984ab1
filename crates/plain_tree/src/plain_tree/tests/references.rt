//! Chunks that several allocators refer to.

use super::*;
use mem_num::SoloRefused;

const A: AllocId = AllocId(1);

const B: AllocId = AllocId(2);

const D: AllocId = AllocId(3);

/// A tree with children of the root that reserve nothing, and may hold so much.
fn open_with<R: Abort + AllocGlobal>(rt: &R, limits: &[u64]) -> Result<PlainTree, Fail> {
    let mut tree = open(rt, UNLIMITED)?;
    for limit in limits {
        assert!(rt; child(rt, &mut tree, ROOT, 0, *limit)?.is_ok());
    }
    Ok(tree)
}

fn retain<R: Abort + AllocGlobal>(
    rt: &R,
    tree: &mut PlainTree,
    of: Ref,
    target: AllocId,
) -> Result<Result<Ref, SoloRefused>, Fail> {
    assert!(rt; tree.has_room_for(of));
    Ok(tree.retain(rt.alloc(), of, target)?)
}

fn transfer<R: Abort + AllocGlobal>(
    rt: &R,
    tree: &mut PlainTree,
    of: Ref,
    target: AllocId,
) -> Result<Result<(Ref, bool), SoloRefused>, Fail> {
    assert!(rt; tree.has_room_for(of));
    Ok(tree.transfer(rt.alloc(), of, target)?)
}

fn reference(alloc: AllocId, size: u64) -> Ref {
    Ref {
        chunk: 1,
        alloc,
        size,
    }
}

/// What an allocator holds, and held at most.
fn held(rt: &impl AllocGlobal, tree: &PlainTree, at: AllocId) -> Result<Option<(u64, u64)>, Fail> {
    let Some(placed) = tree.node(rt.alloc(), at)? else {
        return Ok(None);
    };
    Ok(Some((placed.node.held, placed.node.peak)))
}

#[test]
fn a_transfer_moves_the_charge_and_both_are_charged_for_a_moment(
    rt: HostRuntime,
) -> Result<(), Fail> {
    let alloc = rt.alloc();
    let mut tree = open_with(&rt, &[UNLIMITED, UNLIMITED])?;
    let (x, y) = (reference(A, 1_024), reference(B, 1_024));
    assert_eq!(rt; grant(&rt, &mut tree, A, 1_024)?, Ok(x));
    assert_eq!(rt; transfer(&rt, &mut tree, x, B)?, Ok((y, true)));
    assert_eq!(rt; held(&rt, &tree, ROOT)?, Some((1_024, 2_048)));
    assert_eq!(rt; held(&rt, &tree, A)?, Some((0, 1_024)));
    assert_eq!(rt; held(&rt, &tree, B)?, Some((1_024, 1_024)));
    assert_eq!(rt; tree.close(alloc, A)?, Err(NotClosed::InUse { uses: 1 }));
    assert_eq!(rt; tree.release(alloc, x)?, Ok(true));
    assert_eq!(rt; tree.release(alloc, y)?, Ok(true));
    assert_eq!(rt; held(&rt, &tree, ROOT)?, Some((0, 2_048)));
    Ok(())
}

#[test]
fn a_transfer_past_a_limit_is_made_and_told(rt: HostRuntime) -> Result<(), Fail> {
    let mut tree = open_with(&rt, &[UNLIMITED, 512])?;
    let x = reference(A, 1_024);
    assert_eq!(rt; grant(&rt, &mut tree, A, 1_024)?, Ok(x));
    let over = Ok((reference(B, 1_024), false));
    assert_eq!(rt; transfer(&rt, &mut tree, x, B)?, over);
    assert_eq!(rt; held(&rt, &tree, B)?, Some((1_024, 1_024)));
    assert_eq!(rt; tree.headroom(rt.alloc(), B)?, Ok(-512));
    assert_eq!(rt; tree.over_limit(rt.alloc(), B)?, Ok(true));
    Ok(())
}

#[test]
fn the_least_allocator_that_remains_is_the_next_owner(rt: HostRuntime) -> Result<(), Fail> {
    let alloc = rt.alloc();
    let mut tree = open_with(&rt, &[UNLIMITED, UNLIMITED, UNLIMITED])?;
    let (x, y, z) = (
        reference(A, 1_024),
        reference(B, 1_024),
        reference(D, 1_024),
    );
    assert_eq!(rt; grant(&rt, &mut tree, A, 1_024)?, Ok(x));
    assert_eq!(rt; retain(&rt, &mut tree, x, B)?, Ok(y));
    // The source isn't charged for the chunk, so no charge moves.
    assert_eq!(rt; transfer(&rt, &mut tree, y, D)?, Ok((z, true)));
    assert_eq!(rt; held(&rt, &tree, ROOT)?, Some((1_024, 1_024)));
    assert_eq!(rt; tree.release(alloc, x)?, Ok(true));
    assert_eq!(rt; held(&rt, &tree, ROOT)?, Some((1_024, 2_048)));
    assert_eq!(rt; held(&rt, &tree, A)?, Some((0, 1_024)));
    assert_eq!(rt; held(&rt, &tree, B)?, Some((1_024, 1_024)));
    assert_eq!(rt; held(&rt, &tree, D)?, Some((0, 0)));
    let released = Released { chunk: 1, alloc: A };
    assert_eq!(rt; tree.release(alloc, x)?, Err(released));
    let refused = Err(SoloRefused::Released(released));
    assert_eq!(rt; retain(&rt, &mut tree, x, A)?, refused);
    assert_eq!(rt;
        transfer(&rt, &mut tree, x, A)?,
        Err(SoloRefused::Released(released))
    );
    Ok(())
}

#[test]
fn an_allocator_that_refers_to_a_chunk_is_in_use(rt: HostRuntime) -> Result<(), Fail> {
    let alloc = rt.alloc();
    let mut tree = open_with(&rt, &[UNLIMITED, UNLIMITED])?;
    let (x, y) = (reference(A, 2), reference(B, 2));
    assert_eq!(rt; grant(&rt, &mut tree, A, 2)?, Ok(x));
    assert_eq!(rt; retain(&rt, &mut tree, x, B)?, Ok(y));
    assert_eq!(rt; retain(&rt, &mut tree, x, B)?, Ok(y));
    assert_eq!(rt; tree.close(alloc, B)?, Err(NotClosed::InUse { uses: 1 }));
    assert_eq!(rt; tree.release(alloc, y)?, Ok(false));
    assert_eq!(rt; tree.release(alloc, y)?, Ok(true));
    assert_eq!(rt; tree.close(alloc, B)?, Ok(()));
    let closed = Closed { node: B, uses: 0 };
    let refused = Err(SoloRefused::Closed(closed));
    assert_eq!(rt; retain(&rt, &mut tree, x, B)?, refused);
    assert_eq!(rt;
        transfer(&rt, &mut tree, x, B)?,
        Err(SoloRefused::Closed(closed))
    );
    assert_eq!(rt; transfer(&rt, &mut tree, x, A)?, Ok((x, true)));
    assert_eq!(rt; tree.release(alloc, x)?, Ok(false));
    assert_eq!(rt; tree.release(alloc, x)?, Ok(true));
    assert_eq!(rt; tree.close(alloc, A)?, Ok(()));
    Ok(())
}
