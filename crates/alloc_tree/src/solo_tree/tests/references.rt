//! Chunks that several allocators refer to.

use super::*;

const A: AllocId = AllocId(1);

const B: AllocId = AllocId(2);

const D: AllocId = AllocId(3);

/// A tree with children of the root that reserve nothing, and may hold so much.
fn open_with<R: Abort + AllocGlobal>(rt: &R, limits: &[u64]) -> Result<SoloTree, Fail> {
    let mut tree = open(rt, UNLIMITED)?;
    for limit in limits {
        assert!(rt; child(rt, &mut tree, ROOT, 0, *limit).is_ok());
    }
    Ok(tree)
}

/// What an allocator holds, and held at most.
fn held(tree: &SoloTree, at: AllocId) -> Option<(u64, u64)> {
    let node = tree.node(at)?.node;
    Some((node.held, node.peak))
}

#[test]
fn a_transfer_moves_the_charge_and_both_are_charged_for_a_moment(
    rt: HostRuntime,
) -> Result<(), Fail> {
    let mut tree = open_with(&rt, &[UNLIMITED, UNLIMITED])?;
    let (x, y) = (buffer(1, A, 1_024), buffer(1, B, 1_024));
    assert_eq!(rt; grant(&rt, &mut tree, A, 1_024), Ok(x));
    assert_eq!(rt; transfer(&rt, &mut tree, x, B), Ok((y, true)));
    assert_eq!(rt; held(&tree, ROOT), Some((1_024, 2_048)));
    assert_eq!(rt; held(&tree, A), Some((0, 1_024)));
    assert_eq!(rt; held(&tree, B), Some((1_024, 1_024)));
    assert_eq!(rt; tree.close(A), Err(NotClosed::InUse { uses: 1 }));
    assert_eq!(rt; tree.release(x), Ok(true));
    assert_eq!(rt; tree.release(y), Ok(true));
    assert_eq!(rt; held(&tree, ROOT), Some((0, 2_048)));
    Ok(())
}

#[test]
fn a_transfer_past_a_limit_is_made_and_told(rt: HostRuntime) -> Result<(), Fail> {
    let mut tree = open_with(&rt, &[UNLIMITED, 512])?;
    let x = buffer(1, A, 1_024);
    assert_eq!(rt; grant(&rt, &mut tree, A, 1_024), Ok(x));
    let over = Ok((buffer(1, B, 1_024), false));
    assert_eq!(rt; transfer(&rt, &mut tree, x, B), over);
    assert_eq!(rt; held(&tree, B), Some((1_024, 1_024)));
    assert_eq!(rt; tree.headroom(B), Ok(-512));
    assert_eq!(rt; tree.over_limit(B), Ok(true));
    Ok(())
}

#[test]
fn the_least_allocator_that_remains_is_the_next_owner(rt: HostRuntime) -> Result<(), Fail> {
    let mut tree = open_with(&rt, &[UNLIMITED, UNLIMITED, UNLIMITED])?;
    let (x, y, z) = (
        buffer(1, A, 1_024),
        buffer(1, B, 1_024),
        buffer(1, D, 1_024),
    );
    assert_eq!(rt; grant(&rt, &mut tree, A, 1_024), Ok(x));
    assert_eq!(rt; retain(&rt, &mut tree, x, B), Ok(y));
    // The source isn't charged for the chunk, so no charge moves.
    assert_eq!(rt; transfer(&rt, &mut tree, y, D), Ok((z, true)));
    assert_eq!(rt; tree.chunk(1).map(|ledgers| ledgers.total()), Some(3));
    assert_eq!(rt; held(&tree, ROOT), Some((1_024, 1_024)));
    assert_eq!(rt; tree.release(x), Ok(true));
    assert_eq!(rt; held(&tree, ROOT), Some((1_024, 2_048)));
    assert_eq!(rt; held(&tree, A), Some((0, 1_024)));
    assert_eq!(rt; held(&tree, B), Some((1_024, 1_024)));
    assert_eq!(rt; held(&tree, D), Some((0, 0)));
    let released = Released { chunk: 1, alloc: A };
    assert_eq!(rt; tree.release(x), Err(released));
    let refused = SoloRefused::Released(released);
    assert_eq!(rt; retain(&rt, &mut tree, x, A), Err(refused));
    assert_eq!(rt; transfer(&rt, &mut tree, x, A), Err(refused));
    Ok(())
}

#[test]
fn an_allocator_that_refers_to_a_chunk_is_in_use(rt: HostRuntime) -> Result<(), Fail> {
    let mut tree = open_with(&rt, &[UNLIMITED, UNLIMITED])?;
    let (x, y) = (buffer(1, A, 2), buffer(1, B, 2));
    assert_eq!(rt; grant(&rt, &mut tree, A, 2), Ok(x));
    assert_eq!(rt; retain(&rt, &mut tree, x, B), Ok(y));
    assert_eq!(rt; retain(&rt, &mut tree, x, B), Ok(y));
    assert_eq!(rt; tree.close(B), Err(NotClosed::InUse { uses: 1 }));
    assert_eq!(rt; tree.release(y), Ok(false));
    assert_eq!(rt; tree.release(y), Ok(true));
    assert_eq!(rt; tree.close(B), Ok(()));
    let refused = SoloRefused::Closed(Closed { node: B, uses: 0 });
    assert_eq!(rt; retain(&rt, &mut tree, x, B), Err(refused));
    assert_eq!(rt; transfer(&rt, &mut tree, x, B), Err(refused));
    assert_eq!(rt; transfer(&rt, &mut tree, x, A), Ok((x, true)));
    assert_eq!(rt; tree.release(x), Ok(false));
    assert_eq!(rt; tree.release(x), Ok(true));
    assert_eq!(rt; tree.close(A), Ok(()));
    Ok(())
}

#[test]
fn the_chunks_stand_in_order_of_number(rt: HostRuntime) -> Result<(), Fail> {
    let mut tree = open_with(&rt, &[UNLIMITED])?;
    for request in [2, 4, 8] {
        assert!(rt; grant(&rt, &mut tree, A, request).is_ok());
    }
    assert_eq!(rt; tree.release(buffer(2, A, 4)), Ok(true));
    let mut sizes = Vec::new(rt.alloc());
    for (number, ledgers) in tree.chunks() {
        sizes.push((*number, ledgers.size()))?;
    }
    assert_eq!(rt; sizes.as_slice(), [(1, 2), (3, 8)].as_slice());
    Ok(())
}
