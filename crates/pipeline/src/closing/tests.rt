//! Trees of a query, closed.

use super::*;
use mem_num::{ChildRefused, MAX_LIMIT, NoMemory, Ref};
use std::alloc::AllocGlobal;
use std::process::Abort;
use std::test::Fail;

const RESULT: AllocId = AllocId(5);

/// A tree of a query, whose allocators reserve as many bytes as their numbers.
fn open<R: Abort + AllocGlobal>(rt: &R) -> Result<SoloTree, Fail> {
    let Ok(mut tree) = SoloTree::open(rt.alloc(), MAX_LIMIT) else {
        panic!(rt; "no memory");
    };
    for number in 1..6u32 {
        assert!(rt; tree.next() < u32::MAX);
        let child = tree.child(AllocId::ROOT, u64::from(number), MAX_LIMIT);
        assert_eq!(rt; child, Ok(AllocId(number)));
    }
    Ok(tree)
}

#[test]
fn a_tree_that_nothing_uses_closes_whole(rt: HostRuntime) -> Result<(), Fail> {
    let mut tree = open(&rt)?;
    assert_eq!(rt; close_all(&mut tree), 6);
    assert_eq!(rt; close_all(&mut tree), 0);
    Ok(())
}

#[test]
fn an_answer_that_is_kept_keeps_its_allocator_and_the_root(rt: HostRuntime) -> Result<(), Fail> {
    let mut tree = open(&rt)?;
    assert!(rt; tree.drawn() < u32::MAX);
    let kept = Ref {
        chunk: 1,
        alloc: RESULT,
        size: 64,
    };
    assert_eq!(rt; tree.grant(RESULT, 64), Ok(kept));
    assert_eq!(rt; close_all(&mut tree), 4);
    assert!(rt; tree.release(kept).is_ok());
    assert_eq!(rt; close_all(&mut tree), 2);
    Ok(())
}
