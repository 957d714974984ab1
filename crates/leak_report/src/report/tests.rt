//! Worked examples of a report, whole.

use super::*;
use mem_num::{AllocId, ChildRefused, Ref};
use std::process::Abort;
use std::test::Fail;

const ROOT: AllocId = AllocId::ROOT;

const A: AllocId = AllocId(1);

const B: AllocId = AllocId(2);

/// Makes a child of the root that may hold 4,096 bytes.
fn child(rt: &impl Abort, tree: &mut SoloTree, reservation: u64) -> Result<AllocId, ChildRefused> {
    assert!(rt; reservation <= 4_096 && tree.next() < u32::MAX);
    tree.child(ROOT, reservation, 4_096)
}

/// What an allocator is given; a chunk is named by its number and size.
#[derive(Clone, Copy)]
enum Given {
    Buffer(u64),
    /// A chunk of another allocator.
    Retained(u32, u64, AllocId),
    Transferred(u32, u64, AllocId),
}

use Given::{Buffer, Retained, Transferred};

/// Gives allocators what stands beside them, each in its turn.
fn give(rt: &impl Abort, tree: &mut SoloTree, given: &[(AllocId, Given)]) {
    for (at, what) in given {
        assert!(rt; tree.drawn() < u32::MAX);
        let is_given = match *what {
            Buffer(size) => tree.grant(*at, size).is_ok(),
            Retained(chunk, size, alloc) => {
                let of = Ref { chunk, alloc, size };
                tree.has_room_for(of) && tree.retain(of, *at).is_ok()
            }
            Transferred(chunk, size, alloc) => {
                let of = Ref { chunk, alloc, size };
                tree.has_room_for(of) && tree.transfer(of, *at).is_ok()
            }
        };
        assert!(rt; is_given);
    }
}

#[test]
fn a_tree_without_chunks_has_no_references(rt: HostRuntime) -> Result<(), Fail> {
    let tree = SoloTree::open(rt.alloc(), 4_096)?;
    let names = Names::new(rt.alloc());
    assert_eq!(rt;
        report_text(rt.alloc(), &tree, &[names])?.as_str(),
        "#0 Allocator(ROOT) 0/0/0/4096 (res/actual/peak/limit)
refs 0
"
    );
    Ok(())
}

#[test]
fn a_moved_chunk_has_ledgers_of_both_allocators(rt: HostRuntime) -> Result<(), Fail> {
    let mut tree = SoloTree::open(rt.alloc(), 4_096)?;
    assert_eq!(rt; child(&rt, &mut tree, 0), Ok(A));
    assert_eq!(rt; child(&rt, &mut tree, 0), Ok(B));
    give(
        &rt,
        &mut tree,
        &[(A, Buffer(1_024)), (B, Transferred(1, 1_024, A))],
    );
    let names = Names::new(rt.alloc());
    // Both are charged for a moment.
    assert_eq!(rt;
        report_text(rt.alloc(), &tree, &[names])?.as_str(),
        "#0 Allocator(ROOT) 0/1024/2048/4096 (res/actual/peak/limit)
  #1 Allocator(?) 0/0/1024/4096 (res/actual/peak/limit)
  #2 Allocator(?) 0/1024/1024/4096 (res/actual/peak/limit)
chunk 1 size 1024 owner #2 refs #1:1 #2:1
refs 2
"
    );
    Ok(())
}

#[test]
fn chunks_stand_in_order_with_all_their_references(rt: HostRuntime) -> Result<(), Fail> {
    let mut tree = SoloTree::open(rt.alloc(), 4_096)?;
    assert_eq!(rt; child(&rt, &mut tree, 0), Ok(A));
    assert_eq!(rt; child(&rt, &mut tree, 64), Ok(B));
    give(
        &rt,
        &mut tree,
        &[
            (A, Buffer(100)),
            (ROOT, Buffer(1_000)),
            (B, Buffer(16)),
            (B, Retained(1, 128, A)),
            (A, Retained(1, 128, A)),
            (A, Retained(1, 128, A)),
            (A, Retained(2, 1_024, ROOT)),
        ],
    );
    assert_eq!(rt;
        report_text(rt.alloc(), &tree, &[])?.as_str(),
        "#0 Allocator(?) 0/1216/1216/4096 (res/actual/peak/limit)
  #1 Allocator(?) 0/128/128/4096 (res/actual/peak/limit)
  #2 Allocator(?) 64/16/16/4096 (res/actual/peak/limit)
chunk 1 size 128 owner #1 refs #1:3 #2:1
chunk 2 size 1024 owner #0 refs #0:1 #1:1
chunk 3 size 16 owner #2 refs #2:1
refs 7
"
    );
    Ok(())
}
