//! The tree that keeps its numbers beside the one that sums them: each call is made on both, which answer the same.

use super::*;
use alloc_tree::SoloTree;

/// The same tree twice.
#[derive(Drop)]
struct Pair {
    solo: SoloTree,
    plain: PlainTree,
}

fn open_pair<R: Abort + AllocGlobal>(rt: &R, limit: u64) -> Result<Pair, Fail> {
    let plain = open(rt, limit)?;
    assert!(rt; limit <= MAX_LIMIT);
    match SoloTree::open(rt.alloc(), limit) {
        Ok(solo) => Ok(Pair { solo, plain }),
        Err(_) => panic!(rt; "no memory"),
    }
}

/// A call on a tree; allocators and chunks are numbers.
#[derive(Clone, Copy)]
enum Call {
    /// A parent, a reservation and a limit.
    Child(u32, u64, u64),
    /// An allocator and a request.
    Grant(u32, u64),
    /// A chunk, the source and the target.
    Retain(u32, u32, u32),
    /// A chunk, the source and the target.
    Transfer(u32, u32, u32),
    /// A chunk and an allocator.
    Release(u32, u32),
    Close(u32),
}

use Call::{Child, Close, Grant, Release, Retain, Transfer};

fn of(chunk: u32, at: u32) -> Ref {
    Ref {
        chunk,
        alloc: AllocId(at),
        size: 0,
    }
}

impl Pair {
    /// Makes a call on both trees, which answer the same.
    fn call<R: Abort + AllocGlobal>(&mut self, rt: &R, call: Call) -> Result<(), Fail> {
        let alloc = rt.alloc();
        let Pair { solo, plain } = self;
        assert!(rt; solo.next() < u32::MAX && solo.drawn() < u32::MAX);
        match call {
            Child(parent, reservation, limit) => {
                let parent = AllocId(parent);
                let made = child(rt, plain, parent, reservation, limit)?;
                assert!(rt; reservation <= MAX_RESERVATION && limit <= MAX_LIMIT);
                assert_eq!(rt; solo.child(parent, reservation, limit), made);
            }
            Grant(at, request) => {
                let given = grant(rt, plain, AllocId(at), request)?;
                assert_eq!(rt; solo.grant(AllocId(at), request), given);
            }
            Retain(chunk, at, target) => {
                let of = of(chunk, at);
                assert!(rt; plain.has_room_for(of) && solo.has_room_for(of));
                let given = plain.retain(alloc, of, AllocId(target))?;
                assert_eq!(rt; solo.retain(of, AllocId(target)), given);
            }
            Transfer(chunk, at, target) => {
                let of = of(chunk, at);
                assert!(rt; plain.has_room_for(of) && solo.has_room_for(of));
                let given = plain.transfer(alloc, of, AllocId(target))?;
                assert_eq!(rt; solo.transfer(of, AllocId(target)), given);
            }
            Release(chunk, at) => {
                let gone = plain.release(alloc, of(chunk, at))?;
                assert_eq!(rt; solo.release(of(chunk, at)), gone);
            }
            Close(at) => {
                let closed = plain.close(alloc, AllocId(at))?;
                assert_eq!(rt; solo.close(AllocId(at)), closed);
            }
        }
        Ok(())
    }

    /// Whether both trees tell the same of every number that an allocator may have.
    fn tell_alike<R: Abort + AllocGlobal>(&self, rt: &R) -> Result<(), Fail> {
        for number in 0..65 {
            let at = AllocId(number);
            assert_eq!(rt; self.solo.node(at), self.plain.node(rt.alloc(), at)?);
        }
        Ok(())
    }
}

#[test]
fn the_deepest_tree_is_as_the_plain_one(rt: HostRuntime) -> Result<(), Fail> {
    let mut trees = open_pair(&rt, 100_000)?;
    // Each allocator reserves at the one above it; from the middle on the reservations grow.
    for depth in 0..63 {
        let reservation = 64 + 16 * u64::from(depth % 8);
        trees.call(&rt, Child(depth, reservation, 50_000))?;
    }
    trees.tell_alike(&rt)?;
    // Buffers from the deepest up; some pass all reservations, and some no limit lets through.
    for depth in 0..63 {
        let at = 63 - depth;
        let request = if depth % 5 == 0 {
            40_000
        } else {
            50 + 7 * u64::from(depth)
        };
        trees.call(&rt, Grant(at, request))?;
        let headroom = trees.plain.headroom(rt.alloc(), AllocId(at))?;
        assert_eq!(rt; trees.solo.headroom(AllocId(at)), headroom.map(i128::from));
    }
    trees.tell_alike(&rt)?;
    // All is given back and closed, and nothing is left.
    for chunk in 1..64 {
        trees.call(&rt, Release(chunk, 64 - chunk))?;
    }
    for depth in 0..64 {
        trees.call(&rt, Close(63 - depth))?;
    }
    trees.tell_alike(&rt)
}

/// Reservations cover some charges, limits refuse some grants, and some transfers are made past a limit.
const CALLS: [Call; 64] = [
    Child(0, 4_096, 8_192),
    Child(0, 0, 1_024),
    Child(1, 1_024, 6_000),
    Child(2, 512, 600),
    Child(0, 0, 30_000),
    Child(2, 1_024, 2_048),
    Grant(3, 700),
    Grant(3, 3_000),
    Grant(4, 100),
    Grant(5, 5_000),
    Grant(2, 400),
    Retain(1, 3, 5),
    Retain(1, 5, 2),
    Retain(1, 5, 2),
    Transfer(1, 3, 1),
    Transfer(1, 3, 2),
    Grant(1, 4_000),
    Grant(1, 9_000),
    Transfer(4, 5, 4),
    Transfer(4, 4, 3),
    Release(4, 5),
    Release(4, 5),
    Retain(4, 3, 0),
    Release(4, 3),
    Grant(4, 1),
    Transfer(3, 4, 5),
    Release(3, 4),
    Release(3, 4),
    Retain(2, 3, 3),
    Transfer(2, 3, 3),
    Release(2, 3),
    Release(2, 3),
    Release(2, 3),
    Release(2, 3),
    Close(4),
    Transfer(1, 1, 2),
    Transfer(1, 1, 5),
    Release(1, 1),
    Release(1, 2),
    Release(1, 2),
    Release(1, 2),
    Release(1, 2),
    Grant(0, 16_000),
    Grant(0, 3_000),
    Transfer(10, 0, 2),
    Transfer(10, 0, 3),
    Release(10, 0),
    Release(10, 0),
    Retain(3, 5, 1),
    Release(3, 5),
    Release(3, 5),
    Close(3),
    Release(1, 3),
    Release(1, 5),
    Grant(3, 64),
    Close(2),
    Transfer(5, 2, 1),
    Release(5, 2),
    Release(4, 0),
    Release(4, 4),
    Release(8, 4),
    Close(4),
    Retain(5, 1, 4),
    Release(10, 2),
];

#[test]
fn mixed_calls_are_as_on_the_plain_tree(rt: HostRuntime) -> Result<(), Fail> {
    let mut trees = open_pair(&rt, 20_000)?;
    for (made, call) in CALLS.iter().enumerate() {
        trees.call(&rt, *call)?;
        if made % 8 == 7 {
            trees.tell_alike(&rt)?;
        }
    }
    trees.tell_alike(&rt)
}
