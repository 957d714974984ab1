//! Each call once, with the numbers of the tree of one thread.

use super::*;
use alloc_tree::SoloTree;
use mem_num::{Full, Node, NotClosed, TooLarge};
use std::test::Fail;

/// Ends a tree whose caller gave all back.
fn settled<R: Abort + AllocGlobal>(rt: &R, tree: Tree, token: Token) -> SoloTree {
    assert_eq!(rt; token.given(), token.taken());
    match tree.settle(token, Vec::new(rt.alloc())) {
        Ok(solo) => solo,
        Err(NoMemory) => panic!(rt; "no memory"),
    }
}

const FREE: Node = Node {
    reservation: 0,
    held: 0,
    peak: 0,
    limit: 1_048_576,
    uses: 1,
    closed: false,
};

const UNMADE: Node = Node {
    reservation: 0,
    held: 0,
    peak: 0,
    limit: 0,
    uses: 0,
    closed: true,
};

#[test]
fn a_tree_begins_with_its_budget_and_a_pin_on_its_root(rt: HostRuntime) -> Result<(), Fail> {
    let (tree, mut token) = open(&rt, 1_048_576, AMPLE);
    assert_eq!(rt; token.budget(), AMPLE);
    assert_eq!(rt; (token.taken(), token.given()), (0, 0));
    assert_eq!(rt; (token.pins(ROOT), token.pins(SCAN)), (1, 0));
    assert_eq!(rt; tree.look(&rt, &mut token, ROOT), FREE);
    assert_eq!(rt; tree.look(&rt, &mut token, SCAN), UNMADE);
    let solo = settled(&rt, tree, token);
    assert_eq!(rt;
        (solo.next(), solo.drawn(), solo.chunks().count()),
        (1, 0, 0)
    );
    Ok(())
}

#[test]
fn a_buffer_is_charged_shared_and_given_back(rt: HostRuntime) -> Result<(), Fail> {
    let (tree, mut token) = open(&rt, 1_048_576, AMPLE);
    assert_eq!(rt;
        child(&rt, &tree, &mut token, ROOT, 4_096, 65_536),
        Ok(SCAN)
    );
    assert_eq!(rt; (token.pins(SCAN), token.budget().turns), (1, 99_999));
    let mut hold = granted(&rt, &tree, &mut token, SCAN, 1_000);
    let first = Ref {
        chunk: 1,
        alloc: SCAN,
        size: 1_024,
    };
    assert_eq!(rt; hold.name(), first);
    assert_eq!(rt; token.budget().bytes, (1 << 40) - 1_024);
    let scan = Node {
        reservation: 4_096,
        held: 1_024,
        peak: 1_024,
        limit: 65_536,
        uses: 2,
        closed: false,
    };
    assert_eq!(rt; tree.look(&rt, &mut token, SCAN), scan);
    assert_eq!(rt; tree.headroom(&rt, &mut token, SCAN), Ok(64_512));
    assert_eq!(rt; tree.over_limit(&rt, &mut token, SCAN), Ok(false));
    let Ok(further) = retain(&rt, &tree, &mut token, &mut hold, ROOT) else {
        panic!(&rt; "not retained");
    };
    let at_root = Ref {
        chunk: 1,
        alloc: ROOT,
        size: 1_024,
    };
    assert_eq!(rt; further.name(), at_root);
    let Ok((moved, fits)) = transfer(&rt, &tree, &mut token, &mut hold, ROOT) else {
        panic!(&rt; "not transferred");
    };
    assert_eq!(rt; (moved.name(), fits), (at_root, true));
    assert_eq!(rt;
        (token.taken(), token.given(), token.budget().turns),
        (3, 0, 99_996)
    );
    assert!(rt; tree.release(&rt, &mut token, hold));
    assert!(rt; !tree.release(&rt, &mut token, further));
    assert!(rt; tree.release(&rt, &mut token, moved));
    assert_eq!(rt; (token.taken(), token.given()), (3, 3));
    let solo = settled(&rt, tree, token);
    assert_eq!(rt;
        (solo.next(), solo.drawn(), solo.chunks().count()),
        (2, 1, 0)
    );
    let root = solo.node(ROOT).map(|placed| placed.node);
    let after = Node {
        held: 4_096,
        peak: 5_120,
        ..FREE
    };
    assert_eq!(rt; root, Some(after));
    Ok(())
}

#[test]
fn an_allocator_is_closed_when_nobody_pins_it(rt: HostRuntime) -> Result<(), Fail> {
    let (tree, mut token) = open(&rt, 1_048_576, AMPLE);
    assert_eq!(rt; child(&rt, &tree, &mut token, ROOT, 0, 65_536), Ok(SCAN));
    assert_eq!(rt; pin(&rt, &tree, &mut token, SCAN), Ok(()));
    assert_eq!(rt; (token.pins(SCAN), token.budget().turns), (2, 99_998));
    assert_eq!(rt;
        tree.close(&rt, &mut token, SCAN),
        Err(NotClosed::InUse { uses: 2 })
    );
    unpin(&rt, &tree, &mut token, SCAN);
    assert_eq!(rt;
        tree.close(&rt, &mut token, SCAN),
        Err(NotClosed::InUse { uses: 1 })
    );
    unpin(&rt, &tree, &mut token, SCAN);
    assert_eq!(rt; tree.close(&rt, &mut token, SCAN), Ok(()));
    assert_eq!(rt;
        tree.close(&rt, &mut token, SCAN),
        Err(NotClosed::Closed { uses: 0 })
    );
    let closed = Closed {
        node: SCAN,
        uses: 0,
    };
    assert_eq!(rt; pin(&rt, &tree, &mut token, SCAN), Err(closed));
    assert_eq!(rt; tree.headroom(&rt, &mut token, SCAN), Err(closed));
    assert_eq!(rt; tree.over_limit(&rt, &mut token, SCAN), Err(closed));
    assert_eq!(rt;
        child(&rt, &tree, &mut token, SCAN, 0, 1),
        Err(ChildRefused::Closed(closed))
    );
    let Err(refused) = grant(&rt, &tree, &mut token, SCAN, 1) else {
        panic!(&rt; "granted at a closed allocator");
    };
    assert_eq!(rt; refused, BufferRefused::Closed(closed));
    Ok(())
}

#[test]
fn requests_are_refused_by_their_numbers(rt: HostRuntime) -> Result<(), Fail> {
    let (tree, mut token) = open(&rt, 1_000, AMPLE);
    let Err(large) = grant(&rt, &tree, &mut token, ROOT, LARGEST + 1) else {
        panic!(&rt; "granted too much");
    };
    let request = LARGEST + 1;
    assert_eq!(rt; large, BufferRefused::TooLarge(TooLarge { request }));
    let above = ChildRefused::ReserveAboveLimit {
        reservation: 10,
        limit: 5,
    };
    assert_eq!(rt; child(&rt, &tree, &mut token, ROOT, 10, 5), Err(above));
    let empty = granted(&rt, &tree, &mut token, ROOT, 0);
    let none = Ref {
        chunk: 0,
        alloc: ROOT,
        size: 0,
    };
    assert_eq!(rt; empty.name(), none);
    assert!(rt; !tree.release(&rt, &mut token, empty));
    assert_eq!(rt; token.budget(), AMPLE);
    let Err(refused) = grant(&rt, &tree, &mut token, ROOT, 1_000) else {
        panic!(&rt; "granted past the limit");
    };
    let full = Full {
        node: ROOT,
        held: 0,
        amount: 1_024,
        limit: 1_000,
        local: true,
    };
    assert_eq!(rt; refused, BufferRefused::Full(full));
    assert_eq!(rt; (token.taken(), token.given()), (0, 0));
    assert_eq!(rt; token.budget().turns, 99_999);
    Ok(())
}

/// Ends a tree of which one reference is left.
fn settled_with<R: Abort + AllocGlobal>(rt: &R, tree: Tree, token: Token, hold: Hold) -> SoloTree {
    assert!(rt; hold.name().chunk != 0);
    assert_eq!(rt; (token.given(), token.taken()), (0, 1));
    let mut holds = Vec::new(rt.alloc());
    if holds.push(hold).is_err() {
        panic!(rt; "no memory");
    }
    match tree.settle(token, holds) {
        Ok(solo) => solo,
        Err(NoMemory) => panic!(rt; "no memory"),
    }
}

#[test]
fn what_is_not_given_back_stays_in_the_settled_tree(rt: HostRuntime) -> Result<(), Fail> {
    let (tree, mut token) = open(&rt, 1_048_576, AMPLE);
    let hold = granted(&rt, &tree, &mut token, ROOT, 300);
    let solo = settled_with(&rt, tree, token, hold);
    assert_eq!(rt; (solo.drawn(), solo.chunks().count()), (1, 1));
    let root = solo.node(ROOT).map(|placed| placed.node);
    let after = Node {
        held: 512,
        peak: 512,
        ..FREE
    };
    assert_eq!(rt; root, Some(after));
    Ok(())
}
