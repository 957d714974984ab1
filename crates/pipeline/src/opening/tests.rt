//! Trees of a query, opened.

use super::*;
use mem_num::Full;
use std::test::Fail;

const LIMITS: [u64; 5] = [100, 200, 300, 400, 500];

const RESERVES: [u64; 5] = [1, 2, 3, 4, 5];

#[test]
fn five_children_are_made_in_order(rt: HostRuntime) -> Result<(), Fail> {
    let Ok(mut tree) = SoloTree::open(rt.alloc(), 1000) else {
        panic!(rt; "no memory");
    };
    assert!(rt; tree.calls() < 100);
    let opened = open_each(&mut tree, &LIMITS, &RESERVES);
    assert_eq!(rt; opened, Ok(()));
    assert_eq!(rt; tree.next(), 6);
    for number in 1..6u32 {
        let Some(placed) = tree.node(AllocId(number)) else {
            panic!(rt; "no allocator");
        };
        assert_eq!(rt; placed.parent, AllocId::ROOT);
        assert_eq!(rt; placed.node.limit, 100 * u64::from(number));
        assert_eq!(rt; placed.node.reservation, u64::from(number));
    }
    Ok(())
}

#[test]
fn a_reservation_that_the_root_cannot_carry_is_refused(rt: HostRuntime) -> Result<(), Fail> {
    let Ok(mut tree) = SoloTree::open(rt.alloc(), 5) else {
        panic!(rt; "no memory");
    };
    assert!(rt; tree.calls() < 100);
    let full = Full {
        node: AllocId::ROOT,
        held: 3,
        amount: 3,
        limit: 5,
        local: true,
    };
    let opened = open_each(&mut tree, &LIMITS, &RESERVES);
    assert_eq!(rt; opened, Err(QueryRefused::Full { full, batch: 0 }));
    assert_eq!(rt; tree.next(), 4);
    Ok(())
}
