//! Worked examples of the text of a tree.

use super::*;
use std::test::Fail;

/// An allocator that reserves 10 times its number and may hold 1,000 bytes, with its number, its parent's, what it holds, its
/// peak, and whether it is closed.
fn placed(at: u8, parent: u32, held: u64, peak: u64, closed: bool) -> Placed {
    Placed {
        at: AllocId(at as u32),
        parent: AllocId(parent),
        node: Node {
            reservation: at as u64 * 10,
            held,
            peak,
            limit: 1000,
            uses: 0,
            closed,
        },
    }
}

/// Binds a name to the allocator of a number.
fn bind(names: &mut Names, name: &str, number: u32) -> Result<(), Fail> {
    let ready = names.ready(name)?;
    names.bind(ready, AllocId(number));
    Ok(())
}

#[test]
fn a_tree_opens_with_the_line_of_its_root(rt: HostRuntime) -> Result<(), Fail> {
    let tree = SoloTree::open(rt.alloc(), i64::MAX as u64)?;
    let names = Names::new(rt.alloc());
    assert_eq!(rt;
        tree_text(rt.alloc(), &tree, &[names])?.as_str(),
        "#0 Allocator(ROOT) 0/0/0/9223372036854775807 (res/actual/peak/limit)\n"
    );
    assert_eq!(rt;
        tree_text(rt.alloc(), &tree, &[])?.as_str(),
        "#0 Allocator(?) 0/0/0/9223372036854775807 (res/actual/peak/limit)\n"
    );
    Ok(())
}

#[test]
fn children_stand_below_their_parent_in_order_of_number(rt: HostRuntime) -> Result<(), Fail> {
    let nodes = [
        placed(0, 0, 90, 99, false),
        placed(1, 0, 30, 40, false),
        placed(2, 0, 20, 20, false),
        placed(3, 1, 0, 0, false),
        placed(4, 3, 7, 8, false),
        placed(5, 1, 1, 2, false),
    ];
    let mut names = Names::new(rt.alloc());
    for (name, number) in [("scan", 1), ("sum", 2), ("part", 3), ("again", 1)] {
        bind(&mut names, name, number)?;
    }
    assert_eq!(rt;
        placed_text(rt.alloc(), &nodes, &[names])?.as_str(),
        "#0 Allocator(ROOT) 0/90/99/1000 (res/actual/peak/limit)
  #1 Allocator(scan) 10/30/40/1000 (res/actual/peak/limit)
    #3 Allocator(part) 30/0/0/1000 (res/actual/peak/limit)
      #4 Allocator(?) 40/7/8/1000 (res/actual/peak/limit)
    #5 Allocator(?) 50/1/2/1000 (res/actual/peak/limit)
  #2 Allocator(sum) 20/20/20/1000 (res/actual/peak/limit)
"
    );
    Ok(())
}

#[test]
fn closed_allocators_have_no_line(rt: HostRuntime) -> Result<(), Fail> {
    let nodes = [
        placed(0, 0, 5, 9, false),
        placed(1, 0, 0, 7, true),
        placed(2, 0, 5, 5, false),
        placed(3, 1, 0, 7, true),
    ];
    assert_eq!(rt;
        placed_text(rt.alloc(), &nodes, &[])?.as_str(),
        "#0 Allocator(?) 0/5/9/1000 (res/actual/peak/limit)
  #2 Allocator(?) 20/5/5/1000 (res/actual/peak/limit)
"
    );
    let closed = [placed(0, 0, 0, 9, true), placed(1, 0, 0, 7, true)];
    assert_eq!(rt; placed_text(rt.alloc(), &closed, &[])?.as_str(), "");
    Ok(())
}

#[test]
fn the_first_names_that_know_an_allocator_name_it(rt: HostRuntime) -> Result<(), Fail> {
    let nodes = [
        placed(0, 0, 0, 0, false),
        placed(1, 0, 0, 0, false),
        placed(2, 0, 0, 0, false),
    ];
    let mut own = Names::new(rt.alloc());
    bind(&mut own, "scan", 1)?;
    let mut shared = Names::new(rt.alloc());
    bind(&mut shared, "query", 1)?;
    bind(&mut shared, "sum", 2)?;
    assert_eq!(rt;
        placed_text(rt.alloc(), &nodes, &[own, shared])?.as_str(),
        "#0 Allocator(ROOT) 0/0/0/1000 (res/actual/peak/limit)
  #1 Allocator(scan) 10/0/0/1000 (res/actual/peak/limit)
  #2 Allocator(sum) 20/0/0/1000 (res/actual/peak/limit)
"
    );
    Ok(())
}
