//! The worked examples, on atomic words: the numbers are those of the tree of one thread.
ghost use Rattle.std.specs.Prelude.{◌≡◌, ◌+◌, ◌*◌, ◌≤◌, ◌<◌, [], ◌∷◌, length, IfOk};
ghost use Rattle.mem_num.specs.declared.bounds.TheConstants.{LARGEST};

use super::*;
use mem_num::MAX_LIMIT;
use std::alloc::AllocGlobal;
use std::process::Abort;
use std::test::Fail;
use std::thread::{Threads, join};

const ROOT: AllocId = AllocId(0);

const C: AllocId = AllocId(1);

/// A root and one allocator below it.
fn two(root_limit: u64, reservation: u64, limit: u64) -> [Fixed; 2] {
    let root = Fixed {
        parent: ROOT,
        reservation: 0,
        limit: root_limit,
    };
    let child = Fixed {
        parent: ROOT,
        reservation,
        limit,
    };
    [root, child]
}

fn open<R: Abort + AllocGlobal>(rt: &R, nodes: &[Fixed], budget: Budget) -> (Words, Pass)
    ensures table { result.1.table ≡ result.0 }
    ensures tree { result.0.start.tree ≡ nodes.now }
    ensures budget { result.1.budget ≡ budget }
{
    assert!(rt; crate::is_fixed_tree(nodes));
    assert!(rt; budget.bytes <= crate::MOST_BYTES && budget.turns <= crate::MOST_TURNS);
    match Words::open_fixed(rt.alloc(), nodes, budget) {
        Ok(opened) => opened,
        Err(NoMemory) => panic!(rt; "no memory"),
    }
}

/// Charges, where the budget is there.
fn charge(
    rt: &impl Abort,
    words: &Words,
    pass: &mut Pass,
    at: AllocId,
    size: u64,
) -> Result<ChunkSeat, Full>
    requires table { pass.old.table ≡ words.now }
    requires at { at.0 < length words.now.start.tree }
    requires size { (1 ≤ size) × (size ≤ LARGEST) }
    ensures table { pass.new.table ≡ words.now }
    ensures chunk { IfOk result (λ chunk. (chunk.table ≡ words.now) × (chunk.charged ≡ at.0 ∷ [])) }
{
    let budget = pass.budget();
    assert!(rt; budget.turns >= 1 && budget.bytes >= size);
    words.charge(pass, at, size)
}

/// The peaks of the root and of the allocator below it.
fn peaks(words: &Words, pass: &mut Pass) -> (u64, u64)
    requires table { pass.old.table ≡ words.now }
    requires two { 2 ≤ length words.now.start.tree }
    ensures table { pass.new.table ≡ words.now }
{
    (words.peak(pass, ROOT), words.peak(pass, C))
}

const AMPLE: Budget = Budget {
    bytes: 1 << 30,
    turns: 100,
};

#[test]
fn a_reservation_covers_the_first_bytes(rt: HostRuntime) -> Result<(), Fail> {
    let nodes = two(MAX_LIMIT, 4096, MAX_LIMIT);
    let (words, mut pass) = open(&rt, &nodes, AMPLE);
    assert_eq!(rt; words.held(&mut pass, ROOT), 4096);
    assert_eq!(rt; words.held(&mut pass, C), 0);
    let first = charge(&rt, &words, &mut pass, C, 2048);
    assert!(rt; first.is_ok());
    assert_eq!(rt; words.held(&mut pass, ROOT), 4096);
    assert_eq!(rt; words.held(&mut pass, C), 2048);
    let second = charge(&rt, &words, &mut pass, C, 4096);
    assert_eq!(rt; words.held(&mut pass, ROOT), 6144);
    assert_eq!(rt; words.held(&mut pass, C), 6144);
    assert_eq!(rt; peaks(&words, &mut pass), (6144, 6144));
    let Ok(mut seat) = second else {
        panic!(rt; "refused");
    };
    assert_eq!(rt; seat.number(), 2);
    assert_eq!(rt; seat.size(), 4096);
    words.discharge(&mut seat, C);
    assert_eq!(rt; words.held(&mut pass, ROOT), 4096);
    assert_eq!(rt; words.held(&mut pass, C), 2048);
    words.retire(&mut pass, seat);
    assert_eq!(rt; pass.budget().turns, 98);
    assert_eq!(rt; pass.budget().bytes, (1 << 30) - 6144);
    Ok(())
}

#[test]
fn a_full_parent_refuses_and_all_is_taken_back(rt: HostRuntime) -> Result<(), Fail> {
    let nodes = two(1024, 0, MAX_LIMIT);
    let (words, mut pass) = open(&rt, &nodes, AMPLE);
    let first = charge(&rt, &words, &mut pass, C, 1024);
    assert!(rt; first.is_ok());
    let Err(full) = charge(&rt, &words, &mut pass, C, 512) else {
        panic!(rt; "not refused");
    };
    assert_eq!(rt;
        full,
        Full {
            node: ROOT,
            held: 1024,
            amount: 512,
            limit: 1024,
            local: false
        }
    );
    assert_eq!(rt; words.held(&mut pass, ROOT), 1024);
    assert_eq!(rt; words.held(&mut pass, C), 1024);
    assert_eq!(rt; peaks(&words, &mut pass), (1024, 1536));
    Ok(())
}

#[test]
fn a_full_allocator_refuses_its_own_request(rt: HostRuntime) -> Result<(), Fail> {
    let nodes = two(MAX_LIMIT, 0, 1024);
    let (words, mut pass) = open(&rt, &nodes, AMPLE);
    let first = charge(&rt, &words, &mut pass, C, 1024);
    assert!(rt; first.is_ok());
    let Err(full) = charge(&rt, &words, &mut pass, C, 512) else {
        panic!(rt; "not refused");
    };
    assert_eq!(rt;
        full,
        Full {
            node: C,
            held: 1024,
            amount: 512,
            limit: 1024,
            local: true
        }
    );
    assert_eq!(rt; words.held(&mut pass, ROOT), 1024);
    assert_eq!(rt; words.held(&mut pass, C), 1024);
    assert_eq!(rt; peaks(&words, &mut pass), (1024, 1024));
    let Ok(seat) = charge(&rt, &words, &mut pass, ROOT, 2) else {
        panic!(rt; "refused");
    };
    assert_eq!(rt; seat.number(), 3);
    assert_eq!(rt; seat.size(), 2);
    Ok(())
}

#[test]
fn an_unused_reservation_is_headroom(rt: HostRuntime) -> Result<(), Fail> {
    let nodes = two(1024, 512, 2048);
    let (words, mut pass) = open(&rt, &nodes, AMPLE);
    let first = charge(&rt, &words, &mut pass, C, 256);
    assert!(rt; first.is_ok());
    assert_eq!(rt; words.headroom(&mut pass, C), 768);
    assert_eq!(rt; words.headroom(&mut pass, ROOT), 512);
    Ok(())
}

#[test]
fn a_force_goes_past_limits_and_moves_the_charge(rt: HostRuntime) -> Result<(), Fail> {
    let nodes = two(1024, 0, 512);
    let (words, mut pass) = open(&rt, &nodes, AMPLE);
    let Ok(mut seat) = charge(&rt, &words, &mut pass, ROOT, 1024) else {
        panic!(rt; "refused");
    };
    let within = words.force(&mut seat, C);
    assert!(rt; !within);
    assert_eq!(rt; words.held(&mut pass, ROOT), 2048);
    assert_eq!(rt; words.held(&mut pass, C), 1024);
    assert_eq!(rt; peaks(&words, &mut pass), (2048, 1024));
    assert_eq!(rt; words.headroom(&mut pass, C), -1024);
    assert!(rt; words.over_limit(&mut pass, ROOT));
    words.discharge(&mut seat, ROOT);
    assert!(rt; !words.over_limit(&mut pass, ROOT));
    assert!(rt; words.over_limit(&mut pass, C));
    assert_eq!(rt; words.held(&mut pass, ROOT), 1024);
    assert_eq!(rt; words.held(&mut pass, C), 1024);
    words.discharge(&mut seat, C);
    assert_eq!(rt; words.held(&mut pass, ROOT), 0);
    assert_eq!(rt; words.held(&mut pass, C), 0);
    assert_eq!(rt; peaks(&words, &mut pass), (2048, 1024));
    words.retire(&mut pass, seat);
    Ok(())
}

/// A charge and its release, if the budget is there; a refused one leaves nothing to release.
fn charge_and_release(words: &Words, pass: &mut Pass, at: AllocId)
    requires table { pass.old.table ≡ words.now }
    requires at { at.0 < length words.now.start.tree }
    ensures table { pass.new.table ≡ words.now }
{
    let budget = pass.budget();
    if budget.turns == 0 || budget.bytes < 64 {
        return;
    }
    if let Ok(mut seat) = words.charge(pass, at, 64) {
        words.discharge(&mut seat, at);
        words.retire(pass, seat);
    }
}

/// So many of them.
fn work(words: &Words, mut pass: Pass, at: AllocId, count: u32) -> Pass
    requires table { pass.table ≡ words.now }
    requires at { at.0 < length words.now.start.tree }
    ensures table { result.table ≡ words.now }
{
    for _ in 0..count {
        charge_and_release(words, &mut pass, at);
    }
    pass
}

/// Two callers at once, each in a thread of its own.
fn in_two<R: Threads + Sync>(
    rt: &R,
    words: &Words,
    one: Pass,
    two: Pass,
    at: AllocId,
) -> (Pass, Pass)
    requires tables { (one.table ≡ words.now) × (two.table ≡ words.now) }
    requires at { at.0 < length words.now.start.tree }
    ensures tables { (result.0.table ≡ words.now) × (result.1.table ≡ words.now) }
{
    join(
        rt,
        || -> Pass
            requires { (one.table ≡ words.now) × (at.0 < length words.now.start.tree) }
            ensures { result.table ≡ words.entry.now }
        { work(words, one, at, 10_000) },
        || -> Pass
            requires { (two.table ≡ words.now) × (at.0 < length words.now.start.tree) }
            ensures { result.table ≡ words.entry.now }
        { work(words, two, at, 10_000) },
    )
}

#[test]
fn two_callers_leave_held_numbers_as_they_were(rt: HostRuntime) -> Result<(), Fail> {
    for nodes in [two(MAX_LIMIT, 4096, MAX_LIMIT), two(1024, 0, MAX_LIMIT)] {
        let budget = Budget {
            bytes: 1 << 30,
            turns: 20_000,
        };
        let half = Budget {
            bytes: 1 << 29,
            turns: 10_000,
        };
        let (words, mut pass) = open(&rt, &nodes, budget);
        let before = (words.held(&mut pass, ROOT), words.held(&mut pass, C));
        let other = words.split_pass(&mut pass, half);
        let (mut pass, other) = in_two(&rt, &words, pass, other, C);
        words.join_pass(&mut pass, other);
        assert_eq!(rt; pass.budget().turns, 0);
        assert_eq!(rt;
            (words.held(&mut pass, ROOT), words.held(&mut pass, C)),
            before
        );
        assert_eq!(rt; words.table.shared.peek(16), 20_001);
    }
    Ok(())
}
