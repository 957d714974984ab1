//! Two callers of one tree, each in a thread of its own.
ghost use Rattle.std.specs.Prelude.{◌≤◌};
ghost use Rattle.mem_buf.specs.TokenView.{CanName, bytes_for, turns_for};

use super::*;
use mem_buf::Memory;
use std::test::Fail;
use std::thread::{Threads, join};

/// Asks for a buffer and gives it back, so many times.
fn work<R: Abort + Wait>(rt: &R, tree: &Tree, token: Token, count: u32) -> Token {
    let mut token = token;
    for _ in 0..count {
        let hold = granted(rt, tree, &mut token, SCAN, 1_000);
        tree.release(rt, &mut token, hold);
    }
    token
}

/// Two callers at once.
fn in_two<R: Threads + Sync + Abort + Wait>(
    rt: &R,
    tree: &Tree,
    one: Token,
    two: Token,
) -> (Token, Token) {
    join(
        rt,
        || work(rt, tree, one, 5_000),
        || work(rt, tree, two, 5_000),
    )
}

/// Cuts a token off that pins an allocator.
#[tactic(auto, using(crate::proofs::PayLemmas::pinned_once))]
fn split<R: Abort>(rt: &R, tree: &Tree, token: &mut Token, budget: Budget, at: AllocId) -> Token {
    let left = token.budget();
    assert!(rt; budget.bytes <= left.bytes && budget.turns < left.turns);
    assert!(rt; token.pins(at) >= 1);
    tree.split(token, budget, &[at])
}

/// Asks for a buffer and gives it back, as a caller over every memory does.
fn use_once<M: Memory>(memory: &M, token: &mut M::Token, at: AllocId) -> Result<bool, BufferRefused>
    requires named { CanName (M.model.view token.old) at }
    requires bytes { bytes_for (M.model.view token.old) at 100 ≤ (M.model.view token.old).bytes }
    requires turn { turns_for (M.model.view token.old) at 100 ≤ (M.model.view token.old).turns }
{
    let hold = memory.grant(token, at, 100)?;
    Ok(memory.release(token, hold))
}

/// The same on the shared tree.
#[tactic(auto, using(crate::proofs::PayLemmas::pays_bytes, crate::proofs::PayLemmas::pays_turn))]
fn use_shared<R: Abort + Wait>(
    rt: &R,
    tree: &Tree,
    token: &mut Token,
) -> Result<bool, BufferRefused> {
    assert!(rt; token.budget().bytes >= LARGEST && token.budget().turns >= 1);
    use_once(&Running { tree, rt }, token, ROOT)
}

#[test]
fn a_caller_over_every_memory_runs_on_the_shared_tree(rt: HostRuntime) -> Result<(), Fail> {
    let (tree, mut token) = open(&rt, 1_000, AMPLE);
    assert_eq!(rt; use_shared(&rt, &tree, &mut token), Ok(true));
    assert_eq!(rt; (token.taken(), token.given()), (1, 1));
    assert_eq!(rt; token.budget().bytes, (1 << 40) - 128);
    Ok(())
}

#[test]
fn two_callers_leave_an_empty_tree(rt: HostRuntime) -> Result<(), Fail> {
    let (tree, mut token) = open(&rt, MAX_LIMIT, AMPLE);
    assert_eq!(rt; child(&rt, &tree, &mut token, ROOT, 0, MAX_LIMIT), Ok(SCAN));
    let half = Budget {
        bytes: 1 << 39,
        turns: 50_000,
    };
    assert_eq!(rt; pin(&rt, &tree, &mut token, SCAN), Ok(()));
    let other = split(&rt, &tree, &mut token, half, SCAN);
    assert_eq!(rt; other.budget(), half);
    assert_eq!(rt; token.budget().turns, 49_997);
    assert_eq!(rt; (token.pins(SCAN), other.pins(SCAN)), (1, 1));
    let (mut token, other) = in_two(&rt, &tree, token, other);
    tree.join(&rt, &mut token, other);
    assert_eq!(rt; (token.taken(), token.given()), (10_000, 10_000));
    assert_eq!(rt; (token.pins(ROOT), token.pins(SCAN)), (1, 2));
    assert_eq!(rt; token.budget().turns, 89_997);
    assert_eq!(rt; token.budget().bytes, (1 << 40) - 10_240_000);
    let Ok(solo) = tree.settle(token, Vec::new(rt.alloc())) else {
        panic!(&rt; "no memory");
    };
    assert_eq!(rt;
        (solo.next(), solo.drawn(), solo.chunks().count()),
        (2, 10_000, 0)
    );
    let held = [ROOT, SCAN].map(|at| solo.node(at).map(|placed| placed.node.held));
    assert_eq!(rt; held, [Some(0), Some(0)]);
    Ok(())
}
