//! Each call of a memory on the tree of one thread, through the bound that callers have.
ghost use Rattle.std.specs.Prelude.{◌≤◌};
ghost use Rattle.mem_num.specs.declared.bounds.TheConstants.{MAX_LIMIT as MOST_LIMIT, MAX_RESERVATION as MOST_RESERVED};
ghost use Rattle.mem_buf.specs.TokenView.{CanName, bytes_for, turns_for, turns_to_share};

use super::*;
use mem_num::{Closed, MAX_LIMIT, MAX_RESERVATION, NoMemory, TooLarge};
use std::alloc::AllocGlobal;
use std::process::Abort;
use std::test::Fail;

const ROOT: AllocId = AllocId::ROOT;

const SCAN: AllocId = AllocId(1);

const FILTER: AllocId = AllocId(2);

fn child_of<M: Memory>(
    mem: &M,
    token: &mut M::Token,
    parent: AllocId,
    reservation: u64,
    limit: u64,
) -> Result<AllocId, ChildRefused>
    requires named { CanName (M.model.view token.old) parent }
    requires turn { 1 ≤ (M.model.view token.old).turns }
    requires reservation { reservation ≤ MOST_RESERVED }
    requires limit { limit ≤ MOST_LIMIT }
{
    mem.child(token, parent, reservation, limit)
}

fn granted<M: Memory>(
    mem: &M,
    token: &mut M::Token,
    at: AllocId,
    request: u64,
) -> Result<M::Hold, BufferRefused>
    requires named { CanName (M.model.view token.old) at }
    requires bytes { bytes_for (M.model.view token.old) at request ≤ (M.model.view token.old).bytes }
    requires turn { turns_for (M.model.view token.old) at request ≤ (M.model.view token.old).turns }
{
    mem.grant(token, at, request)
}

fn retained<M: Memory>(
    mem: &M,
    token: &mut M::Token,
    of: &mut M::Hold,
    target: AllocId,
) -> Result<M::Hold, RefRefused>
    requires named { CanName (M.model.view token.old) target }
    requires turn { turns_to_share (M.model.reference of.old) ≤ (M.model.view token.old).turns }
{
    mem.retain(token, of, target)
}

fn transferred<M: Memory>(
    mem: &M,
    token: &mut M::Token,
    of: &mut M::Hold,
    target: AllocId,
) -> Result<(M::Hold, bool), RefRefused>
    requires named { CanName (M.model.view token.old) target }
    requires turn { turns_to_share (M.model.reference of.old) ≤ (M.model.view token.old).turns }
{
    mem.transfer(token, of, target)
}

fn closed<M: Memory>(mem: &M, token: &mut M::Token, at: AllocId) -> Result<(), NotClosed>
    requires named { CanName (M.model.view token.old) at }
{
    mem.close(token, at)
}

fn unpinned<M: Memory>(mem: &M, token: &mut M::Token, at: AllocId)
    requires pinned { 1 ≤ (M.model.view token.old).pins at.0 }
{
    mem.unpin(token, at);
}

fn released<M: Memory>(mem: &M, token: &mut M::Token, of: M::Hold) -> bool {
    mem.release(token, of)
}

fn named<M: Memory>(mem: &M, of: &M::Hold) -> Ref {
    mem.name_of(of)
}

/// How many calls are counted at most, but for one.
const MOST_CALLS: u32 = 4_294_967_294;

fn open<R: Abort + AllocGlobal>(rt: &R) -> Result<SoloTree, Fail> {
    let limit = MAX_LIMIT;
    match SoloTree::open(rt.alloc(), limit) {
        Ok(tree) => Ok(tree),
        Err(NoMemory) => panic!(rt; "no memory"),
    }
}

fn child(
    rt: &impl Abort,
    tree: &mut SoloTree,
    parent: AllocId,
    reservation: u64,
    limit: u64,
) -> Result<AllocId, ChildRefused> {
    assert!(rt; reservation <= MAX_RESERVATION && limit <= MAX_LIMIT);
    assert!(rt; tree.calls() < MOST_CALLS);
    child_of(&Solo, tree, parent, reservation, limit)
}

#[tactic(auto, using(crate::proofs::SoloPayLemmas::pays_bytes, crate::proofs::SoloPayLemmas::pays_turn))]
fn grant(
    rt: &impl Abort,
    tree: &mut SoloTree,
    at: AllocId,
    request: u64,
) -> Result<Ref, BufferRefused> {
    assert!(rt; tree.calls() < MOST_CALLS);
    granted(&Solo, tree, at, request)
}

#[tactic(auto, using(crate::proofs::SoloPayLemmas::pays_to_share))]
fn retain(
    rt: &impl Abort,
    tree: &mut SoloTree,
    of: Ref,
    target: AllocId,
) -> Result<Ref, RefRefused> {
    let mut hold = of;
    assert!(rt; tree.calls() < MOST_CALLS);
    retained(&Solo, tree, &mut hold, target)
}

#[tactic(auto, using(crate::proofs::SoloPayLemmas::pays_to_share))]
fn transfer(
    rt: &impl Abort,
    tree: &mut SoloTree,
    of: Ref,
    target: AllocId,
) -> Result<(Ref, bool), RefRefused> {
    let mut hold = of;
    assert!(rt; tree.calls() < MOST_CALLS);
    transferred(&Solo, tree, &mut hold, target)
}

fn chunk(number: u32, alloc: AllocId) -> Ref {
    Ref {
        chunk: number,
        alloc,
        size: 1_024,
    }
}

#[test]
fn each_call_is_the_tree_s_own(rt: HostRuntime) -> Result<(), Fail> {
    let mut tree = open(&rt)?;
    assert_eq!(rt; child(&rt, &mut tree, ROOT, 0, MAX_LIMIT), Ok(SCAN));
    assert_eq!(rt; child(&rt, &mut tree, ROOT, 0, 512), Ok(FILTER));
    assert_eq!(rt; grant(&rt, &mut tree, SCAN, 1_000), Ok(chunk(1, SCAN)));
    assert_eq!(rt; named(&Solo, &chunk(1, SCAN)), chunk(1, SCAN));
    let over = Ok((chunk(1, FILTER), false));
    assert_eq!(rt; transfer(&rt, &mut tree, chunk(1, SCAN), FILTER), over);
    assert_eq!(rt;
        retain(&rt, &mut tree, chunk(1, FILTER), ROOT),
        Ok(chunk(1, ROOT))
    );
    assert_eq!(rt;
        closed(&Solo, &mut tree, SCAN),
        Err(NotClosed::InUse { uses: 1 })
    );
    for (of, gone) in [
        (chunk(1, SCAN), true),
        (chunk(1, FILTER), true),
        (chunk(1, ROOT), true),
    ] {
        assert_eq!(rt; released(&Solo, &mut tree, of), gone);
    }
    assert_eq!(rt; closed(&Solo, &mut tree, SCAN), Ok(()));
    let shut = Closed {
        node: SCAN,
        uses: 0,
    };
    assert_eq!(rt;
        grant(&rt, &mut tree, SCAN, 1),
        Err(BufferRefused::Closed(shut))
    );
    Ok(())
}

#[test]
fn a_reference_that_was_given_back_gets_the_empty_buffer(rt: HostRuntime) -> Result<(), Fail> {
    let mut tree = open(&rt)?;
    assert_eq!(rt; grant(&rt, &mut tree, ROOT, 1_024), Ok(chunk(1, ROOT)));
    assert_eq!(rt; released(&Solo, &mut tree, chunk(1, ROOT)), true);
    let empty = empty_buffer(ROOT);
    for of in [chunk(1, ROOT), empty] {
        assert_eq!(rt; retain(&rt, &mut tree, of, ROOT), Ok(empty));
        assert_eq!(rt; transfer(&rt, &mut tree, of, ROOT), Ok((empty, true)));
        assert_eq!(rt; released(&Solo, &mut tree, of), false);
    }
    assert_eq!(rt; tree.calls(), 1);
    Ok(())
}

#[test]
fn a_hundred_calls_spend_a_hundred_turns(rt: HostRuntime) -> Result<(), Fail> {
    let mut tree = open(&rt)?;
    for _ in 0..50 {
        match grant(&rt, &mut tree, ROOT, 1_024) {
            Ok(of) => {
                assert!(rt; retain(&rt, &mut tree, of, ROOT).is_ok());
            }
            Err(_) => panic!(rt; "no memory"),
        }
    }
    assert_eq!(rt; tree.calls(), 100);
    let request = 1_073_741_825;
    let refused = Err(BufferRefused::TooLarge(TooLarge { request }));
    assert_eq!(rt; grant(&rt, &mut tree, ROOT, request), refused);
    assert_eq!(rt; grant(&rt, &mut tree, ROOT, 0), Ok(empty_buffer(ROOT)));
    assert_eq!(rt; tree.calls(), 100);
    Ok(())
}

#[test]
fn a_pin_that_is_given_back_leaves_its_allocator_open(rt: HostRuntime) {
    match SoloTree::open(rt.alloc(), 1_024) {
        Ok(mut tree) => {
            unpinned(&Solo, &mut tree, ROOT);
            assert_eq!(rt; grant(&rt, &mut tree, ROOT, 1_024), Ok(chunk(1, ROOT)));
        }
        Err(NoMemory) => panic!(rt; "no memory"),
    }
}
