//! Each call once with ample memory, and two callers in threads.

mod calls;
mod threads;

use super::*;
use mem_num::{
    AllocId, BufferRefused, ChildRefused, Closed, LARGEST, MAX_LIMIT, MAX_RESERVATION, NoMemory,
    Ref, RefRefused,
};
use std::alloc::AllocGlobal;
use std::process::Abort;
use std::sync::Wait;

const ROOT: AllocId = AllocId::ROOT;

const SCAN: AllocId = AllocId(1);

const AMPLE: Budget = Budget {
    bytes: 1 << 40,
    turns: 100_000,
};

fn open<R: Abort + AllocGlobal + Wait>(rt: &R, root_limit: u64, budget: Budget) -> (Tree, Token) {
    assert!(rt; root_limit <= MAX_LIMIT);
    assert!(rt; budget.bytes <= MOST_BYTES && budget.turns <= MOST_TURNS);
    let Ok(start) = Start::new(root_limit, budget) else {
        panic!(rt; "no start");
    };
    match Tree::open(rt, rt.alloc(), start) {
        Ok(opened) => opened,
        Err(NoMemory) => panic!(rt; "no memory"),
    }
}

fn child<R: Abort + Wait>(
    rt: &R,
    tree: &Tree,
    token: &mut Token,
    parent: AllocId,
    reservation: u64,
    limit: u64,
) -> Result<AllocId, ChildRefused> {
    assert!(rt; reservation <= MAX_RESERVATION && limit <= MAX_LIMIT);
    assert!(rt; token.budget().turns >= 1);
    tree.child(rt, token, parent, reservation, limit)
}

#[tactic(auto, using(crate::proofs::PayLemmas::pays_bytes, crate::proofs::PayLemmas::pays_turn))]
fn grant<R: Abort + Wait>(
    rt: &R,
    tree: &Tree,
    token: &mut Token,
    at: AllocId,
    request: u64,
) -> Result<Hold, BufferRefused> {
    assert!(rt; token.budget().bytes >= LARGEST && token.budget().turns >= 1);
    tree.grant(rt, token, at, request)
}

fn granted<R: Abort + Wait>(
    rt: &R,
    tree: &Tree,
    token: &mut Token,
    at: AllocId,
    request: u64,
) -> Hold {
    match grant(rt, tree, token, at, request) {
        Ok(hold) => hold,
        Err(_) => panic!(rt; "a request was refused"),
    }
}

#[tactic(auto, using(crate::proofs::PayLemmas::pays_to_share))]
fn retain<R: Abort + Wait>(
    rt: &R,
    tree: &Tree,
    token: &mut Token,
    of: &mut Hold,
    target: AllocId,
) -> Result<Hold, RefRefused> {
    assert!(rt; token.budget().turns >= 1);
    tree.retain(rt, token, of, target)
}

#[tactic(auto, using(crate::proofs::PayLemmas::pays_to_share))]
fn transfer<R: Abort + Wait>(
    rt: &R,
    tree: &Tree,
    token: &mut Token,
    of: &mut Hold,
    target: AllocId,
) -> Result<(Hold, bool), RefRefused> {
    assert!(rt; token.budget().turns >= 1);
    tree.transfer(rt, token, of, target)
}

fn pin<R: Abort + Wait>(rt: &R, tree: &Tree, token: &mut Token, at: AllocId) -> Result<(), Closed> {
    assert!(rt; token.budget().turns >= 1);
    tree.pin(rt, token, at)
}

fn unpin<R: Abort + Wait>(rt: &R, tree: &Tree, token: &mut Token, at: AllocId) {
    assert!(rt; token.pins(at) >= 1);
    tree.unpin(rt, token, at);
}
