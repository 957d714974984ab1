//! Allocators: a tree is opened for a query, and an operator's allocator opened in it, asked for a buffer, and closed.
ghost use Rattle.std.specs.Prelude.{◌≡◌, ◌≢◌, ◌+◌, ◌≤◌, ◌<◌, [], ◌∷◌, false, Err, IfOk, OnOk, IfSome};
ghost use Rattle.mem_num.specs.declared.bounds.TheConstants.{MAX_LIMIT, MAX_RESERVATION, MOST_NUMBERS};
ghost use Rattle.mem_model.specs.Calls.{state_after, Child, Close, Grant, Release};
ghost use Rattle.mem_model.specs.Child.{child_result};
ghost use Rattle.mem_model.specs.TreeState.{is_open, opened};

use alloc_tree::SoloTree;
use mem_num::{AllocId, BufferRefused, ChildRefused, NotClosed, Ref};
use std::alloc::Global;

/// Opens a tree for a query, with its first operator, which has the limit of the query. Answers none where there is no memory or
/// the reservation is above the limit.
///
/// Shows `opened` of `SoloTree::open`: from a tree with its root alone it is known what each call answers.
pub fn open_query(alloc: Global, limit: u64, reservation: u64) -> Option<(SoloTree, AllocId)>
    requires limit { limit ≤ MAX_LIMIT }
    requires reservation { reservation ≤ MAX_RESERVATION }
    ensures first { IfSome result (λ query. query.1.0 ≡ 1) }
    ensures after { IfSome result (λ query. query.0.state
        ≡ state_after (opened limit) (Child (record { 0 = 0 }) reservation limit ∷ [])) }
{
    let Ok(mut tree) = SoloTree::open(alloc, limit) else {
        return None;
    };
    match open_operator(&mut tree, reservation, limit) {
        Ok(operator) => Some((tree, operator)),
        Err(_) => None,
    }
}

/// Opens an operator's allocator below the root, with a reservation and a limit. A tree that has given every number has no
/// further one.
///
/// Shows `answer` and `after` of `SoloTree::child`: the allocator has the number that stood next.
#[tactic(auto, using(crate::proofs::CallLemmas::child_gives))]
pub fn open_operator(
    tree: &mut SoloTree,
    reservation: u64,
    limit: u64,
) -> Result<AllocId, ChildRefused>
    requires reservation { reservation ≤ MAX_RESERVATION }
    requires limit { limit ≤ MAX_LIMIT }
    ensures number { IfOk result (λ operator. operator.0 ≡ tree.old.state.next) }
    ensures answer { tree.old.state.next + 1 < MOST_NUMBERS
        → result ≡ (child_result tree.old.state (record { 0 = 0 }) reservation limit).answer }
    ensures after { tree.old.state.next + 1 < MOST_NUMBERS → tree.new.state
        ≡ state_after tree.old.state (Child (record { 0 = 0 }) reservation limit ∷ []) }
{
    let next = tree.next();
    if next == u32::MAX {
        return Err(ChildRefused::Nodes { next: next.into() });
    }
    tree.child(AllocId::ROOT, reservation, limit)
}

/// Asks for a buffer at an operator's allocator. A tree that has given every chunk number answers as for want of memory.
///
/// Shows `answer`, `after` and `no_memory` of `SoloTree::grant`: the reference is of the allocator that was asked, and want of
/// memory changes nothing.
pub fn ask(tree: &mut SoloTree, at: AllocId, size: u64) -> Result<Ref, BufferRefused>
    ensures at { IfOk result (λ given. given.alloc ≡ at) }
    ensures after { result ≢ Err BufferRefused.NoMemory
        → tree.new.state ≡ state_after tree.old.state (Grant at size ∷ []) }
    ensures no_memory { result ≡ Err BufferRefused.NoMemory → tree.new ≡ tree.old }
{
    if tree.drawn() == u32::MAX {
        return Err(BufferRefused::NoMemory);
    }
    tree.grant(at, size)
}

/// Gives an operator's reference back, and closes its allocator.
///
/// Shows `answer` and `after` of `SoloTree::close`: one that was closed isn't open.
#[tactic(auto, using(crate::proofs::CallLemmas::close_closes))]
pub fn finish(tree: &mut SoloTree, of: Ref) -> Result<(), NotClosed>
    ensures closed { OnOk result (is_open tree.new.state of.alloc.0 ≡ false) }
    ensures after { tree.new.state
        ≡ state_after tree.old.state (Release of ∷ Close of.alloc ∷ []) }
{
    let _ = tree.release(of);
    tree.close(of.alloc)
}

#[cfg(test)]
mod tests {
    use super::*;
    use mem_num::{Closed, Full};
    use std::test::Fail;

    #[test]
    fn an_operator_is_opened_asked_and_closed(rt: HostRuntime) -> Result<(), Fail> {
        let (mut tree, operator) = open_query(rt.alloc(), 4_096, 1_024).expect(&rt, "a tree");
        assert_eq!(rt; operator, AllocId(1));
        let given = Ref {
            chunk: 1,
            alloc: operator,
            size: 2_048,
        };
        assert_eq!(rt; ask(&mut tree, operator, 1_500), Ok(given));
        let full = Full {
            node: operator,
            held: 2_048,
            amount: 4_096,
            limit: 4_096,
            local: true,
        };
        assert_eq!(rt;
            ask(&mut tree, operator, 4_000),
            Err(BufferRefused::Full(full))
        );
        assert_eq!(rt; finish(&mut tree, given), Ok(()));
        let closed = Closed {
            node: operator,
            uses: 0,
        };
        assert_eq!(rt;
            ask(&mut tree, operator, 1),
            Err(BufferRefused::Closed(closed))
        );
        Ok(())
    }

    #[test]
    fn a_second_operator_has_the_next_number(rt: HostRuntime) -> Result<(), Fail> {
        let (mut tree, _first) = open_query(rt.alloc(), 4_096, 1_024).expect(&rt, "a tree");
        assert_eq!(rt; open_operator(&mut tree, 3_072, 4_096), Ok(AllocId(2)));
        let full = Full {
            node: AllocId::ROOT,
            held: 4_096,
            amount: 1,
            limit: 4_096,
            local: true,
        };
        assert_eq!(rt;
            open_operator(&mut tree, 1, 4_096),
            Err(ChildRefused::Full(full))
        );
        Ok(())
    }
}
