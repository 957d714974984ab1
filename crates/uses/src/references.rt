//! References: a buffer passes from one operator to the next, and its charge with it.
ghost use Rattle.std.specs.Prelude.{◌≡◌, [], ◌∷◌, false, IfOk, OnOk, OnErr, IfSome};
ghost use Rattle.mem_model.specs.Calls.{state_after, Close, Grant, Release, Transfer};
ghost use Rattle.mem_model.specs.TreeState.{is_open};

use crate::allocators::{ask, finish};
use alloc_tree::SoloTree;
use mem_num::{AllocId, Ref, SoloRefused};

/// Hands a buffer from one operator to the next. After a refusal the first still has it.
///
/// Shows `answer` and `after` of `SoloTree::transfer`, whose one condition `has_room_for` tests, and `after` of `release`.
#[tactic(auto, using(crate::proofs::CallLemmas::transfer_gives, crate::proofs::CallLemmas::transfer_refused))]
pub fn hand_over(tree: &mut SoloTree, of: Ref, to: AllocId) -> Result<Ref, SoloRefused>
    ensures target { IfOk result (λ passed. passed.alloc ≡ to) }
    ensures after { OnOk result (tree.new.state
        ≡ state_after tree.old.state (Transfer of to ∷ Release of ∷ [])) }
    ensures err { OnErr result (tree.new.state ≡ tree.old.state) }
{
    if !tree.has_room_for(of) {
        return Err(SoloRefused::NoMemory);
    }
    let (passed, _fits) = tree.transfer(of, to)?; // the charge has moved
    let _ = tree.release(of); // gives the first's reference back
    Ok(passed)
}

/// A scan asks for a buffer and hands it to a filter, which gives it back; both are closed. Answers the references that the two
/// had. Where a call is refused it answers none, and the calls before that one were made.
///
/// Shows how clauses add up: each call begins with the state that the one before it left, so the calls have the state of a list
/// of calls, of which the laws of `mem_model` speak.
pub fn scan_and_filter(
    tree: &mut SoloTree,
    scan: AllocId,
    filter: AllocId,
    size: u64,
) -> Option<(Ref, Ref)>
    ensures given { IfSome result (λ both. both.0.alloc ≡ scan) }
    ensures passed { IfSome result (λ both. both.1.alloc ≡ filter) }
    ensures after { IfSome result (λ both. tree.new.state ≡ state_after tree.old.state
        (Grant scan size ∷ Transfer both.0 filter ∷ Release both.0 ∷ Close scan
        ∷ Release both.1 ∷ Close filter ∷ [])) }
    ensures closed { IfSome result (λ _. is_open tree.new.state filter.0 ≡ false) }
{
    let Ok(given) = ask(tree, scan, size) else {
        return None;
    };
    let Ok(passed) = hand_over(tree, given, filter) else {
        return None;
    };
    let Ok(()) = tree.close(scan) else {
        return None;
    };
    match finish(tree, passed) {
        Ok(()) => Some((given, passed)),
        Err(_) => None,
    }
}

#[cfg(test)]
mod tests {
    use super::*;
    use crate::allocators::{open_operator, open_query};
    use mem_num::Closed;
    use std::test::Fail;

    fn reference(alloc: AllocId) -> Ref {
        Ref {
            chunk: 1,
            alloc,
            size: 1_024,
        }
    }

    #[test]
    fn a_buffer_passes_from_scan_to_filter(rt: HostRuntime) -> Result<(), Fail> {
        let (mut tree, scan) = open_query(rt.alloc(), 4_096, 1_024).expect(&rt, "a tree");
        let filter = AllocId(2);
        assert_eq!(rt; open_operator(&mut tree, 0, 2_048), Ok(filter));
        assert_eq!(rt;
            scan_and_filter(&mut tree, scan, filter, 1_000),
            Some((reference(AllocId(1)), reference(AllocId(2))))
        );
        Ok(())
    }

    #[test]
    fn a_refused_buffer_stays_where_it_is(rt: HostRuntime) -> Result<(), Fail> {
        let (mut tree, scan) = open_query(rt.alloc(), 4_096, 0).expect(&rt, "a tree");
        assert_eq!(rt; ask(&mut tree, scan, 1_000), Ok(reference(scan)));
        let closed = Closed {
            node: AllocId(9),
            uses: 0,
        };
        assert_eq!(rt;
            hand_over(&mut tree, reference(scan), AllocId(9)),
            Err(SoloRefused::Closed(closed))
        );
        assert_eq!(rt; finish(&mut tree, reference(scan)), Ok(()));
        Ok(())
    }
}
