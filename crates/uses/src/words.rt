//! Accounts as atomic words: a caller charges by its own token, and moves a chunk's charge from one operator to the next.
ghost use Rattle.std.specs.Prelude.{◌≡◌, ◌≢◌, ◌+◌, ◌<◌, ◌≤◌, [], ◌∷◌, length, IfErr, IfOk};
ghost use Rattle.mem_num.specs.declared.bounds.TheConstants.{LARGEST};
ghost use Rattle.acct_words.specs.Openings.{held_uncharged};
ghost use Rattle.acct_words.specs.Returns.{HasGivenAllBack};

use acct_words::{ChunkSeat, Pass, Words};
use mem_num::{AllocId, Full};

/// Moves a chunk's charge from one allocator to another, as a buffer passes between operators, and answers whether all levels stayed
/// within their limits. In between it is charged at both.
///
/// Shows `charged` of `Words::force` and of `discharge`: where the chunk is charged is known without a look at any word.
pub fn move_charge(words: &Words, seat: &mut ChunkSeat, from: AllocId, to: AllocId) -> bool
    requires table { seat.old.table ≡ words.now }
    requires allocators { (from.0 < length words.now.start.tree) × (to.0 < length words.now.start.tree) }
    requires charged { (seat.old.charged ≡ from.0 ∷ []) × (from.0 ≢ to.0) }
    ensures table { seat.new.table ≡ words.now }
    ensures moved { seat.new.charged ≡ to.0 ∷ [] }
{
    let within = words.force(seat, to);
    words.discharge(seat, from);
    within
}

/// Charges for a while, and gives the charge back. What a refusal tells is true: its level would have gone past its limit.
///
/// Shows `spent` and `past` of `Words::charge`, that a token comes back with its budget by `retire`, and that whoever alone charges, and
/// has given all back, has done so after it too.
pub fn charge_for_a_while(
    words: &Words,
    pass: &mut Pass,
    at: AllocId,
    size: u64,
) -> Result<(), Full>
    requires table { pass.old.table ≡ words.now }
    requires at { at.0 < length words.now.start.tree }
    requires size { (1 ≤ size) × (size ≤ LARGEST) }
    requires budget { (1 ≤ pass.old.budget.turns) × (size ≤ pass.old.budget.bytes) }
    ensures table { pass.new.table ≡ words.now }
    ensures spent { (pass.new.budget.bytes + size ≡ pass.old.budget.bytes)
        × (pass.new.budget.turns + 1 ≡ pass.old.budget.turns) }
    ensures past { IfErr result (λ full. full.limit < full.held + full.amount) }
    ensures given_back { HasGivenAllBack words.now.start pass.old → HasGivenAllBack words.now.start pass.new }
{
    let mut seat = words.charge(pass, at, size)?;
    words.discharge(&mut seat, at);
    words.retire(pass, seat);
    Ok(())
}

/// Charges for a while, and tells what the allocator holds after it: who alone charges finds the reservations alone.
///
/// Shows `uncharged` of `Words::held`: the number is known before the word is read.
pub fn held_after_a_while(words: &Words, pass: &mut Pass, at: AllocId, size: u64) -> u64
    requires table { pass.old.table ≡ words.now }
    requires at { at.0 < length words.now.start.tree }
    requires size { (1 ≤ size) × (size ≤ LARGEST) }
    requires budget { (1 ≤ pass.old.budget.turns) × (size ≤ pass.old.budget.bytes) }
    requires alone { HasGivenAllBack words.now.start pass.old }
    ensures table { pass.new.table ≡ words.now }
    ensures value { result ≡ held_uncharged words.now.start.tree at.0 }
{
    let _ = charge_for_a_while(words, pass, at, size);
    words.held(pass, at)
}

#[cfg(test)]
mod tests {
    use super::*;
    use acct_words::{Budget, Fixed, is_fixed_tree};
    use alloc_tree::SoloTree;
    use mem_num::{BufferRefused, MAX_LIMIT, MAX_RESERVATION, NoMemory, Ref};
    use std::alloc::AllocGlobal;
    use std::process::Abort;
    use std::test::Fail;

    const OPERATOR: AllocId = AllocId(1);

    /// A root and an operator below it, over atomic words.
    fn open<R: Abort + AllocGlobal>(
        rt: &R,
        root_limit: u64,
        reservation: u64,
        limit: u64,
    ) -> (Words, Pass)
        ensures table { result.1.table ≡ result.0 }
        ensures two { length result.0.start.tree ≡ 2 }
    {
        let root = Fixed {
            parent: AllocId::ROOT,
            reservation: 0,
            limit: root_limit,
        };
        let operator = Fixed {
            parent: AllocId::ROOT,
            reservation,
            limit,
        };
        let budget = Budget {
            bytes: 1 << 20,
            turns: 10,
        };
        let nodes = [root, operator];
        assert!(rt; is_fixed_tree(&nodes));
        match Words::open_fixed(rt.alloc(), &nodes, budget) {
            Ok(opened) => opened,
            Err(NoMemory) => panic!(rt; "no memory"),
        }
    }

    /// The same as a tree of one thread.
    fn plant<R: Abort + AllocGlobal>(
        rt: &R,
        root_limit: u64,
        reservation: u64,
        limit: u64,
    ) -> SoloTree {
        assert!(rt;
            root_limit <= MAX_LIMIT && limit <= MAX_LIMIT && reservation <= MAX_RESERVATION
        );
        let Ok(mut tree) = SoloTree::open(rt.alloc(), root_limit) else {
            panic!(rt; "no memory");
        };
        assert!(rt; tree.next() < u32::MAX);
        assert!(rt; tree.child(AllocId::ROOT, reservation, limit).is_ok());
        tree
    }

    /// Whether root and operator hold on the words what they hold in the tree of one thread.
    fn hold_the_same(words: &Words, pass: &mut Pass, tree: &SoloTree) -> bool
        requires table { pass.old.table ≡ words.now }
        requires two { length words.now.start.tree ≡ 2 }
        ensures table { pass.new.table ≡ words.now }
    {
        let root = tree.node(AllocId::ROOT).map(|placed| placed.node.held);
        let operator = tree.node(OPERATOR).map(|placed| placed.node.held);
        Some(words.held(pass, AllocId::ROOT)) == root
            && Some(words.held(pass, OPERATOR)) == operator
    }

    /// Asks for so many bytes at the operator on both, which have to give the same chunk or the same refusal, and hold the same after it.
    fn ask_both<R: Abort + AllocGlobal>(
        rt: &R,
        words: &Words,
        pass: &mut Pass,
        tree: &mut SoloTree,
        size: u64,
    ) -> Result<(ChunkSeat, Ref), Full>
        requires table { pass.old.table ≡ words.now }
        requires two { length words.now.start.tree ≡ 2 }
        ensures table { pass.new.table ≡ words.now }
        ensures chunk { IfOk result (λ given. (given.0.table ≡ words.now) × (given.0.charged ≡ 1 ∷ [])) }
    {
        let budget = pass.budget();
        assert!(rt; size >= 1 && size <= 1_048_576 && budget.turns >= 1 && budget.bytes >= size);
        let charged = words.charge(pass, OPERATOR, size);
        assert!(rt; tree.drawn() < u32::MAX);
        let granted = tree.grant(OPERATOR, size);
        assert!(rt; hold_the_same(words, pass, tree));
        match charged {
            Ok(seat) => {
                let Ok(given) = granted else {
                    panic!(rt; "refused by the tree alone");
                };
                assert_eq!(rt; seat.number(), given.chunk);
                Ok((seat, given))
            }
            Err(full) => {
                assert_eq!(rt; granted, Err(BufferRefused::Full(full)));
                Err(full)
            }
        }
    }

    /// Gives a charge of the operator back on both, which have to hold the same after it.
    fn release_both(
        rt: &impl Abort,
        words: &Words,
        pass: &mut Pass,
        tree: &mut SoloTree,
        given: (ChunkSeat, Ref),
    )
        requires tables { (pass.old.table ≡ words.now) × (given.0.table ≡ words.now) }
        requires charged { given.0.charged ≡ 1 ∷ [] }
        requires two { length words.now.start.tree ≡ 2 }
        ensures table { pass.new.table ≡ words.now }
    {
        let (mut seat, of) = given;
        words.discharge(&mut seat, OPERATOR);
        words.retire(pass, seat);
        assert_eq!(rt; tree.release(of), Ok(true));
        assert!(rt; hold_the_same(words, pass, tree));
    }

    #[test]
    fn a_reservation_covers_the_first_bytes_on_both(rt: HostRuntime) -> Result<(), Fail> {
        let (words, mut pass) = open(&rt, MAX_LIMIT, 4_096, MAX_LIMIT);
        let mut tree = plant(&rt, MAX_LIMIT, 4_096, MAX_LIMIT);
        assert_eq!(rt; words.held(&mut pass, AllocId::ROOT), 4_096);
        let Ok(first) = ask_both(&rt, &words, &mut pass, &mut tree, 2_048) else {
            panic!(rt; "refused");
        };
        assert_eq!(rt; words.held(&mut pass, AllocId::ROOT), 4_096);
        let Ok(second) = ask_both(&rt, &words, &mut pass, &mut tree, 4_096) else {
            panic!(rt; "refused");
        };
        assert_eq!(rt; words.held(&mut pass, AllocId::ROOT), 6_144);
        release_both(&rt, &words, &mut pass, &mut tree, first);
        release_both(&rt, &words, &mut pass, &mut tree, second);
        assert_eq!(rt; words.held(&mut pass, AllocId::ROOT), 4_096);
        Ok(())
    }

    /// What a second request at the operator answers on both, after a first one of 1,024 bytes.
    fn second_answer<R: Abort + AllocGlobal>(
        rt: &R,
        root_limit: u64,
        limit: u64,
    ) -> Result<(), Full> {
        let (words, mut pass) = open(rt, root_limit, 0, limit);
        let mut tree = plant(rt, root_limit, 0, limit);
        let first = ask_both(rt, &words, &mut pass, &mut tree, 1_024);
        assert!(rt; first.is_ok());
        match ask_both(rt, &words, &mut pass, &mut tree, 512) {
            Ok(_) => Ok(()),
            Err(full) => Err(full),
        }
    }

    #[test]
    fn a_refusal_names_the_same_level_on_both(rt: HostRuntime) -> Result<(), Fail> {
        let at_the_parent = Full {
            node: AllocId::ROOT,
            held: 1_024,
            amount: 512,
            limit: 1_024,
            local: false,
        };
        assert_eq!(rt; second_answer(&rt, 1_024, MAX_LIMIT), Err(at_the_parent));
        let at_the_operator = Full {
            node: OPERATOR,
            held: 1_024,
            amount: 512,
            limit: 1_024,
            local: true,
        };
        assert_eq!(rt; second_answer(&rt, MAX_LIMIT, 1_024), Err(at_the_operator));
        assert_eq!(rt; second_answer(&rt, MAX_LIMIT, MAX_LIMIT), Ok(()));
        Ok(())
    }

    #[test]
    fn a_charge_moves_from_the_root_to_an_operator(rt: HostRuntime) -> Result<(), Fail> {
        let (words, mut pass) = open(&rt, 1_024, 0, 512);
        let mut tree = plant(&rt, 1_024, 0, 512);
        let budget = pass.budget();
        assert!(rt; budget.turns >= 2 && budget.bytes >= 2_048);
        let Ok(mut seat) = words.charge(&mut pass, AllocId::ROOT, 512) else {
            panic!(rt; "refused");
        };
        assert!(rt; tree.drawn() < u32::MAX);
        let Ok(of) = tree.grant(AllocId::ROOT, 512) else {
            panic!(rt; "refused");
        };
        assert!(rt; tree.has_room_for(of));
        assert!(rt; move_charge(&words, &mut seat, AllocId::ROOT, OPERATOR));
        assert_eq!(rt; tree.transfer(of, OPERATOR).map(|moved| moved.1), Ok(true));
        assert!(rt; hold_the_same(&words, &mut pass, &tree));
        assert!(rt; ask_both(&rt, &words, &mut pass, &mut tree, 512).is_err());
        words.discharge(&mut seat, OPERATOR);
        words.retire(&mut pass, seat);
        Ok(())
    }
}
