//! Worked examples of a chunk's ledgers.

use super::*;
use std::process::Abort;
use std::test::Fail;

const SIZE: u64 = 1_024;

/// A chunk of 1,024 bytes at #1, with one more reference for each of these.
fn shared<R: Abort + AllocGlobal>(rt: &R, others: &[u32]) -> Result<Ledgers, Fail> {
    let mut ledgers = Ledgers::new(rt.alloc(), SIZE, AllocId(1))?;
    for number in others {
        ledgers.room()?;
        assert!(rt; !ledgers.entries().is_empty() && ledgers.total() < 100);
        ledgers.retain(AllocId(*number));
    }
    Ok(ledgers)
}

/// The ledgers as numbers and counts.
fn counts(rt: &impl AllocGlobal, ledgers: &Ledgers) -> Result<Vec<(u32, u64)>, Fail> {
    Ok(
        ledgers
            .entries()
            .iter()
            .map(|ledger| (ledger.at.0, ledger.count))
            .collect(rt.alloc())?,
    )
}

#[test]
fn a_new_chunk_has_one_reference_at_its_owner(rt: HostRuntime) -> Result<(), Fail> {
    let ledgers = shared(&rt, &[])?;
    assert_eq!(rt; ledgers.size(), 1_024);
    assert_eq!(rt; ledgers.owner(), AllocId(1));
    assert_eq!(rt; ledgers.total(), 1);
    assert_eq!(rt; ledgers.count(AllocId(1)), 1);
    assert_eq!(rt; ledgers.count(AllocId(2)), 0);
    Ok(())
}

#[test]
fn ledgers_stand_in_order_of_number(rt: HostRuntime) -> Result<(), Fail> {
    let ledgers = shared(&rt, &[7, 3, 0, 3, 5])?;
    let expected = [(0, 1), (1, 1), (3, 2), (5, 1), (7, 1)];
    assert_eq!(rt; counts(&rt, &ledgers)?.as_slice(), expected.as_slice());
    assert_eq!(rt; ledgers.total(), 6);
    Ok(())
}

#[test]
fn the_least_remaining_number_follows_the_owner(rt: HostRuntime) -> Result<(), Fail> {
    for others in [[2, 3], [3, 2]] {
        let mut ledgers = shared(&rt, others.as_slice())?;
        assert_eq!(rt; ledgers.release(AllocId(1)), Ok(After::Moved(AllocId(2))));
        assert_eq!(rt; ledgers.owner(), AllocId(2));
        assert_eq!(rt; ledgers.release(AllocId(3)), Ok(After::Gone));
        assert_eq!(rt; ledgers.owner(), AllocId(2));
        assert_eq!(rt; ledgers.release(AllocId(2)), Ok(After::Freed));
        assert!(rt; ledgers.entries().is_empty());
        assert_eq!(rt; ledgers.size(), 1_024);
    }
    Ok(())
}

#[test]
fn a_release_of_nothing_changes_nothing(rt: HostRuntime) -> Result<(), Fail> {
    let mut ledgers = shared(&rt, &[2, 3])?;
    assert_eq!(rt; ledgers.release(AllocId(1)), Ok(After::Moved(AllocId(2))));
    let refused = Released {
        chunk: 0,
        alloc: AllocId(1),
    };
    assert_eq!(rt; ledgers.release(AllocId(1)), Err(refused));
    assert_eq!(rt; ledgers.owner(), AllocId(2));
    assert_eq!(rt;
        counts(&rt, &ledgers)?.as_slice(),
        [(2, 1), (3, 1)].as_slice()
    );
    Ok(())
}

#[test]
fn two_references_are_released_one_by_one(rt: HostRuntime) -> Result<(), Fail> {
    let mut ledgers = shared(&rt, &[1, 2])?;
    assert_eq!(rt; ledgers.release(AllocId(1)), Ok(After::Same));
    assert_eq!(rt; ledgers.owner(), AllocId(1));
    assert_eq!(rt;
        counts(&rt, &ledgers)?.as_slice(),
        [(1, 1), (2, 1)].as_slice()
    );
    assert_eq!(rt; ledgers.release(AllocId(1)), Ok(After::Moved(AllocId(2))));
    Ok(())
}

#[test]
fn a_new_owner_keeps_every_count(rt: HostRuntime) -> Result<(), Fail> {
    let mut ledgers = shared(&rt, &[2, 2])?;
    assert_eq!(rt; ledgers.count(AllocId(2)), 2);
    ledgers.make_owner(AllocId(2));
    assert_eq!(rt; ledgers.owner(), AllocId(2));
    assert_eq!(rt;
        counts(&rt, &ledgers)?.as_slice(),
        [(1, 1), (2, 2)].as_slice()
    );
    assert_eq!(rt; ledgers.release(AllocId(1)), Ok(After::Gone));
    Ok(())
}
