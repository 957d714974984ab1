//! Orders of events, with all that is told written out, and orders walked and drawn, with the balance recomputed after each event.

use super::*;
use crate::stage::Stage;
use crate::step::Step;
use std::process::Abort;
use std::test::Fail;

mod walks;

fn enter(claim: u32, node: u32) -> Event {
    Event::Enter {
        claim,
        node: AllocId(node),
    }
}

fn begin(claim: u32, size: u64) -> Event {
    Event::Begin {
        claim,
        size,
        force: false,
    }
}

fn up(claim: u32) -> Event {
    Event::Up { claim }
}

fn undo(claim: u32) -> Event {
    Event::Undo { claim }
}

fn release(claim: u32) -> Event {
    Event::Release { claim }
}

fn down(claim: u32) -> Event {
    Event::Down { claim }
}

fn leave(claim: u32) -> Event {
    Event::Leave { claim }
}

fn open(claim: u32, reservation: u64, limit: u64) -> Event {
    Event::Open {
        claim,
        reservation,
        limit,
    }
}

fn close(node: u32) -> Event {
    Event::Close {
        node: AllocId(node),
    }
}

/// What a step at a node tells.
fn at(node: u32, old: u64, amount: u64, limit: u64, last: bool) -> Result<Told, NotNow> {
    Ok(Told::Step(Step {
        node: AllocId(node),
        old,
        amount,
        limit,
        last,
    }))
}

/// Makes events, each of which is to be answered so.
fn make(rt: &impl Abort, core: &mut Core, events: &[(Event, Result<Told, NotNow>)]) {
    for (event, answer) in events {
        assert_eq!(rt; core.step(*event), *answer, "at {event:?}");
    }
}

fn held(core: &Core, node: u32) -> Option<u64> {
    core.node(AllocId(node)).map(|node| node.held)
}

#[test]
fn a_root_may_come_to_rest_above_its_limit(rt: HostRuntime) -> Result<(), Fail> {
    let mut core = Core::open(rt.alloc(), 10, 5, 64)?;
    make(
        &rt,
        &mut core,
        &[
            (enter(0, 0), Ok(Told::Entered)),
            (begin(0, 10), Ok(Told::Began)),
            (up(0), at(0, 0, 10, 10, true)),
            (open(0, 10, MAX_LIMIT), Ok(Told::Opened(AllocId(1)))),
            (enter(1, 0), Ok(Told::Entered)),
            (open(1, 0, MAX_LIMIT), Ok(Told::Opened(AllocId(2)))),
            (enter(2, 1), Ok(Told::Entered)),
            (begin(2, 10), Ok(Told::Began)),
            (up(2), at(1, 0, 10, MAX_LIMIT, true)),
            (enter(3, 1), Ok(Told::Entered)),
            (begin(3, 10), Ok(Told::Began)),
            (up(3), at(1, 10, 10, MAX_LIMIT, false)),
            (release(2), Ok(Told::Turned)),
            (down(2), at(1, 20, 10, MAX_LIMIT, false)),
            (down(2), at(0, 10, 10, 10, true)),
            (leave(2), Ok(Told::Left)),
            (enter(4, 2), Ok(Told::Entered)),
            (begin(4, 10), Ok(Told::Began)),
            (up(4), at(2, 0, 10, MAX_LIMIT, false)),
            (up(4), at(0, 0, 10, 10, true)),
            (up(3), at(0, 10, 10, 10, true)),
            (undo(3), Ok(Told::Turned)),
            (down(3), at(1, 10, 10, MAX_LIMIT, true)),
            (leave(3), Ok(Told::Left)),
        ],
    );
    assert_eq!(rt; held(&core, 0), Some(20));
    assert_eq!(rt; held(&core, 1), Some(0));
    assert_eq!(rt; held(&core, 2), Some(10));
    make(
        &rt,
        &mut core,
        &[
            (up(3), Err(NotNow)),
            (begin(1, 1), Err(NotNow)),
            (enter(3, 1), Ok(Told::Entered)),
            (begin(3, 10), Ok(Told::Began)),
            (up(3), at(1, 0, 10, MAX_LIMIT, true)),
        ],
    );
    assert_eq!(rt; held(&core, 0), Some(20));
    assert_eq!(rt; held(&core, 1), Some(10));
    assert_eq!(rt; held(&core, 2), Some(10));
    let root = Node {
        reservation: 0,
        held: 20,
        peak: 0,
        limit: 10,
        uses: 2,
        closed: false,
    };
    assert_eq!(rt; core.node(AllocId(0)), Some(root));
    Ok(())
}

/// All nodes, those that weren't made too.
fn nodes(core: &Core) -> [Option<Node>; 4] {
    [
        core.node(AllocId(0)),
        core.node(AllocId(1)),
        core.node(AllocId(2)),
        core.node(AllocId(9)),
    ]
}

#[test]
fn events_out_of_phase_change_nothing(rt: HostRuntime) -> Result<(), Fail> {
    let mut core = Core::open(rt.alloc(), 10, 2, 64)?;
    make(
        &rt,
        &mut core,
        &[
            (enter(0, 0), Ok(Told::Entered)),
            (open(0, 0, MAX_LIMIT), Ok(Told::Opened(AllocId(1)))),
            (close(1), Ok(Told::Closed)),
        ],
    );
    let before = nodes(&core);
    for event in [
        enter(0, 0),
        begin(1, 1),
        up(0),
        undo(0),
        release(0),
        down(0),
        leave(1),
        open(0, 5, MAX_LIMIT),
        close(1),
        up(2),
        enter(1, 7),
        close(7),
    ] {
        assert_eq!(rt; core.step(event), Err(NotNow), "at {event:?}");
        assert!(rt; nodes(&core) == before, "after {event:?}");
    }
    Ok(())
}

#[test]
fn a_run_goes_past_events_out_of_phase(rt: HostRuntime) -> Result<(), Fail> {
    let mut core = Core::open(rt.alloc(), 10, 1, 64)?;
    core.run(&[
        enter(0, 0),
        up(0),
        begin(0, 65),
        begin(0, 4),
        close(1),
        up(0),
    ]);
    assert_eq!(rt; held(&core, 0), Some(4));
    Ok(())
}
