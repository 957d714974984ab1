//! Orders of the events of several claims, with the balance recomputed from scratch after each event.

use super::*;

/// What a claim does, one request from its entry to its leave.
#[derive(Clone, Copy)]
struct Plan {
    claim: u32,
    node: u32,
    size: u64,
    force: bool,
    /// Whether the request has begun.
    begun: bool,
}

impl Plan {
    fn new(claim: u32, node: u32, size: u64) -> Plan {
        Plan {
            claim,
            node,
            size,
            force: false,
            begun: false,
        }
    }

    /// The next event, by where the claim stands; none once it has left.
    fn next(&self, stage: Stage) -> Option<Event> {
        match stage {
            Stage::Free => {
                if self.begun {
                    None
                } else {
                    Some(enter(self.claim, self.node))
                }
            }
            Stage::In => {
                if self.begun {
                    Some(leave(self.claim))
                } else {
                    Some(Event::Begin {
                        claim: self.claim,
                        size: self.size,
                        force: self.force,
                    })
                }
            }
            Stage::Up { .. } => Some(up(self.claim)),
            Stage::Held { .. } => Some(release(self.claim)),
            Stage::Failed { .. } => Some(undo(self.claim)),
            Stage::Down { .. } => Some(down(self.claim)),
            Stage::Bounced => Some(leave(self.claim)),
        }
    }
}

fn stage_of(core: &Core, claim: u32) -> Stage {
    match core.slots.get(claim as usize) {
        Some(slot) => slot.stage,
        None => Stage::Free,
    }
}

/// What a claim is charged at a node, has still to add there, and has still to subtract there.
fn weights(slot: &Slot, node: u32) -> (u64, u64, u64) {
    let mine = slot.node == node && slot.under.is_none();
    let own = |size: u64| if mine { size } else { 0 };
    let pending_at = |next: u32, pending: u64| if next == node { pending } else { 0 };
    match slot.stage {
        Stage::Up {
            size,
            next,
            pending,
            ..
        } => (own(size), pending_at(next, pending), 0),
        Stage::Held { size, .. } => (own(size), 0, 0),
        Stage::Failed { size, .. } => (own(size), 0, 0),
        Stage::Down { next, pending, .. } => (0, 0, pending_at(next, pending)),
        _ => (0, 0, 0),
    }
}

/// What an open child counts for at a node.
fn child_count(row: &Row, node: u32) -> u64 {
    if row.shape.is_open && row.shape.parent == Some(node) {
        row.held.max(row.shape.reservation)
    } else {
        0
    }
}

/// Whether held and uses of a node are what the claims and the children say.
fn balances(core: &Core, node: u32, row: &Row) -> bool {
    let mut owed = 0u64;
    let mut there = row.held;
    let mut uses = 0u64;
    for slot in core.slots.as_slice() {
        let (own, addition, subtraction) = weights(slot, node);
        owed = owed.saturating_add(own).saturating_add(subtraction);
        there = there.saturating_add(addition);
        if slot.node == node && slot.stage != Stage::Free {
            uses = uses.saturating_add(1);
        }
    }
    for child in core.rows.iter().take(4) {
        owed = owed.saturating_add(child_count(child, node));
    }
    row.uses == uses
        && if row.shape.is_open {
            there == owed
        } else {
            row.held == 0
        }
}

/// Whether each of the first nodes balances.
fn all_balance(core: &Core, count: u32) -> bool {
    for node in 0..count {
        if let Some(row) = core.rows.get(node as usize) {
            if !balances(core, node, row) {
                return false;
            }
        }
    }
    true
}

/// Makes the next event of a plan, and checks the balance. Tells whether there was one.
fn advance(rt: &impl Abort, core: &mut Core, plan: &mut Plan, nodes: u32) -> bool {
    let Some(event) = plan.next(stage_of(core, plan.claim)) else {
        return false;
    };
    if matches!(event, Event::Begin { .. }) || matches!(event, Event::Leave { .. }) {
        plan.begun = true;
    }
    let told = core.step(event);
    assert!(rt; told.is_ok(), "at {event:?}");
    assert!(rt; all_balance(core, nodes), "after {event:?}");
    true
}

/// A root, a child that reserves 4 and a grandchild, on the claims 2 and 3.
fn three_nodes(rt: &impl Abort, core: &mut Core) {
    make(
        rt,
        core,
        &[
            (enter(2, 0), Ok(Told::Entered)),
            (begin(2, 4), Ok(Told::Began)),
            (up(2), at(0, 0, 4, 12, true)),
            (open(2, 4, MAX_LIMIT), Ok(Told::Opened(AllocId(1)))),
            (enter(3, 1), Ok(Told::Entered)),
            (open(3, 0, MAX_LIMIT), Ok(Told::Opened(AllocId(2)))),
        ],
    );
}

/// The claim 0 is at the grandchild, with nine events at most, and the claim 1 at the child, with seven. Both requests together go past
/// the root's limit. The bits of `order` say whose turn it is; a claim that has left passes its turns on.
#[test]
fn all_orders_of_two_requests_balance(rt: HostRuntime) -> Result<(), Fail> {
    for order in 0..65_536u32 {
        if order.count_ones() != 7 {
            continue;
        }
        let mut core = Core::open(rt.alloc(), 12, 4, 64)?;
        three_nodes(&rt, &mut core);
        let mut deep = Plan::new(0, 2, 6);
        let mut high = Plan::new(1, 1, 7);
        make(
            &rt,
            &mut core,
            &[
                (enter(0, 2), Ok(Told::Entered)),
                (enter(1, 1), Ok(Told::Entered)),
            ],
        );
        let mut turns = order;
        for _ in 0..16 {
            let (first, second) = if turns % 2 == 0 {
                (&mut deep, &mut high)
            } else {
                (&mut high, &mut deep)
            };
            if !advance(&rt, &mut core, first, 3) {
                advance(&rt, &mut core, second, 3);
            }
            turns /= 2;
        }
        assert_eq!(rt; held(&core, 0), Some(4));
        assert_eq!(rt; held(&core, 1), Some(0));
        assert_eq!(rt; held(&core, 2), Some(0));
    }
    Ok(())
}

/// The next of a row of numbers that look like chance, the same at each run.
fn next_seed(seed: u64) -> u64 {
    let a = seed ^ seed.wrapping_shl(13);
    let b = a ^ (a >> 7);
    b ^ b.wrapping_shl(17)
}

/// What the claim 3 does: it makes a child that reserves 4, closes it when it can, and releases the reservation.
fn maker_event(core: &Core, plan: &Plan, closed: bool) -> Option<Event> {
    let child = core.node(AllocId(1));
    match stage_of(core, plan.claim) {
        Stage::Held { .. } if child.is_none() => Some(open(plan.claim, 4, 9)),
        Stage::Held { .. } if !closed => Some(close(1)),
        stage => plan.next(stage),
    }
}

/// Makes one event of the claim 3, and checks the balance. Tells whether it closed the child.
fn advance_maker(rt: &impl Abort, core: &mut Core, plan: &mut Plan, closed: bool) -> bool {
    let Some(event) = maker_event(core, plan, closed) else {
        return closed;
    };
    if matches!(event, Event::Begin { .. }) {
        plan.begun = true;
    }
    let told = core.step(event);
    assert!(rt; told.is_ok(), "at {event:?}");
    assert!(rt; all_balance(core, 2), "after {event:?}");
    closed || told == Ok(Told::Closed)
}

/// Three claims enter the root, or the child once it was made, and may come too late. The claim 3 makes the child and closes it.
#[test]
fn drawn_orders_of_four_claims_balance(rt: HostRuntime) -> Result<(), Fail> {
    let mut late = 0u32;
    let mut seed = 88_172_645_463_325_252u64;
    for _ in 0..1000 {
        let mut core = Core::open(rt.alloc(), 14, 4, 64)?;
        let mut plans = [Plan::new(0, 0, 5), Plan::new(1, 0, 6), Plan::new(2, 0, 7)];
        let mut maker = Plan::new(3, 0, 4);
        maker.force = true;
        let mut closed = false;
        for _ in 0..200 {
            seed = next_seed(seed);
            let who = (seed % 4) as usize;
            match plans.get_mut(who) {
                Some(plan) => {
                    if core.node(AllocId(1)).is_some()
                        && stage_of(&core, plan.claim) == Stage::Free
                    {
                        plan.node = 1;
                    }
                    advance(&rt, &mut core, plan, 2);
                    if stage_of(&core, plan.claim) == Stage::Bounced {
                        late = late.saturating_add(1);
                    }
                }
                None => closed = advance_maker(&rt, &mut core, &mut maker, closed),
            }
        }
        assert!(rt; closed, "the child is closed");
        assert_eq!(rt; held(&core, 0), Some(0));
        assert_eq!(rt; held(&core, 1), Some(0));
    }
    assert!(rt; late > 0, "some claim came too late");
    Ok(())
}
