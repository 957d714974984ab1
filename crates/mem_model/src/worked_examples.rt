//! The definitions, run on worked examples: small trees whose numbers were found by hand.

use crate::{
    Charge, PeakSample, TreeNode, charged_at, fits, held_of, is_allocator_tree, is_past_limit,
    levels_of, peak_of, refusal_of, refusing_level,
};
use mem_num::{AllocId, Full, MAX_LIMIT};
use std::test::Fail;

/// No limit but that of the type.
const UNLIMITED: u64 = MAX_LIMIT;

const A: AllocId = AllocId(1);

const B: AllocId = AllocId(2);

fn root(limit: u64) -> TreeNode {
    TreeNode {
        number: AllocId::ROOT,
        parent: None,
        reservation: 0,
        limit,
        closed: false,
    }
}

fn child(number: AllocId, reservation: u64, limit: u64) -> TreeNode {
    TreeNode {
        number,
        parent: Some(AllocId::ROOT),
        reservation,
        limit,
        closed: false,
    }
}

fn charge(at: AllocId, amount: u64) -> Charge {
    Charge { at, amount }
}

#[test]
fn a_reservation_covers_the_first_bytes(rt: HostRuntime) {
    let nodes = [root(UNLIMITED), child(A, 4_096, UNLIMITED)];
    assert!(rt; is_allocator_tree(&nodes));
    for (charges, at_root, at_child) in [
        ([charge(A, 0), charge(A, 0)], 4_096, 0),
        ([charge(A, 2_048), charge(A, 0)], 4_096, 2_048),
        ([charge(A, 2_048), charge(A, 4_096)], 6_144, 6_144),
        ([charge(A, 2_048), charge(AllocId::ROOT, 16)], 4_112, 2_048),
    ] {
        assert!(rt; fits(&nodes, &charges));
        assert_eq!(rt; held_of(&nodes, &charges, AllocId::ROOT), at_root);
        assert_eq!(rt; held_of(&nodes, &charges, A), at_child);
    }
}

#[test]
fn a_closed_child_counts_for_nothing(rt: HostRuntime) {
    let closed = TreeNode {
        closed: true,
        ..child(A, 4_096, 8_192)
    };
    let nodes = [root(UNLIMITED), closed];
    let charges = [charge(AllocId::ROOT, 64)];
    assert!(rt; is_allocator_tree(&nodes));
    assert!(rt; fits(&nodes, &charges));
    assert_eq!(rt; held_of(&nodes, &charges, AllocId::ROOT), 64);
}

#[test]
fn a_tree_has_its_parents_before_its_children(rt: HostRuntime) {
    let orphan = child(A, 0, UNLIMITED);
    let under_closed = [
        root(UNLIMITED),
        TreeNode {
            closed: true,
            ..orphan
        },
        TreeNode {
            parent: Some(A),
            ..child(B, 0, UNLIMITED)
        },
    ];
    assert!(rt; is_allocator_tree(&[root(0)]));
    assert!(rt; is_allocator_tree(&[root(0), child(B, 0, 1)]));
    assert!(rt; !is_allocator_tree(&[orphan]));
    assert!(rt; !is_allocator_tree(&[orphan, root(UNLIMITED)]));
    assert!(rt; !is_allocator_tree(&[root(UNLIMITED), orphan, orphan]));
    assert!(rt; !is_allocator_tree(&under_closed));
}

#[test]
fn a_request_is_refused_at_the_lowest_level_past_its_limit(rt: HostRuntime) -> Result<(), Fail> {
    let alloc = rt.alloc();
    for (nodes, at, amount, level, full) in [
        // The root has no room, the child has.
        (
            [root(1_024), child(A, 0, UNLIMITED)],
            A,
            512,
            0,
            (1_024, 512, 1_024, false),
        ),
        // The child has none.
        (
            [root(UNLIMITED), child(A, 0, 1_024)],
            A,
            512,
            1,
            (1_024, 512, 1_024, true),
        ),
        // Neither has: the child is the lowest.
        (
            [root(1_024), child(A, 0, 1_024)],
            A,
            512,
            1,
            (1_024, 512, 1_024, true),
        ),
        // The root has none, and is asked itself.
        (
            [root(1_024), child(A, 0, UNLIMITED)],
            AllocId::ROOT,
            2,
            0,
            (1_024, 2, 1_024, true),
        ),
    ] {
        let charges = [charge(A, 1_024)];
        let request = charge(at, amount);
        assert!(rt; is_allocator_tree(&nodes));
        assert!(rt; fits(&nodes, &[request, charges[0]]));
        let refusing = refusing_level(alloc, &nodes, &charges, request)?;
        assert_eq!(rt; refusing, Some(nodes[level]));
        let (held, amount, limit, local) = full;
        let full = Full {
            node: nodes[level].number,
            held,
            amount,
            limit,
            local,
        };
        let told = refusal_of(alloc, &nodes, &charges, request, nodes[level])?;
        assert_eq!(rt; told, full);
    }
    Ok(())
}

#[test]
fn a_request_within_a_reservation_has_one_level(rt: HostRuntime) -> Result<(), Fail> {
    let alloc = rt.alloc();
    let nodes = [root(4_096), child(A, 4_096, UNLIMITED)];
    let charges = [charge(A, 2_048)];
    assert!(rt; is_allocator_tree(&nodes));
    for (amount, levels) in [(2_048, &nodes[1..]), (2_049, &nodes[..])] {
        let request = charge(A, amount);
        assert!(rt; fits(&nodes, &[request, charges[0]]));
        let found = levels_of(alloc, &nodes, &charges, request)?;
        assert_eq!(rt; found.as_slice(), levels);
        let refused = refusing_level(alloc, &nodes, &charges, request)?.is_some();
        assert_eq!(rt; refused, amount == 2_049);
    }
    Ok(())
}

#[test]
fn a_peak_is_the_greatest_of_the_samples_that_count(rt: HostRuntime) -> Result<(), Fail> {
    let alloc = rt.alloc();
    // A chunk of 1,024 bytes passes from one child to the other: for a moment both are charged.
    let nodes = [
        root(UNLIMITED),
        child(A, 0, UNLIMITED),
        child(B, 0, UNLIMITED),
    ];
    let moments: [(&[Charge], &[AllocId]); 3] = [
        (&[charge(A, 1_024)], &[A, AllocId::ROOT]),
        (&[charge(B, 1_024), charge(A, 1_024)], &[B, AllocId::ROOT]),
        (&[charge(B, 1_024), charge(B, 512)], &[B]),
    ];
    let mut samples = Vec::new(alloc);
    for (charges, counts) in moments {
        samples.push(PeakSample::new(
            Vec::from_slice(alloc, &nodes)?,
            Vec::from_slice(alloc, charges)?,
            Vec::from_slice(alloc, counts)?,
        ))?;
    }
    assert!(rt; samples.iter().all(|sample| sample.is_sound()));
    assert_eq!(rt; peak_of(&samples, AllocId::ROOT), 2_048);
    assert_eq!(rt; peak_of(&samples, A), 1_024);
    assert_eq!(rt; peak_of(&samples, B), 1_536);
    assert_eq!(rt; peak_of(&samples, AllocId(3)), 0);
    Ok(())
}
