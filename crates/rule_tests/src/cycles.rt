//! Tests of CYCLE and ORDER, each with all its premises and without one of them.
use crate::given::state_without;
use cycle_rules::{apply_cycle, apply_order};
use edge_state::Rel;
use std::alloc::Global;
use std::process::Abort;
use std::test::Fail;

// What CYCLE leaves of the chord of four boxes, where it takes something away.
fn left_by_cycle(
    rt: &impl Abort,
    alloc: Global,
    gone: &[(u32, u32, u32, Rel)],
    skipped: usize,
) -> Result<Option<u8>, Fail> {
    let mut state = state_without(rt, alloc, 2, 4, gone, skipped)?;
    if !apply_cycle(&mut state, 0, 0, 1, 2, 3) {
        return Ok(None);
    }
    let left = state.mask(0, 1, 3).bits();
    assert!(rt; !apply_cycle(&mut state, 0, 0, 1, 2, 3));
    Ok(Some(left))
}

const SIDES: [(u32, u32, u32, Rel); 9] = [
    (0, 0, 1, Rel::Before),
    (0, 0, 1, Rel::After),
    (0, 1, 2, Rel::Before),
    (0, 1, 2, Rel::After),
    (0, 2, 3, Rel::Before),
    (0, 2, 3, Rel::After),
    (0, 3, 0, Rel::Before),
    (0, 3, 0, Rel::After),
    (0, 0, 2, Rel::Overlap),
];

#[test]
fn a_cycle_of_four_has_a_chord(rt: HostRuntime) -> Result<(), Fail> {
    for skipped in 0..SIDES.len() {
        assert!(rt; left_by_cycle(&rt, rt.alloc(), &SIDES, skipped)? == None);
    }
    assert!(rt; left_by_cycle(&rt, rt.alloc(), &SIDES, SIDES.len())? == Some(1));
    Ok(())
}

// What ORDER leaves of the second pair crosswise, where it takes something away.
fn left_by_order(
    rt: &impl Abort,
    alloc: Global,
    gone: &[(u32, u32, u32, Rel)],
    skipped: usize,
) -> Result<Option<u8>, Fail> {
    let mut state = state_without(rt, alloc, 2, 4, gone, skipped)?;
    if !apply_order(&mut state, 0, 0, 1, 2, 3) {
        return Ok(None);
    }
    let left = state.mask(0, 2, 1).bits();
    assert!(rt; !apply_order(&mut state, 0, 0, 1, 2, 3));
    Ok(Some(left))
}

const ORDERED: [(u32, u32, u32, Rel); 5] = [
    (0, 0, 1, Rel::Overlap),
    (0, 0, 1, Rel::After),
    (0, 2, 3, Rel::Overlap),
    (0, 2, 3, Rel::After),
    (0, 0, 3, Rel::Before),
];

#[test]
fn ordered_pairs_are_ordered_crosswise(rt: HostRuntime) -> Result<(), Fail> {
    for skipped in 0..ORDERED.len() {
        assert!(rt; left_by_order(&rt, rt.alloc(), &ORDERED, skipped)? == None);
    }
    assert!(rt; left_by_order(&rt, rt.alloc(), &ORDERED, ORDERED.len())? == Some(2));
    Ok(())
}
