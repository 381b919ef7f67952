//! Tests of the rules of pairs, triples and chains.
ghost use Rattle.std.specs.Prelude.{◌≡◌, [], ◌∷◌, IfOk};
ghost use Rattle.packing_terms.specs.declared.Rel.TheVariants.{Overlap, After};
ghost use Rattle.packing_terms.specs.Exclusions.{exclusion_at};

use crate::given::{instance_of, state_without};
use box_instances::{Instance, NoMemory};
use edge_state::{EdgeState, Rel};
use orientation_rules::{
    apply_apart, apply_chain, apply_compose, apply_pair, apply_triple, heads, tails,
};
use std::alloc::Global;
use std::process::Abort;
use std::test::Fail;

// Whether PAIR takes something away from two boxes in a dimension, and what is left of them.
fn left_by_pair(
    instance: &Instance,
    state: &mut EdgeState,
    dim: u32,
    u: u32,
    v: u32,
) -> Option<(bool, u8)> {
    if instance.dims() != 2 || instance.len() != 2 || state.dims() != 2 || state.boxes() != 2 {
        return None;
    }
    if dim >= 2 || u >= 2 || v >= 2 || u == v {
        return None;
    }
    let is_changed = apply_pair(instance, state, dim, u, v);
    Some((is_changed, state.mask(dim, u, v).bits()))
}

#[test]
fn boxes_too_long_together_overlap(rt: HostRuntime) -> Result<(), Fail> {
    let instance = instance_of(&rt, rt.alloc(), &[[6, 6], [5, 4]])?;
    let mut state = state_without(&rt, rt.alloc(), 2, 2, &[], 0)?;
    assert!(rt; left_by_pair(&instance, &mut state, 0, 0, 1) == Some((true, 1)));
    assert!(rt; left_by_pair(&instance, &mut state, 0, 1, 0) == Some((false, 1)));
    assert!(rt; left_by_pair(&instance, &mut state, 1, 0, 1) == Some((false, 7)));
    Ok(())
}

// What APART leaves of two boxes in the first of three dimensions, where it takes something away.
fn left_by_apart(
    rt: &impl Abort,
    alloc: Global,
    gone: &[(u32, u32, u32, Rel)],
    skipped: usize,
) -> Result<Option<u8>, Fail> {
    let mut state = state_without(rt, alloc, 3, 2, gone, skipped)?;
    if !apply_apart(&mut state, 0, 0, 1) {
        return Ok(None);
    }
    let left = state.mask(0, 0, 1).bits();
    assert!(rt; !apply_apart(&mut state, 0, 1, 0));
    Ok(Some(left))
}

const JOINED: [(u32, u32, u32, Rel); 4] = [
    (1, 0, 1, Rel::Before),
    (1, 0, 1, Rel::After),
    (2, 0, 1, Rel::Before),
    (2, 0, 1, Rel::After),
];

#[test]
fn boxes_joined_elsewhere_are_apart(rt: HostRuntime) -> Result<(), Fail> {
    for skipped in 0..JOINED.len() {
        assert!(rt; left_by_apart(&rt, rt.alloc(), &JOINED, skipped)? == None);
    }
    assert!(rt; left_by_apart(&rt, rt.alloc(), &JOINED, JOINED.len())? == Some(6));
    Ok(())
}

// What TRIPLE leaves of the first pair of three boxes in a dimension, where it takes something
// away.
fn left_by_triple(
    rt: &impl Abort,
    alloc: Global,
    instance: &Instance,
    dim: u32,
    gone: &[(u32, u32, u32, Rel)],
    skipped: usize,
) -> Result<Option<u8>, Fail> {
    if instance.dims() != 2 || instance.len() != 3 || dim >= 2 {
        return Ok(None);
    }
    let mut state = state_without(rt, alloc, 2, 3, gone, skipped)?;
    if !apply_triple(instance, &mut state, dim, 0, 1, 2) {
        return Ok(None);
    }
    Ok(Some(state.mask(dim, 0, 1).bits()))
}

// Whether TRIPLE takes nothing away while one of the premises is left out.
fn needs_each(
    rt: &impl Abort,
    alloc: Global,
    instance: &Instance,
    gone: &[(u32, u32, u32, Rel)],
) -> Result<bool, Fail> {
    for skipped in 0..gone.len() {
        if left_by_triple(rt, alloc, instance, 0, gone, skipped)?.is_some() {
            return Ok(false);
        }
    }
    Ok(true)
}

const APART: [(u32, u32, u32, Rel); 2] = [(0, 0, 2, Rel::Overlap), (0, 1, 2, Rel::Overlap)];

const SHORT: [(u32, u32, u32, Rel); 2] = [(1, 0, 2, Rel::Overlap), (1, 1, 2, Rel::Overlap)];

#[test]
fn two_of_three_boxes_too_long_together_overlap(rt: HostRuntime) -> Result<(), Fail> {
    let instance = instance_of(&rt, rt.alloc(), &[[4, 4], [4, 3], [3, 3]])?;
    assert!(rt; needs_each(&rt, rt.alloc(), &instance, &APART)?);
    assert!(rt; left_by_triple(&rt, rt.alloc(), &instance, 0, &APART, 2)? == Some(1));
    assert!(rt; left_by_triple(&rt, rt.alloc(), &instance, 1, &SHORT, 2)? == None);
    Ok(())
}

// What COMPOSE leaves of two of three boxes by way of the second, where it takes something away.
fn left_by_compose(
    rt: &impl Abort,
    alloc: Global,
    gone: &[(u32, u32, u32, Rel)],
    skipped: usize,
) -> Result<Option<u8>, Fail> {
    let mut state = state_without(rt, alloc, 2, 3, gone, skipped)?;
    if !apply_compose(&mut state, 0, 0, 1, 2) {
        return Ok(None);
    }
    let left = state.mask(0, 0, 2).bits();
    assert!(rt; !apply_compose(&mut state, 0, 2, 1, 0));
    Ok(Some(left))
}

#[test]
fn relations_to_a_third_box_compose(rt: HostRuntime) -> Result<(), Fail> {
    let ordered = [
        (0, 0, 1, Rel::Overlap),
        (0, 0, 1, Rel::After),
        (0, 1, 2, Rel::Overlap),
        (0, 1, 2, Rel::After),
    ];
    assert!(rt; left_by_compose(&rt, rt.alloc(), &ordered, 4)? == Some(2));
    assert!(rt; left_by_compose(&rt, rt.alloc(), &ordered, 0)? == Some(3));
    assert!(rt; left_by_compose(&rt, rt.alloc(), &ordered, 1)? == None);
    Ok(())
}

// Three boxes, of which the first is surely before the second.
fn first_before_second(alloc: Global) -> Result<EdgeState, NoMemory>
    ensures { IfOk result (λ state. state ≡ record {
      dims = 2;
      boxes = 3;
      room = 3;
      trail = exclusion_at 0 0 1 After ∷ exclusion_at 0 0 1 Overlap ∷ [];
    }) }
{
    let mut state = EdgeState::new(alloc, 2, 3)?;
    state.exclude(0, 0, 1, Rel::Overlap);
    state.exclude(0, 0, 1, Rel::After);
    Ok(state)
}

#[test]
fn heaviest_chains_exclude_before(rt: HostRuntime) -> Result<(), Fail> {
    let instance = instance_of(&rt, rt.alloc(), &[[4, 1], [4, 1], [3, 1]])?;
    let mut state = first_before_second(rt.alloc())?;
    let mut head = [0; 3];
    let mut tail = [0; 3];
    heads(&instance, &state, 0, &mut head);
    tails(&instance, &state, 0, &mut tail);
    assert!(rt; head == [4, 8, 3]);
    assert!(rt; tail == [8, 4, 3]);
    assert!(rt; !apply_chain(&instance, &mut state, 0, 0, 2, &head, &tail));
    assert!(rt; apply_chain(&instance, &mut state, 0, 1, 2, &head, &tail));
    assert!(rt; state.mask(0, 1, 2).bits() == 5);
    assert!(rt; !apply_chain(&instance, &mut state, 0, 1, 2, &head, &tail));
    Ok(())
}
