//! The closure of generated states is that of the definition.
ghost use Rattle.std.specs.Prelude.{◌≡◌};
ghost use Rattle.packing_terms.specs.Packing.{dims, box_count};

use crate::plain_closure::PlainState;
use crate::random::{instance_of, next, rel_of, sides_of};
use crate::room::{exclude_at, is_edge, room_for};
use box_instances::Instance;
use edge_state::EdgeState;
use rule_closure::{Closed, Closer};
use std::alloc::Global;
use std::test::Fail;

/// How closing a state in both ways came out.
#[derive(Clone, Copy)]
pub enum Ways {
    BothStable,
    BothInConflict,
    Different,
}

// The box of the state that stands for one of the plain state: that of the list, or the same.
fn box_of(numbers: &[u32], u: u32) -> u32 {
    numbers.get(u as usize).copied().unwrap_or(u)
}

// Excludes one relation in both states.
fn exclude_one(random: &mut u32, numbers: &[u32], plain: &mut PlainState, state: &mut EdgeState)
    ensures { state.new ≡ record state.old { trail = state.new.trail } }
{
    let dim = next(random, u32::from(plain.dims));
    let u = next(random, u32::from(plain.boxes));
    let v = next(random, u32::from(plain.boxes));
    let r = next(random, 3) as u8;
    if u != v {
        plain.exclude(dim as u8, u as u8, v as u8, r);
        exclude_at(
            state,
            dim,
            box_of(numbers, u),
            box_of(numbers, v),
            rel_of(r),
        );
    }
}

// Excludes some relations, fewer than `tries`, in both states.
fn exclude_some(
    random: &mut u32,
    tries: u32,
    numbers: &[u32],
    plain: &mut PlainState,
    state: &mut EdgeState,
)
    ensures { state.new ≡ record state.old { trail = state.new.trail } }
{
    for _ in 0..next(random, tries) {
        exclude_one(random, numbers, plain, state);
    }
}

// Whether both states have the same relations left at one pair.
fn is_same_at(numbers: &[u32], state: &EdgeState, plain: &PlainState, i: u8, u: u8, v: u8) -> bool {
    let dim = u32::from(i);
    let (first, second) = (box_of(numbers, u32::from(u)), box_of(numbers, u32::from(v)));
    if !is_edge(state, dim, first, second) {
        return false;
    }
    let left = state.mask(dim, first, second);
    for r in 0..3 {
        if left.has(rel_of(r)) == plain.is_out(i, u, v, r) {
            return false;
        }
    }
    true
}

// Whether both states exclude the same.
fn is_same(numbers: &[u32], state: &EdgeState, plain: &PlainState) -> bool {
    for i in 0..plain.dims {
        for u in 0..plain.boxes {
            for v in 0..plain.boxes {
                if u != v && !is_same_at(numbers, state, plain, i, u, v) {
                    return false;
                }
            }
        }
    }
    true
}

// Closes both states.
fn close_states(
    instance: &Instance,
    numbers: &[u32],
    plain: &mut PlainState,
    state: &mut EdgeState,
    closer: &mut Closer,
) -> Ways
    requires dims { state.old.dims ≡ dims instance.now }
    requires boxes { state.old.boxes ≡ box_count instance.now }
    requires room { closer.old ≡ record { dims = state.old.dims; boxes = state.old.boxes } }
{
    let is_conflict = plain.close();
    match closer.close(instance, state) {
        Closed::Conflict if is_conflict => Ways::BothInConflict,
        Closed::Stable if !is_conflict && is_same(numbers, state, plain) => Ways::BothStable,
        _ => Ways::Different,
    }
}

/// Excludes some relations of the boxes of a plain state, which have these numbers in the instance,
/// and closes what comes of it in both ways.
pub(crate) fn close_both(
    alloc: Global,
    random: &mut u32,
    tries: u32,
    instance: &Instance,
    numbers: &[u32],
    plain: &mut PlainState,
) -> Result<Ways, Fail> {
    let mut room = room_for(alloc, instance)?;
    exclude_some(random, tries, numbers, plain, &mut room.state);
    Ok(close_states(instance, numbers, plain, &mut room.state, &mut room.closer))
}

// Closes a generated state in both ways.
fn close_drawn(
    alloc: Global,
    random: &mut u32,
    dims: u8,
    boxes: u8,
    most: u32,
    tries: u32,
) -> Result<Ways, Fail> {
    let sides = sides_of(random, boxes, most);
    let own = sides.get(..usize::from(boxes)).unwrap_or(&[]);
    let container = [20; 4];
    let whole = container.get(..usize::from(dims)).unwrap_or(&[]);
    let instance = instance_of(alloc, whole, own)?;
    let mut plain = PlainState::new(dims, boxes, 20, own);
    close_both(alloc, random, tries, &instance, &[], &mut plain)
}

#[test]
fn closures_are_those_of_the_definition(rt: HostRuntime) -> Result<(), Fail> {
    let mut random = 12;
    let mut stable = 0u32;
    for number in 0..480u32 {
        let dims = 2 + (number % 3) as u8;
        let boxes = 2 + (number % 7) as u8;
        match close_drawn(rt.alloc(), &mut random, dims, boxes, 14, 9)? {
            Ways::BothStable => stable = stable.saturating_add(1),
            Ways::BothInConflict => {}
            Ways::Different => assert!(rt; false),
        }
    }
    assert!(rt; stable >= 100 && stable <= 380);
    Ok(())
}

#[test]
fn closures_of_many_boxes_are_those_of_the_definition(rt: HostRuntime) -> Result<(), Fail> {
    let mut random = 5;
    let mut stable = 0u32;
    for number in 0..60u32 {
        let dims = 2 + (number % 3) as u8;
        let boxes = 11 + (number % 10) as u8;
        let most = 8 + number % 6;
        match close_drawn(rt.alloc(), &mut random, dims, boxes, most, 60)? {
            Ways::BothStable => stable = stable.saturating_add(1),
            Ways::BothInConflict => {}
            Ways::Different => assert!(rt; false),
        }
    }
    assert!(rt; stable >= 10 && stable <= 50);
    Ok(())
}
