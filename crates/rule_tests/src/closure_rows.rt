//! Worked rows of the closure: two boxes in a container of sides 10, and two large boxes among many
//! flat ones.
ghost use Rattle.std.specs.Prelude.{◌≡◌, ◌≤◌, IsTrue};
ghost use Rattle.packing_terms.specs.Packing.{dims, box_count};
ghost use Rattle.packing_terms.specs.Scales.{SidesFit};

use crate::random::instance_of;
use crate::room::{exclude_at, is_edge, room_for};
use box_instances::Instance;
use coordinates::place_from;
use edge_state::{EdgeState, Rel};
use rule_closure::{Closed, Closer};
use std::alloc::Global;
use std::test::Fail;

// The bits of what is left to two boxes.
fn bits_at(state: &EdgeState, dim: u32, u: u32, v: u32) -> Option<u8> {
    if is_edge(state, dim, u, v) {
        return Some(state.mask(dim, u, v).bits());
    }
    None
}

// Whether these bits are left: each with its dimension and its two boxes.
fn has_bits(state: &EdgeState, rows: &[(u32, u32, u32, u8)]) -> bool {
    for (dim, u, v, bits) in rows {
        if bits_at(state, *dim, *u, *v) != Some(*bits) {
            return false;
        }
    }
    true
}

// Whether closing an empty state comes to this, excludes something, and leaves these bits.
fn is_closed_as(
    alloc: Global,
    instance: &Instance,
    closed: Closed,
    rows: &[(u32, u32, u32, u8)],
) -> Result<bool, Fail> {
    let mut room = room_for(alloc, instance)?;
    let mark = room.state.mark();
    let came = room.closer.close(instance, &mut room.state);
    Ok(came == closed && room.state.mark() != mark && has_bits(&room.state, rows))
}

// The sides of two boxes, what closing comes to, and the bits that are left.
const TWO: [([[u32; 4]; 2], Closed, &[(u32, u32, u32, u8)]); 2] = [
    ([[6, 6, 1, 1], [6, 6, 1, 1]], Closed::Conflict, &[]),
    (
        [[6, 4, 1, 1], [6, 6, 1, 1]],
        Closed::Stable,
        &[(0, 0, 1, 1), (1, 0, 1, 6)],
    ),
];

#[test]
fn two_boxes_are_closed_as_the_rows_say(rt: HostRuntime) -> Result<(), Fail> {
    for (sides, closed, rows) in &TWO {
        let instance = instance_of(rt.alloc(), &[10, 10], sides)?;
        assert!(rt; is_closed_as(rt.alloc(), &instance, *closed, rows)?);
    }
    Ok(())
}

// Whether an instance has two dimensions, and two boxes that both fit by themselves.
fn is_two(instance: &Instance) -> bool
    ensures { IsTrue result → (dims instance.now ≡ 2) × (box_count instance.now ≡ 2)
        × SidesFit instance.now }
{
    if instance.dims() != 2 || instance.len() != 2 {
        return false;
    }
    instance.sides_fit()
}

// The places of a state of two boxes, if closing it makes the first surely before the second in
// height.
fn places_of(closer: &mut Closer, instance: &Instance, state: &mut EdgeState) -> [u32; 4]
    requires closer { closer.old ≡ record { dims = 2; boxes = 2 } }
    requires dims { state.old.dims ≡ 2 }
    requires boxes { state.old.boxes ≡ 2 }
    requires instance { (dims instance.now ≡ 2) × (box_count instance.now ≡ 2)
        × SidesFit instance.now }
{
    let mut places = [9; 4];
    if let Closed::Stable = closer.close(instance, state) {
        if state.sure_before(1, 0, 1) {
            place_from(state, instance, &mut places);
        }
    }
    places
}

// The places where the second box isn't before the first in height.
fn places_above(alloc: Global, instance: &Instance) -> Result<Option<[u32; 4]>, Fail> {
    if !is_two(instance) {
        return Ok(None);
    }
    let mut room = room_for(alloc, instance)?;
    exclude_at(&mut room.state, 1, 0, 1, Rel::After);
    Ok(Some(places_of(&mut room.closer, instance, &mut room.state)))
}

#[test]
fn a_settled_state_gives_places(rt: HostRuntime) -> Result<(), Fail> {
    let sides = [[6, 4, 1, 1], [6, 6, 1, 1]];
    let instance = instance_of(rt.alloc(), &[10, 10], &sides)?;
    let places = places_above(rt.alloc(), &instance)?;
    assert!(rt; places == Some([0, 0, 0, 4]));
    Ok(())
}

// How many boxes may have the relation to a box.
fn count_at(state: &EdgeState, dim: u32, u: u32, rel: Rel) -> Option<u32> {
    if dim >= state.dims() || u >= state.boxes() {
        return None;
    }
    Some(state.row(dim, u, rel).count())
}

// The first box that may have the relation to a box.
fn first_at(state: &EdgeState, dim: u32, u: u32, rel: Rel) -> Option<u32> {
    if dim >= state.dims() || u >= state.boxes() {
        return None;
    }
    state.row(dim, u, rel).first()
}

// Closes an instance of many flat boxes, of which the last two don't fit beside each other, and
// looks at these.
fn closes_the_last(alloc: Global, instance: &Instance) -> Result<bool, Fail> {
    let mut room = room_for(alloc, instance)?;
    let closed = room.closer.close(instance, &mut room.state);
    let state = &room.state;
    let left = has_bits(state, &[(0, 126, 127, 1), (1, 127, 126, 6), (0, 0, 127, 7)]);
    let behind = count_at(state, 0, 126, Rel::Before) == Some(126);
    let beside = first_at(state, 1, 127, Rel::Overlap) == Some(0);
    Ok(closed == Closed::Stable && left && behind && beside)
}

#[test]
fn the_last_two_of_many_boxes_are_closed(rt: HostRuntime) -> Result<(), Fail> {
    let mut sides = [[1; 4]; 128];
    sides[126] = [6, 1, 1, 1];
    sides[127] = [6, 1, 1, 1];
    let instance = instance_of(rt.alloc(), &[10, 200], &sides)?;
    assert!(rt; closes_the_last(rt.alloc(), &instance)?);
    Ok(())
}
