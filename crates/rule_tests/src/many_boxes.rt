//! The closure of few boxes among many, whose numbers stand at both ends of the words of a row.
ghost use Rattle.std.specs.Prelude.{◌≡◌};
ghost use Rattle.packing_terms.specs.Packing.{dims, box_count};

use crate::closure_states::{Ways, close_both};
use crate::plain_closure::PlainState;
use crate::random::{AllSides, instance_of, sides_of};
use crate::room::{exclude_at, room_for};
use box_instances::Instance;
use edge_state::{EdgeState, Rel};
use rule_closure::{Closed, Closer};
use std::alloc::Global;
use std::test::Fail;

// Sides of 1 for all boxes, and for these numbers the sides that are given.
fn spread_sides(numbers: &[u32], sides: &[[u32; 4]]) -> AllSides {
    let mut all = [[1; 4]; 128];
    for (number, own) in numbers.iter().zip(sides) {
        if let Some(place) = all.get_mut(*number as usize) {
            *place = *own;
        }
    }
    all
}

// Closes eight boxes among many in both ways. The others have sides of 1 and no exclusion, so
// nothing follows for them nor from them.
fn close_among_many(
    alloc: Global,
    random: &mut u32,
    dims: u8,
    boxes: usize,
    numbers: &[u32],
) -> Result<Ways, Fail> {
    let few = sides_of(random, 8, 14);
    let all = spread_sides(numbers, &few);
    let container = [20; 4];
    let whole = container.get(..usize::from(dims)).unwrap_or(&[]);
    let instance = instance_of(alloc, whole, all.get(..boxes).unwrap_or(&[]))?;
    let mut plain = PlainState::new(dims, 8, 20, &few);
    close_both(alloc, random, 9, &instance, numbers, &mut plain)
}

// How many boxes there are, and the numbers of eight of them.
const AMONG: [(usize, [u32; 8]); 3] = [
    (64, [63, 0, 62, 1, 32, 31, 61, 2]),
    (65, [64, 0, 63, 1, 62, 32, 31, 61]),
    (128, [64, 63, 127, 0, 126, 65, 62, 1]),
];

#[test]
fn closure_of_a_subset_ignores_other_boxes(rt: HostRuntime) -> Result<(), Fail> {
    let mut random = 9;
    let mut stable = 0u32;
    for number in 0..50u32 {
        let dims = 2 + (number % 3) as u8;
        for (boxes, numbers) in &AMONG {
            match close_among_many(rt.alloc(), &mut random, dims, *boxes, numbers)? {
                Ways::BothStable => stable = stable.saturating_add(1),
                Ways::BothInConflict => {}
                Ways::Different => assert!(rt; false),
            }
        }
    }
    assert!(rt; stable >= 40 && stable <= 120);
    Ok(())
}

// Whether the last box is behind all others, and none behind it.
fn is_last(state: &EdgeState, last: u32) -> bool {
    if state.dims() == 0 || last == 0 || last >= state.boxes() {
        return false;
    }
    state.sure_before(0, 0, last)
        && state.row(0, last, Rel::Before).count() == 0
        && state.row(0, last, Rel::After).count() == last
}

// Puts all boxes one behind the other, and says what closing that comes to. `None` comes where it
// is stable without the last box behind all others.
fn close_chain(
    instance: &Instance,
    state: &mut EdgeState,
    closer: &mut Closer,
    last: u32,
) -> Option<Closed>
    requires dims { state.old.dims ≡ dims instance.now }
    requires boxes { state.old.boxes ≡ box_count instance.now }
    requires room { closer.old ≡ record { dims = state.old.dims; boxes = state.old.boxes } }
{
    for v in 0..last {
        exclude_at(state, 0, v, v + 1, Rel::Overlap);
        exclude_at(state, 0, v, v + 1, Rel::After);
    }
    let closed = closer.close(instance, state);
    if closed == Closed::Stable && !is_last(state, last) {
        return None;
    }
    Some(closed)
}

// What closing a chain of `boxes` boxes comes to in a container of this length.
fn close_row(alloc: Global, boxes: u8, container: u32) -> Result<Option<Closed>, Fail> {
    let sides = [[1; 4]; 128];
    let own = sides.get(..usize::from(boxes)).unwrap_or(&[]);
    let instance = instance_of(alloc, &[container, container], own)?;
    let mut room = room_for(alloc, &instance)?;
    let last = u32::from(boxes).saturating_sub(1);
    Ok(close_chain(&instance, &mut room.state, &mut room.closer, last))
}

#[test]
fn a_chain_of_all_boxes_just_fits(rt: HostRuntime) -> Result<(), Fail> {
    for boxes in [64u8, 65, 128] {
        let length = u32::from(boxes);
        let stands = close_row(rt.alloc(), boxes, length)? == Some(Closed::Stable);
        let is_short = close_row(rt.alloc(), boxes, length - 1)? == Some(Closed::Conflict);
        assert!(rt; stands && is_short);
    }
    Ok(())
}
