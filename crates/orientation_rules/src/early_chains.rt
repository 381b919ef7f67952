//! Traces a chain through a box by the weights of chains. `find_long_chain` then verifies it box by
//! box.
ghost use Rattle.std.specs.Prelude.{◌≡◌, ◌<◌, IfSome, length};
ghost use Rattle.packing_terms.specs.Packing.{box_count};
ghost use Rattle.packing_terms.specs.Exclusions.{excludes};
ghost use Rattle.edge_state.specs.States.{IsSized};
ghost use Rattle.orientation_rules.specs.ChainLines.{IsTooLong};
ghost use Rattle.edge_state.specs.BitRows.{HoldsBoxes};

use crate::chain_lines::find_long_chain;
use box_instances::Instance;
use edge_state::{BitRow, ChainWeights, EdgeState, Rel};
use packing_terms::Direction;

// The successors of `x` in a direction.
#[inline]
fn next_boxes<const K: usize>(
    state: &EdgeState,
    dim: u32,
    direction: Direction,
    x: u32,
) -> BitRow<K>
    requires words { HoldsBoxes K state.now.boxes }
    requires dim { dim < state.now.dims }
    requires x { x < state.now.boxes }
{
    let near = state.row_in::<K>(dim, x, Rel::Overlap);
    let before = state.row_in::<K>(dim, x, Rel::Before);
    let after = state.row_in::<K>(dim, x, Rel::After);
    match direction {
        Direction::Forwards => before.minus(near).minus(after),
        Direction::Backwards => after.minus(near).minus(before),
    }
}

// The successor that accounts for the weight of `x`, in a direction.
fn next_of<const K: usize>(
    instance: &Instance,
    state: &EdgeState,
    weights: &ChainWeights,
    dim: u32,
    direction: Direction,
    x: u32,
) -> Option<u32>
    requires words { HoldsBoxes K (box_count instance.now) }
    requires sizes { IsSized instance.now state.now dim }
    requires x { x < state.now.boxes }
    ensures { IfSome result (λ y. y < state.now.boxes) }
{
    // For the proof alone: states the limits of the state.
    let _sizes = state.dims();
    let there = weights.weights(direction, dim);
    let weight = there[x as usize];
    let own = u64::from(instance.side(x, dim));
    let mut row: BitRow<K> = next_boxes(state, dim, direction, x);
    while let Some(y) = row.first() {
        row = row.without(y);
        if y < state.boxes() && there[y as usize] + own == weight {
            return Some(y);
        }
    }
    None
}

// Writes the boxes of a chain from `x` on, outwards from the middle of the list: boxes before `x`
// at higher indices, boxes after it at lower ones. Returns the index of the last box.
fn trace_chain<const K: usize>(
    instance: &Instance,
    state: &EdgeState,
    weights: &ChainWeights,
    dim: u32,
    direction: Direction,
    x: u32,
    into: &mut [u32],
) -> usize
    requires words { HoldsBoxes K (box_count instance.now) }
    requires sizes { IsSized instance.now state.now dim }
    requires x { x < state.now.boxes }
    ensures { length into.new ≡ length into.old }
{
    let mut place = into.len() / 2;
    let mut v = x;
    for _ in 0..state.boxes() {
        if place < into.len() {
            into[place] = v;
        }
        let Some(next) = next_of::<K>(instance, state, weights, dim, direction, v) else {
            return place;
        };
        v = next;
        place = match direction {
            Direction::Backwards => place.wrapping_add(1),
            Direction::Forwards => place.wrapping_sub(1),
        };
    }
    place
}

/// Looks for an over-long chain through `x`, at which the weights claim one, and returns its first
/// two boxes. `None` if the chain that the weights lead along isn't over-long.
#[inline(never)]
pub fn find_chain<const K: usize>(
    instance: &Instance,
    state: &EdgeState,
    weights: &ChainWeights,
    dim: u32,
    x: u32,
) -> Option<(u32, u32)>
    requires words { HoldsBoxes K (box_count instance.now) }
    requires sizes { IsSized instance.now state.now dim }
    requires x { x < box_count instance.now }
    ensures { IfSome result
        (λ p. IsTooLong instance.now (excludes state.now.trail) dim p.0 p.1) }
{
    let mut line = [0u32; 256];
    let start = trace_chain::<K>(
        instance,
        state,
        weights,
        dim,
        Direction::Forwards,
        x,
        &mut line,
    );
    let end = trace_chain::<K>(
        instance,
        state,
        weights,
        dim,
        Direction::Backwards,
        x,
        &mut line,
    );
    if start > end || end >= line.len() {
        return None;
    }
    find_long_chain::<K>(instance, state, dim, &line[start..end + 1])
}
