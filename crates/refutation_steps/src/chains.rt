//! Heaviest chains, found along their weights.
ghost use Rattle.std.specs.Prelude.{◌≡◌, ◌<◌, ◌≤◌, ◌-◌, ◌↔◌, ◌≢◌, ℕ, false, [], length, slice_index, IsTrue, OnOk, MatchOption};
ghost use Rattle.packing_terms.specs.Packing.{box_count, side};
ghost use Rattle.packing_terms.specs.Exclusions.{excludes, IsEdgeAmong};
ghost use Rattle.packing_terms.specs.declared.Direction.TheVariants.{Forwards, Backwards};
ghost use Rattle.packing_terms.specs.Runs.{Leads};
ghost use Rattle.refutation_steps.specs.Chains.{AreWeighed, IsNextBox, IsNoNextBox, IsRunPushed, IsChainTo, IsChainFrom};

use box_instances::{Instance, NoMemory};
use edge_state::EdgeState;
use packing_terms::Direction;

// Whether a chain goes on from one box to the other.
fn leads_to(state: &EdgeState, dim: u32, direction: Direction, v: u32, w: u32) -> bool
    requires { IsEdgeAmong state.now.dims state.now.boxes dim v w }
    ensures { IsTrue result ↔ Leads (excludes state.now.trail) dim direction v w }
{
    match direction {
        Direction::Forwards => state.sure_before(dim, v, w),
        Direction::Backwards => state.sure_before(dim, w, v),
    }
}

// Whether `w` is a successor of a box, with at least this weight from `w` on.
fn is_next(
    state: &EdgeState,
    dim: u32,
    direction: Direction,
    weights: &[u64],
    least: u64,
    v: u32,
    w: u32,
) -> bool
    requires dim { dim < state.now.dims }
    requires v { v < state.now.boxes }
    requires w { w < state.now.boxes }
    requires count { length weights.now ≡ state.now.boxes }
    ensures yes { IsTrue result → (v ≢ w) × Leads (excludes state.now.trail) dim direction v w
        × (least ≤ slice_index weights.now w) }
    ensures no { result ≡ false → v ≢ w → Leads (excludes state.now.trail) dim direction v w
        → slice_index weights.now w < least }
{
    if w == v {
        return false;
    }
    if !leads_to(state, dim, direction, v, w) {
        return false;
    }
    weights[w as usize] >= least
}

// A successor of a box on a heaviest chain from it, if the chain has one.
fn next_box(
    instance: &Instance,
    state: &EdgeState,
    dim: u32,
    direction: Direction,
    weights: &[u64],
    v: u32,
) -> Option<u32>
    requires weighed { AreWeighed instance.now state.now dim direction weights.now }
    requires v { v < box_count instance.now }
    ensures { MatchOption result
        ((w : ℕ) → w < box_count instance.now → IsNoNextBox instance.now state.now dim direction
        weights.now (slice_index weights.now v - side instance.now v dim) v w)
        (λ w. IsNextBox instance.now state.now dim direction
        weights.now (slice_index weights.now v - side instance.now v dim) v w) }
{
    let least = weights[v as usize] - u64::from(instance.side(v, dim));
    for w in 0..instance.len() {
        if is_next(state, dim, direction, weights, least, v, w) {
            return Some(w);
        }
    }
    None
}

// Pushes the boxes of a heaviest chain of a box, from that box on.
fn push_run(
    instance: &Instance,
    state: &EdgeState,
    dim: u32,
    direction: Direction,
    weights: &[u64],
    v: u32,
    boxes: &mut Vec<u32>,
) -> Result<(), NoMemory>
    requires weighed { AreWeighed instance.now state.now dim direction weights.now }
    requires v { v < box_count instance.now }
    ensures { OnOk result (IsRunPushed instance.now state.now dim direction weights.now v
        boxes.old.items boxes.new.items) }
{
    let Ok(()) = boxes.push(v) else {
        return Err(NoMemory);
    };
    match next_box(instance, state, dim, direction, weights, v) {
        Some(w) => push_run(instance, state, dim, direction, weights, w, boxes),
        None => Ok(()),
    }
}

/// The boxes of a heaviest chain that ends in a box, in place of those of the list.
pub(crate) fn chain_to(
    instance: &Instance,
    state: &EdgeState,
    dim: u32,
    head: &[u64],
    v: u32,
    boxes: &mut Vec<u32>,
) -> Result<(), NoMemory>
    requires weighed { AreWeighed instance.now state.now dim Backwards head.now }
    requires v { v < box_count instance.now }
    ensures { OnOk result (IsChainTo instance.now state.now dim v (slice_index head.now v)
        boxes.new.items) }
{
    boxes.clear();
    push_run(instance, state, dim, Direction::Backwards, head, v, boxes)?;
    boxes.as_mut_slice().reverse();
    Ok(())
}

/// The boxes of a heaviest chain that starts in a box, in place of those of the list.
pub(crate) fn chain_from(
    instance: &Instance,
    state: &EdgeState,
    dim: u32,
    tail: &[u64],
    v: u32,
    boxes: &mut Vec<u32>,
) -> Result<(), NoMemory>
    requires weighed { AreWeighed instance.now state.now dim Forwards tail.now }
    requires v { v < box_count instance.now }
    ensures { OnOk result (IsChainFrom instance.now state.now dim v (slice_index tail.now v)
        boxes.new.items) }
{
    boxes.clear();
    push_run(instance, state, dim, Direction::Forwards, tail, v, boxes)
}
