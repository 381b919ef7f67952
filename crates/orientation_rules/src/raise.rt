//! Weights of chains, raised by what the chains go on to.
ghost use Rattle.std.specs.Prelude.{◌≡◌, ◌<◌, ◌≤◌, ℕ, true, false, length, slice_index};
ghost use Rattle.packing_terms.specs.Packing.{dims, box_count, side};
ghost use Rattle.packing_terms.specs.Exclusions.{excludes, IsEdgeAmong};
ghost use Rattle.edge_state.specs.BitRows.{row_has, HoldsBoxes};
ghost use Rattle.packing_terms.specs.Runs.{Leads};
ghost use Rattle.orientation_rules.specs.Weights.{HasOneWayChains, AreWeights, IsRaised, IsWeighedAt, OthersStay};

use crate::successors::successor_row;
use box_instances::Instance;
use edge_state::{BitRow, EdgeState};
use packing_terms::Direction;

// Raises the weight of `v`, whose own side is `own`, to that of a chain with the successor `x`, if
// that is more.
#[inline(always)]
pub(crate) fn raise_by(
    instance: &Instance,
    state: &EdgeState,
    dim: u32,
    direction: Direction,
    v: u32,
    x: u32,
    own: u64,
    into: &mut [u64],
) -> bool
    requires ordered { HasOneWayChains instance.now state.now dim direction }
    requires edge { IsEdgeAmong state.now.dims state.now.boxes dim v x }
    requires leads { Leads (excludes state.now.trail) dim direction v x }
    requires own { own ≡ side instance.now v dim }
    requires count { length into.old ≡ box_count instance.now }
    requires weights { AreWeights instance.now state.now dim direction into.old }
    ensures raised { IsRaised instance.now state.now dim direction into.old into.new result }
    ensures weighed { IsWeighedAt instance.now state.now dim direction into.new v x }
    ensures others { OthersStay v into.old into.new }
    ensures grows { slice_index into.old v ≤ slice_index into.new v }
{
    // For the proof alone: states the limits of the instance.
    let _count = instance.len();
    let weight = own + into[x as usize];
    if weight <= into[v as usize] {
        return false;
    }
    into[v as usize] = weight;
    true
}

// Raises the weight of v by each box of the row, to which a chain of it goes on.
#[inline(always)]
pub(crate) fn raise_along<const K: usize>(
    instance: &Instance,
    state: &EdgeState,
    dim: u32,
    direction: Direction,
    v: u32,
    row: BitRow<K>,
    into: &mut [u64],
) -> bool
    requires words { HoldsBoxes K state.now.boxes }
    requires ordered { HasOneWayChains instance.now state.now dim direction }
    requires v { v < state.now.boxes }
    requires within { (x : ℕ) → row_has row x ≡ true → x < state.now.boxes }
    requires leads { (x : ℕ) → row_has row x ≡ true → (v ≡ x → ⊥)
        × Leads (excludes state.now.trail) dim direction v x }
    requires count { length into.old ≡ box_count instance.now }
    requires weights { AreWeights instance.now state.now dim direction into.old }
    ensures raised { IsRaised instance.now state.now dim direction into.old into.new result }
    ensures weighed { (x : ℕ) → row_has row.entry x ≡ true
        → IsWeighedAt instance.now state.now dim direction into.new v x }
    ensures others { OthersStay v into.old into.new }
    ensures grows { slice_index into.old v ≤ slice_index into.new v }
{
    let own = u64::from(instance.side(v, dim));
    let mut rest = row;
    let mut changed = false;
    while let Some(x) = rest.first() {
        rest = rest.without(x);
        let here = raise_by(instance, state, dim, direction, v, x, own, into);
        changed = changed | here;
    }
    changed
}

// Raises the weight of `v` by each of its successors.
fn raise_from<const K: usize>(
    instance: &Instance,
    state: &EdgeState,
    dim: u32,
    direction: Direction,
    v: u32,
    into: &mut [u64],
) -> bool
    requires words { HoldsBoxes K state.now.boxes }
    requires ordered { HasOneWayChains instance.now state.now dim direction }
    requires v { v < state.now.boxes }
    requires count { length into.old ≡ box_count instance.now }
    requires weights { AreWeights instance.now state.now dim direction into.old }
    ensures raised { IsRaised instance.now state.now dim direction into.old into.new result }
    ensures weighed { (x : ℕ) → x < box_count instance.now
        → IsWeighedAt instance.now state.now dim direction into.new v x }
{
    let row = successor_row::<K>(state, dim, direction, v);
    raise_along(instance, state, dim, direction, v, row, into)
}

// Raises the weight of each box by each other.
pub(crate) fn raise_all<const K: usize>(
    instance: &Instance,
    state: &EdgeState,
    dim: u32,
    direction: Direction,
    into: &mut [u64],
) -> bool
    requires words { HoldsBoxes K state.now.boxes }
    requires ordered { HasOneWayChains instance.now state.now dim direction }
    requires count { length into.old ≡ box_count instance.now }
    requires weights { AreWeights instance.now state.now dim direction into.old }
    ensures raised { IsRaised instance.now state.now dim direction into.old into.new result }
    ensures weighed { result ≡ false → (v x : ℕ) → v < box_count instance.now
        → x < box_count instance.now
        → IsWeighedAt instance.now state.now dim direction into.new v x }
{
    let mut changed = false;
    for v in 0..instance.len() {
        let here = raise_from::<K>(instance, state, dim, direction, v, into);
        changed = changed | here;
    }
    changed
}
