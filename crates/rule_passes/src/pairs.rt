//! PAIR at all pairs: the one rule that asks for no exclusion.
ghost use Rattle.std.specs.Prelude.{◌≡◌, ◌<◌, ℕ};
ghost use Rattle.packing_terms.specs.Packing.{dims, box_count};
ghost use Rattle.packing_terms.specs.Rules.{Pair};
ghost use Rattle.edge_state.specs.States.{IsSized};
ghost use Rattle.edge_state.specs.Work.{HasApplied};

use crate::empties::is_empty_at;
use crate::overlaps::aparts;
use box_instances::Instance;
use edge_state::EdgeState;
use orientation_rules::apply_pair;

// PAIR at two boxes, and where it changes a mask APART at the same two: so two boxes that are too
// long together in all dimensions are found at once.
fn pair_at(instance: &Instance, state: &mut EdgeState, dim: u32, u: u32, v: u32) -> bool
    requires sizes { IsSized instance.now state.old dim }
    requires u { u < box_count instance.now }
    requires v { v < box_count instance.now }
    ensures { HasApplied instance.now state.old state.new result (λ rule. rule ≡ Pair dim u v) }
{
    // For the proof alone: states the limits of the state.
    let _boxes = state.boxes();
    if u == v {
        return false;
    }
    if !apply_pair(instance, state, dim, u, v) {
        return false;
    }
    if is_empty_at(instance, state, dim, u, v) {
        return true;
    }
    aparts::<2>(instance, state, dim, u, v)
}

// The same with each second box behind the first in number: PAIR adds the same with its boxes
// swapped.
fn pairs_from(instance: &Instance, state: &mut EdgeState, dim: u32, u: u32) -> bool
    requires sizes { IsSized instance.now state.old dim }
    requires u { u < box_count instance.now }
    ensures { HasApplied instance.now state.old state.new result
        (λ rule. (v : ℕ) × (v < box_count instance.now) × ((u < v) × (rule ≡ Pair dim u v))) }
{
    let boxes = instance.len();
    for v in u + 1..boxes {
        if pair_at(instance, state, dim, u, v) {
            return true;
        }
    }
    false
}

// The same with each first box.
fn pairs_in(instance: &Instance, state: &mut EdgeState, dim: u32) -> bool
    requires { IsSized instance.now state.old dim }
    ensures { HasApplied instance.now state.old state.new result
        (λ rule. (u : ℕ) × (u < box_count instance.now)
        × ((v : ℕ) × (v < box_count instance.now) × ((u < v) × (rule ≡ Pair dim u v)))) }
{
    for u in 0..instance.len() {
        if pairs_from(instance, state, dim, u) {
            return true;
        }
    }
    false
}

/// PAIR in each dimension at all pairs, each once. Answers whether a mask is empty.
pub(crate) fn pass_pairs(instance: &Instance, state: &mut EdgeState) -> bool
    requires dims { state.old.dims ≡ dims instance.now }
    requires boxes { state.old.boxes ≡ box_count instance.now }
    ensures { HasApplied instance.now state.old state.new result
        (λ rule. (i : ℕ) × (i < dims instance.now) × ((u : ℕ) × (u < box_count instance.now)
        × ((v : ℕ) × (v < box_count instance.now) × ((u < v) × (rule ≡ Pair i u v))))) }
{
    for dim in 0..instance.dims() {
        if pairs_in(instance, state, dim) {
            return true;
        }
    }
    false
}
