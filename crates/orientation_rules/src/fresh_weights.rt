//! Computes the weights of the heaviest chains in one dimension from scratch, for a closing to
//! which they are unknown.
ghost use Rattle.std.specs.Prelude.{◌≡◌, ◌<◌, ◌≤◌, ◌+◌, ℕ, length, [], slice_index, slice_index_or};
ghost use Rattle.packing_terms.specs.Packing.{dims, box_count};
ghost use Rattle.packing_terms.specs.declared.Direction.TheVariants.{Forwards, Backwards};
ghost use Rattle.packing_terms.specs.Runs.{most_weight};
ghost use Rattle.edge_state.specs.BitRows.{HoldsBoxes};
ghost use Rattle.edge_state.specs.ChainWeights.{IsSameHistory, list_number, weights_in};
ghost use Rattle.orientation_rules.specs.Weights.{HasOneWayChains, IsHeaviest};
ghost use Rattle.orientation_rules.specs.Pending.{OtherDimsStay};

use crate::weights::weigh_both;
use box_instances::{Instance, MAX_BOXES};
use edge_state::{ChainWeights, EdgeState};
use packing_terms::Direction;

// Writes one weight. The log has memory for it.
fn write_one(weights: &mut ChainWeights, direction: Direction, dim: u32, v: u32, weight: u64)
    requires dim { dim < 4 }
    requires v { v < 128 }
    requires small { weight ≤ most_weight }
    requires room { length weights.old.log < 4096 }
    ensures history { IsSameHistory weights.old weights.new }
    ensures written { slice_index (weights_in weights.new.numbers direction dim) v ≡ weight }
    ensures beside { (u : ℕ) → (u ≡ v → ⊥)
        → slice_index (weights_in weights.new.numbers direction dim) u
        ≡ slice_index (weights_in weights.old.numbers direction dim) u }
    ensures other { (list : ℕ) → (list ≡ list_number direction dim → ⊥)
        → slice_index_or weights.new.numbers list [] ≡ slice_index_or weights.old.numbers list [] }
    ensures logged { length weights.new.log ≡ length weights.old.log + 1 }
{
    // For the proof alone: states the sizes of the lists.
    let _sizes = weights.weights(direction, dim);
    weights.write(direction, dim, v, weight);
}

// Writes the weights of the first boxes for one direction and dimension. The log has memory for
// them.
fn write_weights(weights: &mut ChainWeights, direction: Direction, dim: u32, from: &[u64])
    requires dim { dim < 4 }
    requires few { length from.now ≤ 128 }
    requires small { (v : ℕ) → v < length from.now → slice_index from.now v ≤ most_weight }
    requires room { length weights.old.log + length from.now ≤ 4096 }
    ensures history { IsSameHistory weights.old weights.new }
    ensures written { (v : ℕ) → v < length from.now
        → slice_index (weights_in weights.new.numbers direction dim) v ≡ slice_index from.now v }
    ensures other { (list : ℕ) → (list ≡ list_number direction dim → ⊥)
        → slice_index_or weights.new.numbers list [] ≡ slice_index_or weights.old.numbers list [] }
    ensures logged { length weights.new.log ≤ length weights.old.log + length from.now }
{
    for v in 0..from.len() {
        write_one(weights, direction, dim, v as u32, from[v]);
    }
}

// Computes the weights of the heaviest chains in a dimension in two scratch lists with an entry for
// each box, and writes them.
fn weigh_in<const K: usize>(
    instance: &Instance,
    state: &EdgeState,
    weights: &mut ChainWeights,
    dim: u32,
    head: &mut [u64],
    tail: &mut [u64],
)
    requires words { HoldsBoxes K state.now.boxes }
    requires dims { state.now.dims ≡ dims instance.now }
    requires boxes { state.now.boxes ≡ box_count instance.now }
    requires dim { dim < dims instance.now }
    requires ordered_back { HasOneWayChains instance.now state.now dim Backwards }
    requires ordered { HasOneWayChains instance.now state.now dim Forwards }
    requires head_count { length head.old ≡ box_count instance.now }
    requires tail_count { length tail.old ≡ box_count instance.now }
    ensures history { IsSameHistory weights.old weights.new }
    ensures dims { OtherDimsStay dim weights.old.numbers weights.new.numbers }
    ensures heads { (v : ℕ) → v < box_count instance.now
        → IsHeaviest instance.now state.now dim Backwards v
        (slice_index (weights_in weights.new.numbers Backwards dim) v) }
    ensures tails { (v : ℕ) → v < box_count instance.now
        → IsHeaviest instance.now state.now dim Forwards v
        (slice_index (weights_in weights.new.numbers Forwards dim) v) }
{
    weigh_both::<K>(instance, state, dim, head, tail);
    let count = instance.len() as usize;
    weights.reserve(2 * count);
    write_weights(weights, Direction::Backwards, dim, head);
    write_weights(weights, Direction::Forwards, dim, tail);
}

/// Computes the weights of the heaviest chains in a dimension and writes them. In both directions
/// the relation that leads from box to box goes one way there.
#[inline(never)]
pub(crate) fn weigh_anew<const K: usize>(
    instance: &Instance,
    state: &EdgeState,
    weights: &mut ChainWeights,
    dim: u32,
)
    requires words { HoldsBoxes K state.now.boxes }
    requires dims { state.now.dims ≡ dims instance.now }
    requires boxes { state.now.boxes ≡ box_count instance.now }
    requires dim { dim < dims instance.now }
    requires ordered_back { HasOneWayChains instance.now state.now dim Backwards }
    requires ordered { HasOneWayChains instance.now state.now dim Forwards }
    ensures history { IsSameHistory weights.old weights.new }
    ensures dims { OtherDimsStay dim weights.old.numbers weights.new.numbers }
    ensures heads { (v : ℕ) → v < box_count instance.now
        → IsHeaviest instance.now state.now dim Backwards v
        (slice_index (weights_in weights.new.numbers Backwards dim) v) }
    ensures tails { (v : ℕ) → v < box_count instance.now
        → IsHeaviest instance.now state.now dim Forwards v
        (slice_index (weights_in weights.new.numbers Forwards dim) v) }
{
    let mut head = [0u64; MAX_BOXES];
    let mut tail = [0u64; MAX_BOXES];
    let count = instance.len() as usize;
    weigh_in::<K>(
        instance,
        state,
        weights,
        dim,
        &mut head[..count],
        &mut tail[..count],
    );
}
