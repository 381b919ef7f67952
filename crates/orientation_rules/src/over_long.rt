//! The pairs at which CHAIN excludes something, by the weights of chains.
ghost use Rattle.std.specs.Prelude.{◌≡◌, ◌+◌, ◌<◌, ◌&&◌, ℕ, nat_lt, true, length, slice_index};
ghost use Rattle.packing_terms.specs.Packing.{dims, container_side};
ghost use Rattle.packing_terms.specs.declared.Direction.TheVariants.{Forwards, Backwards};
ghost use Rattle.edge_state.specs.BitRows.{IsRowWidth, row_has};
ghost use Rattle.edge_state.specs.ChainWeights.{weights_in};

use box_instances::Instance;
use edge_state::{BitRow, ChainWeights};
use packing_terms::Direction;

// The boxes of a row with a weight above `most`.
#[inline]
fn heavier<const K: usize>(row: BitRow<K>, weights: &[u64], most: u64) -> BitRow<K>
    requires width { IsRowWidth K }
    requires within { (v : ℕ) → row_has row v ≡ true → v < length weights.now }
    ensures { (v : ℕ) → row_has result v ≡ row_has row.entry v
        && nat_lt most (slice_index weights.now v) }
{
    let mut rest = row;
    let mut heavy = BitRow::empty();
    while let Some(v) = rest.first() {
        rest = rest.without(v);
        if weights[v as usize] > most {
            heavy = heavy.with(v);
        }
    }
    heavy
}

/// The boxes of `row` that `u` can't be before: a heaviest chain that ends in `u` and one that
/// starts in such a box are together longer than the container.
#[inline]
pub fn find_over_long<const K: usize>(
    instance: &Instance,
    weights: &ChainWeights,
    dim: u32,
    u: u32,
    row: BitRow<K>,
) -> BitRow<K>
    requires width { IsRowWidth K }
    requires dim { dim < dims instance.now }
    requires u { u < 128 }
    requires within { (v : ℕ) → row_has row v ≡ true → v < 128 }
    ensures { (v : ℕ) → row_has result v ≡ row_has row.entry v
        && nat_lt (container_side instance.now dim)
        (slice_index (weights_in weights.now.numbers Backwards dim) u
        + slice_index (weights_in weights.now.numbers Forwards dim) v) }
{
    // For the proof alone: states the limits of the instance.
    let _dims = instance.dims();
    let limit = u64::from(instance.container_side(dim));
    let head = weights.weights(Direction::Backwards, dim)[u as usize];
    let Some(most) = limit.checked_sub(head) else {
        return row;
    };
    heavier(row, weights.weights(Direction::Forwards, dim), most)
}

/// The boxes of `row` that can't be before `v`: a heaviest chain that ends in such a box and one
/// that starts in `v` are together longer than the container.
#[inline]
pub fn find_over_long_to<const K: usize>(
    instance: &Instance,
    weights: &ChainWeights,
    dim: u32,
    v: u32,
    row: BitRow<K>,
) -> BitRow<K>
    requires width { IsRowWidth K }
    requires dim { dim < dims instance.now }
    requires v { v < 128 }
    requires within { (u : ℕ) → row_has row u ≡ true → u < 128 }
    ensures { (u : ℕ) → row_has result u ≡ row_has row.entry u
        && nat_lt (container_side instance.now dim)
        (slice_index (weights_in weights.now.numbers Backwards dim) u
        + slice_index (weights_in weights.now.numbers Forwards dim) v) }
{
    // For the proof alone: states the limits of the instance.
    let _dims = instance.dims();
    let limit = u64::from(instance.container_side(dim));
    let tail = weights.weights(Direction::Forwards, dim)[v as usize];
    let Some(most) = limit.checked_sub(tail) else {
        return row;
    };
    heavier(row, weights.weights(Direction::Backwards, dim), most)
}
