//! CHAIN in one dimension, by rows and columns, with the weights of heaviest chains.
ghost use Rattle.std.specs.Prelude.{◌≡◌, ◌==◌, ◌<◌, ◌&&◌, ℕ, not, nat_lt, true, false, length};
ghost use Rattle.packing_terms.specs.Packing.{dims, box_count};
ghost use Rattle.packing_terms.specs.declared.Direction.TheVariants.{Forwards, Backwards};
ghost use Rattle.packing_terms.specs.Exclusions.{excludes, IsSurelyBefore};
ghost use Rattle.packing_terms.specs.Places.{HasNoEmptyMask};
ghost use Rattle.packing_terms.specs.Runs.{AreHeads, AreTails, IsTransitive};
ghost use Rattle.edge_state.specs.BitRows.{HoldsBoxes, row_has};
ghost use Rattle.edge_state.specs.States.{IsSized, HasEmptyMask};
ghost use Rattle.edge_state.specs.Work.{IsChainIn, HasApplied};
ghost use Rattle.edge_state.specs.Passes.{IsPass, IsChainChecked};
ghost use Rattle.edge_state.specs.ChainWeights.{weights_in};
ghost use Rattle.orientation_rules.specs.Pending.{AreFollowed, AreHeld};

use box_instances::Instance;
use edge_state::{BitRow, ChainWeights, EdgeState, Rel};
use orientation_rules::{PendingChains, find_over_long, find_over_long_to};

// CHAIN at box `u` and all boxes that it may be before. Returns whether that empties a mask. It
// excludes the whole row at once, so the weights have to be those of the state before the row
// alone.
#[inline]
fn shut_from<const K: usize>(
    instance: &Instance,
    state: &mut EdgeState,
    dim: u32,
    u: u32,
    weights: &ChainWeights,
) -> bool
    requires words { HoldsBoxes K (box_count instance.now) }
    requires sizes { IsSized instance.now state.old dim }
    requires u { u < box_count instance.now }
    requires heads { AreHeads instance.now (excludes state.old.trail) dim
        (weights_in weights.now.numbers Backwards dim) }
    requires tails { AreTails instance.now (excludes state.old.trail) dim
        (weights_in weights.now.numbers Forwards dim) }
    ensures pass { IsPass instance.now state.old state.new (λ es. (v : ℕ)
        → v < box_count instance.now
        → IsChainChecked instance.now dim (weights_in weights.now.numbers Backwards dim)
        (weights_in weights.now.numbers Forwards dim) u v es) }
    ensures empty { result ≡ true → HasEmptyMask instance.now (excludes state.new.trail) }
{
    // For the proof alone: states the limits of the state.
    let _sizes = state.dims();
    let before = state.row_in::<K>(dim, u, Rel::Before);
    let over_long = find_over_long(instance, weights, dim, u, before);
    if over_long.is_empty() {
        return false;
    }
    state.exclude_row::<K>(dim, u, Rel::Before, over_long)
}

// CHAIN at box `v` and all boxes that may be before it, in the same way.
#[inline]
fn shut_to<const K: usize>(
    instance: &Instance,
    state: &mut EdgeState,
    dim: u32,
    v: u32,
    weights: &ChainWeights,
) -> bool
    requires words { HoldsBoxes K (box_count instance.now) }
    requires sizes { IsSized instance.now state.old dim }
    requires v { v < box_count instance.now }
    requires heads { AreHeads instance.now (excludes state.old.trail) dim
        (weights_in weights.now.numbers Backwards dim) }
    requires tails { AreTails instance.now (excludes state.old.trail) dim
        (weights_in weights.now.numbers Forwards dim) }
    ensures pass { IsPass instance.now state.old state.new (λ es. (u : ℕ)
        → u < box_count instance.now
        → IsChainChecked instance.now dim (weights_in weights.now.numbers Backwards dim)
        (weights_in weights.now.numbers Forwards dim) u v es) }
    ensures empty { result ≡ true → HasEmptyMask instance.now (excludes state.new.trail) }
{
    // For the proof alone: states the limits of the state.
    let _sizes = state.dims();
    let after = state.row_in::<K>(dim, v, Rel::After);
    let over_long = find_over_long_to(instance, weights, dim, v, after);
    if over_long.is_empty() {
        return false;
    }
    state.exclude_row::<K>(dim, v, Rel::After, over_long)
}

// CHAIN at each box of a row and all boxes that it may be before, with the weights of chains of the
// state. It stops at the first box with an empty mask, which the result shows.
#[inline(never)]
fn shut_rows<const K: usize>(
    instance: &Instance,
    state: &mut EdgeState,
    dim: u32,
    row: BitRow<K>,
    weights: &ChainWeights,
) -> bool
    requires words { HoldsBoxes K (box_count instance.now) }
    requires sizes { IsSized instance.now state.old dim }
    requires within { (u : ℕ) → row_has row u ≡ true → u < box_count instance.now }
    requires heads { AreHeads instance.now (excludes state.old.trail) dim
        (weights_in weights.now.numbers Backwards dim) }
    requires tails { AreTails instance.now (excludes state.old.trail) dim
        (weights_in weights.now.numbers Forwards dim) }
    ensures pass { IsPass instance.now state.old state.new (λ es. result ≡ false → (u : ℕ)
        → row_has row.entry u ≡ true → (v : ℕ) → v < box_count instance.now
        → IsChainChecked instance.now dim (weights_in weights.now.numbers Backwards dim)
        (weights_in weights.now.numbers Forwards dim) u v es) }
    ensures empty { result ≡ true → HasEmptyMask instance.now (excludes state.new.trail) }
{
    let mut rest = row;
    while let Some(u) = rest.first() {
        rest = rest.without(u);
        if shut_from::<K>(instance, state, dim, u, weights) {
            return true;
        }
    }
    false
}

// CHAIN at each box of a row and all boxes that may be before it, in the same way.
#[inline(never)]
fn shut_columns<const K: usize>(
    instance: &Instance,
    state: &mut EdgeState,
    dim: u32,
    row: BitRow<K>,
    weights: &ChainWeights,
) -> bool
    requires words { HoldsBoxes K (box_count instance.now) }
    requires sizes { IsSized instance.now state.old dim }
    requires within { (v : ℕ) → row_has row v ≡ true → v < box_count instance.now }
    requires heads { AreHeads instance.now (excludes state.old.trail) dim
        (weights_in weights.now.numbers Backwards dim) }
    requires tails { AreTails instance.now (excludes state.old.trail) dim
        (weights_in weights.now.numbers Forwards dim) }
    ensures pass { IsPass instance.now state.old state.new (λ es. result ≡ false → (v : ℕ)
        → row_has row.entry v ≡ true → (u : ℕ) → u < box_count instance.now
        → IsChainChecked instance.now dim (weights_in weights.now.numbers Backwards dim)
        (weights_in weights.now.numbers Forwards dim) u v es) }
    ensures empty { result ≡ true → HasEmptyMask instance.now (excludes state.new.trail) }
{
    let mut rest = row;
    while let Some(v) = rest.first() {
        rest = rest.without(v);
        if shut_to::<K>(instance, state, dim, v, weights) {
            return true;
        }
    }
    false
}

/// Applies CHAIN in one dimension by the weights of the heaviest chains. Returns whether a mask is
/// empty, at which it stops. Surely before is transitive in this dimension, no mask is empty at
/// first, and all changes of the state are processed. `all` has all boxes.
///
/// Mostly few weights rose since CHAIN was applied. So it visits the rows of boxes whose heads rose
/// and the columns of boxes whose tails rose alone.
pub(crate) fn propagate_chains<const K: usize>(
    instance: &Instance,
    state: &mut EdgeState,
    dim: u32,
    all: BitRow<K>,
    weights: &mut ChainWeights,
    pending: &mut PendingChains<K>,
) -> bool
    requires words { HoldsBoxes K (box_count instance.now) }
    requires sizes { IsSized instance.now state.old dim }
    requires full { HasNoEmptyMask instance.now (excludes state.old.trail) }
    requires transitive { IsTransitive (box_count instance.now) (IsSurelyBefore
        (excludes state.old.trail) dim) }
    requires all { (x : ℕ) → row_has all x ≡ nat_lt x (box_count instance.now) }
    requires followed { AreFollowed instance.now state.old (length state.old.trail) weights.old
        pending.old }
    ensures worked { HasApplied instance.now state.old state.new result (IsChainIn dim) }
    ensures held { AreHeld instance.now state.new weights.new }
    ensures followed { result ≡ false → AreFollowed instance.now state.new (length state.old.trail)
        weights.new pending.new }
    ensures dirty { result ≡ false → (i : ℕ) → row_has pending.new.dirty i
        ≡ (row_has pending.old.dirty i && not (i == dim)) }
{
    // For the proof alone: states the limits of the state.
    let _sizes = state.dims();
    pending.weigh(instance, state, weights, all, dim);
    let (heads, tails) = pending.risen(dim);
    if shut_rows(instance, state, dim, heads, weights) {
        return true;
    }
    if shut_columns(instance, state, dim, tails, weights) {
        return true;
    }
    pending.settle(dim);
    false
}
