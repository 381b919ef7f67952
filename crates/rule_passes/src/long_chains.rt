//! Raises the weights of chains for a change, and ends the closing at an over-long chain.
ghost use Rattle.std.specs.Prelude.{◌≡◌, ◌+◌, ◌<◌, ◌⊎◌, ℕ, not, nat_lt, true, false, length};
ghost use Rattle.packing_terms.specs.Packing.{dims, box_count};
ghost use Rattle.packing_terms.specs.declared.Rel.{Rel as PlainRel};
ghost use Rattle.packing_terms.specs.Exclusions.{excludes};
ghost use Rattle.packing_terms.specs.Applied.{Extends};
ghost use Rattle.relation_table.specs.Masks.{mask_has};
ghost use Rattle.edge_state.specs.Answers.{IsChangeAfter};
ghost use Rattle.edge_state.specs.BitRows.{HoldsBoxes, row_has};
ghost use Rattle.edge_state.specs.States.{HasEmptyMask};
ghost use Rattle.edge_state.specs.Work.{IsUnordered};
ghost use Rattle.orientation_rules.specs.Pending.{AreFollowed, AreHeld};

use box_instances::Instance;
use edge_state::{BitRow, ChainWeights, EdgeState, Exclusion, Mark, Mask};
use orientation_rules::{PendingChains, apply_long_chain, find_chain};

// Looks for an over-long chain through `x`, and empties a mask of it. Returns whether there was
// one.
#[inline(never)]
fn shut_chain_through<const K: usize>(
    instance: &Instance,
    state: &mut EdgeState,
    weights: &ChainWeights,
    dim: u32,
    x: u32,
) -> bool
    requires words { HoldsBoxes K (box_count instance.now) }
    requires dims { state.old.dims ≡ dims instance.now }
    requires boxes { state.old.boxes ≡ box_count instance.now }
    requires dim { dim < dims instance.now }
    requires x { x < box_count instance.now }
    ensures sizes { state.new ≡ record state.old { trail = state.new.trail } }
    ensures extends { Extends instance.now state.old.trail state.new.trail }
    ensures empty { result ≡ true → HasEmptyMask instance.now (excludes state.new.trail) }
    ensures same { result ≡ false → state.new ≡ state.old }
{
    let Some((a, b)) = find_chain::<K>(instance, state, weights, dim, x) else {
        return false;
    };
    apply_long_chain(instance, state, dim, a, b);
    true
}

/// Raises the weights of chains for the change after `mark`, if it orders its two boxes. `left` is
/// their mask, which isn't empty. If a chain is over-long then, a mask of it is emptied and true is
/// returned: most conflicts are such chains, and CHAIN itself is applied last. Otherwise the state
/// stays.
#[inline(always)]
pub(crate) fn shut_long_chain<const K: usize>(
    instance: &Instance,
    state: &mut EdgeState,
    weights: &mut ChainWeights,
    pending: &mut PendingChains<K>,
    all: BitRow<K>,
    mark: Mark,
    change: Exclusion,
    left: Mask,
) -> bool
    requires words { HoldsBoxes K (box_count instance.now) }
    requires dims { state.old.dims ≡ dims instance.now }
    requires boxes { state.old.boxes ≡ box_count instance.now }
    requires all { (x : ℕ) → row_has all x ≡ nat_lt x (box_count instance.now) }
    requires change { IsChangeAfter state.old.trail mark change (mark + 1) }
    requires left { (r : PlainRel) → mask_has left r
        ≡ not (excludes state.old.trail change.dim change.u change.v r) }
    requires some { left ≡ 0 → ⊥ }
    requires followed { AreFollowed instance.now state.old mark weights.old pending.old }
    ensures sizes { state.new ≡ record state.old { trail = state.new.trail } }
    ensures extends { Extends instance.now state.old.trail state.new.trail }
    ensures empty { result ≡ true → HasEmptyMask instance.now (excludes state.new.trail) }
    ensures same { result ≡ false → state.new ≡ state.old }
    ensures held { AreHeld instance.now state.new weights.new }
    ensures followed { result ≡ false
        → AreFollowed instance.now state.new (mark + 1) weights.new pending.new }
    ensures clean { (i : ℕ) → row_has pending.new.dirty i ≡ false
        → row_has pending.old.dirty i ≡ false }
    ensures unordered { (i : ℕ) → row_has pending.new.dirty i ≡ false → change.dim ≡ i
        → IsUnordered (excludes state.old.trail) change }
    ensures within { (i : ℕ) → row_has pending.new.dirty i ≡ true → (i ≡ change.dim)
        ⊎ (row_has pending.old.dirty i ≡ true) }
{
    let Some(x) = pending.follow(instance, state, weights, all, mark, change, left) else {
        return false;
    };
    // For the proof alone: states the limits of the state.
    let _sizes = state.dims();
    shut_chain_through::<K>(instance, state, weights, change.dim, x)
}
