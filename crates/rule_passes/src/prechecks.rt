//! Prechecks for a changed edge: whether instances that read its mask may add anything. The state
//! stays.
//!
//! Most changes imply nothing new. The rows of the two boxes are then read once for all prechecks,
//! since nothing is written between them.
ghost use Rattle.std.specs.Prelude.{◌≡◌, ◌<◌, ◌⊎◌, ℕ, false, not, nat_lt};
ghost use Rattle.packing_terms.specs.declared.Rel.{Rel as PlainRel};
ghost use Rattle.packing_terms.specs.declared.Rel.TheVariants.{Overlap, Before, After};
ghost use Rattle.packing_terms.specs.Relations.{mirror};
ghost use Rattle.packing_terms.specs.Packing.{box_count};
ghost use Rattle.packing_terms.specs.Exclusions.{excludes};
ghost use Rattle.packing_terms.specs.Places.{HasNoEmptyMask};
ghost use Rattle.relation_table.specs.Masks.{mask_has};
ghost use Rattle.edge_state.specs.BitRows.{HoldsBoxes, row_has};
ghost use Rattle.edge_state.specs.Instances.{Chords, Composes, Cycles, OrdersCrossed, Triples};
ghost use Rattle.edge_state.specs.States.{IsSized};
ghost use Rattle.edge_state.specs.Work.{HasApplied};
ghost use Rattle.rule_passes.specs.Reached.{BoundsSides, IsReachedOrdered, IsReachedBoth};

use crate::candidates::beyond_compositions;
use crate::cycles::{may_chord, may_cycle};
use crate::orders::{may_order_crossed, may_order_first, may_order_second};
use crate::triples::may_triple;
use box_instances::Instance;
use edge_state::{BitRow, EdgeState, Mask, Rel};
use relation_table::flip;

/// Whether COMPOSE may exclude something, in one of the orders, if no mask is empty.
#[inline(always)]
pub(crate) fn may_compose<const K: usize>(
    instance: &Instance,
    state: &EdgeState,
    dim: u32,
    u: u32,
    v: u32,
    left: Mask,
) -> bool
    requires words { HoldsBoxes K (box_count instance.now) }
    requires sizes { IsSized instance.now state.now dim }
    requires u { u < box_count instance.now }
    requires v { v < box_count instance.now }
    requires distinct { u ≡ v → ⊥ }
    requires left { (r : PlainRel) → mask_has left r ≡ not (excludes state.now.trail dim u v r) }
    ensures { result ≡ false → HasApplied instance.now state.now state.now false
        (λ rule. HasNoEmptyMask instance.now (excludes state.now.trail)
        × (Composes instance.now dim u v rule ⊎ Composes instance.now dim v u rule)) }
{
    let there: BitRow<K> = beyond_compositions(instance, state, dim, u, v, left);
    let back = beyond_compositions(instance, state, dim, v, u, flip(left));
    if there.or(back).is_empty() {
        return false;
    }
    true
}

/// Whether TRIPLE may exclude something with two boxes that are apart: nothing if the mask has
/// overlap, or if the exclusion of overlap is stale.
#[inline(always)]
pub(crate) fn may_spread_apart<const K: usize>(
    instance: &Instance,
    state: &EdgeState,
    dim: u32,
    u: u32,
    v: u32,
    left: Mask,
    stale: Mask,
    most: u32,
) -> bool
    requires words { HoldsBoxes K (box_count instance.now) }
    requires sizes { IsSized instance.now state.now dim }
    requires u { u < box_count instance.now }
    requires v { v < box_count instance.now }
    requires distinct { u ≡ v → ⊥ }
    requires most { BoundsSides instance.now dim most }
    ensures { result ≡ false → HasApplied instance.now state.now state.now false (λ rule.
        ((mask_has left Overlap ≡ false) × (mask_has stale Overlap ≡ false))
        × (Triples instance.now dim u v rule
        ⊎ Triples instance.now dim v u rule)) }
{
    if left.has(Rel::Overlap) || stale.has(Rel::Overlap) {
        return false;
    }
    may_triple::<K>(instance, state, dim, u, v, most)
}

/// Whether CYCLE may exclude something with two boxes that are apart: nothing if the mask has
/// overlap, or if the exclusion of overlap is stale.
#[inline(always)]
pub(crate) fn may_spread_chords<const K: usize>(
    instance: &Instance,
    state: &EdgeState,
    all: BitRow<K>,
    dim: u32,
    u: u32,
    v: u32,
    left: Mask,
    stale: Mask,
) -> bool
    requires words { HoldsBoxes K (box_count instance.now) }
    requires sizes { IsSized instance.now state.now dim }
    requires u { u < box_count instance.now }
    requires v { v < box_count instance.now }
    requires distinct { u ≡ v → ⊥ }
    requires all { (x : ℕ) → row_has all x ≡ nat_lt x (box_count instance.now) }
    ensures { result ≡ false → HasApplied instance.now state.now state.now false (λ rule.
        ((mask_has left Overlap ≡ false) × (mask_has stale Overlap ≡ false))
        × (Chords instance.now dim u v rule
        ⊎ Chords instance.now dim v u rule)) }
{
    if left.has(Rel::Overlap) || stale.has(Rel::Overlap) {
        return false;
    }
    may_chord(instance, state, all, dim, u, v)
}

// Whether CYCLE may exclude something with two boxes that are joined, in both orders: nothing where
// the mask has before or after.
#[inline(always)]
fn may_spread_joined<const K: usize>(
    instance: &Instance,
    state: &EdgeState,
    all: BitRow<K>,
    dim: u32,
    u: u32,
    v: u32,
    left: Mask,
) -> bool
    requires words { HoldsBoxes K (box_count instance.now) }
    requires sizes { IsSized instance.now state.now dim }
    requires u { u < box_count instance.now }
    requires v { v < box_count instance.now }
    requires distinct { u ≡ v → ⊥ }
    requires all { (x : ℕ) → row_has all x ≡ nat_lt x (box_count instance.now) }
    ensures { result ≡ false → HasApplied instance.now state.now state.now false
        (λ rule. ((mask_has left Before ≡ false) × (mask_has left After ≡ false))
        × (Cycles instance.now dim u v rule ⊎ Cycles instance.now dim v u rule)) }
{
    if left.has(Rel::Before) || left.has(Rel::After) {
        return false;
    }
    if may_cycle(instance, state, all, dim, u, v) {
        return true;
    }
    may_cycle(instance, state, all, dim, v, u)
}

// Whether an instance may add something for a box that is surely before another: none if the mask
// has overlap or after.
#[inline(always)]
fn may_spread_ordered<const K: usize>(
    instance: &Instance,
    state: &EdgeState,
    all: BitRow<K>,
    dim: u32,
    p: u32,
    q: u32,
    left: Mask,
) -> bool
    requires words { HoldsBoxes K (box_count instance.now) }
    requires sizes { IsSized instance.now state.now dim }
    requires p { p < box_count instance.now }
    requires q { q < box_count instance.now }
    requires distinct { p ≡ q → ⊥ }
    requires all { (x : ℕ) → row_has all x ≡ nat_lt x (box_count instance.now) }
    ensures { result ≡ false → HasApplied instance.now state.now state.now false
        (λ rule. ((mask_has left Overlap ≡ false) × (mask_has left After ≡ false))
        × IsReachedOrdered instance.now dim p q rule) }
{
    if left.has(Rel::Overlap) || left.has(Rel::After) {
        return false;
    }
    if may_order_first(instance, state, all, dim, p, q) {
        return true;
    }
    may_order_second(instance, state, all, dim, p, q)
}

// Whether an instance may add something for a box that isn't before another: none if the mask has
// before, or if the exclusion of before is stale.
#[inline(always)]
fn may_spread_crossed<const K: usize>(
    instance: &Instance,
    state: &EdgeState,
    all: BitRow<K>,
    dim: u32,
    p: u32,
    q: u32,
    left: Mask,
    is_stale: bool,
) -> bool
    requires words { HoldsBoxes K (box_count instance.now) }
    requires sizes { IsSized instance.now state.now dim }
    requires p { p < box_count instance.now }
    requires q { q < box_count instance.now }
    requires distinct { p ≡ q → ⊥ }
    requires all { (x : ℕ) → row_has all x ≡ nat_lt x (box_count instance.now) }
    ensures { result ≡ false → HasApplied instance.now state.now state.now false
        (λ rule. ((mask_has left Before ≡ false) × (is_stale ≡ false))
        × OrdersCrossed instance.now dim p q rule) }
{
    if left.has(Rel::Before) || is_stale {
        return false;
    }
    may_order_crossed(instance, state, all, dim, p, q)
}

/// Whether an instance that asks for joined, for ordered or for not before may add something, for
/// two boxes in both orders, without APART. The mask is given, and the flipped one.
#[inline(always)]
pub(crate) fn may_spread_both<const K: usize>(
    instance: &Instance,
    state: &EdgeState,
    all: BitRow<K>,
    dim: u32,
    u: u32,
    v: u32,
    left: Mask,
    turned: Mask,
    stale: Mask,
) -> bool
    requires words { HoldsBoxes K (box_count instance.now) }
    requires sizes { IsSized instance.now state.now dim }
    requires u { u < box_count instance.now }
    requires v { v < box_count instance.now }
    requires distinct { u ≡ v → ⊥ }
    requires all { (x : ℕ) → row_has all x ≡ nat_lt x (box_count instance.now) }
    requires turned { (r : PlainRel) → mask_has turned r ≡ mask_has left (mirror r) }
    ensures { result ≡ false → HasApplied instance.now state.now state.now false
        (IsReachedBoth instance.now dim u v (mask_has left) (mask_has turned) (mask_has stale)) }
{
    if may_spread_joined(instance, state, all, dim, u, v, left) {
        return true;
    }
    if may_spread_ordered(instance, state, all, dim, u, v, left) {
        return true;
    }
    let forth = stale.has(Rel::Before);
    if may_spread_crossed(instance, state, all, dim, u, v, left, forth) {
        return true;
    }
    if may_spread_ordered(instance, state, all, dim, v, u, turned) {
        return true;
    }
    let back = stale.has(Rel::After);
    may_spread_crossed(instance, state, all, dim, v, u, turned, back)
}
