//! Applies rule instances that read the mask of a changed edge, in both orders of its boxes.
//!
//! Each call applies some instances one after another, stops at the first empty mask, and returns
//! whether there was one. The mask of the edge is given as it was before: an instance that asks for
//! the exclusion of a relation in it adds nothing. If that relation was excluded meanwhile, the
//! worklist propagates that change later.
ghost use Rattle.std.specs.Prelude.{◌≡◌, ◌<◌, ◌⊎◌, ℕ, false, not, nat_lt};
ghost use Rattle.packing_terms.specs.declared.Rel.{Rel as PlainRel};
ghost use Rattle.packing_terms.specs.declared.Rel.TheVariants.{Overlap, Before, After};
ghost use Rattle.packing_terms.specs.Packing.{box_count};
ghost use Rattle.packing_terms.specs.Exclusions.{excludes};
ghost use Rattle.relation_table.specs.Masks.{mask_has};
ghost use Rattle.edge_state.specs.BitRows.{HoldsBoxes, row_has};
ghost use Rattle.edge_state.specs.Instances.{Aparts, Chords, Cycles, OrdersCrossed, Triples};
ghost use Rattle.edge_state.specs.States.{IsSized};
ghost use Rattle.edge_state.specs.Work.{HasApplied};
ghost use Rattle.rule_passes.specs.Reached.{BoundsSides, IsReachedOrdered, IsReachedRest};

use crate::cycles::{chords, cycles};
use crate::orders::{orders_crossed, orders_first, orders_second};
use crate::overlaps::aparts;
use crate::triples::triples;
use box_instances::Instance;
use edge_state::{BitRow, EdgeState, Mask, Rel};

/// TRIPLE with two boxes that are apart: none if the mask has overlap, or if the exclusion
/// of overlap is stale.
#[inline(always)]
pub(crate) fn spread_apart<const K: usize>(
    instance: &Instance,
    state: &mut EdgeState,
    dim: u32,
    u: u32,
    v: u32,
    left: Mask,
    stale: Mask,
    most: u32,
) -> bool
    requires words { HoldsBoxes K (box_count instance.now) }
    requires sizes { IsSized instance.now state.old dim }
    requires u { u < box_count instance.now }
    requires v { v < box_count instance.now }
    requires distinct { u ≡ v → ⊥ }
    requires most { BoundsSides instance.now dim most }
    ensures { HasApplied instance.now state.old state.new result (λ rule.
        ((mask_has left Overlap ≡ false) × (mask_has stale Overlap ≡ false))
        × (Triples instance.now dim u v rule
        ⊎ Triples instance.now dim v u rule)) }
{
    if left.has(Rel::Overlap) || stale.has(Rel::Overlap) {
        return false;
    }
    triples::<K>(instance, state, dim, u, v, most)
}

/// CYCLE with two boxes that are apart: none if the mask has overlap, or if the exclusion
/// of overlap is stale.
#[inline(always)]
pub(crate) fn spread_chords<const K: usize>(
    instance: &Instance,
    state: &mut EdgeState,
    all: BitRow<K>,
    dim: u32,
    u: u32,
    v: u32,
    left: Mask,
    stale: Mask,
) -> bool
    requires words { HoldsBoxes K (box_count instance.now) }
    requires sizes { IsSized instance.now state.old dim }
    requires u { u < box_count instance.now }
    requires v { v < box_count instance.now }
    requires distinct { u ≡ v → ⊥ }
    requires all { (x : ℕ) → row_has all x ≡ nat_lt x (box_count instance.now) }
    ensures { HasApplied instance.now state.old state.new result (λ rule.
        ((mask_has left Overlap ≡ false) × (mask_has stale Overlap ≡ false))
        × (Chords instance.now dim u v rule
        ⊎ Chords instance.now dim v u rule)) }
{
    if left.has(Rel::Overlap) || stale.has(Rel::Overlap) {
        return false;
    }
    chords(instance, state, all, dim, u, v)
}

/// APART of two boxes that are joined: none where the mask has before or after.
#[inline(always)]
pub(crate) fn apply_apart_if_joined<const K: usize>(
    instance: &Instance,
    state: &mut EdgeState,
    dim: u32,
    p: u32,
    q: u32,
    left: Mask,
) -> bool
    requires words { HoldsBoxes K (box_count instance.now) }
    requires sizes { IsSized instance.now state.old dim }
    requires p { p < box_count instance.now }
    requires q { q < box_count instance.now }
    requires distinct { p ≡ q → ⊥ }
    ensures { HasApplied instance.now state.old state.new result
        (λ rule. ((mask_has left Before ≡ false) × (mask_has left After ≡ false))
        × Aparts instance.now dim p q rule) }
{
    if left.has(Rel::Before) || left.has(Rel::After) {
        return false;
    }
    aparts::<K>(instance, state, dim, p, q)
}

// CYCLE with two boxes that are joined: none where the mask has before or after.
#[inline(always)]
fn spread_joined<const K: usize>(
    instance: &Instance,
    state: &mut EdgeState,
    all: BitRow<K>,
    dim: u32,
    p: u32,
    q: u32,
    left: Mask,
) -> bool
    requires words { HoldsBoxes K (box_count instance.now) }
    requires sizes { IsSized instance.now state.old dim }
    requires p { p < box_count instance.now }
    requires q { q < box_count instance.now }
    requires distinct { p ≡ q → ⊥ }
    requires all { (x : ℕ) → row_has all x ≡ nat_lt x (box_count instance.now) }
    ensures { HasApplied instance.now state.old state.new result
        (λ rule. ((mask_has left Before ≡ false) × (mask_has left After ≡ false))
        × Cycles instance.now dim p q rule) }
{
    if left.has(Rel::Before) || left.has(Rel::After) {
        return false;
    }
    cycles(instance, state, all, dim, p, q)
}

// The instances that ask for a box that is surely before another: none where the mask has overlap
// or after.
#[inline(always)]
fn spread_ordered<const K: usize>(
    instance: &Instance,
    state: &mut EdgeState,
    all: BitRow<K>,
    dim: u32,
    p: u32,
    q: u32,
    left: Mask,
) -> bool
    requires words { HoldsBoxes K (box_count instance.now) }
    requires sizes { IsSized instance.now state.old dim }
    requires p { p < box_count instance.now }
    requires q { q < box_count instance.now }
    requires distinct { p ≡ q → ⊥ }
    requires all { (x : ℕ) → row_has all x ≡ nat_lt x (box_count instance.now) }
    ensures { HasApplied instance.now state.old state.new result
        (λ rule. ((mask_has left Overlap ≡ false) × (mask_has left After ≡ false))
        × IsReachedOrdered instance.now dim p q rule) }
{
    if left.has(Rel::Overlap) || left.has(Rel::After) {
        return false;
    }
    if orders_first(instance, state, all, dim, p, q) {
        return true;
    }
    orders_second(instance, state, all, dim, p, q)
}

// The instances that ask that a box isn't before another: none if the mask has before, or if the
// exclusion of before is stale.
#[inline(always)]
fn spread_crossed<const K: usize>(
    instance: &Instance,
    state: &mut EdgeState,
    all: BitRow<K>,
    dim: u32,
    p: u32,
    q: u32,
    left: Mask,
    is_stale: bool,
) -> bool
    requires words { HoldsBoxes K (box_count instance.now) }
    requires sizes { IsSized instance.now state.old dim }
    requires p { p < box_count instance.now }
    requires q { q < box_count instance.now }
    requires distinct { p ≡ q → ⊥ }
    requires all { (x : ℕ) → row_has all x ≡ nat_lt x (box_count instance.now) }
    ensures { HasApplied instance.now state.old state.new result
        (λ rule. ((mask_has left Before ≡ false) × (is_stale ≡ false))
        × OrdersCrossed instance.now dim p q rule) }
{
    if left.has(Rel::Before) || is_stale {
        return false;
    }
    orders_crossed(instance, state, all, dim, p, q)
}

/// The instances that ask for joined, for ordered or for not before, of two boxes in this order,
/// without those of APART.
#[inline(always)]
pub(crate) fn spread_from<const K: usize>(
    instance: &Instance,
    state: &mut EdgeState,
    all: BitRow<K>,
    dim: u32,
    p: u32,
    q: u32,
    left: Mask,
    is_stale: bool,
) -> bool
    requires words { HoldsBoxes K (box_count instance.now) }
    requires sizes { IsSized instance.now state.old dim }
    requires p { p < box_count instance.now }
    requires q { q < box_count instance.now }
    requires distinct { p ≡ q → ⊥ }
    requires all { (x : ℕ) → row_has all x ≡ nat_lt x (box_count instance.now) }
    ensures { HasApplied instance.now state.old state.new result
        (IsReachedRest instance.now dim p q (mask_has left) is_stale) }
{
    if spread_joined(instance, state, all, dim, p, q, left) {
        return true;
    }
    if spread_ordered(instance, state, all, dim, p, q, left) {
        return true;
    }
    spread_crossed(instance, state, all, dim, p, q, left, is_stale)
}
