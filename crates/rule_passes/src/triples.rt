//! TRIPLE for a changed edge.
//!
//! Each call answers whether a mask is empty, and stops there.
ghost use Rattle.std.specs.Prelude.{◌≡◌, ◌<◌, ◌≤◌, ◌+◌, ◌⊎◌, ℕ, true, false};
ghost use Rattle.packing_terms.specs.Packing.{dims, box_count, side, container_side};
ghost use Rattle.packing_terms.specs.Exclusions.{excludes, IsApart};
ghost use Rattle.packing_terms.specs.Rules.{Triple};
ghost use Rattle.edge_state.specs.BitRows.{HoldsBoxes, row_has};
ghost use Rattle.edge_state.specs.Edges.{is_other_box};
ghost use Rattle.edge_state.specs.Instances.{Triples};
ghost use Rattle.edge_state.specs.States.{IsSized};
ghost use Rattle.edge_state.specs.Work.{HasApplied};
ghost use Rattle.rule_passes.specs.Reached.{BoundsSides};

use crate::candidates::beyond_triples;
use crate::excluding::exclude_both;
use box_instances::Instance;
use edge_state::{BitRow, EdgeState, Rel};

// The least side of a third box with which two boxes are together longer than the container.
#[inline(always)]
fn least_third(instance: &Instance, dim: u32, u: u32, x: u32) -> u64
    requires dim { dim < dims instance.now }
    requires u { u < box_count instance.now }
    requires x { x < box_count instance.now }
    ensures least { (w : ℕ) → w < result
        → side instance.now u dim + w + side instance.now x dim ≤ container_side instance.now dim }
    ensures over { (w : ℕ) → result ≤ w
        → container_side instance.now dim < side instance.now u dim + w + side instance.now x dim }
{
    let together = u64::from(instance.side(u, dim)) + u64::from(instance.side(x, dim));
    (u64::from(instance.container_side(dim)) + 1).saturating_sub(together)
}

// The boxes of a row whose side isn't less than `least`.
#[inline(always)]
fn long_among<const K: usize>(
    instance: &Instance,
    dim: u32,
    row: BitRow<K>,
    least: u64,
) -> BitRow<K>
    requires words { HoldsBoxes K (box_count instance.now) }
    requires dim { dim < dims instance.now }
    requires within { (v : ℕ) → row_has row v ≡ true → v < box_count instance.now }
    ensures long { (v : ℕ) → row_has result v ≡ true
        → (row_has row.entry v ≡ true) × (least ≤ side instance.now v dim) }
    ensures others { (v : ℕ) → row_has row.entry v ≡ true → row_has result v ≡ false
        → side instance.now v dim < least }
{
    let mut rest = row;
    let mut found = BitRow::empty();
    while let Some(v) = rest.first() {
        rest = rest.without(v);
        if u64::from(instance.side(v, dim)) >= least {
            found = found.with(v);
        }
    }
    found
}

// Whether a box of a row has a side that isn't less than `least`.
#[inline(always)]
fn has_long<const K: usize>(instance: &Instance, dim: u32, row: BitRow<K>, least: u64) -> bool
    requires words { HoldsBoxes K (box_count instance.now) }
    requires dim { dim < dims instance.now }
    requires within { (v : ℕ) → row_has row v ≡ true → v < box_count instance.now }
    ensures { result ≡ false → (v : ℕ) → row_has row.entry v ≡ true
        → side instance.now v dim < least }
{
    let mut rest = row;
    while let Some(v) = rest.first() {
        rest = rest.without(v);
        let is_long = u64::from(instance.side(v, dim)) >= least;
        if is_long {
            return true;
        }
    }
    false
}

// TRIPLE with two boxes that are apart, for each third of a row, which are apart from `x`, whose
// side isn't less than the least with which the three are too long.
#[inline(always)]
fn triples_among<const K: usize>(
    instance: &Instance,
    state: &mut EdgeState,
    dim: u32,
    u: u32,
    x: u32,
    thirds: BitRow<K>,
    least: u64,
) -> bool
    requires words { HoldsBoxes K (box_count instance.now) }
    requires sizes { IsSized instance.now state.old dim }
    requires u { u < box_count instance.now }
    requires x { x < box_count instance.now }
    requires distinct { u ≡ x → ⊥ }
    requires apart { IsApart (excludes state.old.trail) dim u x }
    requires within { (v : ℕ) → row_has thirds v ≡ true → v < box_count instance.now }
    requires other { (v : ℕ) → row_has thirds v ≡ true
        → is_other_box (box_count instance.now) u v ≡ true }
    requires thirds { (v : ℕ) → row_has thirds v ≡ true
        → (v ≡ x → ⊥) × IsApart (excludes state.old.trail) dim v x }
    requires least { (w : ℕ) → w < least
        → side instance.now u dim + w + side instance.now x dim ≤ container_side instance.now dim }
    requires over { (w : ℕ) → least ≤ w
        → container_side instance.now dim < side instance.now u dim + w + side instance.now x dim }
    ensures { HasApplied instance.now state.old state.new result
        (λ rule. (v : ℕ) × (v < box_count instance.now)
        × ((row_has thirds.entry v ≡ true) × (rule ≡ Triple dim u v x))) }
{
    let long = long_among(instance, dim, thirds, least);
    exclude_both(instance, state, dim, u, Rel::Before, Rel::After, long)
}

/// Whether TRIPLE may exclude something with two boxes, in one of their orders: there are thirds
/// that are apart from the one that comes second, and one is long enough. None is longer than
/// `most`.
///
/// The thirds are asked one by one, here where the state stays: at 37 to 92 of 100 edges with
/// thirds that `most` doesn't rule out, none is long enough (three texts of 14 to 50 boxes).
#[inline(always)]
pub(crate) fn may_triple<const K: usize>(
    instance: &Instance,
    state: &EdgeState,
    dim: u32,
    u: u32,
    x: u32,
    most: u32,
) -> bool
    requires words { HoldsBoxes K (box_count instance.now) }
    requires sizes { IsSized instance.now state.now dim }
    requires u { u < box_count instance.now }
    requires x { x < box_count instance.now }
    requires distinct { u ≡ x → ⊥ }
    requires most { BoundsSides instance.now dim most }
    ensures { result ≡ false → HasApplied instance.now state.now state.now false (λ rule.
        Triples instance.now dim u x rule ⊎ Triples instance.now dim x u rule) }
{
    let there = beyond_triples::<K>(instance, state, dim, u, x);
    let back = beyond_triples::<K>(instance, state, dim, x, u);
    if there.or(back).is_empty() {
        return false;
    }
    let least = least_third(instance, dim, u, x);
    if u64::from(most) < least {
        return false;
    }
    has_long(instance, dim, there.or(back), least)
}

/// TRIPLE with two boxes in both orders, for each third that is apart from the one that comes
/// second, where that may exclude something.
#[inline(always)]
pub(crate) fn triples<const K: usize>(
    instance: &Instance,
    state: &mut EdgeState,
    dim: u32,
    u: u32,
    x: u32,
    most: u32,
) -> bool
    requires words { HoldsBoxes K (box_count instance.now) }
    requires sizes { IsSized instance.now state.old dim }
    requires u { u < box_count instance.now }
    requires x { x < box_count instance.now }
    requires distinct { u ≡ x → ⊥ }
    requires most { BoundsSides instance.now dim most }
    ensures { HasApplied instance.now state.old state.new result (λ rule.
        Triples instance.now dim u x rule ⊎ Triples instance.now dim x u rule) }
{
    if !may_triple::<K>(instance, state, dim, u, x, most) {
        return false;
    }
    if state.mask_in::<K>(dim, u, x).has(Rel::Overlap) {
        return false;
    }
    let there = beyond_triples::<K>(instance, state, dim, u, x);
    let back = beyond_triples::<K>(instance, state, dim, x, u);
    let least = least_third(instance, dim, u, x);
    if triples_among(instance, state, dim, u, x, there, least) {
        return true;
    }
    triples_among(instance, state, dim, x, u, back, least)
}
