//! Propagates a changed edge: applies the rule instances that read its mask, in both orders of its
//! boxes.
//!
//! Most changes imply nothing new. Cheap prechecks therefore run first, inlined once per mask; the
//! code that applies rules is kept out of line.
ghost use Rattle.std.specs.Prelude.{◌≡◌, ◌<◌, ◌⊎◌, ℕ, not, nat_lt};
ghost use Rattle.packing_terms.specs.declared.Rel.{Rel as PlainRel};
ghost use Rattle.packing_terms.specs.Relations.{mirror};
ghost use Rattle.packing_terms.specs.Packing.{box_count};
ghost use Rattle.packing_terms.specs.Exclusions.{is_same_rel, excludes};
ghost use Rattle.packing_terms.specs.Places.{HasNoEmptyMask};
ghost use Rattle.relation_table.specs.Masks.{mask_has};
ghost use Rattle.edge_state.specs.BitRows.{HoldsBoxes, row_has};
ghost use Rattle.edge_state.specs.States.{IsSized};
ghost use Rattle.edge_state.specs.Work.{HasApplied, IsDue};
ghost use Rattle.rule_passes.specs.Reached.{BoundsSides, IsReachedBoth, IsReachedChorded, IsReachedLater, IsReachedNear};

use crate::composing::spread_composed;
use crate::edges::{apply_apart_if_joined, spread_apart, spread_chords, spread_from};
use crate::prechecks::{may_compose, may_spread_apart, may_spread_both, may_spread_chords};
use box_instances::Instance;
use edge_state::{BitRow, EdgeState, Mask, Rel};
use relation_table::flip;

// The instances of `spread_from` in both orders of the boxes. `turned` is the flipped mask.
#[inline(always)]
fn spread_both<const K: usize>(
    instance: &Instance,
    state: &mut EdgeState,
    all: BitRow<K>,
    dim: u32,
    u: u32,
    v: u32,
    left: Mask,
    turned: Mask,
    stale: Mask,
) -> bool
    requires words { HoldsBoxes K (box_count instance.now) }
    requires sizes { IsSized instance.now state.old dim }
    requires u { u < box_count instance.now }
    requires v { v < box_count instance.now }
    requires distinct { u ≡ v → ⊥ }
    requires all { (x : ℕ) → row_has all x ≡ nat_lt x (box_count instance.now) }
    ensures { HasApplied instance.now state.old state.new result
        (IsReachedBoth instance.now dim u v (mask_has left) (mask_has turned)
        (mask_has stale)) }
{
    let forth = stale.has(Rel::Before);
    if spread_from(instance, state, all, dim, u, v, left, forth) {
        return true;
    }
    let back = stale.has(Rel::After);
    spread_from(instance, state, all, dim, v, u, turned, back)
}

// The instances of `spread_both`, then APART, which adds the same in both orders. APART comes last
// because it reads and writes masks of other dimensions: before it the prechecks of both orders
// share the rows that they read.
#[inline(never)]
fn spread_near<const K: usize>(
    instance: &Instance,
    state: &mut EdgeState,
    all: BitRow<K>,
    dim: u32,
    u: u32,
    v: u32,
    left: Mask,
    turned: Mask,
    stale: Mask,
) -> bool
    requires words { HoldsBoxes K (box_count instance.now) }
    requires sizes { IsSized instance.now state.old dim }
    requires u { u < box_count instance.now }
    requires v { v < box_count instance.now }
    requires distinct { u ≡ v → ⊥ }
    requires all { (x : ℕ) → row_has all x ≡ nat_lt x (box_count instance.now) }
    ensures { HasApplied instance.now state.old state.new result
        (IsReachedNear instance.now dim u v (mask_has left) (mask_has turned)
        (mask_has stale)) }
{
    if spread_both(instance, state, all, dim, u, v, left, turned, stale) {
        return true;
    }
    apply_apart_if_joined::<K>(instance, state, dim, u, v, left)
}

// The instances of CYCLE that ask for two boxes that are apart, then those of `spread_near`.
#[inline(never)]
fn spread_chorded<const K: usize>(
    instance: &Instance,
    state: &mut EdgeState,
    all: BitRow<K>,
    dim: u32,
    u: u32,
    v: u32,
    left: Mask,
    turned: Mask,
    stale: Mask,
) -> bool
    requires words { HoldsBoxes K (box_count instance.now) }
    requires sizes { IsSized instance.now state.old dim }
    requires u { u < box_count instance.now }
    requires v { v < box_count instance.now }
    requires distinct { u ≡ v → ⊥ }
    requires all { (x : ℕ) → row_has all x ≡ nat_lt x (box_count instance.now) }
    ensures { HasApplied instance.now state.old state.new result
        (IsReachedChorded instance.now dim u v (mask_has left) (mask_has turned)
        (mask_has stale)) }
{
    if spread_chords(instance, state, all, dim, u, v, left, stale) {
        return true;
    }
    spread_near(instance, state, all, dim, u, v, left, turned, stale)
}

// All instances but those of COMPOSE and TRIPLE. Most changes imply nothing new, so what applies
// rules is kept out of line.
#[inline(always)]
fn propagate_if_any<const K: usize>(
    instance: &Instance,
    state: &mut EdgeState,
    all: BitRow<K>,
    dim: u32,
    u: u32,
    v: u32,
    left: Mask,
    turned: Mask,
    stale: Mask,
) -> bool
    requires words { HoldsBoxes K (box_count instance.now) }
    requires sizes { IsSized instance.now state.old dim }
    requires u { u < box_count instance.now }
    requires v { v < box_count instance.now }
    requires distinct { u ≡ v → ⊥ }
    requires all { (x : ℕ) → row_has all x ≡ nat_lt x (box_count instance.now) }
    requires turned { (r : PlainRel) → mask_has turned r ≡ mask_has left (mirror r) }
    ensures { HasApplied instance.now state.old state.new result
        (IsReachedChorded instance.now dim u v (mask_has left) (mask_has turned)
        (mask_has stale)) }
{
    if may_spread_chords(instance, state, all, dim, u, v, left, stale) {
        return spread_chorded(instance, state, all, dim, u, v, left, turned, stale);
    }
    if may_spread_both(instance, state, all, dim, u, v, left, turned, stale) {
        return spread_near(instance, state, all, dim, u, v, left, turned, stale);
    }
    apply_apart_if_joined::<K>(instance, state, dim, u, v, left)
}

// All instances but those of COMPOSE.
#[inline(never)]
fn spread_later<const K: usize>(
    instance: &Instance,
    state: &mut EdgeState,
    all: BitRow<K>,
    dim: u32,
    u: u32,
    v: u32,
    left: Mask,
    turned: Mask,
    stale: Mask,
    most: u32,
) -> bool
    requires words { HoldsBoxes K (box_count instance.now) }
    requires sizes { IsSized instance.now state.old dim }
    requires u { u < box_count instance.now }
    requires v { v < box_count instance.now }
    requires distinct { u ≡ v → ⊥ }
    requires all { (x : ℕ) → row_has all x ≡ nat_lt x (box_count instance.now) }
    requires turned { (r : PlainRel) → mask_has turned r ≡ mask_has left (mirror r) }
    requires most { BoundsSides instance.now dim most }
    ensures { HasApplied instance.now state.old state.new result
        (IsReachedLater instance.now dim u v (mask_has left) (mask_has turned)
        (mask_has stale)) }
{
    if spread_apart::<K>(instance, state, dim, u, v, left, stale, most) {
        return true;
    }
    propagate_if_any(instance, state, all, dim, u, v, left, turned, stale)
}

// All instances that read the mask of an edge. Of instances that add the same, one is applied.
#[inline(never)]
fn apply_all_rules<const K: usize>(
    instance: &Instance,
    state: &mut EdgeState,
    all: BitRow<K>,
    dim: u32,
    u: u32,
    v: u32,
    left: Mask,
    stale: Mask,
    most: u32,
) -> bool
    requires words { HoldsBoxes K (box_count instance.now) }
    requires sizes { IsSized instance.now state.old dim }
    requires u { u < box_count instance.now }
    requires v { v < box_count instance.now }
    requires distinct { u ≡ v → ⊥ }
    requires all { (x : ℕ) → row_has all x ≡ nat_lt x (box_count instance.now) }
    requires left { (r : PlainRel) → mask_has left r ≡ not (excludes state.old.trail dim u v r) }
    requires most { BoundsSides instance.now dim most }
    ensures { HasApplied instance.now state.old state.new result
        (λ rule. HasNoEmptyMask instance.now (excludes state.old.trail)
        × IsDue (λ r. not (mask_has stale r)) dim u v rule) }
{
    if spread_composed::<K>(instance, state, dim, u, v, left) {
        return true;
    }
    spread_later(
        instance,
        state,
        all,
        dim,
        u,
        v,
        left,
        flip(left),
        stale,
        most,
    )
}

// Like `apply_all_rules`, after a precheck, since most changes imply nothing new.
#[inline(always)]
fn propagate_mask<const K: usize>(
    instance: &Instance,
    state: &mut EdgeState,
    all: BitRow<K>,
    dim: u32,
    u: u32,
    v: u32,
    left: Mask,
    stale: Mask,
    most: u32,
) -> bool
    requires words { HoldsBoxes K (box_count instance.now) }
    requires sizes { IsSized instance.now state.old dim }
    requires u { u < box_count instance.now }
    requires v { v < box_count instance.now }
    requires distinct { u ≡ v → ⊥ }
    requires all { (x : ℕ) → row_has all x ≡ nat_lt x (box_count instance.now) }
    requires left { (r : PlainRel) → mask_has left r ≡ not (excludes state.old.trail dim u v r) }
    requires most { BoundsSides instance.now dim most }
    ensures { HasApplied instance.now state.old state.new result
        (λ rule. HasNoEmptyMask instance.now (excludes state.old.trail)
        × IsDue (λ r. not (mask_has stale r)) dim u v rule) }
{
    if may_compose::<K>(instance, state, dim, u, v, left) {
        return apply_all_rules(instance, state, all, dim, u, v, left, stale, most);
    }
    let turned = flip(left);
    if may_spread_apart::<K>(instance, state, dim, u, v, left, stale, most) {
        return spread_later(instance, state, all, dim, u, v, left, turned, stale, most);
    }
    propagate_if_any(instance, state, all, dim, u, v, left, turned, stale)
}

// The mask with one relation.
#[inline(always)]
fn only(rel: Rel) -> Mask
    ensures { (r : PlainRel) → mask_has result r ≡ is_same_rel rel r }
{
    match rel {
        Rel::Overlap => Mask::all().without(Rel::Before).without(Rel::After),
        Rel::Before => Mask::all().without(Rel::Overlap).without(Rel::After),
        Rel::After => Mask::all().without(Rel::Overlap).without(Rel::Before),
    }
}

// The mask with the two other relations.
#[inline(always)]
fn but(rel: Rel) -> Mask
    ensures { (r : PlainRel) → mask_has result r ≡ not (is_same_rel rel r) }
{
    Mask::all().without(rel)
}

/// Applies all instances that read the mask of an edge, which is `left`. Of instances that add the
/// same, one is applied.
///
/// `left` is a constant in each arm, so inlining drops the rule groups that this mask rules out.
/// The worklist never passes a full or an empty mask; the last arm covers them.
#[inline(always)]
pub(crate) fn propagate_edge<const K: usize>(
    instance: &Instance,
    state: &mut EdgeState,
    all: BitRow<K>,
    dim: u32,
    u: u32,
    v: u32,
    left: Mask,
    stale: Mask,
    most: u32,
) -> bool
    requires words { HoldsBoxes K (box_count instance.now) }
    requires sizes { IsSized instance.now state.old dim }
    requires u { u < box_count instance.now }
    requires v { v < box_count instance.now }
    requires distinct { u ≡ v → ⊥ }
    requires all { (x : ℕ) → row_has all x ≡ nat_lt x (box_count instance.now) }
    requires left { (r : PlainRel) → mask_has left r ≡ not (excludes state.old.trail dim u v r) }
    requires most { BoundsSides instance.now dim most }
    ensures { HasApplied instance.now state.old state.new result
        (λ rule. HasNoEmptyMask instance.now (excludes state.old.trail)
        × IsDue (λ r. not (mask_has stale r)) dim u v rule) }
{
    let (overlap, before, after) = (Rel::Overlap, Rel::Before, Rel::After);
    match left.bits() {
        1 => propagate_mask(instance, state, all, dim, u, v, only(overlap), stale, most),
        2 => propagate_mask(instance, state, all, dim, u, v, only(before), stale, most),
        3 => propagate_mask(instance, state, all, dim, u, v, but(after), stale, most),
        4 => propagate_mask(instance, state, all, dim, u, v, only(after), stale, most),
        5 => propagate_mask(instance, state, all, dim, u, v, but(before), stale, most),
        6 => propagate_mask(instance, state, all, dim, u, v, but(overlap), stale, most),
        _ => apply_all_rules(instance, state, all, dim, u, v, left, stale, most),
    }
}
