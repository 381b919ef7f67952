//! Rows of boxes: those for which relations to one box are left or gone.
ghost use Rattle.std.specs.Prelude.{◌≡◌, ◌<◌, ◌⊎◌, ◌&&◌, ◌||◌, ℕ, true, false, nat_lt, IsTrue};
ghost use Rattle.packing_terms.specs.declared.Rel.TheVariants.{Overlap};
ghost use Rattle.packing_terms.specs.Packing.{box_count};
ghost use Rattle.packing_terms.specs.Exclusions.{excludes};
ghost use Rattle.packing_terms.specs.Limits.{IsBoxCount};
ghost use Rattle.edge_state.specs.BitRows.{IsRowWidth, HoldsBoxes, row_has};
ghost use Rattle.edge_state.specs.Edges.{is_other_box};
ghost use Rattle.edge_state.specs.States.{IsSized};
ghost use Rattle.rule_passes.specs.Reached.{IsGoneOf};

use box_instances::Instance;
use edge_state::{BitRow, EdgeState, Rel};

/// The row where it is wanted, and else the empty one.
#[inline(always)]
pub(crate) fn pick<const K: usize>(row: BitRow<K>, wanted: bool) -> BitRow<K>
    requires { IsRowWidth K }
    ensures { (x : ℕ) → row_has result x ≡ row_has row.entry x && wanted }
{
    if wanted { row } else { BitRow::empty() }
}

/// What is in one of three rows.
#[inline(always)]
pub(crate) fn one_of<const K: usize>(
    first: BitRow<K>,
    second: BitRow<K>,
    third: BitRow<K>,
) -> BitRow<K>
    requires { IsRowWidth K }
    ensures { (x : ℕ) → row_has result x ≡ (row_has first.entry x || row_has second.entry x)
        || row_has third.entry x }
{
    first.or(second).or(third)
}

/// The row of all boxes.
pub(crate) fn all_boxes<const K: usize>(boxes: u32) -> BitRow<K>
    requires words { HoldsBoxes K boxes }
    requires count { IsBoxCount boxes }
    ensures { (x : ℕ) → row_has result x ≡ nat_lt x boxes }
{
    let mut all: BitRow<K> = BitRow::empty();
    for v in 0..boxes {
        all = all.with(v);
    }
    all
}

// The boxes for which one of two relations to `u` isn't excluded.
#[inline(always)]
pub(crate) fn either<const K: usize>(
    instance: &Instance,
    state: &EdgeState,
    dim: u32,
    u: u32,
    first: Rel,
    second: Rel,
) -> BitRow<K>
    requires words { HoldsBoxes K (box_count instance.now) }
    requires sizes { IsSized instance.now state.now dim }
    requires u { u < box_count instance.now }
    ensures within { (v : ℕ) → row_has result v ≡ true → v < box_count instance.now }
    ensures other { (v : ℕ) → row_has result v ≡ true
        → is_other_box (box_count instance.now) u v ≡ true }
    ensures excluded { (v : ℕ) → v < box_count instance.now → (u ≡ v → ⊥) → row_has result v ≡ false
        → IsTrue (excludes state.now.trail dim u v first)
        × IsTrue (excludes state.now.trail dim u v second) }
    ensures some { (v : ℕ) → row_has result v ≡ true
        → IsTrue (excludes state.now.trail dim u v first)
        → IsTrue (excludes state.now.trail dim u v second) → ⊥ }
{
    let one = state.row_in::<K>(dim, u, first);
    let other = state.row_in::<K>(dim, u, second);
    one.or(other)
}

/// The other boxes for which both relations to `u` are excluded.
#[inline(always)]
pub(crate) fn gone<const K: usize>(
    instance: &Instance,
    state: &EdgeState,
    all: BitRow<K>,
    dim: u32,
    u: u32,
    first: Rel,
    second: Rel,
) -> BitRow<K>
    requires words { HoldsBoxes K (box_count instance.now) }
    requires sizes { IsSized instance.now state.now dim }
    requires u { u < box_count instance.now }
    requires all { (x : ℕ) → row_has all x ≡ nat_lt x (box_count instance.now) }
    ensures within { (v : ℕ) → row_has result v ≡ true → v < box_count instance.now }
    ensures distinct { (v : ℕ) → row_has result v ≡ true → u ≡ v → ⊥ }
    ensures excluded { (v : ℕ) → row_has result v ≡ true
        → IsTrue (excludes state.now.trail dim u v first)
        × IsTrue (excludes state.now.trail dim u v second) }
    ensures others { (v : ℕ) → v < box_count instance.now → (u ≡ v → ⊥) → row_has result v ≡ false
        → IsTrue (excludes state.now.trail dim u v first)
        → IsTrue (excludes state.now.trail dim u v second) → ⊥ }
{
    let left = either::<K>(instance, state, dim, u, first, second);
    all.minus(left).without(u)
}

/// The boxes with which both `u` and `v` may overlap.
#[inline(always)]
pub(crate) fn near_both<const K: usize>(
    instance: &Instance,
    state: &EdgeState,
    dim: u32,
    u: u32,
    v: u32,
) -> BitRow<K>
    requires words { HoldsBoxes K (box_count instance.now) }
    requires sizes { IsSized instance.now state.now dim }
    requires u { u < box_count instance.now }
    requires v { v < box_count instance.now }
    ensures within { (x : ℕ) → row_has result x ≡ true → x < box_count instance.now }
    ensures first { (x : ℕ) → row_has result x ≡ true
        → is_other_box (box_count instance.now) u x ≡ true }
    ensures second { (x : ℕ) → row_has result x ≡ true
        → is_other_box (box_count instance.now) v x ≡ true }
    ensures others { (x : ℕ) → x < box_count instance.now → (u ≡ x → ⊥) → (v ≡ x → ⊥)
        → row_has result x ≡ false → IsTrue (excludes state.now.trail dim u x Overlap)
        ⊎ IsTrue (excludes state.now.trail dim v x Overlap) }
{
    let first = state.row_in::<K>(dim, u, Rel::Overlap);
    let second = state.row_in::<K>(dim, v, Rel::Overlap);
    first.and(second)
}

/// Those of them to which `u` no longer has a relation.
#[inline(always)]
pub(crate) fn near_both_without<const K: usize>(
    instance: &Instance,
    state: &EdgeState,
    dim: u32,
    u: u32,
    v: u32,
    rel: Rel,
) -> BitRow<K>
    requires words { HoldsBoxes K (box_count instance.now) }
    requires sizes { IsSized instance.now state.now dim }
    requires u { u < box_count instance.now }
    requires v { v < box_count instance.now }
    ensures within { (x : ℕ) → row_has result x ≡ true → x < box_count instance.now }
    ensures first { (x : ℕ) → row_has result x ≡ true
        → is_other_box (box_count instance.now) u x ≡ true }
    ensures second { (x : ℕ) → row_has result x ≡ true
        → is_other_box (box_count instance.now) v x ≡ true }
    ensures excluded { (x : ℕ) → row_has result x ≡ true
        → IsTrue (excludes state.now.trail dim u x rel) }
    ensures others { (x : ℕ) → x < box_count instance.now → (u ≡ x → ⊥) → (v ≡ x → ⊥)
        → row_has result x ≡ false → IsTrue (excludes state.now.trail dim u x rel)
        → IsTrue (excludes state.now.trail dim u x Overlap)
        ⊎ IsTrue (excludes state.now.trail dim v x Overlap) }
{
    let near = near_both::<K>(instance, state, dim, u, v);
    let left = state.row_in::<K>(dim, u, rel);
    near.minus(left)
}

/// The boxes for which both relations to some other member of a row are excluded.
#[inline(always)]
pub(crate) fn gone_of_any<const K: usize>(
    instance: &Instance,
    state: &EdgeState,
    all: BitRow<K>,
    dim: u32,
    row: BitRow<K>,
    first: Rel,
    second: Rel,
) -> BitRow<K>
    requires words { HoldsBoxes K (box_count instance.now) }
    requires sizes { IsSized instance.now state.now dim }
    requires all { (x : ℕ) → row_has all x ≡ nat_lt x (box_count instance.now) }
    requires within { (x : ℕ) → row_has row x ≡ true → x < box_count instance.now }
    ensures within { (y : ℕ) → row_has result y ≡ true → y < box_count instance.now }
    ensures gone { (y : ℕ) → row_has result y ≡ true
        → IsGoneOf (excludes state.now.trail) dim (row_has row.entry) first second y }
    ensures others { (x y : ℕ) → row_has row.entry x ≡ true → y < box_count instance.now
        → (x ≡ y → ⊥) → row_has result y ≡ false
        → IsTrue (excludes state.now.trail dim x y first)
        → IsTrue (excludes state.now.trail dim x y second) → ⊥ }
{
    let mut rest = row;
    let mut found = BitRow::empty();
    while let Some(x) = rest.first() {
        rest = rest.without(x);
        found = found.or(gone(instance, state, all, dim, x, first, second));
    }
    found
}
