//! Relations excluded between a box and each box of a row, at which they follow by a rule.
//!
//! Each call answers whether a mask is empty, and stops there.
ghost use Rattle.std.specs.Prelude.{◌≡◌, ◌<◌, ℕ, true, false, IsTrue};
ghost use Rattle.packing_terms.specs.declared.Rel.TheVariants.{Overlap};
ghost use Rattle.packing_terms.specs.Packing.{box_count};
ghost use Rattle.packing_terms.specs.Exclusions.{excludes};
ghost use Rattle.packing_terms.specs.Rules.{Follows};
ghost use Rattle.edge_state.specs.BitRows.{HoldsBoxes, row_has};
ghost use Rattle.edge_state.specs.Edges.{is_other_box};
ghost use Rattle.edge_state.specs.States.{IsSized};
ghost use Rattle.edge_state.specs.Work.{HasApplied};
ghost use Rattle.rule_passes.specs.Reached.{NoRule};

use crate::rows::either;
use box_instances::Instance;
use edge_state::{BitRow, EdgeState, Rel};

/// Excludes one relation of `u` and each box of a row. Reads no mask if it is excluded at each
/// already.
#[inline(always)]
pub(crate) fn exclude_each<const K: usize>(
    instance: &Instance,
    state: &mut EdgeState,
    dim: u32,
    u: u32,
    rel: Rel,
    row: BitRow<K>,
) -> bool
    requires words { HoldsBoxes K (box_count instance.now) }
    requires sizes { IsSized instance.now state.old dim }
    requires u { u < box_count instance.now }
    requires other { (v : ℕ) → row_has row v ≡ true
        → is_other_box (box_count instance.now) u v ≡ true }
    requires follows { (v : ℕ) → row_has row v ≡ true
        → Follows instance.now (excludes state.old.trail) dim u v rel }
    ensures worked { HasApplied instance.now state.old state.new result NoRule }
    ensures excluded { (v : ℕ) → row_has row.entry v ≡ true
        → IsTrue (excludes state.new.trail dim u v rel) }
{
    let open = state.row_in::<K>(dim, u, rel);
    let left = row.and(open);
    if left.is_empty() {
        return false;
    }
    state.exclude_row::<K>(dim, u, rel, left)
}

/// Excludes two relations of `u` and each box of a row.
#[inline(always)]
pub(crate) fn exclude_both<const K: usize>(
    instance: &Instance,
    state: &mut EdgeState,
    dim: u32,
    u: u32,
    first: Rel,
    second: Rel,
    row: BitRow<K>,
) -> bool
    requires words { HoldsBoxes K (box_count instance.now) }
    requires sizes { IsSized instance.now state.old dim }
    requires u { u < box_count instance.now }
    requires other { (v : ℕ) → row_has row v ≡ true
        → is_other_box (box_count instance.now) u v ≡ true }
    requires follows { (v : ℕ) → row_has row v ≡ true
        → Follows instance.now (excludes state.old.trail) dim u v first
        × Follows instance.now (excludes state.old.trail) dim u v second }
    ensures worked { HasApplied instance.now state.old state.new result NoRule }
    ensures excluded { result ≡ false → (v : ℕ) → row_has row.entry v ≡ true
        → IsTrue (excludes state.new.trail dim u v first)
        × IsTrue (excludes state.new.trail dim u v second) }
{
    if exclude_each(instance, state, dim, u, first, row) {
        return true;
    }
    exclude_each(instance, state, dim, u, second, row)
}

/// Excludes two relations between each box of a row and each other box of a second row.
#[inline(always)]
pub(crate) fn exclude_between<const K: usize>(
    instance: &Instance,
    state: &mut EdgeState,
    dim: u32,
    from: BitRow<K>,
    to: BitRow<K>,
    first: Rel,
    second: Rel,
) -> bool
    requires words { HoldsBoxes K (box_count instance.now) }
    requires sizes { IsSized instance.now state.old dim }
    requires from { (u : ℕ) → row_has from u ≡ true → u < box_count instance.now }
    requires follows { (u v : ℕ) → row_has from u ≡ true → row_has to v ≡ true → (u ≡ v → ⊥)
        → Follows instance.now (excludes state.old.trail) dim u v first
        × Follows instance.now (excludes state.old.trail) dim u v second }
    ensures worked { HasApplied instance.now state.old state.new result NoRule }
    ensures excluded { result ≡ false → (u v : ℕ) → row_has from.entry u ≡ true
        → row_has to.entry v ≡ true → v < box_count instance.now → (u ≡ v → ⊥)
        → IsTrue (excludes state.new.trail dim u v first)
        × IsTrue (excludes state.new.trail dim u v second) }
{
    let mut rest = from;
    while let Some(u) = rest.first() {
        rest = rest.without(u);
        let open = either::<K>(instance, state, dim, u, first, second);
        if exclude_both(instance, state, dim, u, first, second, open.and(to)) {
            return true;
        }
    }
    false
}

/// Excludes overlap between each box of a row and each other box of a second row.
#[inline(always)]
pub(crate) fn exclude_overlaps<const K: usize>(
    instance: &Instance,
    state: &mut EdgeState,
    dim: u32,
    from: BitRow<K>,
    to: BitRow<K>,
) -> bool
    requires words { HoldsBoxes K (box_count instance.now) }
    requires sizes { IsSized instance.now state.old dim }
    requires from { (u : ℕ) → row_has from u ≡ true → u < box_count instance.now }
    requires to { (v : ℕ) → row_has to v ≡ true → v < box_count instance.now }
    requires follows { (u v : ℕ) → row_has from u ≡ true → row_has to v ≡ true → (u ≡ v → ⊥)
        → Follows instance.now (excludes state.old.trail) dim u v Overlap }
    ensures worked { HasApplied instance.now state.old state.new result NoRule }
    ensures excluded { result ≡ false → (u v : ℕ) → row_has from.entry u ≡ true
        → row_has to.entry v ≡ true → (u ≡ v → ⊥)
        → IsTrue (excludes state.new.trail dim u v Overlap) }
{
    let mut rest = from;
    while let Some(u) = rest.first() {
        rest = rest.without(u);
        if exclude_each(instance, state, dim, u, Rel::Overlap, to.without(u)) {
            return true;
        }
    }
    false
}
