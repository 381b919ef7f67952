//! COMPOSE for a changed edge, by whole rows.
ghost use Rattle.std.specs.Prelude.{◌≡◌, ◌<◌, ◌⊎◌, ℕ, true, false, not, IsTrue};
ghost use Rattle.packing_terms.specs.declared.Rel.{Rel as PlainRel};
ghost use Rattle.packing_terms.specs.declared.Rel.TheVariants.{Overlap, Before, After};
ghost use Rattle.packing_terms.specs.Packing.{box_count};
ghost use Rattle.packing_terms.specs.Exclusions.{excludes};
ghost use Rattle.packing_terms.specs.Rules.{Follows};
ghost use Rattle.packing_terms.specs.Places.{HasNoEmptyMask};
ghost use Rattle.relation_table.specs.Masks.{mask_has};
ghost use Rattle.edge_state.specs.BitRows.{HoldsBoxes, row_has};
ghost use Rattle.edge_state.specs.Edges.{is_other_box};
ghost use Rattle.edge_state.specs.Instances.{Composes};
ghost use Rattle.edge_state.specs.States.{IsSized};
ghost use Rattle.edge_state.specs.Work.{HasApplied};
ghost use Rattle.rule_passes.specs.Reached.{NoRule};

use crate::candidates::uncomposed;
use crate::excluding::exclude_each;
use box_instances::Instance;
use edge_state::{BitRow, EdgeState, Mask, Rel};
use relation_table::flip;

// Excludes of `u` each relation at the boxes of its row.
#[inline(always)]
fn exclude_three<const K: usize>(
    instance: &Instance,
    state: &mut EdgeState,
    dim: u32,
    u: u32,
    overlap: BitRow<K>,
    before: BitRow<K>,
    after: BitRow<K>,
) -> bool
    requires words { HoldsBoxes K (box_count instance.now) }
    requires sizes { IsSized instance.now state.old dim }
    requires u { u < box_count instance.now }
    requires overlap { (x : ℕ) → row_has overlap x ≡ true
        → (is_other_box (box_count instance.now) u x ≡ true)
        × Follows instance.now (excludes state.old.trail) dim u x Overlap }
    requires before { (x : ℕ) → row_has before x ≡ true
        → (is_other_box (box_count instance.now) u x ≡ true)
        × Follows instance.now (excludes state.old.trail) dim u x Before }
    requires after { (x : ℕ) → row_has after x ≡ true
        → (is_other_box (box_count instance.now) u x ≡ true)
        × Follows instance.now (excludes state.old.trail) dim u x After }
    ensures worked { HasApplied instance.now state.old state.new result NoRule }
    ensures overlap { result ≡ false → (x : ℕ) → row_has overlap.entry x ≡ true
        → IsTrue (excludes state.new.trail dim u x Overlap) }
    ensures before { result ≡ false → (x : ℕ) → row_has before.entry x ≡ true
        → IsTrue (excludes state.new.trail dim u x Before) }
    ensures after { result ≡ false → (x : ℕ) → row_has after.entry x ≡ true
        → IsTrue (excludes state.new.trail dim u x After) }
{
    if exclude_each(instance, state, dim, u, Rel::Overlap, overlap) {
        return true;
    }
    if exclude_each(instance, state, dim, u, Rel::Before, before) {
        return true;
    }
    exclude_each(instance, state, dim, u, Rel::After, after)
}

/// COMPOSE in both orders of the boxes of an edge, whose mask is given, if no mask is empty. What
/// is to be excluded is found for both orders before anything is, so the rows of the two are read
/// once.
#[inline(always)]
pub(crate) fn spread_composed<const K: usize>(
    instance: &Instance,
    state: &mut EdgeState,
    dim: u32,
    u: u32,
    v: u32,
    left: Mask,
) -> bool
    requires words { HoldsBoxes K (box_count instance.now) }
    requires sizes { IsSized instance.now state.old dim }
    requires u { u < box_count instance.now }
    requires v { v < box_count instance.now }
    requires distinct { u ≡ v → ⊥ }
    requires left { (r : PlainRel) → mask_has left r ≡ not (excludes state.old.trail dim u v r) }
    ensures { HasApplied instance.now state.old state.new result
        (λ rule. HasNoEmptyMask instance.now (excludes state.old.trail)
        × (Composes instance.now dim u v rule ⊎ Composes instance.now dim v u rule)) }
{
    let turned = flip(left);
    let overlap = uncomposed::<K>(instance, state, dim, u, v, left, Rel::Overlap);
    let before = uncomposed::<K>(instance, state, dim, u, v, left, Rel::Before);
    let after = uncomposed::<K>(instance, state, dim, u, v, left, Rel::After);
    let overlap_back = uncomposed::<K>(instance, state, dim, v, u, turned, Rel::Overlap);
    let before_back = uncomposed::<K>(instance, state, dim, v, u, turned, Rel::Before);
    let after_back = uncomposed::<K>(instance, state, dim, v, u, turned, Rel::After);
    if exclude_three(instance, state, dim, u, overlap, before, after) {
        return true;
    }
    exclude_three(
        instance,
        state,
        dim,
        v,
        overlap_back,
        before_back,
        after_back,
    )
}
