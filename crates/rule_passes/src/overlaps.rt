//! APART for a changed edge: it is applied in one dimension after another, and the answer says
//! whether a mask is empty; it stops there.
ghost use Rattle.std.specs.Prelude.{◌≡◌, ◌≢◌, ◌<◌, ℕ, true, false};
ghost use Rattle.packing_terms.specs.Packing.{dims, box_count};
ghost use Rattle.packing_terms.specs.Exclusions.{excludes, IsJoined};
ghost use Rattle.packing_terms.specs.Rules.{Apart};
ghost use Rattle.edge_state.specs.BitRows.{HoldsBoxes};
ghost use Rattle.edge_state.specs.States.{IsSized};
ghost use Rattle.edge_state.specs.Work.{HasApplied};

use crate::empties::is_empty_at;
use crate::rows::either;
use box_instances::Instance;
use edge_state::{EdgeState, Rel};

// Whether two boxes aren't joined in a dimension other than one.
#[inline(always)]
fn is_parted<const K: usize>(
    instance: &Instance,
    state: &EdgeState,
    i: u32,
    other: u32,
    u: u32,
    v: u32,
) -> bool
    requires words { HoldsBoxes K (box_count instance.now) }
    requires sizes { IsSized instance.now state.now other }
    requires u { u < box_count instance.now }
    requires v { v < box_count instance.now }
    requires distinct { u ≡ v → ⊥ }
    ensures joined { result ≡ false → other ≢ i → IsJoined (excludes state.now.trail) other u v }
    ensures parted { result ≡ true → (other ≢ i)
        × (IsJoined (excludes state.now.trail) other u v → ⊥) }
{
    if other == i {
        return false;
    }
    let apart = either::<K>(instance, state, other, u, Rel::Before, Rel::After);
    apart.has(v)
}

// Whether two boxes are joined in each dimension but one.
#[inline(always)]
fn joined_beside<const K: usize>(
    instance: &Instance,
    state: &EdgeState,
    i: u32,
    u: u32,
    v: u32,
) -> bool
    requires words { HoldsBoxes K (box_count instance.now) }
    requires dims { state.now.dims ≡ dims instance.now }
    requires boxes { state.now.boxes ≡ box_count instance.now }
    requires u { u < box_count instance.now }
    requires v { v < box_count instance.now }
    requires distinct { u ≡ v → ⊥ }
    ensures each { result ≡ true → (j : ℕ) → j < dims instance.now → j ≢ i
        → IsJoined (excludes state.now.trail) j u v }
    ensures some { result ≡ false → ((j : ℕ) → j < dims instance.now → j ≢ i
        → IsJoined (excludes state.now.trail) j u v) → ⊥ }
{
    for other in 0..instance.dims() {
        if is_parted::<K>(instance, state, i, other, u, v) {
            return false;
        }
    }
    true
}

// Excludes overlap of two boxes that are joined in each other dimension: APART.
#[inline(never)]
fn exclude_overlap<const K: usize>(
    instance: &Instance,
    state: &mut EdgeState,
    i: u32,
    u: u32,
    v: u32,
) -> bool
    requires words { HoldsBoxes K (box_count instance.now) }
    requires sizes { IsSized instance.now state.old i }
    requires u { u < box_count instance.now }
    requires v { v < box_count instance.now }
    requires distinct { u ≡ v → ⊥ }
    requires joined { (j : ℕ) → j < dims instance.now → j ≢ i
        → IsJoined (excludes state.old.trail) j u v }
    ensures { HasApplied instance.now state.old state.new result (λ rule. rule ≡ Apart i u v) }
{
    // What it answers isn't asked anywhere, so that it isn't computed.
    let _ = state.exclude_in::<K>(i, u, v, Rel::Overlap);
    is_empty_at(instance, state, i, u, v)
}

// APART in a dimension other than the one that changed.
#[inline(always)]
fn apart_at<const K: usize>(
    instance: &Instance,
    state: &mut EdgeState,
    dim: u32,
    i: u32,
    u: u32,
    v: u32,
) -> bool
    requires words { HoldsBoxes K (box_count instance.now) }
    requires sizes { IsSized instance.now state.old dim }
    requires i { i < dims instance.now }
    requires u { u < box_count instance.now }
    requires v { v < box_count instance.now }
    requires distinct { u ≡ v → ⊥ }
    ensures { HasApplied instance.now state.old state.new result
        (λ rule. (dim ≢ i) × (rule ≡ Apart i u v)) }
{
    if i == dim {
        return false;
    }
    let near = state.row_in::<K>(i, u, Rel::Overlap);
    if !near.has(v) {
        return false;
    }
    if !joined_beside::<K>(instance, state, i, u, v) {
        return false;
    }
    exclude_overlap::<K>(instance, state, i, u, v)
}

/// APART in each other dimension.
#[inline(always)]
pub(crate) fn aparts<const K: usize>(
    instance: &Instance,
    state: &mut EdgeState,
    dim: u32,
    u: u32,
    v: u32,
) -> bool
    requires words { HoldsBoxes K (box_count instance.now) }
    requires sizes { IsSized instance.now state.old dim }
    requires u { u < box_count instance.now }
    requires v { v < box_count instance.now }
    requires distinct { u ≡ v → ⊥ }
    ensures { HasApplied instance.now state.old state.new result
        (λ rule. (i : ℕ) × (i < dims instance.now) × ((dim ≢ i) × (rule ≡ Apart i u v))) }
{
    for i in 0..instance.dims() {
        if apart_at::<K>(instance, state, dim, i, u, v) {
            return true;
        }
    }
    false
}
