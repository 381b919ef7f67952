//! CYCLE for a changed edge.
//!
//! Each call answers whether a mask is empty, and stops there.
ghost use Rattle.std.specs.Prelude.{◌≡◌, ◌<◌, ◌⊎◌, ℕ, true, false, nat_lt};
ghost use Rattle.packing_terms.specs.Packing.{box_count};
ghost use Rattle.packing_terms.specs.Exclusions.{excludes, IsJoined};
ghost use Rattle.packing_terms.specs.Rules.{Cycle};
ghost use Rattle.edge_state.specs.BitRows.{HoldsBoxes, row_has};
ghost use Rattle.edge_state.specs.Instances.{Chords, Cycles};
ghost use Rattle.edge_state.specs.States.{IsSized};
ghost use Rattle.edge_state.specs.Work.{HasApplied};

use crate::candidates::{cycle_fourths, cycle_seconds, cycle_thirds};
use crate::excluding::{exclude_between, exclude_both};
use crate::rows::{either, gone_of_any};
use box_instances::Instance;
use edge_state::{BitRow, EdgeState, Rel};

/// Whether CYCLE may exclude something with the first two boxes given: some box is joined with the
/// first and not with the second, and with some third that closes a path.
#[inline(always)]
pub(crate) fn may_cycle<const K: usize>(
    instance: &Instance,
    state: &EdgeState,
    all: BitRow<K>,
    dim: u32,
    a: u32,
    b: u32,
) -> bool
    requires words { HoldsBoxes K (box_count instance.now) }
    requires sizes { IsSized instance.now state.now dim }
    requires a { a < box_count instance.now }
    requires b { b < box_count instance.now }
    requires all { (x : ℕ) → row_has all x ≡ nat_lt x (box_count instance.now) }
    ensures { result ≡ false → HasApplied instance.now state.now state.now false
        (Cycles instance.now dim a b) }
{
    let fourths = cycle_fourths::<K>(instance, state, dim, a, b);
    if fourths.is_empty() {
        return false;
    }
    let thirds = cycle_thirds(instance, state, all, dim, a, b);
    let closing = gone_of_any(instance, state, all, dim, thirds, Rel::Before, Rel::After);
    !fourths.and(closing).is_empty()
}

/// CYCLE with the first two boxes given, for all third boxes at once: it excludes at the second
/// box alone, so the fourth ones of all third boxes make one row.
#[inline(always)]
pub(crate) fn cycles<const K: usize>(
    instance: &Instance,
    state: &mut EdgeState,
    all: BitRow<K>,
    dim: u32,
    a: u32,
    b: u32,
) -> bool
    requires words { HoldsBoxes K (box_count instance.now) }
    requires sizes { IsSized instance.now state.old dim }
    requires a { a < box_count instance.now }
    requires b { b < box_count instance.now }
    requires distinct { a ≡ b → ⊥ }
    requires all { (x : ℕ) → row_has all x ≡ nat_lt x (box_count instance.now) }
    ensures { HasApplied instance.now state.old state.new result
        (λ rule. (c : ℕ) × (c < box_count instance.now)
        × ((d : ℕ) × (d < box_count instance.now) × (rule ≡ Cycle dim a b c d))) }
{
    if !may_cycle(instance, state, all, dim, a, b) {
        return false;
    }
    if !state.joined_in::<K>(dim, a, b) {
        return false;
    }
    let fourths = cycle_fourths::<K>(instance, state, dim, a, b);
    let thirds = cycle_thirds(instance, state, all, dim, a, b);
    let closing = gone_of_any(instance, state, all, dim, thirds, Rel::Before, Rel::After);
    let row = fourths.and(closing);
    exclude_both(instance, state, dim, b, Rel::Before, Rel::After, row)
}

// Whether two boxes of a row aren't joined.
#[inline(always)]
fn has_open_pair<const K: usize>(
    instance: &Instance,
    state: &EdgeState,
    dim: u32,
    row: BitRow<K>,
) -> bool
    requires words { HoldsBoxes K (box_count instance.now) }
    requires sizes { IsSized instance.now state.now dim }
    requires within { (b : ℕ) → row_has row b ≡ true → b < box_count instance.now }
    ensures { result ≡ false → (b d : ℕ) → row_has row.entry b ≡ true → row_has row.entry d ≡ true
        → (b ≡ d → ⊥) → IsJoined (excludes state.now.trail) dim b d }
{
    let mut rest = row;
    while let Some(b) = rest.first() {
        rest = rest.without(b);
        let open = either::<K>(instance, state, dim, b, Rel::Before, Rel::After);
        if !open.and(row).is_empty() {
            return true;
        }
    }
    false
}

/// Whether CYCLE may exclude something with the first and the third box given, in one of the
/// orders: two boxes that aren't joined are joined with both. At 97 of 100 edges and more, those
/// that are joined with both are joined already (three texts of 14 to 50 boxes).
#[inline(always)]
pub(crate) fn may_chord<const K: usize>(
    instance: &Instance,
    state: &EdgeState,
    all: BitRow<K>,
    dim: u32,
    a: u32,
    c: u32,
) -> bool
    requires words { HoldsBoxes K (box_count instance.now) }
    requires sizes { IsSized instance.now state.now dim }
    requires a { a < box_count instance.now }
    requires c { c < box_count instance.now }
    requires distinct { a ≡ c → ⊥ }
    requires all { (x : ℕ) → row_has all x ≡ nat_lt x (box_count instance.now) }
    ensures { result ≡ false → HasApplied instance.now state.now state.now false
        (λ rule. Chords instance.now dim a c rule ⊎ Chords instance.now dim c a rule) }
{
    let seconds = cycle_seconds(instance, state, all, dim, a, c);
    has_open_pair(instance, state, dim, seconds)
}

/// CYCLE with the first and the third box given, in both orders: any two boxes that are joined with
/// both of these overlap.
#[inline(always)]
pub(crate) fn chords<const K: usize>(
    instance: &Instance,
    state: &mut EdgeState,
    all: BitRow<K>,
    dim: u32,
    a: u32,
    c: u32,
) -> bool
    requires words { HoldsBoxes K (box_count instance.now) }
    requires sizes { IsSized instance.now state.old dim }
    requires a { a < box_count instance.now }
    requires c { c < box_count instance.now }
    requires distinct { a ≡ c → ⊥ }
    requires all { (x : ℕ) → row_has all x ≡ nat_lt x (box_count instance.now) }
    ensures { HasApplied instance.now state.old state.new result
        (λ rule. Chords instance.now dim a c rule ⊎ Chords instance.now dim c a rule) }
{
    if !may_chord(instance, state, all, dim, a, c) {
        return false;
    }
    if state.mask_in::<K>(dim, a, c).has(Rel::Overlap) {
        return false;
    }
    let row = cycle_seconds(instance, state, all, dim, a, c);
    exclude_between(instance, state, dim, row, row, Rel::Before, Rel::After)
}
