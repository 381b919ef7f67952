//! ORDER for a changed edge: each call answers whether a mask is empty, and stops there.
ghost use Rattle.std.specs.Prelude.{◌≡◌, ◌<◌, ℕ, true, false, nat_lt, IsTrue};
ghost use Rattle.packing_terms.specs.Packing.{box_count};
ghost use Rattle.packing_terms.specs.declared.Rel.TheVariants.{Overlap};
ghost use Rattle.packing_terms.specs.Exclusions.{excludes, IsSurelyBefore};
ghost use Rattle.packing_terms.specs.Rules.{Order};
ghost use Rattle.edge_state.specs.BitRows.{HoldsBoxes, row_has};
ghost use Rattle.edge_state.specs.Edges.{is_other_box};
ghost use Rattle.edge_state.specs.Instances.{OrdersFirst, OrdersSecond, OrdersCrossed};
ghost use Rattle.edge_state.specs.States.{IsSized};
ghost use Rattle.edge_state.specs.Work.{IsCovered, HasApplied};

use crate::candidates::{beyond_orders_from, beyond_orders_to};
use crate::excluding::{exclude_each, exclude_overlaps};
use crate::rows::{either, gone, gone_of_any, near_both, near_both_without};
use box_instances::Instance;
use edge_state::{BitRow, EdgeState, Rel};

// Whether ORDER may exclude something with its first pair, for one of the last boxes.
#[inline(always)]
fn may_order_lasts<const K: usize>(
    instance: &Instance,
    state: &EdgeState,
    dim: u32,
    a: u32,
    b: u32,
    lasts: BitRow<K>,
) -> bool
    requires words { HoldsBoxes K (box_count instance.now) }
    requires sizes { IsSized instance.now state.now dim }
    requires a { a < box_count instance.now }
    requires b { b < box_count instance.now }
    requires within { (d : ℕ) → row_has lasts d ≡ true → d < box_count instance.now }
    ensures { result ≡ false → (d : ℕ) → row_has lasts.entry d ≡ true → (c : ℕ)
        → c < box_count instance.now
        → IsCovered instance.now (excludes state.now.trail) state.now.trail (Order dim a b c d) }
{
    let free = near_both::<K>(instance, state, dim, b, a);
    let mut rest = lasts;
    while let Some(d) = rest.first() {
        rest = rest.without(d);
        let last = either::<K>(instance, state, dim, d, Rel::Overlap, Rel::Before);
        if !beyond_orders_from(instance, state, dim, a, b, d, free, last).is_empty() {
            return true;
        }
    }
    false
}

// Whether ORDER may exclude something with its second pair, for one of the first boxes.
#[inline(always)]
fn may_order_firsts<const K: usize>(
    instance: &Instance,
    state: &EdgeState,
    dim: u32,
    c: u32,
    d: u32,
    firsts: BitRow<K>,
) -> bool
    requires words { HoldsBoxes K (box_count instance.now) }
    requires sizes { IsSized instance.now state.now dim }
    requires c { c < box_count instance.now }
    requires d { d < box_count instance.now }
    requires within { (a : ℕ) → row_has firsts a ≡ true → a < box_count instance.now }
    ensures { result ≡ false → (a : ℕ) → row_has firsts.entry a ≡ true → (b : ℕ)
        → b < box_count instance.now
        → IsCovered instance.now (excludes state.now.trail) state.now.trail (Order dim a b c d) }
{
    let free = near_both::<K>(instance, state, dim, c, d);
    let mut rest = firsts;
    while let Some(a) = rest.first() {
        rest = rest.without(a);
        let first = either::<K>(instance, state, dim, a, Rel::Overlap, Rel::After);
        if !beyond_orders_to(instance, state, dim, a, c, d, free, first).is_empty() {
            return true;
        }
    }
    false
}

// The boxes that the first box is surely before, and with which the last may overlap.
#[inline(always)]
fn seconds_after<const K: usize>(
    instance: &Instance,
    state: &EdgeState,
    all: BitRow<K>,
    dim: u32,
    a: u32,
    d: u32,
) -> BitRow<K>
    requires words { HoldsBoxes K (box_count instance.now) }
    requires sizes { IsSized instance.now state.now dim }
    requires a { a < box_count instance.now }
    requires d { d < box_count instance.now }
    requires all { (x : ℕ) → row_has all x ≡ nat_lt x (box_count instance.now) }
    ensures within { (b : ℕ) → row_has result b ≡ true → b < box_count instance.now }
    ensures first { (b : ℕ) → row_has result b ≡ true → a ≡ b → ⊥ }
    ensures last { (b : ℕ) → row_has result b ≡ true
        → is_other_box (box_count instance.now) d b ≡ true }
    ensures sure { (b : ℕ) → row_has result b ≡ true
        → IsSurelyBefore (excludes state.now.trail) dim a b }
    ensures others { (b : ℕ) → b < box_count instance.now → (a ≡ b → ⊥) → (d ≡ b → ⊥)
        → row_has result b ≡ false → IsSurelyBefore (excludes state.now.trail) dim a b
        → IsTrue (excludes state.now.trail dim d b Overlap) }
{
    let after = gone(instance, state, all, dim, a, Rel::Overlap, Rel::After);
    let near = state.row_in::<K>(dim, d, Rel::Overlap);
    after.and(near)
}

// The boxes that are surely before the last box, and with which the first may overlap.
#[inline(always)]
fn thirds_before<const K: usize>(
    instance: &Instance,
    state: &EdgeState,
    all: BitRow<K>,
    dim: u32,
    a: u32,
    d: u32,
) -> BitRow<K>
    requires words { HoldsBoxes K (box_count instance.now) }
    requires sizes { IsSized instance.now state.now dim }
    requires a { a < box_count instance.now }
    requires d { d < box_count instance.now }
    requires all { (x : ℕ) → row_has all x ≡ nat_lt x (box_count instance.now) }
    ensures within { (c : ℕ) → row_has result c ≡ true → c < box_count instance.now }
    ensures last { (c : ℕ) → row_has result c ≡ true → d ≡ c → ⊥ }
    ensures first { (c : ℕ) → row_has result c ≡ true
        → is_other_box (box_count instance.now) a c ≡ true }
    ensures sure { (c : ℕ) → row_has result c ≡ true
        → IsSurelyBefore (excludes state.now.trail) dim c d }
    ensures others { (c : ℕ) → c < box_count instance.now → (a ≡ c → ⊥) → (d ≡ c → ⊥)
        → row_has result c ≡ false → IsSurelyBefore (excludes state.now.trail) dim c d
        → IsTrue (excludes state.now.trail dim a c Overlap) }
{
    let before = gone(instance, state, all, dim, d, Rel::Overlap, Rel::Before);
    let near = state.row_in::<K>(dim, a, Rel::Overlap);
    before.and(near)
}

// Whether ORDER may exclude something with its first and its last box, for one of the second ones.
// Nothing where no box is surely before the last.
#[inline(always)]
fn may_order_seconds<const K: usize>(
    instance: &Instance,
    state: &EdgeState,
    all: BitRow<K>,
    dim: u32,
    a: u32,
    d: u32,
    seconds: BitRow<K>,
) -> bool
    requires words { HoldsBoxes K (box_count instance.now) }
    requires sizes { IsSized instance.now state.now dim }
    requires a { a < box_count instance.now }
    requires d { d < box_count instance.now }
    requires all { (x : ℕ) → row_has all x ≡ nat_lt x (box_count instance.now) }
    requires within { (b : ℕ) → row_has seconds b ≡ true → b < box_count instance.now }
    ensures { result ≡ false → (b : ℕ) → row_has seconds.entry b ≡ true → (c : ℕ)
        → c < box_count instance.now
        → IsCovered instance.now (excludes state.now.trail) state.now.trail (Order dim a b c d) }
{
    let thirds = thirds_before(instance, state, all, dim, a, d);
    if thirds.is_empty() {
        return false;
    }
    let mut rest = seconds;
    while let Some(b) = rest.first() {
        rest = rest.without(b);
        let near = state.row_in::<K>(dim, b, Rel::Overlap);
        if !near.and(thirds).is_empty() {
            return true;
        }
    }
    false
}

/// Whether ORDER may exclude something with the first pair given.
#[inline(always)]
pub(crate) fn may_order_first<const K: usize>(
    instance: &Instance,
    state: &EdgeState,
    all: BitRow<K>,
    dim: u32,
    a: u32,
    b: u32,
) -> bool
    requires words { HoldsBoxes K (box_count instance.now) }
    requires sizes { IsSized instance.now state.now dim }
    requires a { a < box_count instance.now }
    requires b { b < box_count instance.now }
    requires distinct { a ≡ b → ⊥ }
    requires all { (x : ℕ) → row_has all x ≡ nat_lt x (box_count instance.now) }
    ensures { result ≡ false → HasApplied instance.now state.now state.now false
        (OrdersFirst instance.now dim a b) }
{
    let lasts = near_both_without::<K>(instance, state, dim, a, b, Rel::Before);
    may_order_lasts(instance, state, dim, a, b, lasts)
}

/// ORDER with the first pair given.
#[inline(always)]
pub(crate) fn orders_first<const K: usize>(
    instance: &Instance,
    state: &mut EdgeState,
    all: BitRow<K>,
    dim: u32,
    a: u32,
    b: u32,
) -> bool
    requires words { HoldsBoxes K (box_count instance.now) }
    requires sizes { IsSized instance.now state.old dim }
    requires a { a < box_count instance.now }
    requires b { b < box_count instance.now }
    requires distinct { a ≡ b → ⊥ }
    requires all { (x : ℕ) → row_has all x ≡ nat_lt x (box_count instance.now) }
    ensures { HasApplied instance.now state.old state.new result
        (λ rule. (d : ℕ) × (d < box_count instance.now)
        × ((c : ℕ) × (c < box_count instance.now) × (rule ≡ Order dim a b c d))) }
{
    if !may_order_first(instance, state, all, dim, a, b) {
        return false;
    }
    if !state.sure_before_in::<K>(dim, a, b) {
        return false;
    }
    let lasts = near_both_without::<K>(instance, state, dim, a, b, Rel::Before);
    let thirds = gone_of_any(instance, state, all, dim, lasts, Rel::Overlap, Rel::Before);
    let open = near_both(instance, state, dim, b, a);
    exclude_each(instance, state, dim, b, Rel::Overlap, thirds.and(open))
}

/// Whether ORDER may exclude something with the second pair given.
#[inline(always)]
pub(crate) fn may_order_second<const K: usize>(
    instance: &Instance,
    state: &EdgeState,
    all: BitRow<K>,
    dim: u32,
    c: u32,
    d: u32,
) -> bool
    requires words { HoldsBoxes K (box_count instance.now) }
    requires sizes { IsSized instance.now state.now dim }
    requires c { c < box_count instance.now }
    requires d { d < box_count instance.now }
    requires distinct { c ≡ d → ⊥ }
    requires all { (x : ℕ) → row_has all x ≡ nat_lt x (box_count instance.now) }
    ensures { result ≡ false → HasApplied instance.now state.now state.now false
        (OrdersSecond instance.now dim c d) }
{
    let firsts = near_both_without::<K>(instance, state, dim, d, c, Rel::After);
    may_order_firsts(instance, state, dim, c, d, firsts)
}

/// ORDER with the second pair given.
#[inline(always)]
pub(crate) fn orders_second<const K: usize>(
    instance: &Instance,
    state: &mut EdgeState,
    all: BitRow<K>,
    dim: u32,
    c: u32,
    d: u32,
) -> bool
    requires words { HoldsBoxes K (box_count instance.now) }
    requires sizes { IsSized instance.now state.old dim }
    requires c { c < box_count instance.now }
    requires d { d < box_count instance.now }
    requires distinct { c ≡ d → ⊥ }
    requires all { (x : ℕ) → row_has all x ≡ nat_lt x (box_count instance.now) }
    ensures { HasApplied instance.now state.old state.new result
        (λ rule. (a : ℕ) × (a < box_count instance.now)
        × ((b : ℕ) × (b < box_count instance.now) × (rule ≡ Order dim a b c d))) }
{
    if !may_order_second(instance, state, all, dim, c, d) {
        return false;
    }
    if !state.sure_before_in::<K>(dim, c, d) {
        return false;
    }
    let firsts = near_both_without::<K>(instance, state, dim, d, c, Rel::After);
    let seconds = gone_of_any(instance, state, all, dim, firsts, Rel::Overlap, Rel::After);
    let open = near_both(instance, state, dim, c, d);
    exclude_each(instance, state, dim, c, Rel::Overlap, seconds.and(open))
}

/// Whether ORDER may exclude something with the first and the last box given.
#[inline(always)]
pub(crate) fn may_order_crossed<const K: usize>(
    instance: &Instance,
    state: &EdgeState,
    all: BitRow<K>,
    dim: u32,
    a: u32,
    d: u32,
) -> bool
    requires words { HoldsBoxes K (box_count instance.now) }
    requires sizes { IsSized instance.now state.now dim }
    requires a { a < box_count instance.now }
    requires d { d < box_count instance.now }
    requires distinct { a ≡ d → ⊥ }
    requires all { (x : ℕ) → row_has all x ≡ nat_lt x (box_count instance.now) }
    ensures { result ≡ false → HasApplied instance.now state.now state.now false
        (OrdersCrossed instance.now dim a d) }
{
    let near = state.row_in::<K>(dim, a, Rel::Overlap);
    if !near.has(d) {
        return false;
    }
    let seconds = seconds_after(instance, state, all, dim, a, d);
    may_order_seconds(instance, state, all, dim, a, d, seconds)
}

/// ORDER with the first and the last box given: it asks that the first isn't before the last.
#[inline(always)]
pub(crate) fn orders_crossed<const K: usize>(
    instance: &Instance,
    state: &mut EdgeState,
    all: BitRow<K>,
    dim: u32,
    a: u32,
    d: u32,
) -> bool
    requires words { HoldsBoxes K (box_count instance.now) }
    requires sizes { IsSized instance.now state.old dim }
    requires a { a < box_count instance.now }
    requires d { d < box_count instance.now }
    requires distinct { a ≡ d → ⊥ }
    requires all { (x : ℕ) → row_has all x ≡ nat_lt x (box_count instance.now) }
    ensures { HasApplied instance.now state.old state.new result
        (λ rule. (b : ℕ) × (b < box_count instance.now)
        × ((c : ℕ) × (c < box_count instance.now) × (rule ≡ Order dim a b c d))) }
{
    if !may_order_crossed(instance, state, all, dim, a, d) {
        return false;
    }
    if state.mask_in::<K>(dim, a, d).has(Rel::Before) {
        return false;
    }
    let seconds = seconds_after(instance, state, all, dim, a, d);
    let thirds = thirds_before(instance, state, all, dim, a, d);
    exclude_overlaps(instance, state, dim, seconds, thirds)
}
