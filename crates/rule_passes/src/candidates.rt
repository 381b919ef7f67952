//! Whole rows: the boxes at which a rule may have something to exclude.
ghost use Rattle.std.specs.Prelude.{◌≡◌, ◌<◌, ◌⊎◌, ◌&&◌, ℕ, true, false, not, nat_lt, IsTrue};
ghost use Rattle.packing_terms.specs.declared.Rel.{Rel as PlainRel};
ghost use Rattle.packing_terms.specs.declared.Rel.TheVariants.{Overlap, Before, After};
ghost use Rattle.packing_terms.specs.Packing.{box_count};
ghost use Rattle.packing_terms.specs.Exclusions.{excludes, IsApart, IsJoined};
ghost use Rattle.packing_terms.specs.Rules.{Triple, Compose, Cycle, Order, Follows, Concludes, IsRuleInstance};
ghost use Rattle.relation_table.specs.Masks.{mask_has};
ghost use Rattle.edge_state.specs.BitRows.{IsRowWidth, HoldsBoxes, row_has};
ghost use Rattle.edge_state.specs.Edges.{is_other_box};
ghost use Rattle.edge_state.specs.States.{IsSized};
ghost use Rattle.edge_state.specs.Work.{IsCovered};
ghost use Rattle.edge_state.specs.Rows.{in_each_relation};
ghost use Rattle.rule_passes.specs.Reached.{composed};

use crate::rows::{either, gone, one_of, pick};
use box_instances::Instance;
use edge_state::{BitRow, EdgeState, Mask, Rel};

// The boxes to which a relation of `u` is left and that aren't in the row, where they are wanted,
// and else none.
#[inline(always)]
fn left_outside<const K: usize>(
    state: &EdgeState,
    dim: u32,
    u: u32,
    rel: Rel,
    row: BitRow<K>,
    wanted: bool,
) -> BitRow<K>
    requires words { HoldsBoxes K state.now.boxes }
    requires dim { dim < state.now.dims }
    requires u { u < state.now.boxes }
    ensures { (x : ℕ) → row_has result x ≡ ((is_other_box state.now.boxes u x
        && not (excludes state.now.trail dim u x rel)) && not (row_has row.entry x)) && wanted }
{
    if !wanted {
        return BitRow::empty();
    }
    let left = state.row_in::<K>(dim, u, rel);
    left.minus(row)
}

/// The boxes x at which COMPOSE at `u`, `v`, x may exclude something, where the mask of `u`, `v` is
/// given: at all others whose mask with `v` isn't empty it adds nothing.
///
/// A relation that is left of `u`, `v` allows itself of `u`, x, whatever is left of `v`, x, if
/// anything is. So a relation is looked at only if it is gone from the mask. A full mask asks for
/// no row.
#[inline(always)]
pub(crate) fn beyond_compositions<const K: usize>(
    instance: &Instance,
    state: &EdgeState,
    dim: u32,
    u: u32,
    v: u32,
    left: Mask,
) -> BitRow<K>
    requires words { HoldsBoxes K (box_count instance.now) }
    requires sizes { IsSized instance.now state.now dim }
    requires u { u < box_count instance.now }
    requires v { v < box_count instance.now }
    requires distinct { u ≡ v → ⊥ }
    requires left { (r : PlainRel) → mask_has left r ≡ not (excludes state.now.trail dim u v r) }
    ensures within { (x : ℕ) → row_has result x ≡ true → x < box_count instance.now }
    ensures others { (x : ℕ) → x < box_count instance.now → row_has result x ≡ false
        → ((q : PlainRel) × (mask_has left q ≡ true))
        → ((s : PlainRel) × (excludes state.now.trail dim v x s ≡ false))
        → IsCovered instance.now (excludes state.now.trail) state.now.trail (Compose dim u v x) }
{
    // For the proof alone: states the limits of the state.
    let _boxes = state.boxes();
    let is_overlap = left.has(Rel::Overlap);
    let is_before = left.has(Rel::Before);
    let is_after = left.has(Rel::After);
    let overlap = state.row_in::<K>(dim, v, Rel::Overlap);
    let before = state.row_in::<K>(dim, v, Rel::Before);
    let after = state.row_in::<K>(dim, v, Rel::After);
    let may_overlap = one_of(overlap, pick(after, is_before), pick(before, is_after));
    let near = pick(overlap, is_overlap);
    let may_precede = near.or(before);
    let may_follow = near.or(after);
    one_of(
        left_outside(state, dim, u, Rel::Overlap, may_overlap, !is_overlap),
        left_outside(state, dim, u, Rel::Before, may_precede, !is_before),
        left_outside(state, dim, u, Rel::After, may_follow, !is_after),
    )
}

// The boxes to which the compositions leave a relation of the first box that isn't left of the
// first and the second, by the mask of these and the rows of the second.
#[inline(always)]
fn composed_row<const K: usize>(
    left: Mask,
    overlap: BitRow<K>,
    before: BitRow<K>,
    after: BitRow<K>,
    rel: Rel,
) -> BitRow<K>
    requires { IsRowWidth K }
    ensures { (x : ℕ) → row_has result x ≡ composed rel (mask_has left)
        (in_each_relation (row_has overlap.entry x) (row_has before.entry x)
        (row_has after.entry x)) }
{
    match rel {
        Rel::Overlap => one_of(
            overlap,
            pick(after, left.has(Rel::Before)),
            pick(before, left.has(Rel::After)),
        ),
        Rel::Before => pick(overlap, left.has(Rel::Overlap)).or(before),
        Rel::After => pick(overlap, left.has(Rel::Overlap)).or(after),
    }
}

/// The boxes x for which COMPOSE at `u`, `v`, x excludes a relation of `u` and x, where the mask
/// of `u`, `v` is given and no mask of `v` is empty.
///
/// A relation that is left of `u`, `v` is left of `u`, x, whatever is left of `v`, x.
#[inline(always)]
pub(crate) fn uncomposed<const K: usize>(
    instance: &Instance,
    state: &EdgeState,
    dim: u32,
    u: u32,
    v: u32,
    left: Mask,
    rel: Rel,
) -> BitRow<K>
    requires words { HoldsBoxes K (box_count instance.now) }
    requires sizes { IsSized instance.now state.now dim }
    requires u { u < box_count instance.now }
    requires v { v < box_count instance.now }
    requires distinct { u ≡ v → ⊥ }
    requires left { (r : PlainRel) → mask_has left r ≡ not (excludes state.now.trail dim u v r) }
    ensures other { (x : ℕ) → row_has result x ≡ true
        → is_other_box (box_count instance.now) u x ≡ true }
    ensures follows { (x : ℕ) → row_has result x ≡ true
        → Follows instance.now (excludes state.now.trail) dim u x rel }
    ensures excluded { (x : ℕ) → row_has result x ≡ false
        → ((q : PlainRel) × (mask_has left q ≡ true))
        → ((s : PlainRel) × (excludes state.now.trail dim v x s ≡ false))
        → IsRuleInstance instance.now (Compose dim u v x)
        → Concludes (excludes state.now.trail) (Compose dim u v x) rel
        → IsTrue (excludes state.now.trail dim u x rel) }
{
    if left.has(rel) {
        return BitRow::empty();
    }
    let overlap = state.row_in::<K>(dim, v, Rel::Overlap);
    let before = state.row_in::<K>(dim, v, Rel::Before);
    let after = state.row_in::<K>(dim, v, Rel::After);
    let allowed = composed_row(left, overlap, before, after, rel);
    let open = state.row_in::<K>(dim, u, rel);
    open.minus(allowed).without(v)
}

/// The boxes v at which TRIPLE may exclude something at `u`, v with `x`.
#[inline(always)]
pub(crate) fn beyond_triples<const K: usize>(
    instance: &Instance,
    state: &EdgeState,
    dim: u32,
    u: u32,
    x: u32,
) -> BitRow<K>
    requires words { HoldsBoxes K (box_count instance.now) }
    requires sizes { IsSized instance.now state.now dim }
    requires u { u < box_count instance.now }
    requires x { x < box_count instance.now }
    ensures within { (v : ℕ) → row_has result v ≡ true → v < box_count instance.now }
    ensures other { (v : ℕ) → row_has result v ≡ true
        → is_other_box (box_count instance.now) u v ≡ true }
    ensures apart { (v : ℕ) → row_has result v ≡ true
        → (v ≡ x → ⊥) × IsApart (excludes state.now.trail) dim v x }
    ensures others { (v : ℕ) → v < box_count instance.now → row_has result v ≡ false
        → IsCovered instance.now (excludes state.now.trail) state.now.trail (Triple dim u v x) }
{
    let free = either::<K>(instance, state, dim, u, Rel::Before, Rel::After);
    let near = state.row_in::<K>(dim, x, Rel::Overlap);
    free.minus(near).without(x)
}

/// The boxes d at which CYCLE may exclude something at `b`, d, whatever the third box is: those
/// that are joined with `a` and not with `b`.
#[inline(always)]
pub(crate) fn cycle_fourths<const K: usize>(
    instance: &Instance,
    state: &EdgeState,
    dim: u32,
    a: u32,
    b: u32,
) -> BitRow<K>
    requires words { HoldsBoxes K (box_count instance.now) }
    requires sizes { IsSized instance.now state.now dim }
    requires a { a < box_count instance.now }
    requires b { b < box_count instance.now }
    ensures other { (d : ℕ) → row_has result d ≡ true
        → is_other_box (box_count instance.now) b d ≡ true }
    ensures joined { (d : ℕ) → row_has result d ≡ true
        → (a ≡ d → ⊥) × IsJoined (excludes state.now.trail) dim a d }
    ensures others { (d : ℕ) → d < box_count instance.now → row_has result d ≡ false → (c : ℕ)
        → IsCovered instance.now (excludes state.now.trail) state.now.trail (Cycle dim a b c d) }
{
    let free = either::<K>(instance, state, dim, b, Rel::Before, Rel::After);
    let first = either::<K>(instance, state, dim, a, Rel::Before, Rel::After);
    free.minus(first).without(a)
}

/// The boxes c at which ORDER may exclude something at c, `b`, with the last box given. `free` and
/// `last` have the boxes that `b` and `d` may overlap or be before.
#[inline(always)]
pub(crate) fn beyond_orders_from<const K: usize>(
    instance: &Instance,
    state: &EdgeState,
    dim: u32,
    a: u32,
    b: u32,
    d: u32,
    free: BitRow<K>,
    last: BitRow<K>,
) -> BitRow<K>
    requires words { HoldsBoxes K (box_count instance.now) }
    requires d { d < box_count instance.now }
    requires within { (c : ℕ) → row_has free c ≡ true → c < box_count instance.now }
    requires free { (c : ℕ) → c < box_count instance.now → (b ≡ c → ⊥) → (a ≡ c → ⊥)
        → row_has free c ≡ false → IsTrue (excludes state.now.trail dim b c Overlap)
        ⊎ IsTrue (excludes state.now.trail dim a c Overlap) }
    requires last { (c : ℕ) → row_has last c ≡ true
        → IsTrue (excludes state.now.trail dim d c Overlap)
        → IsTrue (excludes state.now.trail dim d c Before) → ⊥ }
    ensures within { (c : ℕ) → row_has result c ≡ true → c < box_count instance.now }
    ensures others { (c : ℕ) → c < box_count instance.now → row_has result c ≡ false
        → IsCovered instance.now (excludes state.now.trail) state.now.trail (Order dim a b c d) }
{
    free.minus(last).without(d)
}

/// The boxes b at which ORDER may exclude something at `c`, b, with the first box given. `free` and
/// `first` have the boxes that `c` and `a` may overlap or be after.
#[inline(always)]
pub(crate) fn beyond_orders_to<const K: usize>(
    instance: &Instance,
    state: &EdgeState,
    dim: u32,
    a: u32,
    c: u32,
    d: u32,
    free: BitRow<K>,
    first: BitRow<K>,
) -> BitRow<K>
    requires words { HoldsBoxes K (box_count instance.now) }
    requires a { a < box_count instance.now }
    requires within { (b : ℕ) → row_has free b ≡ true → b < box_count instance.now }
    requires free { (b : ℕ) → b < box_count instance.now → (c ≡ b → ⊥) → (d ≡ b → ⊥)
        → row_has free b ≡ false → IsTrue (excludes state.now.trail dim c b Overlap)
        ⊎ IsTrue (excludes state.now.trail dim d b Overlap) }
    requires first { (b : ℕ) → row_has first b ≡ true
        → IsTrue (excludes state.now.trail dim a b Overlap)
        → IsTrue (excludes state.now.trail dim a b After) → ⊥ }
    ensures within { (b : ℕ) → row_has result b ≡ true → b < box_count instance.now }
    ensures others { (b : ℕ) → b < box_count instance.now → row_has result b ≡ false
        → IsCovered instance.now (excludes state.now.trail) state.now.trail (Order dim a b c d) }
{
    free.minus(first).without(a)
}

/// The boxes that are joined with `b` and apart from `a`.
#[inline(always)]
pub(crate) fn cycle_thirds<const K: usize>(
    instance: &Instance,
    state: &EdgeState,
    all: BitRow<K>,
    dim: u32,
    a: u32,
    b: u32,
) -> BitRow<K>
    requires words { HoldsBoxes K (box_count instance.now) }
    requires sizes { IsSized instance.now state.now dim }
    requires a { a < box_count instance.now }
    requires b { b < box_count instance.now }
    requires all { (x : ℕ) → row_has all x ≡ nat_lt x (box_count instance.now) }
    ensures within { (c : ℕ) → row_has result c ≡ true → c < box_count instance.now }
    ensures members { (c : ℕ) → row_has result c ≡ true → (a ≡ c → ⊥) × ((b ≡ c → ⊥)
        × (IsJoined (excludes state.now.trail) dim b c
        × IsApart (excludes state.now.trail) dim a c)) }
    ensures others { (c : ℕ) → c < box_count instance.now → (a ≡ c → ⊥) → (b ≡ c → ⊥)
        → row_has result c ≡ false → IsJoined (excludes state.now.trail) dim b c
        → IsApart (excludes state.now.trail) dim a c
        → ⊥ }
{
    let joined = gone(instance, state, all, dim, b, Rel::Before, Rel::After);
    let near = state.row_in::<K>(dim, a, Rel::Overlap);
    joined.minus(near).without(a)
}

/// The boxes that are joined with `a` and with `c`.
#[inline(always)]
pub(crate) fn cycle_seconds<const K: usize>(
    instance: &Instance,
    state: &EdgeState,
    all: BitRow<K>,
    dim: u32,
    a: u32,
    c: u32,
) -> BitRow<K>
    requires words { HoldsBoxes K (box_count instance.now) }
    requires sizes { IsSized instance.now state.now dim }
    requires a { a < box_count instance.now }
    requires c { c < box_count instance.now }
    requires all { (x : ℕ) → row_has all x ≡ nat_lt x (box_count instance.now) }
    ensures within { (b : ℕ) → row_has result b ≡ true → b < box_count instance.now }
    ensures members { (b : ℕ) → row_has result b ≡ true → (a ≡ b → ⊥) × ((c ≡ b → ⊥)
        × (IsJoined (excludes state.now.trail) dim a b
        × IsJoined (excludes state.now.trail) dim c b)) }
    ensures others { (b : ℕ) → b < box_count instance.now → (a ≡ b → ⊥) → (c ≡ b → ⊥)
        → row_has result b ≡ false → IsJoined (excludes state.now.trail) dim a b
        → IsJoined (excludes state.now.trail) dim b c → ⊥ }
{
    let first = gone(instance, state, all, dim, a, Rel::Before, Rel::After);
    first.and(gone(instance, state, all, dim, c, Rel::Before, Rel::After))
}
