//! Raises the weights of chains when two boxes become ordered, and propagates the raises to
//! predecessors.
//!
//! Within a worklist surely before isn't transitive yet, so these are weights of walks. A log of
//! the old weights takes the raises back.
ghost use Rattle.std.specs.Prelude.{◌≡◌, ◌<◌, ◌≤◌, ◌+◌, ℕ, nat_lt, true, false, length, slice_index, slice_index_or, List, [], IfOk, IfErr};
ghost use Rattle.packing_terms.specs.Packing.{dims, box_count, side};
ghost use Rattle.packing_terms.specs.Exclusions.{excludes, IsSurelyBefore};
ghost use Rattle.packing_terms.specs.Limits.{IsInternalInstance};
ghost use Rattle.packing_terms.specs.declared.Direction.TheVariants.{Forwards, Backwards};
ghost use Rattle.packing_terms.specs.Runs.{HasNoHeavierRun, Leads};
ghost use Rattle.edge_state.specs.BitRows.{row_has, HoldsBoxes};
ghost use Rattle.edge_state.specs.ChainWeights.{IsSameHistory, AreWalks, IsWalk, list_number, weights_in};
ghost use Rattle.orientation_rules.specs.Pending.{AreLinked, AreLinkedBy, IsOverLongAt, IsStopAt, OtherDimsStay};
ghost use Rattle.orientation_rules.specs.Raises.{AreRaised, raises_left};

use box_instances::Instance;
use edge_state::{BitRow, ChainWeights, EdgeState, Rel};
use packing_terms::Direction;

/// Why raising stopped: a chain through this box is over-long by its weights, or the log is full.
#[derive(Clone, Copy, Debug, PartialEq, Eq)]
pub(crate) enum Stop {
    OverLong(u32),
    Full,
}

// The predecessors of `x`: the boxes that lead to it in a direction.
#[inline(always)]
fn predecessor_row<const K: usize>(
    state: &EdgeState,
    all: BitRow<K>,
    dim: u32,
    direction: Direction,
    x: u32,
) -> BitRow<K>
    requires words { HoldsBoxes K state.now.boxes }
    requires dim { dim < state.now.dims }
    requires x { x < state.now.boxes }
    requires all { (u : ℕ) → row_has all u ≡ nat_lt u state.now.boxes }
    ensures within { (v : ℕ) → row_has result v ≡ true → v < state.now.boxes }
    ensures leads { (v : ℕ) → row_has result v ≡ true → (v ≡ x → ⊥)
        × Leads (excludes state.now.trail) dim direction v x }
    ensures all { (v : ℕ) → v < state.now.boxes → row_has result v ≡ false → (v ≡ x → ⊥)
        → Leads (excludes state.now.trail) dim direction v x → ⊥ }
{
    let near = state.row_in::<K>(dim, x, Rel::Overlap);
    let back = match direction {
        Direction::Forwards => state.row_in::<K>(dim, x, Rel::Before),
        Direction::Backwards => state.row_in::<K>(dim, x, Rel::After),
    };
    all.minus(near).minus(back).without(x)
}

// Whether a chain through `v` is over-long by the weights of both directions. Its own side counts
// in both.
#[inline(always)]
fn is_over_long(instance: &Instance, weights: &ChainWeights, dim: u32, v: u32) -> bool
    requires limits { IsInternalInstance instance.now }
    requires dim { dim < dims instance.now }
    requires v { v < box_count instance.now }
    ensures over { result ≡ true → IsOverLongAt instance.now dim weights.now.numbers v }
    ensures within { result ≡ false → IsOverLongAt instance.now dim weights.now.numbers v → ⊥ }
{
    let head = weights.weights(Direction::Backwards, dim)[v as usize];
    let tail = weights.weights(Direction::Forwards, dim)[v as usize];
    let limit = u64::from(instance.container_side(dim));
    head + tail > limit + u64::from(instance.side(v, dim))
}

// Raises the weight of `v` to that of a walk, if that is more, and then adds `v` to both rows.
#[inline(always)]
fn raise_to<const K: usize>(
    instance: &Instance,
    state: &EdgeState,
    dim: u32,
    direction: Direction,
    v: u32,
    weight: u64,
    stops_early: bool,
    risen: &mut BitRow<K>,
    rest: &mut BitRow<K>,
    weights: &mut ChainWeights,
) -> Result<(), Stop>
    requires limits { IsInternalInstance instance.now }
    requires words { HoldsBoxes K state.now.boxes }
    requires dims { state.now.dims ≡ dims instance.now }
    requires boxes { state.now.boxes ≡ box_count instance.now }
    requires dim { dim < state.now.dims }
    requires v { v < state.now.boxes }
    requires walk { IsWalk (box_count instance.now)
        (Leads (excludes state.now.trail) dim direction) (λ u. side instance.now u dim)
        v weight }
    ensures history { IsSameHistory weights.old weights.new }
    ensures other { (list : ℕ) → (list ≡ list_number direction dim → ⊥)
        → slice_index_or weights.new.numbers list [] ≡ slice_index_or weights.old.numbers list [] }
    ensures beside { (u : ℕ) → (u ≡ v → ⊥)
        → slice_index (weights_in weights.new.numbers direction dim) u
        ≡ slice_index (weights_in weights.old.numbers direction dim) u }
    ensures raised { IfOk result (λ _. AreRaised instance.now state.now dim direction
        weights.old.numbers weights.new.numbers rest.old rest.new risen.old risen.new) }
    ensures enough { IfOk result (λ _. weight
        ≤ slice_index (weights_in weights.new.numbers direction dim) v) }
    ensures fewer { IfOk result (λ _. raises_left K (length weights.new.log) rest.new
        ≤ raises_left K (length weights.old.log) rest.old) }
    ensures stop { IfErr result (λ stop. IsStopAt instance.now dim weights.new.numbers stop) }
{
    if weight <= weights.weights(direction, dim)[v as usize] {
        return Ok(());
    }
    if !weights.write(direction, dim, v, weight) {
        return Err(Stop::Full);
    }
    *rest = rest.with(v);
    *risen = risen.with(v);
    if stops_early && is_over_long(instance, weights, dim, v) {
        return Err(Stop::OverLong(v));
    }
    Ok(())
}

// Raises the predecessors of `x` by the weight of `x`.
#[inline(always)]
fn propagate_from<const K: usize>(
    instance: &Instance,
    state: &EdgeState,
    all: BitRow<K>,
    dim: u32,
    direction: Direction,
    x: u32,
    stops_early: bool,
    risen: &mut BitRow<K>,
    rest: &mut BitRow<K>,
    weights: &mut ChainWeights,
) -> Result<(), Stop>
    requires limits { IsInternalInstance instance.now }
    requires words { HoldsBoxes K state.now.boxes }
    requires dims { state.now.dims ≡ dims instance.now }
    requires boxes { state.now.boxes ≡ box_count instance.now }
    requires dim { dim < state.now.dims }
    requires x { x < state.now.boxes }
    requires all { (u : ℕ) → row_has all u ≡ nat_lt u state.now.boxes }
    requires walks { AreWalks (box_count instance.now)
        (Leads (excludes state.now.trail) dim direction) (λ u. side instance.now u dim)
        (weights_in weights.old.numbers direction dim) }
    ensures history { IsSameHistory weights.old weights.new }
    ensures other { (list : ℕ) → (list ≡ list_number direction dim → ⊥)
        → slice_index_or weights.new.numbers list [] ≡ slice_index_or weights.old.numbers list [] }
    ensures raised { IfOk result (λ _. AreRaised instance.now state.now dim direction
        weights.old.numbers weights.new.numbers rest.old rest.new risen.old risen.new) }
    ensures settled { IfOk result (λ _. (v : ℕ) → v < box_count instance.now
        → HasNoHeavierRun (Leads (excludes state.now.trail) dim direction)
        (λ u. side instance.now u dim) (weights_in weights.new.numbers direction dim) v x) }
    ensures fewer { IfOk result (λ _. raises_left K (length weights.new.log) rest.new
        ≤ raises_left K (length weights.old.log) rest.old) }
    ensures stop { IfErr result (λ stop. IsStopAt instance.now dim weights.new.numbers stop) }
{
    let from = weights.weights(direction, dim)[x as usize];
    let mut row = predecessor_row(state, all, dim, direction, x);
    while let Some(v) = row.first() {
        row = row.without(v);
        let weight = from + u64::from(instance.side(v, dim));
        raise_to(
            instance,
            state,
            dim,
            direction,
            v,
            weight,
            stops_early,
            risen,
            rest,
            weights,
        )?;
    }
    Ok(())
}

// Raises the weight of `v` to that of a walk, and propagates the raises until no predecessor rises.
// Returns the boxes whose weights rose. A box may rise more than once.
#[inline(always)]
fn raise_and_propagate<const K: usize>(
    instance: &Instance,
    state: &EdgeState,
    all: BitRow<K>,
    dim: u32,
    direction: Direction,
    v: u32,
    weight: u64,
    stops_early: bool,
    weights: &mut ChainWeights,
) -> Result<BitRow<K>, Stop>
    requires limits { IsInternalInstance instance.now }
    requires words { HoldsBoxes K state.now.boxes }
    requires dims { state.now.dims ≡ dims instance.now }
    requires boxes { state.now.boxes ≡ box_count instance.now }
    requires dim { dim < state.now.dims }
    requires v { v < state.now.boxes }
    requires all { (u : ℕ) → row_has all u ≡ nat_lt u state.now.boxes }
    requires walk { IsWalk (box_count instance.now)
        (Leads (excludes state.now.trail) dim direction) (λ u. side instance.now u dim)
        v weight }
    requires walks { AreWalks (box_count instance.now)
        (Leads (excludes state.now.trail) dim direction) (λ u. side instance.now u dim)
        (weights_in weights.old.numbers direction dim) }
    ensures history { IsSameHistory weights.old weights.new }
    ensures other { (list : ℕ) → (list ≡ list_number direction dim → ⊥)
        → slice_index_or weights.new.numbers list [] ≡ slice_index_or weights.old.numbers list [] }
    ensures linked { IfOk result (λ risen. (x : ℕ) → x < box_count instance.now
        → side instance.now v dim + slice_index (weights_in weights.old.numbers direction dim) x
        ≤ weight
        → AreLinkedBy instance.now state.now dim direction v x
        weights.old.numbers weights.new.numbers risen) }
    ensures stop { IfErr result (λ stop. IsStopAt instance.now dim weights.new.numbers stop) }
{
    let mut risen = BitRow::empty();
    let mut rest = BitRow::empty();
    raise_to(
        instance,
        state,
        dim,
        direction,
        v,
        weight,
        stops_early,
        &mut risen,
        &mut rest,
        weights,
    )?;
    while let Some(x) = rest.first() {
        propagate_from(
            instance,
            state,
            all,
            dim,
            direction,
            x,
            stops_early,
            &mut risen,
            &mut rest,
            weights,
        )?;
        rest = rest.without(x);
    }
    Ok(risen)
}

// Raises the weight of `v` by that of its new successor `x`, and propagates the raises. Returns the
// boxes whose weights rose.
#[inline(always)]
fn link_one<const K: usize>(
    instance: &Instance,
    state: &EdgeState,
    all: BitRow<K>,
    dim: u32,
    direction: Direction,
    v: u32,
    x: u32,
    stops_early: bool,
    weights: &mut ChainWeights,
) -> Result<BitRow<K>, Stop>
    requires limits { IsInternalInstance instance.now }
    requires words { HoldsBoxes K state.now.boxes }
    requires dims { state.now.dims ≡ dims instance.now }
    requires boxes { state.now.boxes ≡ box_count instance.now }
    requires dim { dim < state.now.dims }
    requires v { v < state.now.boxes }
    requires x { x < state.now.boxes }
    requires distinct { v ≡ x → ⊥ }
    requires leads { Leads (excludes state.now.trail) dim direction v x }
    requires all { (u : ℕ) → row_has all u ≡ nat_lt u state.now.boxes }
    requires walks { AreWalks (box_count instance.now)
        (Leads (excludes state.now.trail) dim direction) (λ u. side instance.now u dim)
        (weights_in weights.old.numbers direction dim) }
    ensures history { IsSameHistory weights.old weights.new }
    ensures linked { IfOk result (λ risen. AreLinkedBy instance.now state.now dim direction v x
        weights.old.numbers weights.new.numbers risen) }
    ensures other { (list : ℕ) → (list ≡ list_number direction dim → ⊥)
        → slice_index_or weights.new.numbers list [] ≡ slice_index_or weights.old.numbers list [] }
    ensures stop { IfErr result (λ stop. IsStopAt instance.now dim weights.new.numbers stop) }
{
    let weight = weights.weights(direction, dim)[x as usize] + u64::from(instance.side(v, dim));
    if weight <= weights.weights(direction, dim)[v as usize] {
        return Ok(BitRow::empty());
    }
    raise_and_propagate(
        instance,
        state,
        all,
        dim,
        direction,
        v,
        weight,
        stops_early,
        weights,
    )
}

/// The boxes whose weights rose: of the chains that end in each (`heads`), and that start in it.
#[derive(Clone, Copy)]
pub(crate) struct Risen<const K: usize> {
    pub heads: BitRow<K>,
    pub tails: BitRow<K>,
}

/// Raises the weights of chains in both directions after `a` became surely before `b`.
#[inline(always)]
pub(crate) fn link<const K: usize>(
    instance: &Instance,
    state: &EdgeState,
    all: BitRow<K>,
    dim: u32,
    a: u32,
    b: u32,
    stops_early: bool,
    weights: &mut ChainWeights,
) -> Result<Risen<K>, Stop>
    requires words { HoldsBoxes K state.now.boxes }
    requires dims { state.now.dims ≡ dims instance.now }
    requires boxes { state.now.boxes ≡ box_count instance.now }
    requires dim { dim < state.now.dims }
    requires a { a < state.now.boxes }
    requires b { b < state.now.boxes }
    requires distinct { a ≡ b → ⊥ }
    requires ordered { IsSurelyBefore (excludes state.now.trail) dim a b }
    requires all { (u : ℕ) → row_has all u ≡ nat_lt u state.now.boxes }
    requires heads { AreWalks (box_count instance.now)
        (Leads (excludes state.now.trail) dim Backwards) (λ u. side instance.now u dim)
        (weights_in weights.old.numbers Backwards dim) }
    requires tails { AreWalks (box_count instance.now)
        (Leads (excludes state.now.trail) dim Forwards) (λ u. side instance.now u dim)
        (weights_in weights.old.numbers Forwards dim) }
    ensures history { IsSameHistory weights.old weights.new }
    ensures dims { OtherDimsStay dim weights.old.numbers weights.new.numbers }
    ensures linked { IfOk result (λ risen. AreLinked instance.now state.now dim a b
        weights.old.numbers weights.new.numbers risen.heads risen.tails) }
    ensures stop { IfErr result (λ stop. IsStopAt instance.now dim weights.new.numbers stop) }
{
    // For the proof alone: states the limits of the instance.
    let _count = instance.len();
    let heads = link_one(
        instance,
        state,
        all,
        dim,
        Direction::Backwards,
        b,
        a,
        stops_early,
        weights,
    )?;
    let tails = link_one(
        instance,
        state,
        all,
        dim,
        Direction::Forwards,
        a,
        b,
        stops_early,
        weights,
    )?;
    Ok(Risen { heads, tails })
}
