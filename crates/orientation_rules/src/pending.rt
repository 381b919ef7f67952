//! The weights of chains in a closing, and the pairs at which CHAIN isn't applied yet.
ghost use Rattle.std.specs.Prelude.{◌≡◌, ◌<◌, ◌≤◌, ◌+◌, ◌⊎◌, ◌&&◌, ◌||◌, ◌==◌, ℕ, not, nat_lt, true, false, length, List, MatchOption, IfSome};
ghost use Rattle.packing_terms.specs.Packing.{PlainInstance, dims, box_count};
ghost use Rattle.packing_terms.specs.declared.Rel.{Rel as PlainRel};
ghost use Rattle.packing_terms.specs.declared.Direction.TheVariants.{Forwards, Backwards};
ghost use Rattle.packing_terms.specs.Exclusions.{excludes, IsSurelyBefore};
ghost use Rattle.packing_terms.specs.Places.{HasNoEmptyMask};
ghost use Rattle.packing_terms.specs.Runs.{IsTransitive, AreHeaviestHeads, AreHeaviestTails};
ghost use Rattle.relation_table.specs.Masks.{mask_has};
ghost use Rattle.edge_state.specs.BitRows.{IsRowWidth, row_has, HoldsBoxes};
ghost use Rattle.edge_state.specs.Edges.{oldest};
ghost use Rattle.edge_state.specs.Answers.{IsChangeAfter};
ghost use Rattle.edge_state.specs.States.{HasRelationLeft};
ghost use Rattle.edge_state.specs.Work.{IsUnordered};
ghost use Rattle.edge_state.specs.ChainWeights.{weights_in};
ghost use Rattle.orientation_rules.specs.Pending.{AreFollowed, IsOrderedPair, IsOverLongAt, IsStopAt, risen_in};

use crate::fresh_weights::weigh_anew;
use crate::rising::{Risen, Stop, link};
use box_instances::Instance;
use edge_state::{BitRow, ChainWeights, EdgeState, Exclusion, Mark, Mask};
use std::marker::Model;

/// What is pending for CHAIN in a closing: in each dimension the boxes whose weights rose since
/// CHAIN was applied there; the dimensions whose weights are unknown; and the dirty ones, in which
/// two boxes became ordered since CHAIN was applied.
#[derive(Drop)]
pub struct PendingChains<const K: usize> {
    heads: [BitRow<K>; 4],
    tails: [BitRow<K>; 4],
    unknown: BitRow<1>,
    dirty: BitRow<1>,
    stops_early: bool,
}

impl<const K: usize> Model for PendingChains<K> {
    ghost use Rattle.std.specs.Prelude.{◌≡◌, length};
    ghost use Rattle.orientation_rules.specs.Pending.{PlainPending};

    ghost Value = { PlainPending };

    ghost view = { λ p. record {
      heads = p.heads;
      tails = p.tails;
      unknown = p.unknown;
      dirty = p.dirty;
    } };

    ghost invariant = { λ p. (length p.heads ≡ 4) × (length p.tails ≡ 4) };
}

// All dimensions if `wanted`, else none.
fn dims_if(wanted: bool, dims: u32) -> BitRow<1>
    requires { dims ≤ 4 }
    ensures { (i : ℕ) → row_has result i ≡ (nat_lt i dims && wanted) }
{
    let mut row = BitRow::empty();
    if wanted {
        for dim in 0..dims {
            row = row.with(dim);
        }
    }
    row
}

// The boxes of a change in their order, if one of them is surely before the other now. `left` is
// their mask, which isn't empty.
#[inline(always)]
fn ordered_boxes(state: &EdgeState, change: Exclusion, left: Mask) -> Option<(u32, u32)>
    requires left { (r : PlainRel) → mask_has left r
        ≡ not (excludes state.now.trail change.dim change.u change.v r) }
    requires some { left ≡ 0 → ⊥ }
    ensures { MatchOption result (IsUnordered (excludes state.now.trail) change)
        (λ p. IsOrderedPair (excludes state.now.trail) change p.0 p.1) }
{
    if left.bits() == 2 {
        return Some((change.u, change.v));
    }
    if left.bits() == 4 {
        return Some((change.v, change.u));
    }
    None
}

// The box at which raising stopped, if a chain through it is over-long.
fn box_of(stop: Stop) -> Option<u32>
    ensures { (instance : PlainInstance) (i : ℕ) (numbers : List (List ℕ))
        → IsStopAt instance i numbers stop → IfSome result (λ x. (x < box_count instance)
        × IsOverLongAt instance i numbers x) }
{
    match stop {
        Stop::OverLong(x) => Some(x),
        Stop::Full => None,
    }
}

impl<const K: usize> PendingChains<K> {
    /// Begins a closing from the mark `closed` of a state, with the chain weights of the state,
    /// which it exchanges with `weights`. If these aren't good at that mark, all dimensions are
    /// unknown and dirty. `stops_early` says whether raising may stop at an over-long chain.
    pub fn begin(
        instance: &Instance,
        state: &mut EdgeState,
        weights: &mut ChainWeights,
        closed: Mark,
        stops_early: bool,
    ) -> PendingChains<K>
        requires words { HoldsBoxes K (box_count instance.now) }
        requires dims { state.old.dims ≡ dims instance.now }
        requires boxes { state.old.boxes ≡ box_count instance.now }
        requires mark { closed ≤ length state.old.trail }
        ensures state { state.new ≡ state.old }
        ensures followed { AreFollowed instance.now state.new closed weights.new result }
    {
        let is_known = state.begin_closing(instance, weights, closed);
        let unknown = dims_if(!is_known, instance.dims());
        PendingChains {
            heads: [BitRow::empty(); 4],
            tails: [BitRow::empty(); 4],
            unknown,
            dirty: unknown,
            stops_early,
        }
    }

    /// A dirty dimension: the first one in which CHAIN isn't applied yet.
    #[inline]
    pub fn first_dirty(&self) -> Option<u32>
        ensures { MatchOption result ((i : ℕ) → row_has self.now.dirty i ≡ false)
            (λ i. row_has self.now.dirty i ≡ true) }
    {
        self.dirty.first()
    }

    /// The boxes whose weights rose in a dimension: of the chains that end in each, and of those
    /// that start in it. CHAIN has to be applied in the rows of the first and the columns of the
    /// second.
    #[inline]
    pub fn risen(&self, dim: u32) -> (BitRow<K>, BitRow<K>)
        requires { dim < 4 }
        ensures heads { result.0 ≡ risen_in self.now.heads dim }
        ensures tails { result.1 ≡ risen_in self.now.tails dim }
    {
        (self.heads[dim as usize], self.tails[dim as usize])
    }

    // Adds the boxes whose weights rose in a dimension.
    #[inline(always)]
    fn add_risen(&mut self, dim: u32, risen: Risen<K>)
        requires width { IsRowWidth K }
        requires dim { dim < 4 }
        ensures unknown { self.new.unknown ≡ self.old.unknown }
        ensures dirty { self.new.dirty ≡ self.old.dirty }
        ensures heads { (x : ℕ) → row_has (risen_in self.new.heads dim) x
            ≡ row_has (risen_in self.old.heads dim) x || row_has risen.entry.heads x }
        ensures tails { (x : ℕ) → row_has (risen_in self.new.tails dim) x
            ≡ row_has (risen_in self.old.tails dim) x || row_has risen.entry.tails x }
        ensures others { (i : ℕ) → (i ≡ dim → ⊥)
            → (risen_in self.new.heads i ≡ risen_in self.old.heads i)
            × (risen_in self.new.tails i ≡ risen_in self.old.tails i) }
    {
        let heads = self.heads[dim as usize];
        let tails = self.tails[dim as usize];
        self.heads[dim as usize] = heads.or(risen.heads);
        self.tails[dim as usize] = tails.or(risen.tails);
    }

    /// Processes the change after `mark`: if it orders its two boxes, weights of chains rise.
    /// `left` is their mask now, which isn't empty. Returns a box through which a chain is
    /// over-long by its weights, if one is found; the weights of that dimension are unknown then.
    #[inline(always)]
    pub fn follow(
        &mut self,
        instance: &Instance,
        state: &EdgeState,
        weights: &mut ChainWeights,
        all: BitRow<K>,
        mark: Mark,
        change: Exclusion,
        left: Mask,
    ) -> Option<u32>
        requires words { HoldsBoxes K (box_count instance.now) }
        requires dims { state.now.dims ≡ dims instance.now }
        requires boxes { state.now.boxes ≡ box_count instance.now }
        requires all { (x : ℕ) → row_has all x ≡ nat_lt x (box_count instance.now) }
        requires change { IsChangeAfter state.now.trail mark change (mark + 1) }
        requires left { (r : PlainRel) → mask_has left r
            ≡ not (excludes state.now.trail change.dim change.u change.v r) }
        requires some { left ≡ 0 → ⊥ }
        requires followed { AreFollowed instance.now state.now mark weights.old self.old }
        ensures followed { AreFollowed instance.now state.now (mark + 1) weights.new self.new }
        ensures clean { (i : ℕ) → row_has self.new.dirty i ≡ false
            → row_has self.old.dirty i ≡ false }
        ensures unordered { (i : ℕ) → row_has self.new.dirty i ≡ false → change.dim ≡ i
            → IsUnordered (excludes state.now.trail) change }
        ensures within { (i : ℕ) → row_has self.new.dirty i ≡ true → (i ≡ change.dim)
            ⊎ (row_has self.old.dirty i ≡ true) }
        ensures found { IfSome result (λ x. (x < box_count instance.now)
            × IsOverLongAt instance.now change.dim weights.new.numbers x) }
    {
        // For the proof alone: states the limits of the state.
        let _sizes = state.dims();
        let Some((a, b)) = ordered_boxes(state, change, left) else {
            return None;
        };
        self.dirty = self.dirty.with(change.dim);
        if self.unknown.has(change.dim) {
            return None;
        }
        let early = self.stops_early;
        match link(instance, state, all, change.dim, a, b, early, weights) {
            Ok(risen) => {
                self.add_risen(change.dim, risen);
                None
            }
            Err(stop) => {
                self.unknown = self.unknown.with(change.dim);
                box_of(stop)
            }
        }
    }

    // Marks the weights of a dimension as known. All heads count as risen, so that CHAIN is applied
    // in all rows.
    fn set_known(&mut self, dim: u32, all: BitRow<K>)
        requires width { IsRowWidth K }
        requires dim { dim < 4 }
        ensures dirty { self.new.dirty ≡ self.old.dirty }
        ensures unknown { (i : ℕ) → row_has self.new.unknown i
            ≡ (row_has self.old.unknown i && not (i == dim)) }
        ensures heads { risen_in self.new.heads dim ≡ all.entry }
        ensures tails { (x : ℕ) → row_has (risen_in self.new.tails dim) x ≡ false }
        ensures others { (i : ℕ) → (i ≡ dim → ⊥)
            → (risen_in self.new.heads i ≡ risen_in self.old.heads i)
            × (risen_in self.new.tails i ≡ risen_in self.old.tails i) }
    {
        self.unknown = self.unknown.without(dim);
        self.heads[dim as usize] = all;
        self.tails[dim as usize] = BitRow::empty();
    }

    /// Computes the weights of the heaviest chains in a dimension, if they are unknown. All changes
    /// of the state are processed, no mask is empty, and surely before is transitive in this
    /// dimension, as COMPOSE makes it. `all` has all boxes.
    pub fn weigh(
        &mut self,
        instance: &Instance,
        state: &EdgeState,
        weights: &mut ChainWeights,
        all: BitRow<K>,
        dim: u32,
    )
        requires words { HoldsBoxes K (box_count instance.now) }
        requires dims { state.now.dims ≡ dims instance.now }
        requires boxes { state.now.boxes ≡ box_count instance.now }
        requires dim { dim < dims instance.now }
        requires all { (x : ℕ) → row_has all x ≡ nat_lt x (box_count instance.now) }
        requires full { HasNoEmptyMask instance.now (excludes state.now.trail) }
        requires transitive { IsTransitive (box_count instance.now) (IsSurelyBefore
            (excludes state.now.trail) dim) }
        requires followed { AreFollowed instance.now state.now (length state.now.trail) weights.old
            self.old }
        ensures followed { AreFollowed instance.now state.now (length state.now.trail) weights.new
            self.new }
        ensures dirty { self.new.dirty ≡ self.old.dirty }
        ensures known { row_has self.new.unknown dim ≡ false }
        ensures heads { AreHeaviestHeads instance.now (excludes state.now.trail) dim
            (weights_in weights.new.numbers Backwards dim) }
        ensures tails { AreHeaviestTails instance.now (excludes state.now.trail) dim
            (weights_in weights.new.numbers Forwards dim) }
    {
        // For the proof alone: states the limits of the state.
        let _sizes = state.dims();
        if self.unknown.has(dim) {
            weigh_anew::<K>(instance, state, weights, dim);
            self.set_known(dim, all);
        }
    }

    /// Marks CHAIN as applied in a dimension: any two boxes fit in it.
    #[inline]
    pub fn settle(&mut self, dim: u32)
        requires width { IsRowWidth K }
        requires dim { dim < 4 }
        ensures dirty { (i : ℕ) → row_has self.new.dirty i
            ≡ (row_has self.old.dirty i && not (i == dim)) }
        ensures unknown { self.new.unknown ≡ self.old.unknown }
        ensures heads { (u : ℕ) → row_has (risen_in self.new.heads dim) u ≡ false }
        ensures tails { (u : ℕ) → row_has (risen_in self.new.tails dim) u ≡ false }
        ensures others { (i : ℕ) → (i ≡ dim → ⊥)
            → (risen_in self.new.heads i ≡ risen_in self.old.heads i)
            × (risen_in self.new.tails i ≡ risen_in self.old.tails i) }
    {
        self.heads[dim as usize] = BitRow::empty();
        self.tails[dim as usize] = BitRow::empty();
        self.dirty = self.dirty.without(dim);
    }
}
