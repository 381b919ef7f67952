//! A closing: runs the rules to a fixpoint, or to an empty mask.
ghost use Rattle.std.specs.Prelude.{◌≡◌, ◌<◌, ◌≤◌, ◌-◌, ℕ, false, nat_lt, length, drop, MatchBool};
ghost use Rattle.packing_terms.specs.Packing.{dims, box_count};
ghost use Rattle.packing_terms.specs.Exclusions.{excludes};
ghost use Rattle.packing_terms.specs.Closure.{IsStable};
ghost use Rattle.packing_terms.specs.Applied.{Extends};
ghost use Rattle.packing_terms.specs.Places.{HasNoEmptyMask};
ghost use Rattle.edge_state.specs.BitRows.{IsRowWidth, HoldsBoxes, row_has};
ghost use Rattle.edge_state.specs.Edges.{oldest};
ghost use Rattle.edge_state.specs.States.{HasEmptyMask};
ghost use Rattle.edge_state.specs.Work.{IsUpToDate, IsChainUpToDate};
ghost use Rattle.edge_state.specs.ChainWeights.{AreGoodFor};
ghost use Rattle.orientation_rules.specs.Pending.{AreFollowed, AreHeld};

use crate::chains::propagate_chains;
use crate::worklist::drain_worklist;
use box_instances::Instance;
use edge_state::{BitRow, ChainWeights, EdgeState, Mark};
use orientation_rules::PendingChains;

// Drains the worklist after `closed`, applies CHAIN in a dirty dimension, drains the worklist of
// what that excluded, and so on until no dimension is dirty. Returns whether a mask is empty, at
// which it ends at once.
fn run_to_fixpoint<const K: usize>(
    instance: &Instance,
    state: &mut EdgeState,
    all: BitRow<K>,
    closed: Mark,
    weights: &mut ChainWeights,
    pending: &mut PendingChains<K>,
) -> bool
    requires words { HoldsBoxes K (box_count instance.now) }
    requires dims { state.old.dims ≡ dims instance.now }
    requires boxes { state.old.boxes ≡ box_count instance.now }
    requires all { (x : ℕ) → row_has all x ≡ nat_lt x (box_count instance.now) }
    requires mark { closed ≤ length state.old.trail }
    requires settled { IsUpToDate instance.now
        (oldest closed state.old.trail) state.old.trail }
    requires chained { (i : ℕ) → i < dims instance.now → IsChainUpToDate instance.now i
        (oldest closed state.old.trail) state.old.trail }
    requires followed { AreFollowed instance.now state.old closed weights.old pending.old }
    ensures held { AreHeld instance.now state.new weights.new }
    ensures good { result ≡ false → AreGoodFor instance.now (excludes state.new.trail)
        weights.new.numbers }
    ensures sizes { state.new ≡ record state.old { trail = state.new.trail } }
    ensures extends { Extends instance.now state.old.trail state.new.trail }
    ensures ended { MatchBool result (HasEmptyMask instance.now (excludes state.new.trail))
        (IsStable instance.now (excludes state.new.trail)
        × HasNoEmptyMask instance.now (excludes state.new.trail)) }
{
    if drain_worklist(instance, state, all, closed, weights, pending) {
        return true;
    }
    while let Some(dim) = pending.first_dirty() {
        let next = state.mark();
        if propagate_chains(instance, state, dim, all, weights, pending) {
            return true;
        }
        if drain_worklist(instance, state, all, next, weights, pending) {
            return true;
        }
        // For the proof alone: states the limits of the state.
        let _sizes = state.dims();
    }
    false
}

/// Closes a state from the mark `closed` on, with rows of as many words as hold all boxes. Returns
/// whether a mask is empty. Meanwhile the chain weights of the state are in `weights`.
/// `stops_early` says whether an over-long chain may end the closing before CHAIN is applied.
pub(crate) fn close_in<const K: usize>(
    instance: &Instance,
    state: &mut EdgeState,
    all: BitRow<K>,
    closed: Mark,
    stops_early: bool,
    weights: &mut ChainWeights,
) -> bool
    requires words { HoldsBoxes K (box_count instance.now) }
    requires dims { state.old.dims ≡ dims instance.now }
    requires boxes { state.old.boxes ≡ box_count instance.now }
    requires all { (x : ℕ) → row_has all x ≡ nat_lt x (box_count instance.now) }
    requires mark { closed ≤ length state.old.trail }
    requires settled { IsUpToDate instance.now
        (oldest closed state.old.trail) state.old.trail }
    requires chained { (i : ℕ) → i < dims instance.now → IsChainUpToDate instance.now i
        (oldest closed state.old.trail) state.old.trail }
    ensures sizes { state.new ≡ record state.old { trail = state.new.trail } }
    ensures extends { Extends instance.now state.old.trail state.new.trail }
    ensures ended { MatchBool result (HasEmptyMask instance.now (excludes state.new.trail))
        (IsStable instance.now (excludes state.new.trail)
        × HasNoEmptyMask instance.now (excludes state.new.trail)) }
{
    let mut pending = PendingChains::begin(instance, state, weights, closed, stops_early);
    let is_empty = run_to_fixpoint(instance, state, all, closed, weights, &mut pending);
    state.end_closing(instance, weights, !is_empty);
    is_empty
}
