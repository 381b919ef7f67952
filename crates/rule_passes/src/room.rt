//! The propagator: closes a state from scratch, or from the mark at which it was closed before.
ghost use Rattle.std.specs.Prelude.{◌≡◌, ◌<◌, ◌≤◌, ◌-◌, ℕ, true, nat_lt, length, drop, slice_index_or, IfOk, MatchBool};
ghost use Rattle.packing_terms.specs.Limits.{IsDimCount, IsBoxCount};
ghost use Rattle.packing_terms.specs.Packing.{dims, box_count};
ghost use Rattle.packing_terms.specs.Exclusions.{excludes};
ghost use Rattle.packing_terms.specs.Closure.{IsStable};
ghost use Rattle.packing_terms.specs.Applied.{Extends};
ghost use Rattle.packing_terms.specs.Places.{HasNoEmptyMask};
ghost use Rattle.edge_state.specs.BitRows.{IsRowWidth, row_has};
ghost use Rattle.edge_state.specs.Edges.{oldest};
ghost use Rattle.edge_state.specs.States.{HasEmptyMask};
ghost use Rattle.edge_state.specs.Work.{IsUpToDate, IsChainUpToDate};

use crate::closing::close_in;
use crate::pairs::pass_pairs;
use crate::rows::all_boxes;
use box_instances::{Instance, NoMemory};
use edge_state::{BitRow, ChainWeights, EdgeState, Mark};
use std::alloc::Global;
use std::marker::Model;

/// Closes states of `dims` dimensions and `boxes` boxes: runs the rules to a fixpoint. The view has
/// these two sizes, and the number of boxes that it was made for.
///
/// Rows have one word if that holds all boxes, else two. During a closing, `weights` is exchanged
/// with the chain weights of the state.
#[derive(Drop)]
pub struct Propagator {
    dims: u32,
    boxes: u32,
    most: u32,
    narrow: BitRow<1>,
    wide: BitRow<2>,
    stops_early: bool,
    weights: ChainWeights,
}

impl Model for Propagator {
    ghost use Rattle.rule_passes.specs.Rooms.{PlainPropagator, HasRoom};

    ghost Value = { PlainPropagator };

    ghost view = { λ c. record { dims = c.dims; boxes = c.boxes; most = c.most } };

    ghost invariant = { λ c. HasRoom c.boxes c.most c.narrow c.wide };
}

impl Propagator {
    // A propagator with or without early detection of over-long chains.
    fn made(alloc: Global, dims: u32, boxes: u32, stops_early: bool) -> Result<Propagator, NoMemory>
        requires dimensions { IsDimCount dims }
        requires boxes { IsBoxCount boxes }
        ensures { IfOk result
            (λ room. room ≡ record { dims = dims; boxes = boxes; most = boxes }) }
    {
        let weights = ChainWeights::new(alloc)?;
        Ok(Propagator {
            dims,
            boxes,
            most: boxes,
            narrow: all_boxes(boxes.min(64)),
            wide: all_boxes(boxes),
            stops_early,
            weights,
        })
    }

    /// A propagator for states of `dims` dimensions and `boxes` boxes. `dims` is from 2 to 4,
    /// `boxes` from 1 to 128. A closing ends as soon as it detects an over-long chain.
    pub fn new(alloc: Global, dims: u32, boxes: u32) -> Result<Propagator, NoMemory>
        requires dimensions { IsDimCount dims }
        requires boxes { IsBoxCount boxes }
        ensures { IfOk result
            (λ room. room ≡ record { dims = dims; boxes = boxes; most = boxes }) }
    {
        Propagator::made(alloc, dims, boxes, true)
    }

    /// Like `new`, but without early detection of over-long chains: `explain` needs the complete
    /// list of exclusions up to the empty mask.
    pub fn in_order(alloc: Global, dims: u32, boxes: u32) -> Result<Propagator, NoMemory>
        requires dimensions { IsDimCount dims }
        requires boxes { IsBoxCount boxes }
        ensures { IfOk result
            (λ room. room ≡ record { dims = dims; boxes = boxes; most = boxes }) }
    {
        Propagator::made(alloc, dims, boxes, false)
    }

    /// Prepares it for states of `boxes` boxes, at most as many as it was made for. It takes no
    /// memory.
    pub fn set_boxes(&mut self, boxes: u32)
        requires count { IsBoxCount boxes }
        requires most { boxes ≤ self.old.most }
        ensures { self.new ≡ record self.old { boxes = boxes } }
    {
        self.boxes = boxes;
        self.narrow = all_boxes(boxes.min(64));
        self.wide = all_boxes(boxes);
    }

    // Closes the state from the mark `closed` on, with rows of as many words as hold all boxes.
    fn close_from(&mut self, instance: &Instance, state: &mut EdgeState, closed: Mark) -> bool
        requires dims { state.old.dims ≡ dims instance.now }
        requires boxes { state.old.boxes ≡ box_count instance.now }
        requires room_dims { self.old.dims ≡ dims instance.now }
        requires room_boxes { self.old.boxes ≡ box_count instance.now }
        requires mark { closed ≤ length state.old.trail }
        requires settled { IsUpToDate instance.now
            (oldest closed state.old.trail) state.old.trail }
        requires chained { (i : ℕ) → i < dims instance.now → IsChainUpToDate instance.now i
            (oldest closed state.old.trail) state.old.trail }
        ensures room { self.new ≡ self.old }
        ensures sizes { state.new ≡ record state.old { trail = state.new.trail } }
        ensures extends { Extends instance.now state.old.trail state.new.trail }
        ensures ended { MatchBool result (HasEmptyMask instance.now (excludes state.new.trail))
            (IsStable instance.now (excludes state.new.trail)
            × HasNoEmptyMask instance.now (excludes state.new.trail)) }
    {
        // For the proof alone: states the limits of the state.
        let _sizes = state.dims();
        let (early, weights) = (self.stops_early, &mut self.weights);
        if self.boxes <= 64 {
            return close_in(instance, state, self.narrow, closed, early, weights);
        }
        close_in(instance, state, self.wide, closed, early, weights)
    }

    /// Runs the seven rules on the exclusions of the state until no rule adds anything or a mask is
    /// empty. Returns whether a mask is empty.
    ///
    /// The derived exclusions come on top of the old ones, so `undo` gives the masks back.
    /// Propagator, instance and state have the same sizes. It takes no memory.
    pub fn close_all(&mut self, instance: &Instance, state: &mut EdgeState) -> bool
        requires dims { state.old.dims ≡ dims instance.now }
        requires boxes { state.old.boxes ≡ box_count instance.now }
        requires room_dims { self.old.dims ≡ dims instance.now }
        requires room_boxes { self.old.boxes ≡ box_count instance.now }
        ensures room { self.new ≡ self.old }
        ensures sizes { state.new ≡ record state.old { trail = state.new.trail } }
        ensures extends { Extends instance.now state.old.trail state.new.trail }
        ensures ended { MatchBool result (HasEmptyMask instance.now (excludes state.new.trail))
            (IsStable instance.now (excludes state.new.trail)
            × HasNoEmptyMask instance.now (excludes state.new.trail)) }
    {
        // For the proof alone: states the limits of the state.
        let _sizes = state.dims();
        if pass_pairs(instance, state) {
            return true;
        }
        self.close_from(instance, state, Mark::first())
    }

    /// Like `close_all`, for a state that was closed without an empty mask at the mark `closed`,
    /// and to which exclusions were added since. It propagates only these.
    pub fn close_since(&mut self, instance: &Instance, state: &mut EdgeState, closed: Mark) -> bool
        requires dims { state.old.dims ≡ dims instance.now }
        requires boxes { state.old.boxes ≡ box_count instance.now }
        requires room_dims { self.old.dims ≡ dims instance.now }
        requires room_boxes { self.old.boxes ≡ box_count instance.now }
        requires mark { closed ≤ length state.old.trail }
        requires stable { IsStable instance.now
            (excludes (oldest closed state.old.trail)) }
        requires full { HasNoEmptyMask instance.now
            (excludes (oldest closed state.old.trail)) }
        ensures room { self.new ≡ self.old }
        ensures sizes { state.new ≡ record state.old { trail = state.new.trail } }
        ensures extends { Extends instance.now state.old.trail state.new.trail }
        ensures ended { MatchBool result (HasEmptyMask instance.now (excludes state.new.trail))
            (IsStable instance.now (excludes state.new.trail)
            × HasNoEmptyMask instance.now (excludes state.new.trail)) }
    {
        self.close_from(instance, state, closed)
    }
}
