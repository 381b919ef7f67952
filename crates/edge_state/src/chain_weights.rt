//! Weights of heaviest chains that a state keeps for its closings, with a log that restores those
//! of the end of an earlier one.
ghost use Rattle.std.specs.Prelude.{◌≡◌, ◌↔◌, ◌+◌, ◌-◌, ◌<◌, ◌≤◌, ◌⊎◌, ℕ, IsTrue, [], true, false, length, drop, set, slice_index, slice_index_or, List, IfOk, MatchOption};
ghost use Rattle.packing_terms.specs.Packing.{PlainInstance, dims, box_count, side, container_side};
ghost use Rattle.packing_terms.specs.Limits.{IsBoxCount};
ghost use Rattle.packing_terms.specs.Runs.{most_weight};
ghost use Rattle.packing_terms.specs.declared.Direction.TheVariants.{Forwards, Backwards};
ghost use Rattle.edge_state.specs.ChainWeights.{AreForInstance, AreGoodFor, AreOf, IsSameHistory, list_number, taken_back, weights_in, with_number, IsNewestEnd};
ghost use Rattle.edge_state.specs.Edges.{oldest};
ghost use Rattle.packing_terms.specs.declared.Exclusion.{Exclusion};
ghost use Rattle.packing_terms.specs.Exclusions.{excludes};

use crate::state::Mark;
use box_instances::{Instance, MAX_BOXES, NoMemory};
use packing_terms::Direction;
use std::alloc::Global;
use std::marker::Model;

/// An entry of the log: the list and the index of a number that was raised, and the number before.
#[derive(Clone, Copy)]
pub struct Raise {
    pub list: u32,
    pub at: u32,
    pub old: u64,
}

/// The end of a closing: the mark of the state, and the length of the log.
#[derive(Clone, Copy)]
pub struct ClosingEnd {
    pub mark: Mark,
    pub raises: usize,
}

// The capacity of the log. The longest one of the measured instances has 514 raises.
const MAX_RAISES: usize = 4_096;

// The capacity for ends. A search keeps one a level, and is seldom this deep.
const MAX_ENDS: usize = 1_024;

// The greatest weight of a chain: 128 boxes of side 1,000,000.
const MAX_WEIGHT: u64 = 128_000_000;

/// For each dimension the weights of the heaviest chains that end in each box (backwards) and that
/// start in it (forwards), with a log of raises that restores them as they were at the end of an
/// earlier closing.
///
/// The view has the sides of the container and of the boxes, the weights, and the log and the ends
/// of closings, newest first.
#[derive(Drop)]
pub struct ChainWeights {
    limits: [u32; 4],
    sides: Vec<[u32; 4]>,
    numbers: Vec<[u64; MAX_BOXES]>,
    log: Vec<Raise>,
    ends: Vec<ClosingEnd>,
}

impl Model for ChainWeights {
    ghost use Rattle.std.specs.Prelude.{reverse, vec_capacity};
    ghost use Rattle.edge_state.specs.ChainWeights.{PlainWeights, AreSized};

    ghost Value = { PlainWeights };

    ghost view = { λ k. record {
      limits = k.limits;
      sides = k.sides.items;
      numbers = k.numbers.items;
      log = reverse k.log.items;
      ends = reverse k.ends.items;
    } };

    ghost invariant = { λ k. AreSized (record {
      limits = k.limits;
      sides = k.sides.items;
      numbers = k.numbers.items;
      log = reverse k.log.items;
      ends = reverse k.ends.items;
    }) (vec_capacity k.log) (vec_capacity k.ends) };
}

// The index of the list for a direction and dimension.
#[inline]
fn list_of(direction: Direction, dim: u32) -> usize
    requires { dim < 4 }
    ensures value { result ≡ list_number direction dim }
    ensures limit { result < 8 }
{
    match direction {
        Direction::Backwards => dim as usize,
        Direction::Forwards => 4 + dim as usize,
    }
}

// Whether two rows of sides are equal. The four comparisons are joined without branches.
#[inline]
fn is_same_row(first: &[u32; 4], second: &[u32; 4]) -> bool
    ensures { IsTrue result
        ↔ ((i : ℕ) → i < 4 → slice_index first.now i ≡ slice_index second.now i) }
{
    (first[0] == second[0])
        & (first[1] == second[1])
        & (first[2] == second[2])
        & (first[3] == second[3])
}

impl ChainWeights {
    /// Weights of 0, with no end of a closing. It takes all memory that later calls need.
    pub fn new(alloc: Global) -> Result<ChainWeights, NoMemory>
        ensures { IfOk result (λ k. k.ends ≡ []) }
    {
        let Ok(sides) = vec![in alloc; [0u32; 4]; MAX_BOXES] else {
            return Err(NoMemory);
        };
        let Ok(numbers) = vec![in alloc; [0u64; MAX_BOXES]; 8] else {
            return Err(NoMemory);
        };
        let Ok(log) = Vec::with_capacity(alloc, MAX_RAISES) else {
            return Err(NoMemory);
        };
        let Ok(ends) = Vec::with_capacity(alloc, MAX_ENDS) else {
            return Err(NoMemory);
        };
        Ok(ChainWeights {
            limits: [0; 4],
            sides,
            numbers,
            log,
            ends,
        })
    }

    /// The weights of one direction in a dimension, an entry for each of 128 boxes: backwards those
    /// of the chains that end in the box, forwards those of the chains that start in it. `dim` is
    /// below 4.
    #[inline]
    pub fn weights(&self, direction: Direction, dim: u32) -> &[u64]
        requires { dim < 4 }
        ensures value { result.now ≡ weights_in self.now.numbers direction dim }
        ensures count { length result.now ≡ 128 }
        ensures small { (v : ℕ) → slice_index result.now v ≤ most_weight }
    {
        self.numbers[list_of(direction, dim)].as_slice()
    }

    /// Writes the weight of box `v` and logs the old one; `v` is below 128, `dim` below 4. Returns
    /// whether it did. It changes nothing if `weight` is above 128,000,000 or the log is full.
    #[inline]
    pub fn write(&mut self, direction: Direction, dim: u32, v: u32, weight: u64) -> bool
        requires dim { dim < 4 }
        requires v { v < 128 }
        ensures history { IsSameHistory self.old self.new }
        ensures ends { self.new.ends ≡ self.old.ends }
        ensures written { result ≡ true → self.new.numbers
            ≡ with_number self.old.numbers (list_number direction dim) v weight }
        ensures logged { result ≡ true → (length self.new.log ≡ length self.old.log + 1)
            × (length self.new.log ≤ 4096) }
        ensures small { result ≡ true → weight ≤ most_weight }
        ensures same { result ≡ false → self.new ≡ self.old }
        ensures full { result ≡ false → (most_weight < weight) ⊎ (4096 ≤ length self.old.log) }
    {
        if weight > MAX_WEIGHT {
            return false;
        }
        if self.log.len() >= MAX_RAISES {
            return false;
        }
        let list = list_of(direction, dim);
        let at = v as usize;
        self.log.push_reserved(Raise {
            list: list as u32,
            at: v,
            old: self.numbers[list][at],
        });
        self.numbers[list][at] = weight;
        true
    }

    /// Makes sure that the log has memory for `more` raises: without it, the log is emptied and the
    /// ends of closings are forgotten. The weights stay.
    pub fn reserve(&mut self, more: usize)
        requires { more ≤ 4096 }
        ensures limits { self.new.limits ≡ self.old.limits }
        ensures sides { self.new.sides ≡ self.old.sides }
        ensures numbers { self.new.numbers ≡ self.old.numbers }
        ensures held { IsSameHistory self.old self.new }
        ensures room { length self.new.log + more ≤ 4096 }
        ensures kept { length self.old.log + more ≤ 4096 → self.new ≡ self.old }
        ensures emptied { 4096 < length self.old.log + more
            → self.new ≡ record self.old { log = []; ends = [] } }
    {
        if self.log.len() + more > MAX_RAISES {
            self.forget();
        }
    }

    // Empties the log and forgets the ends of closings.
    pub(crate) fn forget(&mut self)
        ensures { self.new ≡ record self.old { log = []; ends = [] } }
    {
        self.log.clear();
        self.ends.clear();
    }

    // Takes back all raises but the `first` oldest ones.
    fn take_back(&mut self, first: usize)
        ensures { self.new ≡ record self.old {
          numbers = taken_back (length self.old.log - first) self.old.numbers self.old.log;
          log = drop (length self.old.log - first) self.old.log;
        } }
    {
        while self.log.len() > first {
            let Some(raise) = self.log.pop() else {
                unreachable!();
            };
            self.numbers[raise.list as usize][raise.at as usize] = raise.old;
        }
    }

    // The newest end of a closing, if there is one.
    #[inline]
    fn newest_end(&self) -> Option<ClosingEnd>
        ensures { MatchOption result (self.now.ends ≡ [])
            (λ end. IsNewestEnd self.now.ends end) }
    {
        let count = self.ends.len();
        if count == 0 {
            return None;
        }
        Some(self.ends[count - 1])
    }

    /// Forgets the ends with a mark beyond `to`.
    #[inline]
    pub(crate) fn cut_to(&mut self, to: Mark)
        ensures { (d n : ℕ) (es : List Exclusion) → to ≤ length es → AreOf d n es self.old
            → AreOf d n (oldest to es) self.new }
    {
        while let Some(end) = self.newest_end() {
            if !to.is_before(end.mark) {
                return;
            }
            let _ = self.ends.pop();
        }
    }

    // Whether the weights are of the sides of these boxes and of this container. Rows are compared
    // whole, since entries beyond the dimensions are 0 in every instance.
    fn are_for(&self, instance: &Instance) -> bool
        ensures { result ≡ true → AreForInstance instance.now self.now }
    {
        if !is_same_row(&self.limits, &instance.container_row()) {
            return false;
        }
        for v in 0..instance.len() {
            if !is_same_row(&self.sides[v as usize], &instance.side_row(v)) {
                return false;
            }
        }
        true
    }

    // Writes the sides of these boxes and of this container. The weights are then arbitrary
    // numbers, without an end of a closing.
    fn make_for(&mut self, instance: &Instance)
        ensures instance { AreForInstance instance.now self.new }
        ensures ends { self.new.ends ≡ [] }
    {
        self.forget();
        self.limits = instance.container_row();
        for v in 0..instance.len() {
            self.sides[v as usize] = instance.side_row(v);
        }
    }

    /// Restores the weights of the newest end of a closing and returns true, if its mark is
    /// `closed` and the weights are of these boxes and this container. Otherwise the weights are
    /// arbitrary numbers.
    pub(crate) fn begin(&mut self, instance: &Instance, closed: Mark) -> bool
        ensures instance { AreForInstance instance.now self.new }
        ensures held { (es : List Exclusion) → AreOf (dims instance.now) (box_count instance.now) es
            self.old → AreOf (dims instance.now) (box_count instance.now) es self.new }
        ensures good { result ≡ true → (es : List Exclusion)
            → AreOf (dims instance.now) (box_count instance.now) es self.old
            → AreGoodFor instance.now (excludes (oldest closed es)) self.new.numbers }
    {
        if !self.are_for(instance) {
            self.make_for(instance);
            return false;
        }
        let Some(end) = self.newest_end() else {
            self.forget();
            return false;
        };
        if end.mark != closed {
            self.forget();
            return false;
        }
        self.take_back(end.raises);
        true
    }

    /// Records the end of a closing at a mark of the state, the newest one. If there isn't memory
    /// for one more, all older ends are forgotten.
    pub(crate) fn end(&mut self, at: Mark)
        ensures numbers { self.new.numbers ≡ self.old.numbers }
        ensures held { (instance : PlainInstance) (es : List Exclusion) → length es ≡ at
            → AreForInstance instance self.old
            → AreOf (dims instance) (box_count instance) es self.old
            → AreGoodFor instance (excludes es) self.old.numbers
            → AreOf (dims instance) (box_count instance) es self.new }
    {
        if self.ends.len() >= MAX_ENDS {
            self.forget();
        }
        let raises = self.log.len();
        self.ends.push_reserved(ClosingEnd { mark: at, raises });
    }
}
