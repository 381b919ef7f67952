//! The pool of tuples: those whose bounds at the root are the least, with the shares of all boxes.

use crate::fill::{OpenNode, PricedBox, Weights, density, is_priced_out, least_goal, weights_of};
use crate::slots::{block_of, entry, write};
use crate::tree_space::TupleSpace;
use box_instances::{Instance, NoMemory};
use conservative_scales::ScaleTuple;
use lenient_lists::pushed;
use std::alloc::Global;

// The most tuples of a pool. 1,024 to 4,096 of them save at most 1 % of the nodes of 4 instances in
// two dimensions and 10 to 30 % of 2 in three, and take 1.5 to 7 times as long. 64 take up to three
// times the nodes.
const MAX_POOL: usize = 256;

/// Tuples with the shares of boxes, by rising bound at the root, and what boxes that are in take.
#[derive(Drop)]
pub(crate) struct Pool {
    space: TupleSpace,
    root_goal: u64,
    numbers: Vec<u32>,
    boxes: usize,
    // The boxes of each tuple by falling value for their share.
    rows: Vec<PricedBox>,
    // The shares of box 0 by all tuples first.
    shares: Vec<u32>,
    // The sum of the shares of what is in, by each tuple.
    used: Vec<u64>,
}

/// The scratch buffers of a pool that is made: the shares of all boxes by one tuple.
#[derive(Drop)]
struct Shares {
    products: Vec<u128>,
    shares: Vec<u32>,
}

// A tuple by number with its least refuted goal at the root.
#[derive(Clone, Copy)]
struct RankedTuple {
    number: u32,
    goal: u64,
}

// A box with what its density lacks of the greatest one, by which boxes are sorted. It is computed
// once for each box: the sort compares each box with several others.
#[derive(Clone, Copy)]
struct RankedBox {
    thinness: u64,
    priced: PricedBox,
}

impl Shares {
    fn new(alloc: Global, boxes: usize) -> Result<Shares, NoMemory> {
        let Ok(products) = vec![in alloc; 0u128; boxes] else {
            return Err(NoMemory);
        };
        let Ok(shares) = vec![in alloc; 0u32; boxes] else {
            return Err(NoMemory);
        };
        Ok(Shares { products, shares })
    }

    // The boxes by falling density under a tuple.
    fn row(
        &mut self,
        alloc: Global,
        instance: &Instance,
        space: &TupleSpace,
        number: usize,
    ) -> Result<Vec<PricedBox>, NoMemory> {
        space.write_shares(number, &mut self.products, &mut self.shares);
        let mut ranked = Vec::new(alloc);
        for v in 0..instance.len() {
            let priced = PricedBox {
                box_no: v,
                share: entry(&self.shares, v as usize, 0),
                value: instance.value(v),
            };
            let thinness = u64::MAX - density(&priced);
            pushed(&mut ranked, RankedBox { thinness, priced })?;
        }
        if ranked.sort_by_key(|ranked| ranked.thinness).is_err() {
            return Err(NoMemory);
        }
        unranked(alloc, &ranked)
    }
}

// The boxes of a ranked list.
fn unranked(alloc: Global, ranked: &[RankedBox]) -> Result<Vec<PricedBox>, NoMemory> {
    let mut row = Vec::new(alloc);
    for ranked_box in ranked {
        pushed(&mut row, ranked_box.priced)?;
    }
    Ok(row)
}

// All tuples by rising bound at the root, at most `MAX_POOL`.
fn ranked_tuples(
    alloc: Global,
    instance: &Instance,
    space: &TupleSpace,
    open: u128,
) -> Result<Vec<RankedTuple>, NoMemory> {
    let mut scratch = Shares::new(alloc, instance.len() as usize)?;
    let root = OpenNode {
        open,
        worth: 0,
        goal: u64::MAX,
    };
    let mut ranked = Vec::new(alloc);
    for number in 0..space.len().min(u32::MAX as usize) {
        let row = scratch.row(alloc, instance, space, number)?;
        let tuple = RankedTuple {
            number: number as u32,
            goal: least_goal(&row, &root),
        };
        pushed(&mut ranked, tuple)?;
    }
    if ranked.sort_by_key(|tuple| tuple.goal).is_err() {
        return Err(NoMemory);
    }
    ranked.truncate(MAX_POOL);
    Ok(ranked)
}

// Adds the shares of a box by each tuple to sums.
fn add_shares(sums: &mut [u64], shares: &[u32]) {
    for k in 0..sums.len() {
        sums[k] = sums[k].saturating_add(u64::from(entry(shares, k, 0)));
    }
}

// Takes the shares of a box by each tuple from sums.
fn take_shares(sums: &mut [u64], shares: &[u32]) {
    for k in 0..sums.len() {
        sums[k] = sums[k].saturating_sub(u64::from(entry(shares, k, 0)));
    }
}

// The least goal that the first of ranked tuples refutes at the root.
fn least_root_goal(ranked: &[RankedTuple]) -> u64 {
    if ranked.is_empty() {
        u64::MAX
    } else {
        ranked[0].goal
    }
}

impl Pool {
    /// The pool of an instance, where these boxes fit alone. It takes all memory of the pool.
    pub(crate) fn new(alloc: Global, instance: &Instance, open: u128) -> Result<Pool, NoMemory> {
        let space = TupleSpace::new(alloc, instance)?;
        let ranked = ranked_tuples(alloc, instance, &space, open)?;
        let boxes = instance.len() as usize;
        let Ok(shares) = vec![in alloc; 0u32; boxes.saturating_mul(ranked.len())] else {
            return Err(NoMemory);
        };
        let Ok(used) = vec![in alloc; 0u64; ranked.len()] else {
            return Err(NoMemory);
        };
        let mut pool = Pool {
            space,
            root_goal: least_root_goal(&ranked),
            numbers: Vec::new(alloc),
            boxes,
            rows: Vec::new(alloc),
            shares,
            used,
        };
        pool.take_rows(alloc, instance, &ranked)?;
        Ok(pool)
    }

    // Takes the rows of tuples.
    fn take_rows(
        &mut self,
        alloc: Global,
        instance: &Instance,
        ranked: &[RankedTuple],
    ) -> Result<(), NoMemory> {
        let mut scratch = Shares::new(alloc, self.boxes)?;
        for tuple in ranked {
            let row = scratch.row(alloc, instance, &self.space, tuple.number as usize)?;
            self.take_row(tuple.number, &row)?;
        }
        Ok(())
    }

    // Takes the row of the next tuple.
    fn take_row(&mut self, number: u32, row: &[PricedBox]) -> Result<(), NoMemory> {
        let (index, count) = (self.numbers.len(), self.used.len());
        for priced in row {
            pushed(&mut self.rows, *priced)?;
            let start = (priced.box_no as usize).saturating_mul(count);
            write(&mut self.shares, start.saturating_add(index), priced.share);
        }
        pushed(&mut self.numbers, number)
    }

    /// The least goal that one tuple refutes at the root.
    pub(crate) fn root_goal(&self) -> u64 {
        self.root_goal
    }

    /// No box is in.
    pub(crate) fn clear(&mut self) {
        self.used.fill(0);
    }

    /// The number of tuples.
    pub(crate) fn len(&self) -> usize {
        self.numbers.len()
    }

    /// Adds the shares of a box to what is in.
    pub(crate) fn add(&mut self, v: u32) {
        let shares = block_of(&self.shares, v as usize, self.used.len());
        add_shares(&mut self.used, shares);
    }

    /// Takes the shares of a box from what is in.
    pub(crate) fn remove(&mut self, v: u32) {
        let shares = block_of(&self.shares, v as usize, self.used.len());
        take_shares(&mut self.used, shares);
    }

    /// The weights by which the tuple at an index prices a node out, if Dantzig's bound is below
    /// the goal.
    pub(crate) fn closing_weights(&self, k: usize, node: &OpenNode) -> Option<Weights> {
        let row = block_of(&self.rows, k, self.boxes);
        let used = entry(&self.used, k, 0);
        let weights = weights_of(row, node, used)?;
        if is_priced_out(row, node, used, weights) {
            Some(weights)
        } else {
            None
        }
    }

    /// The first tuple that prices a node out, with its weights.
    pub(crate) fn first_closing(&self, node: &OpenNode) -> Option<(u32, Weights)> {
        for k in 0..self.numbers.len().min(MAX_POOL) {
            if let Some(weights) = self.closing_weights(k, node) {
                return Some((k as u32, weights));
            }
        }
        None
    }

    /// The functions of the tuple at an index.
    pub(crate) fn tuple(&self, alloc: Global, k: usize) -> Result<ScaleTuple, NoMemory> {
        let number = entry(&self.numbers, k, 0);
        self.space.tuple(alloc, number as usize)
    }
}
