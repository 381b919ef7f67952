//! Batches of rounds of swaps that know nothing of one another, so that several threads can make
//! them.
//!
//! Each round has its own start and its own drawn numbers, those of its number. Behind a batch the
//! best packing, of equal ones that of the round with the least number, is where the even rounds of
//! the next batch begin. So what is found doesn't depend on the number of threads.

use crate::orders::start_orders;
use crate::oriented::OrientedInstance;
use crate::rounds::{Goal, Plan, ROUNDS, Round, WIDE};
use crate::swaps::Incumbent;
use box_instances::{Instance, NoMemory};
use std::alloc::Global;
use std::thread;
use std::thread::Threads;

/// The memory of a search by batches.
#[derive(Drop)]
pub struct Batches {
    // One for each round that is made at once.
    rounds: Vec<Round>,
    starts: Vec<Vec<u32>>,
    // Where the rounds of a batch begin.
    from: Incumbent,
    /// The best packing of all batches.
    pub best: Incumbent,
}

// A copy of the weights.
fn copy_of(alloc: Global, weights: &[u64]) -> Result<Vec<u64>, NoMemory> {
    let mut copy = Vec::new(alloc);
    match copy.extend_from_slice(weights) {
        Ok(()) => Ok(copy),
        Err(_) => Err(NoMemory),
    }
}

impl Batches {
    /// Memory for a search with one weight for each box by up to `workers` threads, or `NoMemory`.
    pub fn new(
        alloc: Global,
        instance: &Instance,
        weights: &[u64],
        workers: u32,
    ) -> Result<Batches, NoMemory> {
        let (dims, count) = (instance.dims(), instance.len());
        let upright = OrientedInstance::new(alloc, instance, dims - 1, false)?;
        let mut rounds = Vec::new(alloc);
        for _ in 0..workers.clamp(1, ROUNDS as u32) {
            let round = Round::new(alloc, instance, copy_of(alloc, weights)?)?;
            let Ok(()) = rounds.push(round) else {
                return Err(NoMemory);
            };
        }
        Ok(Batches {
            rounds,
            starts: start_orders(alloc, &upright)?,
            from: Incumbent::new(alloc, dims, count)?,
            best: Incumbent::new(alloc, dims, count)?,
        })
    }

    /// Adds `order`, all boxes, as a start before all others, or answers `NoMemory`.
    pub fn prefer(&mut self, order: Vec<u32>) -> Result<(), NoMemory> {
        let Ok(()) = self.starts.insert(0, order) else {
            return Err(NoMemory);
        };
        Ok(())
    }

    // Takes the packing that a round found for the best one if it costs less.
    fn compare(&mut self, index: usize) {
        if index < self.rounds.len() && self.rounds[index].found.cost < self.best.cost {
            self.best.copy(&self.rounds[index].found);
        }
    }

    // Makes the rounds of a batch from the first one on, as many as there is memory for, each in a
    // thread of its own. Answers how many.
    fn run_rounds<R: Threads + Sync>(
        &mut self,
        rt: &R,
        instance: &Instance,
        plan: Plan,
        first: usize,
    ) -> usize {
        let count = self.rounds.len().min(ROUNDS.saturating_sub(first));
        if count == 0 {
            return 0;
        }
        let (from, starts) = (&self.from, self.starts.as_slice());
        thread::for_each_mut(
            rt,
            &mut self.rounds[..count],
            count,
            &|k, round| { round.run(instance, from, starts, plan, first.saturating_add(k) as u64) },
        );
        count
    }

    // Runs a batch. It ends once the best packing costs no more than enough.
    fn run<R: Threads + Sync>(&mut self, rt: &R, instance: &Instance, plan: Plan) {
        self.from.copy(&self.best);
        let mut first = 0usize;
        for _ in 0..ROUNDS {
            if self.best.cost <= plan.enough {
                return;
            }
            let count = self.run_rounds(rt, instance, plan, first);
            for k in 0..count {
                if self.best.cost <= plan.enough {
                    return;
                }
                self.compare(k);
            }
            first = first.saturating_add(count);
        }
    }

    /// Runs batch number `batch`: rounds of `fills` fills each that make the weight small that is
    /// left out. It ends once the best packing costs no more than `enough`. `are_volumes` says that
    /// the weights are volumes.
    pub fn leave_out<R: Threads + Sync>(
        &mut self,
        rt: &R,
        instance: &Instance,
        batch: u64,
        are_volumes: bool,
        fills: u64,
        enough: u64,
    ) {
        let plan = Plan {
            batch,
            fills,
            enough,
            goal: Goal::Weight { are_volumes },
        };
        self.run(rt, instance, plan);
    }

    /// Runs batch number `batch`: rounds of `fills` fills each that make the height small. It ends
    /// once that is no more than `enough`.
    pub fn make_low<R: Threads + Sync>(
        &mut self,
        rt: &R,
        instance: &Instance,
        batch: u64,
        fills: u64,
        enough: u64,
    ) {
        let plan = Plan {
            batch,
            fills,
            enough,
            goal: Goal::Height,
        };
        self.run(rt, instance, plan);
    }

    // The packing of one fill from a start, without regard to the last side.
    fn fill_once(&mut self, index: usize, direction: usize, window: u32) {
        if index < self.starts.len() && !self.rounds.is_empty() {
            let order = self.starts[index].as_slice();
            self.rounds[0].fill_once(&self.best, order, direction, window);
            self.compare(0);
        }
    }

    /// Makes a plain fill from each start, in several ways, without regard to the last side.
    /// `is_flat` says that the instance has two dimensions.
    pub fn stack(&mut self, is_flat: bool) {
        for index in 0..self.starts.len() {
            self.fill_once(index, 0, WIDE);
            if is_flat {
                self.fill_once(index, 0, 4);
                self.fill_once(index, 0, 1);
            } else {
                self.fill_once(index, 1, WIDE);
            }
        }
    }
}
