//! Bins with a pool: one bin is emptied, and others are filled again with its boxes.
//!
//! The boxes of the emptiest bin have no bin then. One or two bins are drawn, and filled again with
//! the boxes that lie in them and those without one, in an order by sizes with some noise. What is
//! no worse stays, until every box has a bin.
//!
//! Source: ruin and recreate (Schrimpf, Schneider, Stamm-Wilbrandt and Dueck 2000), here bin by
//! bin.

use box_instances::{Instance, NoMemory};
use fill_search::{
    Draws, Fills, Limits, OrientedInstance, all_turns_of, copy_into, side, start_orders, volumes,
    weight,
};
use lenient_lists::{at, put, zeros};
use std::alloc::Global;

// A window that all boxes stand in.
const WIDE: u32 = 1_000;

// The number of a box without a bin.
const NO_BIN: u32 = u32::MAX;

// The fills between two packings that are kept though they are a little worse.
const WORSE_EVERY: u64 = 64;

/// The memory of a search with a pool.
#[derive(Drop)]
pub struct Pool {
    turns: Vec<OrientedInstance>,
    fills: Fills,
    volumes: Vec<u64>,
    // What a box without a bin costs: its volume times its sides.
    costs: Vec<u64>,
    keys: Vec<u64>,
    draws: Draws,
    // Of each box in order its bin and its coordinates.
    numbers: Vec<u32>,
    // The boxes that are filled again.
    order: Vec<u32>,
    // The numbers before the last refill.
    before: Vec<u32>,
}

// The volume of each box times the sum of its sides.
fn costs_of(alloc: Global, instance: &Instance, volumes: &[u64]) -> Result<Vec<u64>, NoMemory> {
    let mut costs = Vec::new(alloc);
    for v in 0..instance.len() {
        let mut sides = 0u64;
        for dim in 0..instance.dims() {
            sides = sides.saturating_add(u64::from(side(instance, v, dim)));
        }
        let Ok(()) = costs.push(weight(volumes, v).saturating_mul(sides)) else {
            return Err(NoMemory);
        };
    }
    Ok(costs)
}

impl Pool {
    fn new(alloc: Global, instance: &Instance) -> Result<Pool, NoMemory> {
        let (dims, count) = (instance.dims(), instance.len());
        let volumes = volumes(alloc, instance)?;
        let costs = costs_of(alloc, instance, &volumes)?;
        let Ok(keys) = vec![in alloc; 0u64; count as usize] else {
            return Err(NoMemory);
        };
        Ok(Pool {
            turns: all_turns_of(alloc, instance)?,
            fills: Fills::new(alloc, dims, count)?,
            volumes,
            costs,
            keys,
            draws: Draws::new(),
            numbers: zeros(alloc, count as usize * (dims as usize + 1))?,
            order: Vec::new(alloc),
            before: zeros(alloc, count as usize * (dims as usize + 1))?,
        })
    }

    // The next number below a count.
    fn draw(&mut self, count: u32) -> u32 {
        let (number, after) = self.draws.below(count);
        self.draws = after;
        number
    }

    // The place of the bin of a box among the numbers.
    fn bin_index(&self, v: u32) -> usize {
        let dims = if self.turns.is_empty() {
            0
        } else {
            self.turns[0].dims as usize
        };
        (v as usize).saturating_mul(dims.saturating_add(1))
    }

    fn bin_of(&self, v: u32) -> u32 {
        at(&self.numbers, self.bin_index(v))
    }

    fn set_bin(&mut self, v: u32, bin: u32) {
        let index = self.bin_index(v);
        put(&mut self.numbers, index, bin);
    }

    fn count(&self) -> u32 {
        self.volumes.len().min(128) as u32
    }

    // The bin with the least volume, of this many.
    fn emptiest(&self, bins: u32) -> u32 {
        let (mut best, mut least) = (0, u64::MAX);
        for bin in 0..bins {
            let mut volume = 0u64;
            for v in 0..self.count() {
                if self.bin_of(v) == bin {
                    volume = volume.saturating_add(weight(&self.volumes, v));
                }
            }
            if volume < least {
                least = volume;
                best = bin;
            }
        }
        best
    }

    // Empties a bin of this many, and gives its number to the last one.
    fn empty(&mut self, bin: u32, bins: u32) {
        for v in 0..self.count() {
            let here = self.bin_of(v);
            if here == bin {
                self.set_bin(v, NO_BIN);
            } else if here == bins.saturating_sub(1) {
                self.set_bin(v, bin);
            }
        }
    }

    // What the boxes without a bin cost.
    fn cost(&self) -> u64 {
        let mut cost = 0u64;
        for v in 0..self.count() {
            if self.bin_of(v) == NO_BIN {
                cost = cost.saturating_add(weight(&self.costs, v));
            }
        }
        cost
    }

    // Draws the sizes by which the boxes are ordered: volumes, or sides, with some noise.
    fn draw_keys(&mut self, instance: &Instance) {
        let kind = self.draw(instance.dims() + 2);
        let noise = self.draw(3);
        for v in 0..self.count() {
            let size = if kind < instance.dims() {
                u64::from(side(instance, v, kind)) << 16
            } else {
                weight(&self.volumes, v)
            };
            let percent = match noise {
                0 => 100,
                1 => self.draw(60).saturating_add(70),
                _ => self.draw(140).saturating_add(30),
            };
            if (v as usize) < self.keys.len() {
                self.keys[v as usize] = size.saturating_mul(u64::from(percent));
            }
        }
    }

    // Orders the boxes of two bins and those without one, which have none then.
    fn gather(&mut self, instance: &Instance, first: u32, second: u32) -> Result<(), NoMemory> {
        self.draw_keys(instance);
        self.order.clear();
        for v in 0..self.count() {
            let bin = self.bin_of(v);
            if bin == first || bin == second || bin == NO_BIN {
                self.set_bin(v, NO_BIN);
                let Ok(()) = self.order.push(v) else {
                    return Err(NoMemory);
                };
            }
        }
        let keys = &self.keys;
        if self
            .order
            .sort_by_key(|v| u64::MAX - weight(keys, *v))
            .is_err()
        {
            return Err(NoMemory);
        }
        Ok(())
    }

    // Writes the bin and the coordinates of a box that the last fill laid.
    fn write(&mut self, v: u32, bin: u32, direction: usize) {
        if direction >= self.turns.len() {
            return;
        }
        let turned = &self.turns[direction];
        let first = (v as usize).saturating_mul(turned.dims as usize + 1);
        put(&mut self.numbers, first, bin);
        for dim in 0..turned.dims {
            let x = turned.coordinate(self.fills.places(), v, dim);
            put(
                &mut self.numbers,
                first.saturating_add(1).saturating_add(dim as usize),
                x,
            );
        }
    }

    // Fills a bin with the boxes of the order, which has the others afterwards.
    fn fill(&mut self, bin: u32, direction: usize, window: u32) {
        if direction >= self.turns.len() {
            return;
        }
        let turned = &self.turns[direction];
        let limits = Limits {
            top: turned.top(),
            window,
            most_lost: u64::MAX,
            highest: u32::MAX,
            most_left: u64::MAX,
        };
        self.fills.run(turned, &self.order, &self.volumes, &limits);
        self.fills.keep();
        self.fills.write();
        let mut kept = 0usize;
        for k in 0..self.order.len() {
            let v = at(&self.order, k);
            if self.fills.is_laid(v) {
                self.write(v, bin, direction);
            } else {
                put(&mut self.order, kept, v);
                kept = kept.saturating_add(1);
            }
        }
        self.order.truncate(kept);
    }

    // Fills one bin or two again, and keeps what costs no more than this.
    fn refill(&mut self, instance: &Instance, bins: u32, most: u64) -> Result<(), NoMemory> {
        copy_into(&self.numbers, &mut self.before);
        let first = self.draw(bins);
        let second = if self.draw(2) == 0 {
            first
        } else {
            self.draw(bins)
        };
        let window = match self.draw(4) {
            0 => 1,
            1 => 2,
            2 => 5,
            _ => WIDE,
        };
        self.gather(instance, first, second)?;
        let turns = self.turns.len().min(8) as u32;
        let direction = self.draw(turns) as usize;
        self.fill(first, direction, window);
        if second != first {
            let direction = self.draw(turns) as usize;
            self.fill(second, direction, window);
        }
        if self.cost() > most {
            copy_into(&self.before, &mut self.numbers);
        }
        Ok(())
    }

    // Fills up to this many bins one after another with the boxes of an order. It answers how many
    // hold all, or 0.
    fn fill_all(
        &mut self,
        order: &[u32],
        direction: usize,
        window: u32,
        most: u32,
    ) -> Result<u32, NoMemory> {
        self.order.clear();
        if self.order.extend_from_slice(order).is_err() {
            return Err(NoMemory);
        }
        for bin in 0..most {
            self.fill(bin, direction, window);
            if self.order.is_empty() {
                return Ok(bin + 1);
            }
        }
        Ok(0)
    }

    // Fills bins in each order by sizes and each direction, and writes the fewest, of at most this
    // many. It answers how many these are, or 0.
    fn begin(&mut self, alloc: Global, most: u32, numbers: &mut [u32]) -> Result<u32, NoMemory> {
        let mut fewest = 0;
        let mut most = most;
        let starts = match self.turns.first() {
            Some(turned) => start_orders(alloc, turned)?,
            None => return Ok(0),
        };
        for index in 0..starts.len() {
            for direction in 0..self.turns.len() {
                for window in [1, WIDE] {
                    let bins = self.fill_all(&starts[index], direction, window, most)?;
                    if bins > 0 {
                        fewest = bins;
                        most = bins - 1;
                        copy_into(&self.numbers, numbers);
                    }
                }
            }
        }
        Ok(fewest)
    }

    // Fills bins again, up to this many times, until each box has one. It answers how many times
    // are left then.
    fn close(
        &mut self,
        instance: &Instance,
        bins: u32,
        times: u64,
    ) -> Result<Option<u64>, NoMemory> {
        for done in 0..times {
            let cost = self.cost();
            if cost == 0 {
                return Ok(Some(times - done));
            }
            let more = if done % WORSE_EVERY == 0 { cost / 8 } else { 0 };
            self.refill(instance, bins, cost.saturating_add(more))?;
        }
        Ok(None)
    }
}

/// Packs the boxes into few bins, down to `enough`: by plain fills, and then by refilling bins up
/// to this many times. It writes of each box its bin and its coordinates, and answers how many bins
/// there are, or 0.
pub(crate) fn few_bins(
    alloc: Global,
    instance: &Instance,
    enough: u32,
    times: u64,
    numbers: &mut [u32],
) -> Result<u32, NoMemory> {
    let mut pool = Pool::new(alloc, instance)?;
    let mut bins = pool.begin(alloc, instance.len(), numbers)?;
    copy_into(numbers, &mut pool.numbers);
    let mut left = times;
    for _ in 0..bins {
        if bins <= enough || bins < 2 {
            break;
        }
        let emptiest = pool.emptiest(bins);
        pool.empty(emptiest, bins);
        let Some(rest) = pool.close(instance, bins - 1, left)? else {
            break;
        };
        left = rest;
        bins -= 1;
        copy_into(&pool.numbers, numbers);
    }
    Ok(bins)
}
