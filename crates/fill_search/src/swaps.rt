//! Rounds of local search: an order of boxes is changed, filled again, and kept where the fill is
//! no worse.
//!
//! Source: random local search over orders (Burke, Kendall and Whitwell 2009; Wei, Oon, Zhu and Lim
//! 2011).

use crate::fill_steps::{Move, NO_BOX};
use crate::fills::Fills;
use crate::orders::Draws;
use crate::oriented::OrientedInstance;
use crate::skyline_fill::Limits;
use crate::slots::copy_into;
use box_instances::NoMemory;
use lenient_lists::{at, put, zeros};
use std::alloc::Global;

// How often a box that is left out is drawn before any box is taken.
const MOST_DRAWS: u32 = 20;

/// What a round makes small: the height of all boxes, or the weight of those that are left out of
/// the container.
#[derive(Clone, Copy, Debug, PartialEq, Eq)]
pub enum Aim {
    Height,
    Weight,
}

/// How a round fills.
#[derive(Clone, Copy)]
pub struct Style {
    pub aim: Aim,
    /// How many of the boxes that fit a gap are compared.
    pub window: u32,
    /// Whether the weights are volumes, so that a fill may be cut once it lost too much.
    pub are_volumes: bool,
}

impl Style {
    // Whether boxes that are left out move forward. In three and four dimensions swaps alone place
    // all boxes of three strips 1 % lower.
    fn moves_forward(self, turned: &OrientedInstance) -> bool {
        self.aim == Aim::Weight && (turned.dims == 2 || !self.are_volumes)
    }
}

/// The best packing found so far, the order that it comes from, and its cost.
#[derive(Drop)]
pub struct Incumbent {
    /// Its height, or the weight that it leaves out; `u64::MAX` for no packing yet.
    pub cost: u64,
    pub(crate) order: Vec<u32>,
    /// The coordinates of the boxes in the order of the instance's dimensions, box after box.
    pub places: Vec<u32>,
    /// Of each box 1 if it is laid, else 0.
    pub lies: Vec<u32>,
}

impl Incumbent {
    /// No packing yet: the cost is `u64::MAX`.
    pub(crate) fn new(alloc: Global, dims: u32, count: u32) -> Result<Incumbent, NoMemory> {
        Ok(Incumbent {
            cost: u64::MAX,
            order: zeros(alloc, count as usize)?,
            places: zeros(alloc, count as usize * dims as usize)?,
            lies: zeros(alloc, count as usize)?,
        })
    }

    /// Copies another packing of the same instance.
    pub(crate) fn copy(&mut self, other: &Incumbent) {
        self.cost = other.cost;
        copy_into(&other.order, &mut self.order);
        copy_into(&other.places, &mut self.places);
        copy_into(&other.lies, &mut self.lies);
    }
}

// The volumes of the container and of all boxes, where fills may be cut by them.
#[derive(Clone, Copy)]
struct Lost {
    style: Style,
    room: u128,
    floor: u128,
    boxes: u128,
}

impl Lost {
    fn new(turned: &OrientedInstance, style: Style) -> Lost {
        let top = u128::from(turned.top().max(1));
        Lost {
            style,
            room: turned.room(),
            floor: turned.room() / top,
            boxes: turned.volume_of_all(),
        }
    }

    // What may be lost of a volume in which all boxes lie.
    fn rest(&self, volume: u128) -> u64 {
        let rest = volume.saturating_sub(self.boxes);
        rest.min(u128::from(u64::MAX)) as u64
    }

    // What may be lost by a fill that costs no more than this.
    fn most(&self, cost: u64) -> u64 {
        if cost == u64::MAX {
            return u64::MAX;
        }
        match self.style.aim {
            Aim::Height => self.rest(self.floor.saturating_mul(u128::from(cost))),
            Aim::Weight if self.style.are_volumes => {
                self.rest(self.room.saturating_add(u128::from(cost)))
            }
            Aim::Weight => u64::MAX,
        }
    }

    // The limits of a fill that costs no more than this.
    fn limits(&self, turned: &OrientedInstance, cost: u64) -> Limits {
        let most_lost = self.most(cost);
        let window = self.style.window;
        match self.style.aim {
            Aim::Height => Limits {
                top: u32::MAX / 2,
                window,
                most_lost,
                highest: cost.min(u64::from(u32::MAX)) as u32,
                most_left: u64::MAX,
            },
            Aim::Weight => Limits {
                top: turned.top(),
                window,
                most_lost,
                highest: u32::MAX,
                most_left: cost,
            },
        }
    }
}

// A change of an order: the boxes at two positions, the earlier one first, are swapped; or the box
// at the second position moves forward to the first.
#[derive(Clone, Copy)]
struct Change {
    to: usize,
    from: usize,
    is_swap: bool,
}

/// The state of a round.
#[derive(Drop)]
pub struct Swaps {
    pub fills: Fills,
    pub order: Vec<u32>,
    pub weights: Vec<u64>,
    pub draws: Draws,
    // The position of each box in the order.
    positions: Vec<u32>,
}

impl Swaps {
    /// Memory for up to this many boxes, of these weights.
    pub fn new(alloc: Global, dims: u32, weights: Vec<u64>) -> Result<Swaps, NoMemory> {
        let count = weights.len().min(128) as u32;
        Ok(Swaps {
            fills: Fills::new(alloc, dims, count)?,
            order: zeros(alloc, count as usize)?,
            weights,
            draws: Draws::new(),
            positions: zeros(alloc, count as usize)?,
        })
    }

    // The next number below a count.
    fn draw(&mut self, count: u32) -> u32 {
        let (number, after) = self.draws.below(count);
        self.draws = after;
        number
    }

    // Puts a box at a position.
    fn set(&mut self, position: usize, v: u32) {
        put(&mut self.order, position, v);
        put(&mut self.positions, v as usize, position.min(128) as u32);
    }

    fn swap(&mut self, first: usize, second: usize) {
        let (a, b) = (at(&self.order, first), at(&self.order, second));
        self.set(first, b);
        self.set(second, a);
    }

    /// Begins at an order, in which this many boxes are swapped with others up to six positions
    /// behind.
    pub fn begin(&mut self, from: &[u32], swaps: u32) {
        copy_into(from, &mut self.order);
        let count = self.order.len().min(128) as u32;
        for _ in 0..swaps {
            let first = self.draw(count);
            let ahead = self.draw(6).saturating_add(1);
            let second = first.saturating_add(ahead) % count.max(1);
            self.swap(first as usize, second as usize);
        }
        for k in 0..self.order.len() {
            let v = at(&self.order, k);
            self.set(k, v);
        }
    }

    // Moves the box at a position forward.
    fn move_forward(&mut self, to: usize, from: usize) {
        let moved = at(&self.order, from);
        for k in 0..from.saturating_sub(to) {
            let v = at(&self.order, from - k - 1);
            self.set(from - k, v);
        }
        self.set(to, moved);
    }

    // Moves it back.
    fn move_back(&mut self, to: usize, from: usize) {
        let moved = at(&self.order, to);
        for k in to..from {
            let v = at(&self.order, k.saturating_add(1));
            self.set(k, v);
        }
        self.set(from, moved);
    }

    // The position of a box that the last fill left out, or of any.
    fn drawn_position(&mut self, count: u32) -> u32 {
        let mut position = self.draw(count);
        for _ in 0..MOST_DRAWS {
            if !self.fills.is_laid(at(&self.order, position as usize)) {
                return position;
            }
            position = self.draw(count);
        }
        position
    }

    // Draws a change of the order: two boxes swap their positions; or, two times of three where
    // boxes may move forward, one that was left out does.
    fn drawn_change(&mut self, is_forward: bool) -> Change {
        let count = self.order.len().min(128) as u32;
        let second = self.draw(count) as usize;
        let is_swap = !is_forward || self.draw(3) == 0;
        let first = if is_swap {
            self.draw(count)
        } else {
            self.drawn_position(count)
        } as usize;
        Change {
            to: first.min(second),
            from: first.max(second),
            is_swap,
        }
    }

    // Changes the order. It answers what moved.
    fn change(&mut self, change: Change) -> Move {
        let (forward, back) = (at(&self.order, change.from), at(&self.order, change.to));
        if change.is_swap {
            self.swap(change.to, change.from);
        } else {
            self.move_forward(change.to, change.from);
        }
        Move {
            position: change.to.min(128) as u32,
            forward,
            back: if change.is_swap { back } else { NO_BOX },
        }
    }

    fn take_back(&mut self, change: Change) {
        if change.is_swap {
            self.swap(change.to, change.from);
        } else {
            self.move_back(change.to, change.from);
        }
    }

    // What a fill costs that leaves out this weight.
    fn cost(&self, style: Style, left: u64) -> u64 {
        match style.aim {
            Aim::Weight => left,
            Aim::Height if left == 0 => u64::from(self.fills.height()),
            Aim::Height => u64::MAX,
        }
    }

    // Keeps the last fill, and what it laid if that costs less than the best so far.
    fn keep(&mut self, turned: &OrientedInstance, cost: u64, best: &mut Incumbent) {
        self.fills.keep();
        if cost >= best.cost {
            return;
        }
        best.cost = cost;
        copy_into(&self.order, &mut best.order);
        for v in 0..best.lies.len() {
            let lies = u32::from(self.fills.is_laid(v.min(128) as u32));
            put(&mut best.lies, v, lies);
        }
        self.fills.write();
        turned.turn_back(self.fills.places(), &mut best.places);
    }

    // Changes the order and fills the container, to a cost of no more than this. It answers the
    // cost behind it.
    fn step(
        &mut self,
        turned: &OrientedInstance,
        lost: &Lost,
        is_forward: bool,
        cost: u64,
        best: &mut Incumbent,
    ) -> u64 {
        let change = self.drawn_change(is_forward);
        if change.to == change.from {
            return cost;
        }
        let moved = self.change(change);
        let limits = lost.limits(turned, cost);
        let left = self.fills.run_moved(
            turned,
            &self.order,
            &self.positions,
            &moved,
            &self.weights,
            &limits,
        );
        let Some(left) = left else {
            return cost;
        };
        let next = self.cost(lost.style, left);
        if next > cost {
            self.take_back(change);
            return cost;
        }
        self.keep(turned, next, best);
        next
    }

    /// Changes the order up to this many times and fills each. It writes what costs less than the
    /// best so far, and ends once that costs no more than `enough`. It answers how many fills are
    /// left.
    pub fn run(
        &mut self,
        turned: &OrientedInstance,
        style: Style,
        fills: u64,
        enough: u64,
        best: &mut Incumbent,
    ) -> u64 {
        if best.cost <= enough || fills == 0 {
            return fills;
        }
        let lost = Lost::new(turned, style);
        let is_forward = style.moves_forward(turned);
        let limits = lost.limits(turned, u64::MAX);
        let left = self.fills.run(turned, &self.order, &self.weights, &limits);
        let mut cost = self.cost(style, left);
        self.keep(turned, cost, best);
        for done in 1..fills {
            if best.cost <= enough {
                return fills - done;
            }
            cost = self.step(turned, &lost, is_forward, cost, best);
        }
        0
    }
}
