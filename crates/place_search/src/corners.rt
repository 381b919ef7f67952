//! The search that fills the lowest corner first, for three dimensions and more, with a stack of
//! its own.
//!
//! At each node the lowest corner point is taken, by the last coordinate and then by those before
//! it. A box is laid with its corner there, or the point is given up. A box that was laid gives new
//! points: its far corners, each pushed back along another dimension until it meets a box.
//!
//! Source: the extreme points of Crainic, Perboli and Tadei (2008), with going back.

use crate::gaps::Ended;
use box_instances::NoMemory;
use fill_search::{OrientedInstance, clear};
use lenient_lists::{at, put, zeros};
use std::alloc::Global;

// A node on the way down: its point, the next try, the box that was laid from here, counted from 1,
// and how many points and boxes there were.
#[derive(Clone, Copy)]
struct Level {
    point: usize,
    next: u32,
    laid: u32,
    points: usize,
    boxes: usize,
}

const START: Level = Level {
    point: 0,
    next: 0,
    laid: 0,
    points: 0,
    boxes: 0,
};

// What is tried next at a level.
#[derive(Clone, Copy, Debug, PartialEq, Eq)]
enum Try {
    Lay(u32),
    Lose,
    Back,
}

/// The room of a search, for instances of a given number of boxes and dimensions.
#[derive(Drop)]
pub struct CornerSearch {
    /// The places of the boxes, box after box.
    pub places: Vec<u32>,
    dims: u32,
    points: Vec<u32>,
    used: Vec<u32>,
    levels: Vec<Level>,
    lies: Vec<u32>,
    laid: Vec<u32>,
}

impl CornerSearch {
    /// Room for `count` boxes in `dims` dimensions. A box gives a point for each two dimensions in
    /// each order, and each level down uses a point.
    pub fn new(alloc: Global, dims: u32, count: u32) -> Result<CornerSearch, NoMemory> {
        let (d, n) = (dims as usize, count as usize);
        let most = d.saturating_mul(d).saturating_mul(n).saturating_add(1);
        let depth = most.saturating_add(1);
        let Ok(levels) = vec![in alloc; START; depth] else {
            return Err(NoMemory);
        };
        Ok(CornerSearch {
            places: zeros(alloc, d.saturating_mul(n))?,
            dims,
            points: zeros(alloc, most.saturating_mul(d))?,
            used: zeros(alloc, most)?,
            levels,
            lies: zeros(alloc, n)?,
            laid: zeros(alloc, n)?,
        })
    }

    #[inline]
    fn level(&self, depth: usize) -> Level {
        if depth < self.levels.len() {
            self.levels[depth]
        } else {
            START
        }
    }

    #[inline]
    fn set_level(&mut self, depth: usize, level: Level) {
        if depth < self.levels.len() {
            self.levels[depth] = level;
        }
    }

    // A coordinate of a point.
    #[inline]
    fn coordinate(&self, point: usize, dim: u32) -> u32 {
        let first = point.saturating_mul(self.dims as usize);
        at(&self.points, first.saturating_add(dim as usize))
    }

    // Where a laid box begins.
    #[inline]
    fn start(&self, v: u32, dim: u32) -> u32 {
        at(&self.places, v as usize * self.dims as usize + dim as usize)
    }

    // Where a laid box ends.
    #[inline]
    fn end(&self, turned: &OrientedInstance, v: u32, dim: u32) -> u32 {
        self.start(v, dim).saturating_add(turned.side(v, dim))
    }

    // Whether a point lies below another: by the last coordinate, and then by those before it.
    fn is_lower(&self, first: usize, second: usize) -> bool {
        for back in 0..self.dims {
            let dim = self.dims - 1 - back;
            let (a, b) = (self.coordinate(first, dim), self.coordinate(second, dim));
            if a != b {
                return a < b;
            }
        }
        false
    }

    // The lowest of the first `points` points that isn't used, counted from 1, or 0 where none is
    // left.
    fn lowest(&self, points: usize) -> usize {
        let mut best = 0;
        for k in 0..points {
            if at(&self.used, k) == 0 && (best == 0 || self.is_lower(k, best - 1)) {
                best = k + 1;
            }
        }
        best
    }

    // Whether a box with its corner at a point would overlap one that is laid.
    fn meets(&self, turned: &OrientedInstance, v: u32, point: usize, u: u32) -> bool {
        for dim in 0..self.dims {
            let begin = self.coordinate(point, dim);
            let end = begin.saturating_add(turned.side(v, dim));
            if end <= self.start(u, dim) || self.end(turned, u, dim) <= begin {
                return false;
            }
        }
        true
    }

    // Whether a box may have its corner at a point.
    fn has_room(&self, turned: &OrientedInstance, v: u32, point: usize, boxes: usize) -> bool {
        for dim in 0..self.dims {
            let begin = self.coordinate(point, dim);
            if begin.saturating_add(turned.side(v, dim)) > turned.container(dim) {
                return false;
            }
        }
        for k in 0..boxes {
            if self.meets(turned, v, point, at(&self.laid, k)) {
                return false;
            }
        }
        true
    }

    // The next try of a level: the boxes in the given order, and then the loss of the point.
    fn next_try(
        &mut self,
        turned: &OrientedInstance,
        order: &[u32],
        twins: &[u32],
        depth: usize,
    ) -> Try {
        let level = self.level(depth);
        let count = turned.count;
        for position in level.next..count {
            let v = at(order, position as usize);
            let twin = at(twins, position as usize);
            let waits = twin != 0 && at(&self.lies, at(order, twin as usize - 1) as usize) == 0;
            if at(&self.lies, v as usize) == 0
                && !waits
                && self.has_room(turned, v, level.point, level.boxes)
            {
                let (next, laid) = (position + 1, v.saturating_add(1));
                self.set_level(
                    depth,
                    Level {
                        next,
                        laid,
                        ..level
                    },
                );
                return Try::Lay(v);
            }
        }
        if level.next <= count {
            let next = count.saturating_add(1);
            self.set_level(
                depth,
                Level {
                    next,
                    laid: 0,
                    ..level
                },
            );
            return Try::Lose;
        }
        Try::Back
    }

    // Whether a laid box covers a coordinate of a point in each dimension but one.
    fn is_beside(&self, turned: &OrientedInstance, u: u32, point: usize, but: u32) -> bool {
        for dim in 0..self.dims {
            let x = self.coordinate(point, dim);
            if dim != but && (x < self.start(u, dim) || self.end(turned, u, dim) <= x) {
                return false;
            }
        }
        true
    }

    // Where a point comes to as it is pushed back along a dimension.
    fn pushed_back(&self, turned: &OrientedInstance, point: usize, dim: u32, boxes: usize) -> u32 {
        let from = self.coordinate(point, dim);
        let mut to = 0;
        for k in 0..boxes {
            let u = at(&self.laid, k);
            let end = self.end(turned, u, dim);
            if end <= from && end > to && self.is_beside(turned, u, point, dim) {
                to = end;
            }
        }
        to
    }

    // Writes a coordinate of a point.
    fn set_coordinate(&mut self, point: usize, dim: u32, x: u32) {
        let first = point.saturating_mul(self.dims as usize);
        put(&mut self.points, first.saturating_add(dim as usize), x);
    }

    // Whether one of the first `points` points is the same as this.
    fn is_known(&self, point: usize, points: usize) -> bool {
        for k in 0..points {
            if !self.is_lower(k, point) && !self.is_lower(point, k) {
                return true;
            }
        }
        false
    }

    // Adds the points of a box that was laid, and answers how many there are then.
    fn add_points(
        &mut self,
        turned: &OrientedInstance,
        v: u32,
        points: usize,
        boxes: usize,
    ) -> usize {
        let mut count = points;
        for far in 0..self.dims {
            for back in 0..self.dims {
                if back == far {
                    continue;
                }
                for dim in 0..self.dims {
                    self.set_coordinate(count, dim, self.start(v, dim));
                }
                self.set_coordinate(count, far, self.end(turned, v, far));
                let x = self.pushed_back(turned, count, back, boxes);
                self.set_coordinate(count, back, x);
                put(&mut self.used, count, 0);
                if !self.is_known(count, count) {
                    count = count.saturating_add(1);
                }
            }
        }
        count
    }

    // Goes down to the next free point. Where none is left, the level below has nothing to try.
    fn go_down(&mut self, depth: usize, points: usize, boxes: usize) {
        let lowest = self.lowest(points);
        let next = if lowest == 0 { u32::MAX } else { 0 };
        let below = Level {
            point: lowest.saturating_sub(1),
            next,
            laid: 0,
            points,
            boxes,
        };
        self.set_level(depth.saturating_add(1), below);
    }

    // Lays a box at the point of a level.
    fn place_box(&mut self, turned: &OrientedInstance, depth: usize, v: u32) {
        let level = self.level(depth);
        for dim in 0..self.dims {
            let x = self.coordinate(level.point, dim);
            put(
                &mut self.places,
                v as usize * self.dims as usize + dim as usize,
                x,
            );
        }
        put(&mut self.lies, v as usize, 1);
        put(&mut self.laid, level.boxes, v);
        put(&mut self.used, level.point, 1);
        let boxes = level.boxes.saturating_add(1);
        let points = self.add_points(turned, v, level.points, boxes);
        self.go_down(depth, points, boxes);
    }

    // Gives the point of a level up.
    fn lose(&mut self, depth: usize) {
        let level = self.level(depth);
        put(&mut self.used, level.point, 1);
        self.go_down(depth, level.points, level.boxes);
    }

    // Takes back what was done at a level. It answers whether a box was laid.
    fn take_back(&mut self, depth: usize) -> bool {
        let level = self.level(depth);
        put(&mut self.used, level.point, 0);
        if level.laid == 0 {
            return false;
        }
        put(&mut self.lies, level.laid as usize - 1, 0);
        true
    }

    // The first point alone.
    fn begin(&mut self) {
        clear(&mut self.lies);
        clear(&mut self.used);
        for dim in 0..self.dims {
            self.set_coordinate(0, dim, 0);
        }
        self.set_level(0, Level { points: 1, ..START });
    }

    /// Searches with an order of the boxes, for at most `steps` steps.
    pub fn run(
        &mut self,
        turned: &OrientedInstance,
        order: &[u32],
        twins: &[u32],
        steps: u64,
    ) -> Ended {
        self.begin();
        let mut depth = 0usize;
        let mut left = turned.count;
        for _ in 0..steps {
            if left == 0 {
                return Ended::Found;
            }
            match self.next_try(turned, order, twins, depth) {
                Try::Lay(v) => {
                    self.place_box(turned, depth, v);
                    depth = depth.saturating_add(1);
                    left = left.saturating_sub(1);
                }
                Try::Lose => {
                    self.lose(depth);
                    depth = depth.saturating_add(1);
                }
                Try::Back => {
                    if depth == 0 {
                        return Ended::Exhausted;
                    }
                    depth -= 1;
                    if self.take_back(depth) {
                        left = left.saturating_add(1);
                    }
                }
            }
        }
        Ended::Spent
    }
}
