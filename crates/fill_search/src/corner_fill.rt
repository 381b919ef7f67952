//! One fill of a container in three dimensions and more, without going back.
//!
//! The boxes come in an order, and each is laid at the lowest corner point at which it fits, by the
//! last coordinate and then by those before it. A box that was laid gives new points: its far
//! corners, each pushed back along another dimension until it meets a box.
//!
//! The points are sorted, so that a new one is found by halving and a block covers points of one
//! range alone: a fill of 60 boxes takes a half of the instructions of a scan through all points.
//!
//! Source: the extreme points of Crainic, Perboli and Tadei (2008).

use crate::blocks::{Block, Corners, ORIGIN, Point, UP, block_of, is_lower, no_blocks, set_block};
use crate::fill_steps::{Move, NO_BOX};
use crate::oriented::OrientedInstance;
use crate::skyline_fill::Limits;
use crate::slots::{clear, copy_into, weight};
use box_instances::NoMemory;
use lenient_lists::{at, put, zeros};
use std::alloc::Global;

/// The memory of a fill, with its kept blocks.
#[derive(Drop)]
pub struct CornerFill {
    /// How high the laid boxes of the last fill reach.
    pub height: u32,
    // The blocks of the boxes, and of each box whether it is laid.
    lying: Vec<Block>,
    lies: Vec<u32>,
    // The same of the kept fill.
    kept: Vec<Block>,
    is_kept: Vec<u32>,
    dims: u32,
    container: Point,
    // The least side of all boxes in each dimension.
    least: Point,
    // The corner points, the lowest first.
    points: Vec<Point>,
    count: usize,
    blocks: Vec<Block>,
    laid: usize,
}

impl CornerFill {
    /// Memory for up to this many boxes. A box gives a point for each two dimensions in each order.
    pub fn new(alloc: Global, dims: u32, count: u32) -> Result<CornerFill, NoMemory> {
        let (d, n) = (dims as usize, count as usize);
        let most = d.saturating_mul(d).saturating_mul(n).saturating_add(1);
        let Ok(points) = vec![in alloc; ORIGIN; most] else {
            return Err(NoMemory);
        };
        Ok(CornerFill {
            height: 0,
            lying: no_blocks(alloc, n)?,
            lies: zeros(alloc, n)?,
            kept: no_blocks(alloc, n)?,
            is_kept: zeros(alloc, n)?,
            dims,
            container: ORIGIN,
            least: ORIGIN,
            points,
            count: 0,
            blocks: no_blocks(alloc, n)?,
            laid: 0,
        })
    }

    // The index of the first coordinate of a point.
    #[inline]
    fn first_index(&self) -> usize {
        4usize.saturating_sub(self.dims as usize)
    }

    #[inline]
    fn point(&self, index: usize) -> Point {
        if index < self.points.len() {
            self.points[index]
        } else {
            ORIGIN
        }
    }

    // The origin alone, in a container whose boxes may reach as high as `top`.
    fn begin(&mut self, turned: &OrientedInstance, order: &[u32], top: u32) {
        clear(&mut self.lies);
        self.height = 0;
        self.laid = 0;
        self.count = 1;
        if !self.points.is_empty() {
            self.points[0] = ORIGIN;
        }
        let first = self.first_index();
        for k in 0..4 {
            self.container[k] = if k < first {
                1
            } else if k == UP {
                top
            } else {
                turned.container((k - first) as u32)
            };
        }
        self.find_least(turned, order);
    }

    // Finds the least sides.
    fn find_least(&mut self, turned: &OrientedInstance, order: &[u32]) {
        self.least = [u32::MAX; 4];
        for v in order {
            let sides = self.sides_of(turned, *v);
            for k in 0..4 {
                self.least[k] = self.least[k].min(sides[k]);
            }
        }
    }

    // Whether some box might fit at a point, for all that the container's walls say.
    fn has_room(&self, point: &Point) -> bool {
        for k in 0..4 {
            if point[k].saturating_add(self.least[k]) > self.container[k] {
                return false;
            }
        }
        true
    }

    // The block of a box with its corner at a point, if it is inside the container and free.
    fn block_at(&self, sides: &Point, point: &Point) -> Option<Block> {
        let mut end = ORIGIN;
        for k in 0..4 {
            end[k] = point[k].saturating_add(sides[k]);
            if end[k] > self.container[k] {
                return None;
            }
        }
        let block = Block { start: *point, end };
        // The newest ones first, since most points are below one of these.
        let laid = self.laid.min(self.blocks.len());
        for other in self.blocks[..laid].iter().rev() {
            if block.meets(other) {
                return None;
            }
        }
        Some(block)
    }

    // The lowest point at which a box fits, and its block there.
    fn lowest_block(&self, sides: &Point) -> Option<Block> {
        for k in 0..self.count {
            if let Some(block) = self.block_at(sides, &self.point(k)) {
                return Some(block);
            }
        }
        None
    }

    // The number of points that are lower than a point.
    fn rank(&self, point: &Point) -> usize {
        let count = self.count.min(self.points.len());
        self.points[..count].partition_point(|here| is_lower(here, point))
    }

    // The number of points that reach less high than this.
    fn count_below(&self, height: u32) -> usize {
        let mut point = ORIGIN;
        point[UP] = height;
        self.rank(&point)
    }

    // Removes the points that a block has.
    fn cover(&mut self, block: &Block) {
        let first = self.count_below(block.start[UP]);
        let end = self.count_below(block.end[UP]);
        let mut kept = first;
        for k in first..end {
            let point = self.point(k);
            if !block.has(&point) {
                if kept < self.points.len() {
                    self.points[kept] = point;
                }
                kept = kept.saturating_add(1);
            }
        }
        let count = self.count.min(self.points.len());
        if kept < end && end <= count {
            self.points.copy_within(end..count, kept);
            self.count = count - (end - kept);
        }
    }

    // Adds a point, unless it is known or no box fits there.
    fn add(&mut self, point: &Point) {
        if !self.has_room(point) {
            return;
        }
        let index = self.rank(point);
        let count = self.count;
        if index < count && self.point(index) == *point {
            return;
        }
        if index <= count && count < self.points.len() {
            self.points.copy_within(index..count, index + 1);
            self.points[index] = *point;
            self.count = count + 1;
        }
    }

    // What the blocks leave of the corners of a block.
    fn corners_of(&self, block: &Block) -> Corners {
        let mut corners = Corners::new();
        for other in self.blocks.iter().take(self.laid) {
            corners.note(block, other);
        }
        corners
    }

    // Adds the corners of a block that was laid, each pushed back along each other dimension.
    fn add_points(&mut self, block: &Block) {
        let first = self.first_index();
        let corners = self.corners_of(block);
        for corner in first..4 {
            for back in first..4 {
                if back == corner || corners.is_covered(corner, back) {
                    continue;
                }
                let mut point = block.start;
                point[corner] = block.end[corner];
                point[back] = corners.pushed[corner][back];
                self.add(&point);
            }
        }
    }

    // Lays a box.
    fn place_box(&mut self, v: u32, block: &Block) {
        set_block(&mut self.lying, v as usize, block);
        self.height = self.height.max(block.end[UP]);
        put(&mut self.lies, v as usize, 1);
        if self.laid < self.blocks.len() {
            self.blocks[self.laid] = *block;
            self.laid += 1;
        }
        self.cover(block);
        self.add_points(block);
    }

    // The sides of a box, 1 in each dimension that the instance hasn't.
    fn sides_of(&self, turned: &OrientedInstance, v: u32) -> Point {
        let mut sides = [1; 4];
        let first = self.first_index();
        for k in first..4 {
            sides[k] = turned.side(v, (k - first) as u32);
        }
        sides
    }

    // Lays the boxes of an order from a position on. It answers the weight of all that are left
    // out, `left` before them, or `u64::MAX` if that is more than the limits allow.
    fn fill(
        &mut self,
        turned: &OrientedInstance,
        order: &[u32],
        first: usize,
        weights: &[u64],
        limits: &Limits,
        left: u64,
    ) -> u64 {
        let mut left = left;
        for k in first..order.len() {
            let v = at(order, k);
            let sides = self.sides_of(turned, v);
            if let Some(block) = self.lowest_block(&sides) {
                self.place_box(v, &block);
                if self.height > limits.highest {
                    return u64::MAX;
                }
                continue;
            }
            left = left.saturating_add(weight(weights, v));
            if left > limits.most_left {
                return u64::MAX;
            }
        }
        left
    }

    /// Lays boxes in an order. It answers the total weight of those that are left out, or
    /// `u64::MAX` if the fill was cut by `limits`.
    pub fn run(
        &mut self,
        turned: &OrientedInstance,
        order: &[u32],
        weights: &[u64],
        limits: &Limits,
    ) -> u64 {
        self.begin(turned, order, limits.top);
        self.fill(turned, order, 0, weights, limits, 0)
    }

    // Whether a move exchanges two boxes of the same sides and weight.
    fn are_alike(&self, turned: &OrientedInstance, weights: &[u64], moved: &Move) -> bool {
        let (u, v) = (moved.forward, moved.back);
        v != NO_BOX && turned.are_equal(u, v) && weight(weights, u) == weight(weights, v)
    }

    // Exchanges the blocks of two boxes in the kept fill.
    fn exchange(&mut self, first: usize, second: usize) {
        let (block, is_kept) = (block_of(&self.kept, first), at(&self.is_kept, first));
        let other = block_of(&self.kept, second);
        let is_other = at(&self.is_kept, second);
        set_block(&mut self.kept, first, &other);
        set_block(&mut self.kept, second, &block);
        put(&mut self.is_kept, first, is_other);
        put(&mut self.is_kept, second, is_kept);
    }

    /// Lays boxes in the order of the kept fill behind a move, or answers that it exchanges two
    /// boxes of the same sides and weight alone. The boxes before the move lie where they did.
    pub fn run_moved(
        &mut self,
        turned: &OrientedInstance,
        order: &[u32],
        moved: &Move,
        weights: &[u64],
        limits: &Limits,
    ) -> Option<u64> {
        if self.are_alike(turned, weights, moved) {
            self.exchange(moved.forward as usize, moved.back as usize);
            return None;
        }
        self.begin(turned, order, limits.top);
        let first = (moved.position as usize).min(order.len());
        let mut left = 0u64;
        for v in order[..first].iter() {
            if at(&self.is_kept, *v as usize) == 1 {
                let block = block_of(&self.kept, *v as usize);
                self.place_box(*v, &block);
            } else {
                left = left.saturating_add(weight(weights, *v));
            }
        }
        Some(self.fill(turned, order, first, weights, limits, left))
    }

    /// Keeps what the last fill laid.
    pub fn keep(&mut self) {
        copy_into(&self.lies, &mut self.is_kept);
        if self.kept.len() == self.lying.len() {
            self.kept.copy_from_slice(&self.lying);
        }
    }

    /// Whether the kept fill laid a box.
    #[inline]
    pub fn is_laid(&self, v: u32) -> bool {
        at(&self.is_kept, v as usize) == 1
    }

    /// Writes the coordinates of the boxes of the kept fill, box after box.
    pub fn write(&self, places: &mut [u32]) {
        let first = self.first_index();
        for v in 0..self.kept.len() {
            let block = block_of(&self.kept, v);
            let place = v.saturating_mul(self.dims as usize);
            for k in first..4 {
                put(places, place.saturating_add(k - first), block.start[k]);
            }
        }
    }
}
