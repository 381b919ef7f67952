//! The skyline of boxes that lie on a floor: its segments from left to right.

use crate::slots::copy_first;
use box_instances::NoMemory;
use lenient_lists::{at, put, zeros};
use std::alloc::Global;

/// A part of the skyline: where it begins, how wide it is, and how high it lies.
#[derive(Clone, Copy, Debug, PartialEq, Eq)]
pub struct Segment {
    pub start: u32,
    pub width: u32,
    pub height: u32,
}

/// A segment of no width.
pub const NOTHING: Segment = Segment {
    start: 0,
    width: 0,
    height: 0,
};

/// The segment at an index, or `NOTHING` past the end.
#[inline]
pub fn segment_at(line: &[Segment], index: usize) -> Segment {
    if index < line.len() {
        line[index]
    } else {
        NOTHING
    }
}

/// The index of the lowest segment, of several the leftmost; 0 if there is none.
pub fn lowest(line: &[Segment]) -> usize {
    let (mut best, mut height) = (0, u32::MAX);
    for (k, here) in line.iter().enumerate() {
        if here.height < height {
            best = k;
            height = here.height;
        }
    }
    best
}

/// The lowest segment of a skyline, and how far the ones beside it rise above it. The walls of the
/// container rise by `u32::MAX`.
#[derive(Clone, Copy, Debug, PartialEq, Eq)]
pub struct Gap {
    pub index: usize,
    pub start: u32,
    pub width: u32,
    pub height: u32,
    pub left: u32,
    pub right: u32,
}

impl Gap {
    /// Whether a box is laid at the right end of the gap: where the wall there is as high as the
    /// box, and else where it is the higher one. A box that fills the gap, or is as high as the
    /// left wall, lies at the left end.
    pub fn is_right(&self, width: u32, height: u32) -> bool {
        width < self.width
            && height != self.left
            && (height == self.right || self.left < self.right)
    }

    /// Where a box of this width begins at the right end of the gap, or at the left one.
    pub fn start_at(&self, width: u32, is_right: bool) -> u32 {
        if is_right {
            self.start.saturating_add(self.width.saturating_sub(width))
        } else {
            self.start
        }
    }
}

/// A skyline that is raised in place, within a fixed capacity.
#[derive(Drop)]
pub struct Skyline {
    // Where the segments begin, and behind them where the last one ends.
    starts: Vec<u32>,
    heights: Vec<u32>,
    count: usize,
}

// Inserts an entry before the one at an index, of the first `count` ones of a list.
#[inline]
fn insert(list: &mut [u32], index: usize, count: usize, entry: u32) {
    if index <= count && count < list.len() {
        list.copy_within(index..count, index + 1);
        list[index] = entry;
    }
}

/// Removes an entry from the first `count` ones of a list.
#[inline]
pub(crate) fn remove(list: &mut [u32], index: usize, count: usize) {
    let end = count.min(list.len());
    if index < end {
        list.copy_within(index + 1..end, index);
    }
}

impl Skyline {
    /// A skyline without segments, for up to `boxes` boxes, or `NoMemory`. Each box adds at most
    /// one segment.
    pub fn new(alloc: Global, boxes: u32) -> Result<Skyline, NoMemory> {
        let most = boxes as usize + 2;
        Ok(Skyline {
            starts: zeros(alloc, most + 1)?,
            heights: zeros(alloc, most)?,
            count: 0,
        })
    }

    /// Copies the segments of `other`, a skyline for the same number of boxes.
    pub fn copy(&mut self, other: &Skyline) {
        self.count = other.count;
        copy_first(
            &other.starts,
            &mut self.starts,
            other.count.saturating_add(1),
        );
        copy_first(&other.heights, &mut self.heights, other.count);
    }

    /// The number of segments.
    pub fn len(&self) -> usize {
        self.count
    }

    /// A hash of the segments: two skylines with the same hash are most likely the same.
    pub fn hash(&self) -> u64 {
        let mut hash = 0u64;
        for k in 0..self.count {
            let (start, height) = (at(&self.starts, k), at(&self.heights, k));
            let mixed = hash ^ (u64::from(start) << 32) ^ u64::from(height);
            hash = mixed.wrapping_mul(0x9e37_79b9_7f4a_7c15).rotate_left(17);
        }
        hash
    }

    /// Makes it a floor of this width at height 0.
    pub fn flatten(&mut self, width: u32) {
        self.count = 1;
        put(&mut self.starts, 0, 0);
        put(&mut self.starts, 1, width);
        put(&mut self.heights, 0, 0);
    }

    // The index of the lowest segment, of several the leftmost.
    #[inline]
    fn lowest(&self) -> usize {
        let count = self.count.min(self.heights.len());
        let heights = &self.heights[..count];
        let mut least = u32::MAX;
        for height in heights.iter() {
            least = least.min(*height);
        }
        for (k, height) in heights.iter().enumerate() {
            if *height == least {
                return k;
            }
        }
        0
    }

    // The width of a segment.
    #[inline]
    fn width(&self, index: usize) -> u32 {
        let end = at(&self.starts, index.saturating_add(1));
        end.saturating_sub(at(&self.starts, index))
    }

    /// The lowest gap, of several the leftmost.
    #[inline]
    pub fn lowest_gap(&self) -> Gap {
        let index = self.lowest();
        let height = at(&self.heights, index);
        let left = if index == 0 {
            u32::MAX
        } else {
            at(&self.heights, index - 1).saturating_sub(height)
        };
        let next = index.saturating_add(1);
        let right = if next >= self.count {
            u32::MAX
        } else {
            at(&self.heights, next).saturating_sub(height)
        };
        Gap {
            index,
            start: at(&self.starts, index),
            width: self.width(index),
            height,
            left,
            right,
        }
    }

    // Joins a segment to the one before it.
    #[inline]
    fn join(&mut self, index: usize) {
        remove(&mut self.starts, index, self.count.saturating_add(1));
        remove(&mut self.heights, index, self.count);
        self.count = self.count.saturating_sub(1);
    }

    // Whether the segment at an index is as high as this, and neither the first nor past the last.
    #[inline]
    fn is_level(&self, index: usize, height: u32) -> bool {
        index < self.count && at(&self.heights, index) == height
    }

    // Raises a whole segment.
    #[inline]
    fn raise_all(&mut self, index: usize, height: u32) {
        put(&mut self.heights, index, height);
        let next = index.saturating_add(1);
        if self.is_level(next, height) {
            self.join(next);
        }
        if index > 0 && self.is_level(index - 1, height) {
            self.join(index);
        }
    }

    // Adds a segment before the one at an index.
    #[inline]
    fn add(&mut self, index: usize, start: u32, height: u32) {
        insert(&mut self.starts, index, self.count.saturating_add(1), start);
        insert(&mut self.heights, index, self.count, height);
        self.count = self.count.saturating_add(1);
    }

    // Raises a part of a segment at its left end.
    #[inline]
    fn raise_left(&mut self, index: usize, part: u32, height: u32) {
        let start = at(&self.starts, index);
        let end = start.saturating_add(part);
        if index == 0 || !self.is_level(index - 1, height) {
            self.add(index, start, height);
            put(&mut self.starts, index.saturating_add(1), end);
        } else {
            put(&mut self.starts, index, end);
        }
    }

    // Raises a part of a segment at its right end.
    #[inline]
    fn raise_right(&mut self, index: usize, part: u32, height: u32) {
        let next = index.saturating_add(1);
        let start = at(&self.starts, next).saturating_sub(part);
        if self.is_level(next, height) {
            put(&mut self.starts, next, start);
        } else {
            self.add(next, start, height);
        }
    }

    /// Raises a part of a segment to a height: the first `width` units, or the last if `is_right`.
    #[inline]
    pub fn raise(&mut self, index: usize, width: u32, height: u32, is_right: bool) {
        if width >= self.width(index) {
            self.raise_all(index, height);
        } else if is_right {
            self.raise_right(index, width, height);
        } else {
            self.raise_left(index, width, height);
        }
    }
}
