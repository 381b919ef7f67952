//! Points and blocks in up to four dimensions, and the far corners of a block.
ghost use Rattle.std.specs.Prelude.{◌<◌};

use box_instances::NoMemory;
use std::alloc::Global;

/// The coordinates of a point, the upward one last. Where there are fewer dimensions, those before
/// the first are 0.
pub(crate) type Point = [u32; 4];

/// The index of the upward coordinate.
pub(crate) const UP: usize = 3;

pub(crate) const ORIGIN: Point = [0, 0, 0, 0];

/// A laid box: where it begins and where it ends. In dimensions that the instance hasn't it is from
/// 0 to 1.
#[derive(Clone, Copy)]
pub(crate) struct Block {
    pub start: Point,
    pub end: Point,
}

const NO_BLOCK: Block = Block {
    start: ORIGIN,
    end: ORIGIN,
};

impl Block {
    /// Whether this block and another overlap. The upward dimension comes first, since it separates
    /// most of them.
    #[inline]
    pub(crate) fn meets(&self, other: &Block) -> bool {
        for back in 0..4 {
            let k = UP - back;
            if self.end[k] <= other.start[k] || other.end[k] <= self.start[k] {
                return false;
            }
        }
        true
    }

    // Whether the block has a coordinate of a point.
    #[inline]
    fn has_in(&self, point: &Point, k: usize) -> bool {
        k < 4 && self.start[k] <= point[k] && point[k] < self.end[k]
    }

    // Whether the block lacks a coordinate of a point, without a branch.
    #[inline]
    fn lacks_in(&self, point: &Point, k: usize) -> bool
        requires { k < 4 }
    {
        (point[k] < self.start[k]) | (self.end[k] <= point[k])
    }

    /// Whether the block has a point.
    #[inline]
    pub(crate) fn has(&self, point: &Point) -> bool {
        self.has_in(point, 3)
            && self.has_in(point, 2)
            && self.has_in(point, 1)
            && self.has_in(point, 0)
    }
}

/// The far corners of a block that was laid: one for each dimension, in which it is as far as the
/// block ends, and in all others where the block starts.
#[derive(Drop)]
pub(crate) struct Corners {
    /// How far back a corner comes along another dimension before it meets a block: the first index
    /// is that of the corner.
    pub pushed: [Point; 4],
    // Where the block starts that has a corner, if one does.
    covers: [Option<Point>; 4],
}

impl Corners {
    /// Corners that no block was noted for.
    pub(crate) fn new() -> Corners {
        Corners {
            pushed: [ORIGIN; 4],
            covers: [None; 4],
        }
    }

    /// Notes another block for each corner that it has, or has all coordinates of but one. A block
    /// that lacks three coordinates of the start is near no corner.
    #[inline]
    pub(crate) fn note(&mut self, block: &Block, other: &Block) {
        let misses = [
            other.lacks_in(&block.start, 0),
            other.lacks_in(&block.start, 1),
            other.lacks_in(&block.start, 2),
            other.lacks_in(&block.start, 3),
        ];
        let first = u32::from(misses[0]).saturating_add(u32::from(misses[1]));
        let last = u32::from(misses[2]).saturating_add(u32::from(misses[3]));
        let gaps = first.saturating_add(last);
        if gaps > 2 {
            return;
        }
        for k in 0..4 {
            let rest = gaps.saturating_sub(u32::from(misses[k]));
            if rest == 0 && other.has_in(&block.end, k) {
                self.covers[k] = Some(other.start);
            } else if rest == 1 && other.has_in(&block.end, k) {
                self.push(k, block, other, &misses);
            }
        }
    }

    // Notes another block in the way of a corner along the one dimension that it misses.
    fn push(&mut self, corner: usize, block: &Block, other: &Block, misses: &[bool; 4]) {
        for k in 0..4 {
            if k != corner && misses[k] && other.end[k] <= block.start[k] && corner < 4 {
                self.pushed[corner][k] = self.pushed[corner][k].max(other.end[k]);
            }
        }
    }

    /// Whether a corner that was pushed back along a dimension is in a block. That block has the
    /// corner itself too, since else the corner was pushed back to its end at least.
    pub(crate) fn is_covered(&self, corner: usize, back: usize) -> bool {
        if corner >= 4 || back >= 4 {
            return true;
        }
        match self.covers[corner] {
            Some(start) => start[back] <= self.pushed[corner][back],
            None => false,
        }
    }
}

/// Whether a point is lower than another: by the last coordinate, and then by those before it.
#[inline]
pub(crate) fn is_lower(first: &Point, second: &Point) -> bool {
    for back in 0..4 {
        let k = UP - back;
        if first[k] != second[k] {
            return first[k] < second[k];
        }
    }
    false
}

/// Memory for this many blocks, or `NoMemory`.
pub(crate) fn no_blocks(alloc: Global, count: usize) -> Result<Vec<Block>, NoMemory> {
    let Ok(blocks) = vec![in alloc; NO_BLOCK; count] else {
        return Err(NoMemory);
    };
    Ok(blocks)
}

/// The block at an index, or one of no size past the end.
#[inline]
pub(crate) fn block_of(blocks: &[Block], index: usize) -> Block {
    if index < blocks.len() {
        blocks[index]
    } else {
        NO_BLOCK
    }
}

/// Writes the block at an index, and nothing past the end.
#[inline]
pub(crate) fn set_block(blocks: &mut [Block], index: usize, block: &Block) {
    if index < blocks.len() {
        blocks[index] = *block;
    }
}
