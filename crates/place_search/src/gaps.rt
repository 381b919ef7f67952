//! The search that fills the lowest gap first, for two dimensions, with a stack of its own.
//!
//! At each node the lowest gap of the skyline is taken. A box is laid into its left corner, boxes
//! that fill it first; or the gap is lost up to its lower neighbour. What is lost is never more
//! than the container has to spare.
//!
//! Source: the best-fit rule of Burke, Kendall and Whitwell (2004), with going back.

use crate::lines::raise;
use box_instances::NoMemory;
use fill_search::{NOTHING, OrientedInstance, Segment, clear, lowest, segment_at};
use lenient_lists::{at, put, zeros};
use std::alloc::Global;

/// How a search for places ended: with places, after all steps that it was given, or with nothing
/// left to try.
#[derive(Clone, Copy, Debug, PartialEq, Eq)]
pub enum Ended {
    Found,
    Spent,
    Exhausted,
}

// What is tried next at a level: a box is laid, the gap is lost, or the search goes back.
#[derive(Clone, Copy, Debug, PartialEq, Eq)]
enum Try {
    Lay(u32),
    Lose,
    Back,
}

// A node on the way down: how many segments its skyline has, its gap, the next try, the box that
// was laid from here, counted from 1, and what may still be lost.
#[derive(Clone, Copy)]
struct Level {
    segments: usize,
    gap: usize,
    next: u32,
    laid: u32,
    spare: u64,
}

// A position of the order at which a box is tried: in a gap of this width, under a room above it,
// and whether it is to fill the width.
#[derive(Clone, Copy)]
struct Place {
    position: usize,
    width: u32,
    room: u32,
    exact: bool,
}

const START: Level = Level {
    segments: 0,
    gap: 0,
    next: 0,
    laid: 0,
    spare: 0,
};

/// The room of a search, for instances of a given number of boxes.
#[derive(Drop)]
pub struct GapSearch {
    /// The places of the boxes, box after box.
    pub places: Vec<u32>,
    width: usize,
    lines: Vec<Segment>,
    levels: Vec<Level>,
    lies: Vec<u32>,
}

impl GapSearch {
    /// Room for `count` boxes. Each level down lays a box or loses a segment, and each box makes at
    /// most one segment more.
    pub fn new(alloc: Global, count: u32) -> Result<GapSearch, NoMemory> {
        let width = count as usize + 2;
        let depth = 2 * count as usize + 2;
        let Ok(lines) = vec![in alloc; NOTHING; width.saturating_mul(depth)] else {
            return Err(NoMemory);
        };
        let Ok(levels) = vec![in alloc; START; depth] else {
            return Err(NoMemory);
        };
        Ok(GapSearch {
            places: zeros(alloc, 2 * count as usize)?,
            width,
            lines,
            levels,
            lies: zeros(alloc, count as usize)?,
        })
    }

    #[inline]
    fn level(&self, depth: usize) -> Level {
        if depth < self.levels.len() {
            self.levels[depth]
        } else {
            START
        }
    }

    #[inline]
    fn set_level(&mut self, depth: usize, level: Level) {
        if depth < self.levels.len() {
            self.levels[depth] = level;
        }
    }

    // The segment of a level's skyline.
    #[inline]
    fn segment(&self, depth: usize, index: usize) -> Segment {
        let line = depth.saturating_mul(self.width);
        segment_at(&self.lines, line.saturating_add(index))
    }

    // The skyline of the floor alone.
    fn begin(&mut self, turned: &OrientedInstance) {
        clear(&mut self.lies);
        let mut volume = 0u64;
        for v in 0..turned.count {
            let area = turned.side(v, 0) as u64 * turned.side(v, 1) as u64;
            volume = volume.saturating_add(area);
        }
        let whole = turned.container(0) as u64 * turned.container(1) as u64;
        if !self.lines.is_empty() {
            self.lines[0] = Segment {
                start: 0,
                width: turned.container(0),
                height: 0,
            };
        }
        let first = Level {
            segments: 1,
            spare: whole.saturating_sub(volume),
            ..START
        };
        self.set_level(0, first);
    }

    // Whether the next try of a level is this position of the order: the box isn't laid yet, no
    // equal one before it waits, and it fits the gap, all of its width or not as is asked.
    #[inline]
    fn may_lay(
        &self,
        turned: &OrientedInstance,
        order: &[u32],
        twins: &[u32],
        try_at: Place,
    ) -> bool {
        let v = at(order, try_at.position);
        if at(&self.lies, v as usize) != 0 {
            return false;
        }
        let wide = turned.side(v, 0);
        if wide > try_at.width || (wide == try_at.width) != try_at.exact {
            return false;
        }
        if turned.side(v, 1) > try_at.room {
            return false;
        }
        let twin = at(twins, try_at.position);
        twin == 0 || at(&self.lies, at(order, twin as usize - 1) as usize) != 0
    }

    // The next try of a level. First come the boxes that fill the gap, then the others, each in the
    // given order, and then the loss of the gap.
    fn next_try(
        &mut self,
        turned: &OrientedInstance,
        order: &[u32],
        twins: &[u32],
        depth: usize,
    ) -> Try {
        let level = self.level(depth);
        let gap = self.segment(depth, level.gap);
        let room = turned.container(1).saturating_sub(gap.height);
        let count = turned.count;
        let last = count.saturating_mul(2);
        for next in level.next..last {
            let exact = next < count;
            let position = if exact { next } else { next - count };
            let try_at = Place {
                position: position as usize,
                width: gap.width,
                room,
                exact,
            };
            if self.may_lay(turned, order, twins, try_at) {
                let v = at(order, position as usize);
                let laid = v.saturating_add(1);
                let next = next + 1;
                self.set_level(
                    depth,
                    Level {
                        next,
                        laid,
                        ..level
                    },
                );
                return Try::Lay(v);
            }
        }
        if level.next <= last {
            let next = last.saturating_add(1);
            self.set_level(
                depth,
                Level {
                    next,
                    laid: 0,
                    ..level
                },
            );
            return Try::Lose;
        }
        Try::Back
    }

    // Goes down to the skyline in which the gap's left part is as high as `top`.
    fn go_down(&mut self, depth: usize, width: u32, top: u32, spare: u64) {
        let level = self.level(depth);
        let from = depth.saturating_mul(self.width);
        let to = from.saturating_add(self.width);
        let end = to.saturating_add(self.width);
        if end > self.lines.len() || level.segments > self.width {
            return;
        }
        let (upper, lower) = self.lines.split_at_mut(to);
        let line = &upper[from..from + level.segments];
        let next = &mut lower[..self.width];
        let segments = raise(line, level.gap, width, top, next);
        let gap = lowest(&next[..segments.min(next.len())]);
        let below = Level {
            segments,
            gap,
            next: 0,
            laid: 0,
            spare,
        };
        self.set_level(depth.saturating_add(1), below);
    }

    // Lays a box into the left corner of the gap.
    fn place_box(&mut self, turned: &OrientedInstance, depth: usize, v: u32) {
        let level = self.level(depth);
        let gap = self.segment(depth, level.gap);
        put(&mut self.lies, v as usize, 1);
        put(&mut self.places, 2 * v as usize, gap.start);
        put(&mut self.places, 2 * v as usize + 1, gap.height);
        let top = gap.height.saturating_add(turned.side(v, 1));
        self.go_down(depth, turned.side(v, 0), top, level.spare);
    }

    // Gives the gap up, as high as its lower neighbour, where so much is to spare.
    fn lose(&mut self, turned: &OrientedInstance, depth: usize) -> bool {
        let level = self.level(depth);
        let gap = self.segment(depth, level.gap);
        let top = turned.container(1);
        let left = if level.gap == 0 {
            top
        } else {
            self.segment(depth, level.gap - 1).height
        };
        let right = if level.gap.saturating_add(1) >= level.segments {
            top
        } else {
            self.segment(depth, level.gap.saturating_add(1)).height
        };
        let up = left.min(right);
        let lost = up.saturating_sub(gap.height) as u64 * gap.width as u64;
        if lost > level.spare || up >= top {
            return false;
        }
        self.go_down(depth, gap.width, up, level.spare - lost);
        true
    }

    // Takes back what was laid from a level. It answers whether a box was.
    fn take_back(&mut self, depth: usize) -> bool {
        let laid = self.level(depth).laid;
        if laid == 0 {
            return false;
        }
        put(&mut self.lies, laid as usize - 1, 0);
        true
    }

    /// Searches with an order of the boxes, for at most `steps` steps.
    pub fn run(
        &mut self,
        turned: &OrientedInstance,
        order: &[u32],
        twins: &[u32],
        steps: u64,
    ) -> Ended {
        self.begin(turned);
        let mut depth = 0usize;
        let mut left = turned.count;
        for _ in 0..steps {
            if left == 0 {
                return Ended::Found;
            }
            match self.next_try(turned, order, twins, depth) {
                Try::Lay(v) => {
                    self.place_box(turned, depth, v);
                    depth = depth.saturating_add(1);
                    left = left.saturating_sub(1);
                }
                Try::Lose => {
                    if self.lose(turned, depth) {
                        depth = depth.saturating_add(1);
                    }
                }
                Try::Back => {
                    if depth == 0 {
                        return Ended::Exhausted;
                    }
                    depth -= 1;
                    if self.take_back(depth) {
                        left = left.saturating_add(1);
                    }
                }
            }
        }
        Ended::Spent
    }
}
