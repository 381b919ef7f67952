//! One fill of a container in two dimensions, without going back.
//!
//! The lowest gap of the skyline takes the box with the best score, of equal ones the first of an
//! order. A gap that takes none is lost up to its lower neighbour. The steps of a fill are kept, so
//! that a fill in a changed order begins at the first step that the change reaches.
//!
//! Source: the best-fit rule of Burke, Kendall and Whitwell (2004), with the scores of Leung, Zhang
//! and Sim (2011).

use crate::fill_steps::{Move, NO_BOX, NO_STEP, Step, score};
use crate::oriented::OrientedInstance;
use crate::skyline::{Gap, Skyline, remove};
use box_instances::NoMemory;
use lenient_lists::{at, put, zeros};
use std::alloc::Global;

/// How far a fill goes.
#[derive(Clone, Copy)]
pub struct Limits {
    /// How high boxes may reach.
    pub top: u32,
    /// How many of the boxes that fit a gap are compared.
    pub window: u32,
    /// A fill that loses a greater area than this is cut.
    pub most_lost: u64,
    /// A fill that reaches higher than this is cut.
    pub highest: u32,
    /// In three dimensions and more a fill that leaves out a greater weight is cut.
    pub most_left: u64,
}

impl Limits {
    // Whether all of this many boxes are compared.
    #[inline]
    fn is_wide(&self, count: usize) -> bool {
        self.window as usize >= count
    }
}

// The greatest number of boxes of an instance: the rank of the first box that waits.
const FIRST_RANK: u32 = 128;

// A score takes the bits above these of a rank.
const RANK_BITS: u32 = 8;

// A box that is chosen: its position among those that wait, its score, and the last box that was
// compared with it, or `NO_BOX` if all were.
#[derive(Clone, Copy)]
struct Chosen {
    index: usize,
    score: u32,
    last: u32,
}

/// The memory of a fill, with its kept steps.
#[derive(Drop)]
pub struct SkylineFill {
    /// How high the laid boxes of the last fill reach.
    pub height: u32,
    skyline: Skyline,
    // The widths, heights and numbers of the boxes that wait, in order.
    widths: Vec<u32>,
    heights: Vec<u32>,
    numbers: Vec<u32>,
    // Falling ranks for the positions of those that wait.
    ranks: Vec<u32>,
    count: usize,
    narrowest: u32,
    // The steps of the kept fill, and of each box the one that laid it, or `NO_BOX`.
    kept: Vec<Step>,
    kept_count: usize,
    laid_at: Vec<u32>,
    // The steps of the last fill, from `first` on; before that it has those of the kept one.
    steps: Vec<Step>,
    first: usize,
    made: usize,
}

#[inline]
fn step_at(steps: &[Step], index: usize) -> Step {
    if index < steps.len() {
        steps[index]
    } else {
        NO_STEP
    }
}

#[inline]
fn set_step(steps: &mut [Step], index: usize, step: Step) {
    if index < steps.len() {
        steps[index] = step;
    }
}

fn no_steps(alloc: Global, count: usize) -> Result<Vec<Step>, NoMemory> {
    let Ok(steps) = vec![in alloc; NO_STEP; count] else {
        return Err(NoMemory);
    };
    Ok(steps)
}

impl SkylineFill {
    /// Memory for up to this many boxes.
    pub fn new(alloc: Global, count: u32) -> Result<SkylineFill, NoMemory> {
        let boxes = count as usize;
        let mut ranks = zeros(alloc, boxes)?;
        for k in 0..count.min(FIRST_RANK) {
            put(&mut ranks, k as usize, FIRST_RANK - k);
        }
        // Each box is laid once, and a lost gap is one segment less.
        let most = 2 * boxes + 2;
        Ok(SkylineFill {
            height: 0,
            skyline: Skyline::new(alloc, count)?,
            widths: zeros(alloc, boxes)?,
            heights: zeros(alloc, boxes)?,
            numbers: zeros(alloc, boxes)?,
            ranks,
            count: 0,
            narrowest: 0,
            kept: no_steps(alloc, most)?,
            kept_count: 0,
            laid_at: zeros(alloc, boxes)?,
            steps: no_steps(alloc, most)?,
            first: 0,
            made: 0,
        })
    }

    // The least width of the boxes that wait.
    fn find_narrowest(&mut self) {
        let mut narrowest = u32::MAX;
        let count = self.count.min(self.widths.len());
        for width in self.widths[..count].iter() {
            narrowest = narrowest.min(*width);
        }
        self.narrowest = narrowest;
    }

    // Lays and loses again what the kept fill did before a step, and lets all other boxes of the
    // order wait.
    fn begin(&mut self, turned: &OrientedInstance, order: &[u32], first: usize) {
        self.skyline.flatten(turned.container(0));
        self.height = 0;
        self.first = first;
        self.made = first;
        for k in 0..first {
            let step = step_at(&self.kept, k);
            self.skyline
                .raise(step.gap.index, step.width, step.top, step.is_right);
            if step.box_no != NO_BOX {
                self.height = self.height.max(step.top);
            }
        }
        self.count = 0;
        for k in 0..order.len() {
            let box_no = at(order, k);
            if first == 0 || at(&self.laid_at, box_no as usize) as usize >= first {
                put(&mut self.widths, self.count, turned.side(box_no, 0));
                put(&mut self.heights, self.count, turned.side(box_no, 1));
                put(&mut self.numbers, self.count, box_no);
                self.count = self.count.saturating_add(1);
            }
        }
        self.count = self.count.min(self.numbers.len());
        self.find_narrowest();
    }

    // The box with the best score, of those that fit the gap below the top.
    fn best_box(&self, gap: &Gap, limits: &Limits) -> Option<Chosen> {
        if gap.width < self.narrowest {
            return None;
        }
        let room = limits.top.saturating_sub(gap.height);
        if limits.is_wide(self.laid_at.len()) {
            self.best_of_all(gap, room)
        } else {
            self.best_in_window(gap, room, limits.window)
        }
    }

    // The same where all boxes are compared. The slices have one length and no box has a branch, so
    // that vector instructions compare several boxes at once.
    fn best_of_all(&self, gap: &Gap, room: u32) -> Option<Chosen> {
        let most = self.heights.len().min(self.ranks.len());
        let count = self.count.min(self.widths.len()).min(most);
        let widths = &self.widths[..count];
        let heights = &self.heights[..count];
        let ranks = &self.ranks[..count];
        let mut best = 0u32;
        for k in 0..count {
            let key = (score(gap, room, widths[k], heights[k]) << RANK_BITS) | ranks[k];
            best = best.max(key);
        }
        let score = best >> RANK_BITS;
        if score == 0 {
            return None;
        }
        Some(Chosen {
            index: FIRST_RANK.saturating_sub(best & 255) as usize,
            score,
            last: NO_BOX,
        })
    }

    // The same where only the first ones that fit are compared.
    fn best_in_window(&self, gap: &Gap, room: u32, window: u32) -> Option<Chosen> {
        let mut best = None;
        let mut best_score = 0;
        let mut last = NO_BOX;
        let mut seen = 0u32;
        for k in 0..self.count {
            let (width, height) = (at(&self.widths, k), at(&self.heights, k));
            if width > gap.width || height > room {
                continue;
            }
            let score = score(gap, room, width, height);
            if score > best_score {
                best_score = score;
                best = Some(k);
            }
            seen = seen.saturating_add(1);
            if best_score == 6 || seen >= window {
                last = at(&self.numbers, k);
                break;
            }
        }
        let index = best?;
        Some(Chosen {
            index,
            score: best_score,
            last,
        })
    }

    // Takes a box out of those that wait.
    fn take(&mut self, index: usize) {
        let width = at(&self.widths, index);
        remove(&mut self.widths, index, self.count);
        remove(&mut self.heights, index, self.count);
        remove(&mut self.numbers, index, self.count);
        self.count = self.count.saturating_sub(1);
        if width == self.narrowest {
            self.find_narrowest();
        }
    }

    // Makes a step, behind which the area `lost` is lost.
    fn make(&mut self, step: Step) {
        self.skyline
            .raise(step.gap.index, step.width, step.top, step.is_right);
        set_step(&mut self.steps, self.made, step);
        self.made = self.made.saturating_add(1);
    }

    // Lays a box into a gap: at the wall that is as high, or else at the higher one.
    fn place_box(&mut self, chosen: &Chosen, gap: &Gap, lost: u64) {
        let index = chosen.index;
        let (width, height) = (at(&self.widths, index), at(&self.heights, index));
        let box_no = at(&self.numbers, index);
        self.take(index);
        let top = gap.height.saturating_add(height);
        self.height = self.height.max(top);
        self.make(Step {
            gap: *gap,
            box_no,
            last: chosen.last,
            score: chosen.score,
            width,
            top,
            is_right: gap.is_right(width, height),
            lost,
        });
    }

    // Loses a gap up to its lower neighbour.
    fn lose(&mut self, gap: &Gap, lost: u64) {
        self.make(Step {
            gap: *gap,
            width: gap.width,
            top: gap.height.saturating_add(gap.left.min(gap.right)),
            lost,
            ..NO_STEP
        });
    }

    // Fills from where it began, `lost` being lost there. It answers whether it went on to its end,
    // and wasn't cut.
    fn fill(&mut self, limits: &Limits, lost: u64) -> bool {
        let mut lost = lost;
        for _ in self.made..self.steps.len() {
            if self.count == 0 {
                return true;
            }
            let gap = self.skyline.lowest_gap();
            if let Some(chosen) = self.best_box(&gap, limits) {
                self.place_box(&chosen, &gap, lost);
                if self.height > limits.highest {
                    return false;
                }
                continue;
            }
            let up = gap.left.min(gap.right);
            let rise = up.min(limits.top.saturating_sub(gap.height));
            let area = u64::from(rise) * u64::from(gap.width);
            if lost.saturating_add(area) > limits.most_lost {
                return false;
            }
            if up == u32::MAX {
                return true;
            }
            self.lose(&gap, lost);
            lost = lost.saturating_add(area);
        }
        true
    }

    /// Lays boxes in an order. It answers whether it went on to its end, and wasn't cut.
    pub fn run(&mut self, turned: &OrientedInstance, order: &[u32], limits: &Limits) -> bool {
        self.begin(turned, order, 0);
        self.fill(limits, 0)
    }

    /// Lays boxes in the order of the kept fill behind a move. `positions` are those of the boxes
    /// in the new order. It answers like `run`, or that all steps are the same.
    pub fn run_moved(
        &mut self,
        turned: &OrientedInstance,
        order: &[u32],
        positions: &[u32],
        moved: &Move,
        limits: &Limits,
    ) -> Option<bool> {
        let is_wide = limits.is_wide(self.laid_at.len());
        let count = self.kept_count.min(self.kept.len());
        let steps = &self.kept[..count];
        let first = moved.first_change(turned, positions, steps, limits.top, is_wide)?;
        let lost = step_at(&self.kept, first).lost;
        self.begin(turned, order, first);
        Some(self.fill(limits, lost))
    }

    /// Keeps the steps of the last fill.
    pub fn keep(&mut self) {
        for k in self.first..self.made {
            let step = step_at(&self.steps, k);
            set_step(&mut self.kept, k, step);
        }
        self.kept_count = self.made;
        self.laid_at.fill(NO_BOX);
        for k in 0..self.made {
            let box_no = step_at(&self.kept, k).box_no;
            put(&mut self.laid_at, box_no as usize, k.min(1_000) as u32);
        }
    }

    /// Whether the kept fill laid a box.
    #[inline]
    pub fn is_laid(&self, v: u32) -> bool {
        (v as usize) < self.laid_at.len() && at(&self.laid_at, v as usize) != NO_BOX
    }

    /// Writes the coordinates of the boxes of the kept fill, box after box: across and up.
    pub fn write(&self, places: &mut [u32]) {
        for k in 0..self.kept_count {
            let step = step_at(&self.kept, k);
            if step.box_no != NO_BOX {
                let v = (step.box_no as usize).saturating_mul(2);
                let across = step.gap.start_at(step.width, step.is_right);
                put(places, v, across);
                put(places, v.saturating_add(1), step.gap.height);
            }
        }
    }

    /// The total weight of the boxes that wait.
    pub fn weight_left(&self, weights: &[u64]) -> u64 {
        let mut left = 0u64;
        for k in 0..self.count {
            let v = at(&self.numbers, k) as usize;
            if v < weights.len() {
                left = left.saturating_add(weights[v]);
            }
        }
        left
    }
}
