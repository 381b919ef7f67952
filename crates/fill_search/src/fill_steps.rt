//! The steps of a fill in two dimensions, and the first one that a change of the order reaches.

use crate::oriented::OrientedInstance;
use crate::skyline::Gap;
use lenient_lists::at;

/// The number of no box.
pub(crate) const NO_BOX: u32 = u32::MAX;

/// A step of a fill: a box is laid into the lowest gap, or the gap is lost.
#[derive(Clone, Copy)]
pub(crate) struct Step {
    pub gap: Gap,
    /// The box that is laid, or `NO_BOX`.
    pub box_no: u32,
    /// The last box that was compared with it, or `NO_BOX` if all were.
    pub last: u32,
    pub score: u32,
    /// What is raised of the gap, and how high.
    pub width: u32,
    pub top: u32,
    pub is_right: bool,
    /// The area that was lost before the step.
    pub lost: u64,
}

pub(crate) const NO_STEP: Step = Step {
    gap: Gap {
        index: 0,
        start: 0,
        width: 0,
        height: 0,
        left: 0,
        right: 0,
    },
    box_no: NO_BOX,
    last: NO_BOX,
    score: 0,
    width: 0,
    top: 0,
    is_right: false,
    lost: 0,
};

/// How well a box fits a gap, from 1 on: it fills the width and is as high as the higher wall, or
/// the lower one, or is higher than this, or lower; or it is as high as a wall; or nothing of
/// these. It is 0 for a box that is too wide, or higher than `room`.
#[inline]
pub(crate) fn score(gap: &Gap, room: u32, width: u32, height: u32) -> u32 {
    let (low, high) = (gap.left.min(gap.right), gap.left.max(gap.right));
    let flush = height == low || height == high;
    let beside = if flush { 2 } else { 1 };
    let above = if height > low { 4 } else { 3 };
    let level = if height == low { 5 } else { above };
    let filled = if height == high { 6 } else { level };
    let score = if width == gap.width { filled } else { beside };
    if width > gap.width || height > room {
        0
    } else {
        score
    }
}

/// A change of an order: the box `forward` moves to `position`. The box `back` is the one that it
/// changes its position with, or `NO_BOX` if those between move back by one.
#[derive(Clone, Copy)]
pub struct Move {
    pub position: u32,
    pub forward: u32,
    pub back: u32,
}

impl Move {
    // How well a box of the move fits the gap of a step, and 0 for `NO_BOX`.
    #[inline]
    fn score(turned: &OrientedInstance, step: &Step, top: u32, box_no: u32) -> u32 {
        if box_no == NO_BOX {
            return 0;
        }
        let room = top.saturating_sub(step.gap.height);
        let (width, height) = (turned.side(box_no, 0), turned.side(box_no, 1));
        score(&step.gap, room, width, height)
    }

    // Whether the box of the step stands behind the new position of the box that moves forward.
    #[inline]
    fn is_before(&self, positions: &[u32], box_no: u32) -> bool {
        box_no == NO_BOX || at(positions, box_no as usize) >= self.position
    }

    // Whether a step that compares some boxes alone may change: one of the two fits the gap, and
    // stands before the last one that was compared.
    fn may_change_narrow(
        &self,
        turned: &OrientedInstance,
        positions: &[u32],
        step: &Step,
        top: u32,
    ) -> bool {
        self.is_before(positions, step.last)
            && (Move::score(turned, step, top, self.forward) > 0
                || Move::score(turned, step, top, self.back) > 0)
    }

    // Whether a step that compares all boxes may change: it laid the box that moves back, or the
    // one that moves forward fits as well and comes before the box of the step.
    fn may_change_wide(
        &self,
        turned: &OrientedInstance,
        positions: &[u32],
        step: &Step,
        top: u32,
    ) -> bool {
        step.box_no == self.back
            || (self.is_before(positions, step.box_no)
                && Move::score(turned, step, top, self.forward) == step.score)
    }

    /// The first of the steps that may change, if one may. `positions` are those of the boxes in
    /// the new order, and no box of these steps reaches above `top`.
    pub(crate) fn first_change(
        &self,
        turned: &OrientedInstance,
        positions: &[u32],
        steps: &[Step],
        top: u32,
        is_wide: bool,
    ) -> Option<usize> {
        let mut forward = *self;
        for (k, step) in steps.iter().enumerate() {
            if step.box_no == NO_BOX {
                continue;
            }
            if !is_wide {
                if self.may_change_narrow(turned, positions, step, top) {
                    return Some(k);
                }
            } else if step.box_no == forward.forward {
                if self.back == NO_BOX {
                    return None;
                }
                forward.forward = NO_BOX;
            } else if forward.may_change_wide(turned, positions, step, top) {
                return Some(k);
            }
        }
        None
    }
}
