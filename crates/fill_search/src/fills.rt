//! One fill of a container without going back, in any number of dimensions.

use crate::corner_fill::CornerFill;
use crate::fill_steps::Move;
use crate::oriented::OrientedInstance;
use crate::skyline_fill::{Limits, SkylineFill};
use box_instances::NoMemory;
use lenient_lists::zeros;
use std::alloc::Global;

/// The memory of fills, with one that is kept. The part that isn't for these dimensions is small.
#[derive(Drop)]
pub struct Fills {
    is_flat: bool,
    skyline: SkylineFill,
    corner: CornerFill,
    places: Vec<u32>,
}

impl Fills {
    /// Memory for up to `count` boxes in `dims` dimensions, or `NoMemory`.
    pub fn new(alloc: Global, dims: u32, count: u32) -> Result<Fills, NoMemory> {
        let is_flat = dims == 2;
        let numbers = (dims as usize).saturating_mul(count as usize);
        Ok(Fills {
            is_flat,
            skyline: SkylineFill::new(alloc, if is_flat { count } else { 0 })?,
            corner: CornerFill::new(alloc, dims, if is_flat { 0 } else { count })?,
            places: zeros(alloc, numbers)?,
        })
    }

    /// Lays boxes in an order. It answers the total weight of those that are left out, or
    /// `u64::MAX` if the fill was cut by `limits`.
    pub fn run(
        &mut self,
        turned: &OrientedInstance,
        order: &[u32],
        weights: &[u64],
        limits: &Limits,
    ) -> u64 {
        if !self.is_flat {
            return self.corner.run(turned, order, weights, limits);
        }
        if self.skyline.run(turned, order, limits) {
            return self.skyline.weight_left(weights);
        }
        u64::MAX
    }

    /// Like `run`, for the order of the kept fill behind a move, in which the boxes have these
    /// `positions`; or it answers that nothing changes.
    pub(crate) fn run_moved(
        &mut self,
        turned: &OrientedInstance,
        order: &[u32],
        positions: &[u32],
        moved: &Move,
        weights: &[u64],
        limits: &Limits,
    ) -> Option<u64> {
        if !self.is_flat {
            return self.corner.run_moved(turned, order, moved, weights, limits);
        }
        if self
            .skyline
            .run_moved(turned, order, positions, moved, limits)?
        {
            return Some(self.skyline.weight_left(weights));
        }
        Some(u64::MAX)
    }

    /// Keeps the last fill.
    pub fn keep(&mut self) {
        if self.is_flat {
            self.skyline.keep();
        } else {
            self.corner.keep();
        }
    }

    /// How high the laid boxes of the last fill reach.
    pub(crate) fn height(&self) -> u32 {
        if self.is_flat {
            self.skyline.height
        } else {
            self.corner.height
        }
    }

    /// Writes the coordinates of the boxes of the kept fill for `places`.
    pub fn write(&mut self) {
        if self.is_flat {
            self.skyline.write(&mut self.places);
        } else {
            self.corner.write(&mut self.places);
        }
    }

    /// The coordinates that were written last, box after box, in the order of dimensions of that
    /// fill.
    pub fn places(&self) -> &[u32] {
        &self.places
    }

    /// Whether the kept fill laid a box.
    #[inline]
    pub fn is_laid(&self, v: u32) -> bool {
        if self.is_flat {
            self.skyline.is_laid(v)
        } else {
            self.corner.is_laid(v)
        }
    }
}
