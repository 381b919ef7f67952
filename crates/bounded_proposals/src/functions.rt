//! The scale functions of one dimension that no other function dominates.

use crate::slots::{block_of, entry};
use box_instances::{Instance, NoMemory};
use conservative_scales::{ScaleFn, image, legal, whole};
use lenient_lists::pushed;
use std::alloc::Global;

/// Scale functions of one dimension with their wholes and what they make of each box.
#[derive(Drop)]
pub(crate) struct FunctionList {
    boxes: usize,
    functions: Vec<ScaleFn>,
    wholes: Vec<u64>,
    // The images of all boxes by the first function first. A box that is longer than the container
    // has image 0.
    images: Vec<u64>,
}

// The image of a box in a dimension.
fn image_of(instance: &Instance, dim: u32, f: ScaleFn, v: u32) -> u64 {
    if dim >= instance.dims() || v >= instance.len() {
        return 0;
    }
    let (side, x) = (instance.container_side(dim), instance.side(v, dim));
    if legal(f, side) && x <= side {
        image(f, side, x)
    } else {
        0
    }
}

// The whole of a function in a dimension, or 0 if it isn't legal there.
fn whole_of(instance: &Instance, dim: u32, f: ScaleFn) -> u64 {
    if dim >= instance.dims() {
        return 0;
    }
    let side = instance.container_side(dim);
    if legal(f, side) { whole(f, side) } else { 0 }
}

// Whether images are nowhere above others, each as a part of its whole.
fn are_dominated(images: &[u64], whole: u64, others: &[u64], other_whole: u64) -> bool {
    for v in 0..images.len() {
        let part = images[v].saturating_mul(other_whole);
        if part > entry(others, v, 0).saturating_mul(whole) {
            return false;
        }
    }
    true
}

impl FunctionList {
    /// No function, for this many boxes.
    pub(crate) fn new(alloc: Global, boxes: usize) -> FunctionList {
        FunctionList {
            boxes,
            functions: Vec::new(alloc),
            wholes: Vec::new(alloc),
            images: Vec::new(alloc),
        }
    }

    /// The number of functions.
    pub(crate) fn len(&self) -> usize {
        self.functions.len()
    }

    /// The function at an index, and `Id` past the end.
    pub(crate) fn function(&self, k: usize) -> ScaleFn {
        entry(&self.functions, k, ScaleFn::Id)
    }

    /// The whole of the function at an index, and 0 past the end.
    pub(crate) fn whole(&self, k: usize) -> u64 {
        entry(&self.wholes, k, 0)
    }

    /// The images of all boxes by the function at an index.
    pub(crate) fn images(&self, k: usize) -> &[u64] {
        block_of(&self.images, k, self.boxes)
    }

    // Whether a function of the list dominates images.
    fn dominates(&self, images: &[u64], whole: u64) -> bool {
        for k in 0..self.functions.len() {
            if are_dominated(images, whole, self.images(k), self.whole(k)) {
                return true;
            }
        }
        false
    }

    // Adds a function, unless one of the list dominates it.
    fn add(&mut self, f: ScaleFn, whole: u64, images: &[u64]) -> Result<(), NoMemory> {
        if self.dominates(images, whole) {
            return Ok(());
        }
        pushed(&mut self.functions, f)?;
        pushed(&mut self.wholes, whole)?;
        for x in images {
            pushed(&mut self.images, *x)?;
        }
        Ok(())
    }

    /// Adds a function of a dimension where it is legal, unless one of the list dominates it.
    pub(crate) fn offer(
        &mut self,
        alloc: Global,
        instance: &Instance,
        dim: u32,
        f: ScaleFn,
    ) -> Result<(), NoMemory> {
        let whole = whole_of(instance, dim, f);
        if whole == 0 {
            return Ok(());
        }
        let mut images = Vec::new(alloc);
        for v in 0..instance.len() {
            pushed(&mut images, image_of(instance, dim, f, v))?;
        }
        self.add(f, whole, &images)
    }

    /// The functions that no later one dominates, at most `most`, the last one first.
    pub(crate) fn reversed(&self, alloc: Global, most: usize) -> Result<FunctionList, NoMemory> {
        let mut list = FunctionList::new(alloc, self.boxes);
        let count = self.functions.len();
        for behind in 0..count {
            let k = count - 1 - behind;
            if list.len() < most {
                list.add(self.function(k), self.whole(k), self.images(k))?;
            }
        }
        Ok(list)
    }
}
