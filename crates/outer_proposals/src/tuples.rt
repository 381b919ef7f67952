//! The tuples of scale functions by which sets are refuted.

use box_instances::{Instance, NoMemory};
use conservative_scales::{ScaleFn, ScaleTuple, image, legal, whole};
use std::alloc::Global;

// The most steps of a function that stands alone among `id`, and of each of two. Over 19 instances
// of 20 to 100 boxes a third step lowers the refuted value by up to 2.5 %, and two functions at
// once by up to 1.5 % in three dimensions. Up to 4 steps in both lower it by up to 2 % more, in two
// to three times the time.
const MAX_STEPS_ALONE: u32 = 3;

const MAX_STEPS_OF_TWO: u32 = 2;

/// A tuple of `id` with at most two other functions: `step` with this many steps in these
/// dimensions. With 0 steps the function is `id`.
#[derive(Clone, Copy)]
pub struct Tuple {
    first: u32,
    steps: u32,
    second: u32,
    others: u32,
}

impl Tuple {
    // The function of a dimension.
    fn function(&self, dim: u32) -> ScaleFn {
        let steps = if dim == self.first {
            self.steps
        } else if dim == self.second {
            self.others
        } else {
            0
        };
        if steps == 0 {
            ScaleFn::Id
        } else {
            ScaleFn::Step(steps)
        }
    }

    /// The functions of all dimensions, as a token has them.
    pub(crate) fn functions(&self, alloc: Global, dims: u32) -> Result<ScaleTuple, NoMemory> {
        let mut functions = ScaleTuple::new(alloc);
        for dim in 0..dims {
            let Ok(()) = functions.push(self.function(dim)) else {
                return Err(NoMemory);
            };
        }
        Ok(functions)
    }

    /// The product of the images of a box, and 0 if it is longer than the container.
    pub(crate) fn image(&self, instance: &Instance, v: u32) -> u128 {
        if v >= instance.len() {
            return 0;
        }
        let mut product = 1u128;
        for dim in 0..instance.dims() {
            let (f, side) = (self.function(dim), instance.container_side(dim));
            let x = instance.side(v, dim);
            if !legal(f, side) || x > side {
                return 0;
            }
            product = product.saturating_mul(u128::from(image(f, side, x)));
        }
        product
    }

    /// The product of the wholes.
    pub(crate) fn whole(&self, instance: &Instance) -> u128 {
        let mut product = 1u128;
        for dim in 0..instance.dims() {
            let (f, side) = (self.function(dim), instance.container_side(dim));
            if !legal(f, side) {
                return u128::MAX;
            }
            product = product.saturating_mul(u128::from(whole(f, side)));
        }
        product
    }
}

fn push(tuples: &mut Vec<Tuple>, tuple: Tuple) -> Result<(), NoMemory> {
    match tuples.push(tuple) {
        Ok(()) => Ok(()),
        Err(_) => Err(NoMemory),
    }
}

// Adds the tuples with one function other than `id`.
fn push_single(tuples: &mut Vec<Tuple>, dims: u32) -> Result<(), NoMemory> {
    for steps in 1..MAX_STEPS_ALONE + 1 {
        for first in 0..dims {
            let tuple = Tuple {
                first,
                steps,
                second: first,
                others: 0,
            };
            push(tuples, tuple)?;
        }
    }
    Ok(())
}

// Adds the tuples with functions other than `id` in two given dimensions.
fn push_pair(tuples: &mut Vec<Tuple>, first: u32, second: u32) -> Result<(), NoMemory> {
    for steps in 1..MAX_STEPS_OF_TWO + 1 {
        for others in 1..MAX_STEPS_OF_TWO + 1 {
            let tuple = Tuple {
                first,
                steps,
                second,
                others,
            };
            push(tuples, tuple)?;
        }
    }
    Ok(())
}

/// The tuples in the order in which they are tried: volumes first, then those with one function
/// other than `id`, then those with two.
pub(crate) fn tuples(alloc: Global, dims: u32) -> Result<Vec<Tuple>, NoMemory> {
    let mut tuples = Vec::new(alloc);
    let volumes = Tuple {
        first: 0,
        steps: 0,
        second: 0,
        others: 0,
    };
    push(&mut tuples, volumes)?;
    push_single(&mut tuples, dims)?;
    for second in 0..dims {
        for first in 0..second {
            push_pair(&mut tuples, first, second)?;
        }
    }
    Ok(tuples)
}
