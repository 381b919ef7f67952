//! All tuples of undominated scale functions, by number.

use crate::candidates::undominated;
use crate::functions::FunctionList;
use crate::slots::{entry, write};
use box_instances::{Instance, NoMemory};
use conservative_scales::{ScaleFn, ScaleTuple};
use std::alloc::Global;

/// The shares of the whole container, in billionths.
pub(crate) const WHOLE_SHARE: u32 = 1_000_000_000;

// The most functions of a dimension, for 2, 3 and 4 dimensions: at most 16,384, 15,625 and 14,641
// tuples. In three dimensions more than 25 change no bound at the root of 7 instances of 20 to 60
// boxes, and take 2.5 times as long.
const MAX_FUNCTIONS_IN_2: usize = 128;

const MAX_FUNCTIONS_IN_3: usize = 25;

const MAX_FUNCTIONS_IN_4: usize = 11;

// The most functions of a dimension.
fn function_limit(dims: u32) -> usize {
    match dims {
        2 => MAX_FUNCTIONS_IN_2,
        3 => MAX_FUNCTIONS_IN_3,
        _ => MAX_FUNCTIONS_IN_4,
    }
}

/// The undominated functions of each dimension. Tuples are numbered with the function of dimension
/// 0 varying fastest.
#[derive(Drop)]
pub(crate) struct TupleSpace {
    lists: Vec<FunctionList>,
}

impl TupleSpace {
    /// The tuples of an instance.
    pub(crate) fn new(alloc: Global, instance: &Instance) -> Result<TupleSpace, NoMemory> {
        let most = function_limit(instance.dims());
        let mut lists = Vec::new(alloc);
        for dim in 0..instance.dims() {
            let list = undominated(alloc, instance, dim, most)?;
            let Ok(()) = lists.push(list) else {
                return Err(NoMemory);
            };
        }
        Ok(TupleSpace { lists })
    }

    /// The number of tuples.
    pub(crate) fn len(&self) -> usize {
        let mut count = 1usize;
        for list in &self.lists {
            count = count.saturating_mul(list.len());
        }
        count
    }

    /// The functions of a tuple, as a token has them.
    pub(crate) fn tuple(&self, alloc: Global, number: usize) -> Result<ScaleTuple, NoMemory> {
        let mut functions = ScaleTuple::new(alloc);
        let mut rest = number;
        for list in &self.lists {
            let (f, behind) = function_of(list, rest);
            rest = behind;
            let Ok(()) = functions.push(f) else {
                return Err(NoMemory);
            };
        }
        Ok(functions)
    }

    // Multiplies each product by the image of its box in each dimension. It answers the product of
    // the wholes.
    fn multiply_images(&self, number: usize, products: &mut [u128]) -> u128 {
        let mut rest = number;
        let mut whole = 1u128;
        for list in &self.lists {
            let count = list.len();
            if count > 0 {
                let k = rest % count;
                rest /= count;
                whole = whole.saturating_mul(u128::from(list.whole(k)));
                multiply(products, list.images(k));
            }
        }
        whole
    }

    /// Writes the share of each box by a tuple, in billionths of the container, rounded down.
    /// `products` is a scratch buffer with an entry for each box.
    pub(crate) fn write_shares(&self, number: usize, products: &mut [u128], shares: &mut [u32]) {
        products.fill(u128::from(WHOLE_SHARE));
        let whole = self.multiply_images(number, products);
        if whole == 0 {
            return;
        }
        for v in 0..products.len() {
            let share = (products[v] / whole).min(u128::from(WHOLE_SHARE));
            write(shares, v, share as u32);
        }
    }
}

// The function of a list that a number begins with, and the rest of the number.
fn function_of(list: &FunctionList, number: usize) -> (ScaleFn, usize) {
    let count = list.len();
    if count == 0 {
        return (ScaleFn::Id, number);
    }
    (list.function(number % count), number / count)
}

// Multiplies each product by the number at its index.
fn multiply(products: &mut [u128], numbers: &[u64]) {
    for v in 0..products.len() {
        products[v] = products[v].saturating_mul(u128::from(entry(numbers, v, 0)));
    }
}
