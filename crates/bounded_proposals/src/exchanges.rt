//! Which boxes come before which: the first can take the place of the second in any set that fits,
//! and is worth no less. Some best set has with each box all that come before it.

use crate::slots::bit;
use box_instances::{Instance, NoMemory};
use lenient_lists::pushed;
use std::alloc::Global;

// Whether no side of box `u` is longer than that of box `v`, and its value no less.
fn replaces(instance: &Instance, u: u32, v: u32) -> bool {
    if u >= instance.len() || v >= instance.len() {
        return false;
    }
    for dim in 0..instance.dims() {
        if instance.side(u, dim) > instance.side(v, dim) {
            return false;
        }
    }
    instance.value(v) <= instance.value(u)
}

// Whether box `u` comes before box `v`; of two equal boxes the lower number does.
fn comes_before(instance: &Instance, u: u32, v: u32) -> bool {
    replaces(instance, u, v) && (u < v || !replaces(instance, v, u))
}

/// For each box the bits of the boxes that come before it, and of those that it comes before.
#[derive(Drop)]
pub(crate) struct Exchanges {
    pub(crate) before: Vec<u128>,
    pub(crate) behind: Vec<u128>,
}

impl Exchanges {
    pub(crate) fn new(alloc: Global, instance: &Instance) -> Result<Exchanges, NoMemory> {
        let mut before = Vec::new(alloc);
        let mut behind = Vec::new(alloc);
        for v in 0..instance.len() {
            let (mut first, mut second) = (0u128, 0u128);
            for u in 0..instance.len() {
                if u != v && comes_before(instance, u, v) {
                    first |= bit(u);
                }
                if u != v && comes_before(instance, v, u) {
                    second |= bit(u);
                }
            }
            pushed(&mut before, first)?;
            pushed(&mut behind, second)?;
        }
        Ok(Exchanges { before, behind })
    }
}
