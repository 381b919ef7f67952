//! Boxes of the same sides.

use box_instances::{Instance, NoMemory};
use lenient_lists::{at, pushed};
use std::alloc::Global;

// Whether two boxes have the same sides.
fn are_equal(instance: &Instance, u: u32, v: u32) -> bool {
    if u >= instance.len() || v >= instance.len() {
        return false;
    }
    for dim in 0..instance.dims() {
        if instance.side(u, dim) != instance.side(v, dim) {
            return false;
        }
    }
    true
}

// The first box of the same sides.
fn kind_of(instance: &Instance, v: u32) -> u32 {
    for u in 0..v {
        if are_equal(instance, u, v) {
            return u;
        }
    }
    v
}

/// Of each box the first box of the same sides.
pub(crate) fn kinds(alloc: Global, instance: &Instance) -> Result<Vec<u32>, NoMemory> {
    let mut kinds = Vec::new(alloc);
    for v in 0..instance.len() {
        pushed(&mut kinds, kind_of(instance, v))?;
    }
    Ok(kinds)
}

/// The kinds of some boxes, in their order. Sets of the same kinds in the same order are equal
/// instances but for the values, so a refutation of one is a refutation of the other.
pub(crate) fn kinds_of(alloc: Global, kinds: &[u32], keep: &[u32]) -> Result<Vec<u32>, NoMemory> {
    let mut row = Vec::new(alloc);
    for v in keep {
        pushed(&mut row, at(kinds, *v as usize))?;
    }
    Ok(row)
}
