//! Pairs of boxes that exclude each other.

use crate::slots::bit;
use box_instances::{Instance, NoMemory};
use std::alloc::Global;

// Whether two boxes together exceed the container in every dimension.
fn exclude_each_other(instance: &Instance, u: u32, v: u32) -> bool {
    if u >= instance.len() || v >= instance.len() {
        return false;
    }
    for dim in 0..instance.dims() {
        let both = u64::from(instance.side(u, dim)) + u64::from(instance.side(v, dim));
        if both <= u64::from(instance.container_side(dim)) {
            return false;
        }
    }
    true
}

/// For each box the bits of the boxes with which it has no room in one container.
pub(crate) fn exclusion_rows(alloc: Global, instance: &Instance) -> Result<Vec<u128>, NoMemory> {
    let mut rows = Vec::new(alloc);
    for v in 0..instance.len() {
        let mut row = 0u128;
        for u in 0..instance.len() {
            if u != v && exclude_each_other(instance, u, v) {
                row |= bit(u);
            }
        }
        let Ok(()) = rows.push(row) else {
            return Err(NoMemory);
        };
    }
    Ok(rows)
}
