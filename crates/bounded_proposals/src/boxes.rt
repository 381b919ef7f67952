//! What is known of boxes before a search: which fit alone, in which order they are decided, and
//! which exclude each other.

use crate::slots::bit;
use box_instances::{Instance, NoMemory};
use lenient_lists::pushed;
use std::alloc::Global;

/// The boxes that fit alone, as a row of bits. The others are in no set that fits.
pub(crate) fn fitting_boxes(instance: &Instance) -> u128 {
    let mut row = 0u128;
    for v in 0..instance.len() {
        if fits_alone(instance, v) {
            row |= bit(v);
        }
    }
    row
}

fn fits_alone(instance: &Instance, v: u32) -> bool {
    if v >= instance.len() {
        return false;
    }
    for dim in 0..instance.dims() {
        if instance.container_side(dim) < instance.side(v, dim) {
            return false;
        }
    }
    true
}

/// The value of the boxes outside a row.
pub(crate) fn worth_outside(instance: &Instance, row: u128) -> u64 {
    let mut sum = 0u64;
    for v in 0..instance.len() {
        if row & bit(v) == 0 {
            sum = sum.saturating_add(instance.value(v));
        }
    }
    sum
}

/// The boxes of a row in the order in which they are decided: by falling volume, ties by number.
///
/// No order of five that were tried (volume, value, value for volume, and two of a linear
/// programme) is clearly better than another in the number of nodes.
pub(crate) fn decision_order(
    alloc: Global,
    instance: &Instance,
    row: u128,
) -> Result<Vec<u32>, NoMemory> {
    let mut order = Vec::new(alloc);
    for v in instance.rank_order(alloc)? {
        if row & bit(v) != 0 {
            pushed(&mut order, v)?;
        }
    }
    Ok(order)
}

/// The boxes of a row by rising number.
pub(crate) fn members_of(
    alloc: Global,
    instance: &Instance,
    row: u128,
) -> Result<Vec<u32>, NoMemory> {
    let mut members = Vec::new(alloc);
    for v in 0..instance.len() {
        if row & bit(v) != 0 {
            pushed(&mut members, v)?;
        }
    }
    Ok(members)
}

// Whether two boxes together exceed the container in every dimension.
fn exclude_each_other(instance: &Instance, u: u32, v: u32) -> bool {
    if u >= instance.len() || v >= instance.len() {
        return false;
    }
    for dim in 0..instance.dims() {
        let both = u64::from(instance.side(u, dim)) + u64::from(instance.side(v, dim));
        if both <= u64::from(instance.container_side(dim)) {
            return false;
        }
    }
    true
}

/// For each box the bits of the boxes that don't fit beside it in any dimension.
pub(crate) fn exclusion_rows(alloc: Global, instance: &Instance) -> Result<Vec<u128>, NoMemory> {
    let mut rows = Vec::new(alloc);
    for v in 0..instance.len() {
        let mut row = 0u128;
        for u in 0..instance.len() {
            if u != v && exclude_each_other(instance, u, v) {
                row |= bit(u);
            }
        }
        pushed(&mut rows, row)?;
    }
    Ok(rows)
}
