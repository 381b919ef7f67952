//! Lists and sides that are read and written without a promise of lengths.

use box_instances::{Instance, NoMemory};
use std::alloc::Global;

/// Sets all entries to 0.
pub fn clear(list: &mut [u32]) {
    list.fill(0);
}

/// Copies `from` into `into` if both have the same length, else nothing.
pub fn copy_into(from: &[u32], into: &mut [u32]) {
    if from.len() == into.len() {
        into.copy_from_slice(from);
    }
}

/// Copies the first `count` entries of `from` into `into` if both have as many, else nothing.
#[inline]
pub(crate) fn copy_first(from: &[u32], into: &mut [u32], count: usize) {
    if count <= from.len() && count <= into.len() {
        into[..count].copy_from_slice(&from[..count]);
    }
}

/// The numbers from 0 to `count - 1`, or `NoMemory`.
pub fn first_numbers(alloc: Global, count: u32) -> Result<Vec<u32>, NoMemory> {
    let Ok(list) = (0..count).collect(alloc) else {
        return Err(NoMemory);
    };
    Ok(list)
}

/// The entry of a list of weights, or 0 past its end.
#[inline]
pub fn weight(weights: &[u64], v: u32) -> u64 {
    if (v as usize) < weights.len() {
        weights[v as usize]
    } else {
        0
    }
}

/// The working side of a box in a dimension, or 0 if the instance has no such box or dimension.
#[inline]
pub fn side(instance: &Instance, box_no: u32, dim: u32) -> u32 {
    if box_no < instance.len() && dim < instance.dims() {
        instance.side(box_no, dim)
    } else {
        0
    }
}

/// The value of a box, or 0 if the instance has no such box.
#[inline]
pub fn value(instance: &Instance, box_no: u32) -> u64 {
    if box_no < instance.len() {
        instance.value(box_no)
    } else {
        0
    }
}

/// The working side of the container in a dimension, or 0 if the instance has no such dimension.
#[inline]
pub fn container_side(instance: &Instance, dim: u32) -> u32 {
    if dim < instance.dims() {
        instance.container_side(dim)
    } else {
        0
    }
}

/// The volume of each box, at most `u64::MAX`, or `NoMemory`.
pub fn volumes(alloc: Global, instance: &Instance) -> Result<Vec<u64>, NoMemory> {
    let mut volumes = Vec::new(alloc);
    for v in 0..instance.len() {
        let mut volume = 1u64;
        for dim in 0..instance.dims() {
            volume = volume.saturating_mul(u64::from(side(instance, v, dim)));
        }
        let Ok(()) = volumes.push(volume) else {
            return Err(NoMemory);
        };
    }
    Ok(volumes)
}
