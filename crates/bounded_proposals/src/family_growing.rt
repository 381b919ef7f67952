//! A family that grows box by box.

use crate::family_sides::{container, side};
use crate::slots::{bit, entry};
use box_instances::{Instance, NoMemory};
use lenient_lists::pushed;
use std::alloc::Global;

/// The boxes in an order in which they may join: by falling side in the dimension, or by how many
/// boxes they are apart from. The first makes long families of few boxes, the second leaves most
/// boxes open behind each.
#[derive(Clone, Copy)]
pub(crate) enum JoinOrder {
    Side,
    Degree,
}

// The key by which boxes are sorted.
fn key(instance: &Instance, dim: u32, rows: &[u128], order: JoinOrder, v: u32) -> u64 {
    let most = match order {
        JoinOrder::Side => side(instance, v, dim),
        JoinOrder::Degree => u64::from(entry(rows, v as usize, 0).count_ones()),
    };
    u64::MAX - most
}

// The boxes by rising number.
fn all_boxes(alloc: Global, instance: &Instance) -> Result<Vec<u32>, NoMemory> {
    match (0..instance.len()).collect(alloc) {
        Ok(boxes) => Ok(boxes),
        Err(_) => Err(NoMemory),
    }
}

/// The boxes in that order, ties by number.
pub(crate) fn sorted_boxes(
    alloc: Global,
    instance: &Instance,
    dim: u32,
    rows: &[u128],
    order: JoinOrder,
) -> Result<Vec<u32>, NoMemory> {
    let mut boxes = all_boxes(alloc, instance)?;
    if boxes
        .sort_by_key(|v| key(instance, dim, rows, order, *v))
        .is_err()
    {
        return Err(NoMemory);
    }
    Ok(boxes)
}

/// The family that begins with one box and that each box in turn joins which is apart from all its
/// boxes, until it is longer than the container, or `None` if it never is.
pub(crate) fn grown(
    alloc: Global,
    instance: &Instance,
    dim: u32,
    rows: &[u128],
    order: &[u32],
    first: u32,
) -> Result<Option<Vec<u32>>, NoMemory> {
    let most = container(instance, dim);
    let mut family = Vec::new(alloc);
    pushed(&mut family, first)?;
    let mut length = side(instance, first, dim);
    let mut open = entry(rows, first as usize, 0);
    for v in order {
        if open & bit(*v) != 0 {
            pushed(&mut family, *v)?;
            length = length.saturating_add(side(instance, *v, dim));
            if most < length {
                return Ok(Some(family));
            }
            open &= entry(rows, *v as usize, 0);
        }
    }
    Ok(None)
}
