//! Which scale functions of a dimension are tried.

use crate::functions::FunctionList;
use box_instances::{Instance, NoMemory};
use conservative_scales::ScaleFn;
use std::alloc::Global;

// The most steps of a legal function.
const MAX_STEPS: u32 = 16;

// Counts of up to this many thresholds in the container, and of up to this many in what a box
// leaves of it: beyond these a count differs little from `Id`.
const MAX_COUNT: u32 = 64;

const MAX_COUNT_BESIDE: u32 = 8;

// What a box leaves of the container's side, if it isn't longer.
fn length_beside(instance: &Instance, dim: u32, v: u32) -> Option<u32> {
    if dim >= instance.dims() || v >= instance.len() {
        return None;
    }
    instance
        .container_side(dim)
        .checked_sub(instance.side(v, dim))
}

// Offers `Id` and `Step`.
fn offer_steps(
    alloc: Global,
    instance: &Instance,
    dim: u32,
    list: &mut FunctionList,
) -> Result<(), NoMemory> {
    list.offer(alloc, instance, dim, ScaleFn::Id)?;
    for steps in 1..MAX_STEPS + 1 {
        list.offer(alloc, instance, dim, ScaleFn::Step(steps))?;
    }
    Ok(())
}

// Offers each threshold from which on `Cut` makes a box as long as the container. Until the next
// one a greater threshold only loses boxes.
fn offer_cuts(
    alloc: Global,
    instance: &Instance,
    dim: u32,
    list: &mut FunctionList,
) -> Result<(), NoMemory> {
    for v in 0..instance.len() {
        if let Some(beside) = length_beside(instance, dim, v) {
            let threshold = beside.saturating_add(1);
            list.offer(alloc, instance, dim, ScaleFn::Cut(threshold))?;
        }
    }
    Ok(())
}

// Offers each threshold from which on one less of them goes into a length.
fn offer_counts(
    alloc: Global,
    instance: &Instance,
    dim: u32,
    length: u32,
    most: u32,
    list: &mut FunctionList,
) -> Result<(), NoMemory> {
    for count in 1..most.saturating_add(1) {
        let threshold = (length / count).saturating_add(1);
        list.offer(alloc, instance, dim, ScaleFn::Count(threshold))?;
    }
    Ok(())
}

// Offers the thresholds from which on fewer go into the container, or into what a box leaves of it.
// Between two of them a greater threshold only loses boxes.
fn offer_all_counts(
    alloc: Global,
    instance: &Instance,
    dim: u32,
    list: &mut FunctionList,
) -> Result<(), NoMemory> {
    if dim < instance.dims() {
        let side = instance.container_side(dim);
        offer_counts(alloc, instance, dim, side, MAX_COUNT, list)?;
    }
    for v in 0..instance.len() {
        if let Some(beside) = length_beside(instance, dim, v) {
            offer_counts(alloc, instance, dim, beside, MAX_COUNT_BESIDE, list)?;
        }
    }
    Ok(())
}

/// The scale functions of a dimension that no other one dominates on the sides of the boxes, at
/// most `most`.
///
/// A first pass drops what an earlier function dominates, a second one what a later one does.
/// Dominated functions are dropped before tuples are made: of 980 functions for 100 boxes in two
/// dimensions 16 to 62 are left, of 660 for 60 boxes in three 33 to 38.
pub(crate) fn undominated(
    alloc: Global,
    instance: &Instance,
    dim: u32,
    most: usize,
) -> Result<FunctionList, NoMemory> {
    let mut list = FunctionList::new(alloc, instance.len() as usize);
    offer_steps(alloc, instance, dim, &mut list)?;
    offer_cuts(alloc, instance, dim, &mut list)?;
    offer_all_counts(alloc, instance, dim, &mut list)?;
    list.reversed(alloc, usize::MAX)?.reversed(alloc, most)
}
