//! What is excluded at a moment of a closing, and the sides: all that a rule asks.
ghost use Rattle.std.specs.Prelude.{◌<◌};
ghost use Rattle.packing_terms.specs.Packing.{dims};

use crate::marks::{AFTER, BEFORE, Marks, OVERLAP, Spot, at_place};
use box_instances::{Instance, NoMemory};
use std::alloc::Global;

/// The excluded relations at each place, and the sides by dimension: of the boxes, and the
/// container's.
#[derive(Drop)]
pub struct Facts {
    pub dims: u32,
    pub boxes: u32,
    pub excluded: Marks,
    sides: Vec<u64>,
    container: Vec<u64>,
}

/// An entry of a list of numbers, and 0 behind its end.
pub(crate) fn number_at(list: &[u64], at: usize) -> u64 {
    match list.get(at) {
        Some(number) => *number,
        None => 0,
    }
}

// A number more.
fn push_number(list: &mut Vec<u64>, number: u32) -> Result<(), NoMemory> {
    let Ok(()) = list.push(u64::from(number)) else {
        return Err(NoMemory);
    };
    Ok(())
}

// The sides in one dimension.
fn push_sides(list: &mut Vec<u64>, instance: &Instance, dim: u32) -> Result<(), NoMemory>
    requires { dim < dims instance.now }
{
    for v in 0..instance.len() {
        push_number(list, instance.side(v, dim))?;
    }
    Ok(())
}

/// The facts before any exclusion.
pub(crate) fn first_facts(alloc: Global, instance: &Instance) -> Result<Facts, NoMemory> {
    let mut sides = Vec::new(alloc);
    let mut container = Vec::new(alloc);
    for dim in 0..instance.dims() {
        push_sides(&mut sides, instance, dim)?;
        push_number(&mut container, instance.container_side(dim))?;
    }
    Ok(Facts {
        dims: instance.dims(),
        boxes: instance.len(),
        excluded: Marks::new(alloc, instance.dims(), instance.len())?,
        sides,
        container,
    })
}

/// Where a box stands in a list by dimension.
pub(crate) fn box_place(facts: &Facts, dim: u32, v: u32) -> usize {
    (dim as usize)
        .wrapping_mul(facts.boxes as usize)
        .wrapping_add(v as usize)
}

/// The side of a box.
pub(crate) fn side_of(facts: &Facts, dim: u32, v: u32) -> u64 {
    number_at(facts.sides.as_slice(), box_place(facts, dim, v))
}

/// The container's side.
pub(crate) fn container_of(facts: &Facts, dim: u32) -> u64 {
    number_at(facts.container.as_slice(), dim as usize)
}

/// Whether two boxes are apart.
pub(crate) fn are_apart(facts: &Facts, dim: u32, u: u32, v: u32) -> bool {
    facts.excluded.at(at_place(dim, u, v)) & OVERLAP != 0
}

/// Whether two boxes are joined.
pub(crate) fn are_joined(facts: &Facts, dim: u32, u: u32, v: u32) -> bool {
    facts.excluded.at(at_place(dim, u, v)) & (BEFORE | AFTER) == BEFORE | AFTER
}

/// Whether a box is surely before another.
pub(crate) fn is_sure(facts: &Facts, dim: u32, u: u32, v: u32) -> bool {
    facts.excluded.at(at_place(dim, u, v)) & (OVERLAP | AFTER) == OVERLAP | AFTER
}

/// What two sets of excluded relations exclude, composed.
pub(crate) fn composed(first: u8, second: u8) -> u8 {
    let a = !first;
    let b = !second;
    let mut left = a & b & (BEFORE | AFTER);
    if (a & b & OVERLAP != 0) | ((a & BEFORE != 0) & (b & AFTER != 0)) {
        left = 7;
    }
    if (a & AFTER != 0) & (b & BEFORE != 0) {
        left = 7;
    }
    if ((a & OVERLAP != 0) & (b & BEFORE != 0)) | ((a & BEFORE != 0) & (b & OVERLAP != 0)) {
        left |= OVERLAP | BEFORE;
    }
    if ((a & OVERLAP != 0) & (b & AFTER != 0)) | ((a & AFTER != 0) & (b & OVERLAP != 0)) {
        left |= OVERLAP | AFTER;
    }
    7 & !left
}

/// Whether the two sets of a box and the third one have what COMPOSE needs there.
pub(crate) fn at_both(facts: &Facts, at: Spot, x: u32) -> u8 {
    composed(
        facts.excluded.at(at_place(at.dim, at.u, x)),
        facts.excluded.at(at_place(at.dim, x, at.v)),
    )
}
