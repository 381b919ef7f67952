//! Numbers that are drawn, and instances with drawn sides.
ghost use Rattle.std.specs.Prelude.{◌≤◌};

use box_instances::{BoxItem, Instance, Sides};
use edge_state::Rel;
use std::alloc::{AllocError, Global};
use std::test::Fail;

/// The sides of as many boxes as an instance may have, 4 each.
pub type AllSides = [[u32; 4]; 128];

/// The next number of a linear congruence, below `limit` unless that is 0.
pub(crate) fn next(random: &mut u32, limit: u32) -> u32
    ensures { result ≤ limit }
{
    *random = random.wrapping_mul(1_664_525).wrapping_add(1_013_904_223);
    if limit == 0 {
        return 0;
    }
    (*random >> 16) % limit
}

/// The relation of a number below 3: overlap, before, after.
pub(crate) fn rel_of(r: u8) -> Rel {
    match r {
        1 => Rel::Before,
        2 => Rel::After,
        _ => Rel::Overlap,
    }
}

// A side from 1 to `most`.
fn side_of(random: &mut u32, most: u32) -> u32 {
    next(random, most).saturating_add(1)
}

/// Sides from 1 to `most` for the first boxes, and of 1 for the others.
pub(crate) fn sides_of(random: &mut u32, boxes: u8, most: u32) -> AllSides {
    let mut all = [[1; 4]; 128];
    for u in 0..usize::from(boxes).min(128) {
        let first = side_of(random, most);
        let second = side_of(random, most);
        let third = side_of(random, most);
        all[u] = [first, second, third, side_of(random, most)];
    }
    all
}

// A box with the first of these sides.
fn item_of(alloc: Global, dims: usize, own: &[u32]) -> Result<BoxItem, AllocError> {
    let sides = Sides::from_slice(alloc, own.get(..dims).unwrap_or(own))?;
    Ok(BoxItem { sides, value: 0 })
}

// The boxes with the first of these sides.
fn items_of(alloc: Global, dims: usize, sides: &[[u32; 4]]) -> Result<Vec<BoxItem>, AllocError> {
    let mut items = Vec::new(alloc);
    for own in sides {
        items.push(item_of(alloc, dims, own)?)?;
    }
    Ok(items)
}

/// The instance of the first of these sides of each box, as many as the container has.
pub(crate) fn instance_of(
    alloc: Global,
    container: &[u32],
    sides: &[[u32; 4]],
) -> Result<Instance, Fail> {
    let items = items_of(alloc, container.len(), sides)?;
    let whole = Sides::from_slice(alloc, container)?;
    Ok(Instance::new(whole, items)?)
}
