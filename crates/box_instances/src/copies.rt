//! Copies of instances, whole or in part.
ghost use Rattle.std.specs.Prelude.{◌≡◌, ◌≤◌, ◌-◌, map, length, slice_set, IfOk};
ghost use Rattle.packing_terms.specs.Goals.{subset, with_last_side, IsBoxSet};
ghost use Rattle.packing_terms.specs.Limits.{max_height};
ghost use Rattle.box_instances.specs.Plain.{plain_box};

use crate::{BoxItem, Instance, NoMemory, Sides};
use std::alloc::Global;

// The same box.
fn copied_box(alloc: Global, item: &BoxItem) -> Result<BoxItem, NoMemory>
    ensures { IfOk result (λ copy. plain_box copy ≡ plain_box item.now) }
{
    let Ok(sides) = Sides::from_slice(alloc, item.sides.as_slice()) else {
        return Err(NoMemory);
    };
    let value = item.value;
    Ok(BoxItem { sides, value })
}

// The same boxes.
fn copied_boxes(alloc: Global, boxes: &[BoxItem]) -> Result<Vec<BoxItem>, NoMemory>
    ensures { IfOk result (λ copies. map plain_box copies.items ≡ map plain_box boxes.now) }
{
    let mut copies = Vec::new(alloc);
    for v in 0..boxes.len() {
        let item = copied_box(alloc, &boxes[v])?;
        if copies.push(item).is_err() {
            return Err(NoMemory);
        }
    }
    Ok(copies)
}

// The same sides.
fn copied_sides(alloc: Global, sides: &[u32]) -> Result<Sides, NoMemory>
    ensures { IfOk result (λ copy. copy.items ≡ sides.now) }
{
    let Ok(copy) = Sides::from_slice(alloc, sides) else {
        return Err(NoMemory);
    };
    Ok(copy)
}

// The sides with another last one.
fn raised(alloc: Global, container: &[u32], height: u32) -> Result<Sides, NoMemory>
    requires { 1 ≤ length container.now }
    ensures { IfOk result
        (λ r. r.items ≡ slice_set container.now (length container.now - 1) height) }
{
    let mut sides = copied_sides(alloc, container)?;
    sides.as_mut_slice()[container.len() - 1] = height;
    Ok(sides)
}

impl Instance {
    /// An equal instance.
    pub fn copy(&self, alloc: Global) -> Result<Instance, NoMemory>
        ensures { IfOk result (λ i. i ≡ self.now) }
    {
        let container = copied_sides(alloc, self.container.as_slice())?;
        let kerf = copied_sides(alloc, self.kerf.as_slice())?;
        let boxes = copied_boxes(alloc, self.boxes.as_slice())?;
        Ok(Instance::of_parts(container, kerf, boxes))
    }

    /// The instance of the named boxes, in their order, with the same container and kerf. `keep`
    /// isn't empty, rises strictly and names boxes from 0 on.
    pub fn subset(&self, alloc: Global, keep: &[u32]) -> Result<Instance, NoMemory>
        requires some { 1 ≤ length keep.now }
        requires set { IsBoxSet self.now keep.now }
        ensures { IfOk result (λ i. i ≡ subset self.now keep.now) }
    {
        let container = copied_sides(alloc, self.container.as_slice())?;
        let kerf = copied_sides(alloc, self.kerf.as_slice())?;
        let mut kept = Vec::new(alloc);
        for v in keep {
            let item = copied_box(alloc, &self.boxes[*v as usize])?;
            if kept.push(item).is_err() {
                return Err(NoMemory);
            }
        }
        Ok(Instance::of_parts(container, kerf, kept))
    }

    /// The instance with another written last container side, from 0 to 128,000,000, whatever its
    /// kerf.
    pub fn with_last_side(&self, alloc: Global, height: u32) -> Result<Instance, NoMemory>
        requires { height ≤ max_height }
        ensures { IfOk result (λ i. i ≡ with_last_side self.now height) }
    {
        let container = raised(alloc, self.container.as_slice(), height)?;
        let kerf = copied_sides(alloc, self.kerf.as_slice())?;
        let boxes = copied_boxes(alloc, self.boxes.as_slice())?;
        Ok(Instance::of_parts(container, kerf, boxes))
    }
}
