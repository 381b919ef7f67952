//! The boxes in other containers.
ghost use Rattle.std.specs.Prelude.{◌≡◌, ◌≤◌, IfOk};
ghost use Rattle.packing_terms.specs.Packing.{dims, written_container};
ghost use Rattle.packing_terms.specs.Limits.{max_height};
ghost use Rattle.verdict_terms.specs.Fronts.{with_container};

use crate::copying::{copied_boxes, two_sides};
use box_instances::{Instance, NoMemory};
use std::alloc::Global;

/// The boxes with their kerfs, in a container of these written sides. Want of memory is the one
/// other answer.
pub fn with_container(
    alloc: Global,
    instance: &Instance,
    width: u32,
    height: u32,
) -> Result<Instance, NoMemory>
    requires plane { dims instance.now ≡ 2 }
    requires width_from { 1 ≤ width }
    requires width_to { width ≤ written_container instance.now 0 }
    requires height { height ≤ max_height }
    ensures { IfOk result (λ i. i ≡ with_container instance.now width height) }
{
    let container = two_sides(alloc, width, 1)?;
    let kerf = two_sides(alloc, instance.kerf(0), instance.kerf(1))?;
    let boxes = copied_boxes(alloc, instance)?;
    match Instance::with_kerf(container, kerf, boxes) {
        Ok(flat) => flat.with_last_side(alloc, height),
        // Its parts are within the limits of instances.
        Err(_) => unreachable!(),
    }
}
