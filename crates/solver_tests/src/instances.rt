//! Instances that several modules test: squares, and a pair of boxes.
use box_instances::{BoxItem, Instance, Sides};
use std::alloc::Global;
use std::test::Fail;

/// Squares with these sides and values in a square of 10.
pub(crate) fn squares(alloc: Global, boxes: &[(u32, u64)]) -> Result<Instance, Fail> {
    let mut items = Vec::new(alloc);
    for (side, value) in boxes {
        items.push(BoxItem {
            sides: Sides::from_slice(alloc, [*side, *side].as_slice())?,
            value: *value,
        })?;
    }
    Ok(Instance::new(Sides::from_slice(alloc, &[10, 10])?, items)?)
}

/// Two boxes of 2 by 1, in a container of 4 by 4.
pub(crate) fn pair(alloc: Global) -> Result<Instance, Fail> {
    let mut boxes = Vec::new(alloc);
    for _ in 0..2 {
        boxes.push(BoxItem {
            sides: Sides::from_slice(alloc, &[2, 1])?,
            value: 1,
        })?;
    }
    Ok(Instance::new(Sides::from_slice(alloc, &[4, 4])?, boxes)?)
}
