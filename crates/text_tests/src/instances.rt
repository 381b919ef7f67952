//! Tests of instances: their faults, their parts, their copies, the rank of their boxes, and those
//! that are made of a number.
use box_instances::{BoxItem, Instance, InstanceFault, NoMemory, Sides, make};
use std::alloc::{AllocError, Global};
use std::test::Fail;

// `count` boxes with these sides and this value.
fn boxes_of(
    alloc: Global,
    sides: &[u32],
    value: u64,
    count: u32,
) -> Result<Vec<BoxItem>, AllocError> {
    let mut boxes = Vec::new(alloc);
    for _ in 0..count {
        boxes.push(BoxItem {
            sides: Sides::from_slice(alloc, sides)?,
            value,
        })?;
    }
    Ok(boxes)
}

// The instance of these boxes, by `new` where no kerfs are given.
fn made(
    alloc: Global,
    container: &[u32],
    kerf: Option<&[u32]>,
    boxes: Vec<BoxItem>,
) -> Result<Result<Instance, InstanceFault>, AllocError> {
    let container = Sides::from_slice(alloc, container)?;
    match kerf {
        None => Ok(Instance::new(container, boxes)),
        Some(kerf) => {
            let kerf = Sides::from_slice(alloc, kerf)?;
            Ok(Instance::with_kerf(container, kerf, boxes))
        }
    }
}

// The fault of `count` boxes with these sides and this value.
fn fault_of(
    alloc: Global,
    container: &[u32],
    kerf: Option<&[u32]>,
    sides: &[u32],
    value: u64,
    count: u32,
) -> Result<Option<InstanceFault>, AllocError> {
    let boxes = boxes_of(alloc, sides, value, count)?;
    Ok(made(alloc, container, kerf, boxes)?.err())
}

// Containers, kerfs, the sides, the value and the number of equal boxes, and the fault.
const FAULTS: [(&[u32], Option<&[u32]>, &[u32], u64, u32, InstanceFault); 15] = [
    (&[5], None, &[1], 1, 1, InstanceFault::Dims),
    (&[5, 5, 5, 5, 5], None, &[1], 1, 1, InstanceFault::Dims),
    (
        &[5, 0],
        None,
        &[1, 1],
        1,
        1,
        InstanceFault::ContainerRange { dim: 1 },
    ),
    (&[5, 5], None, &[1, 1], 1, 0, InstanceFault::NoBoxes),
    (&[5, 5], None, &[1, 1], 1, 129, InstanceFault::TooManyBoxes),
    (
        &[5, 5],
        None,
        &[1],
        1,
        2,
        InstanceFault::SideCount { box_no: 0 },
    ),
    (
        &[5, 5],
        None,
        &[1, 1_000_001],
        1,
        2,
        InstanceFault::SideRange { box_no: 0, dim: 1 },
    ),
    (
        &[5, 5],
        None,
        &[1, 1],
        1_000_000_001,
        2,
        InstanceFault::ValueRange { box_no: 0 },
    ),
    (
        &[1_000_001, 0],
        None,
        &[0],
        1,
        0,
        InstanceFault::ContainerRange { dim: 0 },
    ),
    (
        &[5, 5],
        None,
        &[0, 0],
        1_000_000_001,
        3,
        InstanceFault::SideRange { box_no: 0, dim: 0 },
    ),
    (&[5, 5], Some(&[1]), &[1, 1], 1, 0, InstanceFault::KerfCount),
    (
        &[5, 5],
        Some(&[1, 1, 1]),
        &[1, 1],
        1,
        1,
        InstanceFault::KerfCount,
    ),
    (
        &[5, 5],
        Some(&[100_000, 100_001]),
        &[1, 1],
        1,
        0,
        InstanceFault::KerfRange { dim: 1 },
    ),
    (
        &[999_999, 5],
        Some(&[2, 100_001]),
        &[1, 1],
        1,
        1,
        InstanceFault::KerfRange { dim: 0 },
    ),
    (
        &[5, 5],
        Some(&[0, 2]),
        &[1, 999_999],
        1,
        1,
        InstanceFault::SideRange { box_no: 0, dim: 1 },
    ),
];

#[test]
fn the_first_fault_is_told(rt: HostRuntime) -> Result<(), Fail> {
    let alloc = rt.alloc();
    for row in &FAULTS {
        let (container, kerf, sides, value, count, fault) = *row;
        assert!(rt; fault_of(alloc, container, kerf, sides, value, count)? == Some(fault));
    }
    Ok(())
}

// In a dimension the kerf, the container's written and working side, and those of a box; and the
// box's value.
fn parts_of(instance: &Instance, v: u32, dim: u32) -> Option<([u32; 5], u64)> {
    if v >= instance.len() || dim >= instance.dims() {
        return None;
    }
    let sides = [
        instance.kerf(dim),
        instance.written_container(dim),
        instance.container_side(dim),
        instance.written_side(v, dim),
        instance.side(v, dim),
    ];
    Some((sides, instance.value(v)))
}

const GREATEST: u32 = 1_000_000;

#[test]
fn the_greatest_instance_tells_its_parts(rt: HostRuntime) -> Result<(), Fail> {
    let alloc = rt.alloc();
    let boxes = boxes_of(alloc, &[GREATEST, 2, 3, 1], 1_000_000_000, 128)?;
    let instance = made(alloc, &[GREATEST, 4, 5, 7], None, boxes)??;
    let first = parts_of(&instance, 127, 0);
    assert!(rt; first == Some(([0, GREATEST, GREATEST, GREATEST, GREATEST], 1_000_000_000)));
    assert!(rt; parts_of(&instance, 0, 3) == Some(([0, 7, 7, 1, 1], 1_000_000_000)));
    Ok(())
}

// The copy of two boxes 900000 by 4 in 900000 by 10 with the kerfs 100000 and 2.
fn copied(alloc: Global) -> Result<Instance, Fail> {
    let boxes = boxes_of(alloc, &[900_000, 4], 7, 2)?;
    let instance = made(alloc, &[900_000, 10], Some(&[100_000, 2]), boxes)??;
    Ok(instance.copy(alloc)?)
}

#[test]
fn a_copy_with_kerf_tells_written_and_working_sides(rt: HostRuntime) -> Result<(), Fail> {
    let copy = copied(rt.alloc())?;
    let first = parts_of(&copy, 1, 0);
    assert!(rt; first == Some(([100_000, 900_000, 1_000_000, 900_000, 1_000_000], 7)));
    assert!(rt; parts_of(&copy, 1, 1) == Some(([2, 10, 12, 4, 6], 7)));
    Ok(())
}

// Boxes that have the volumes 9, 18, 8 and 18 with the kerfs 1 and 0.
const RANKED: [[u32; 2]; 4] = [[2, 3], [1, 9], [3, 2], [2, 6]];

fn ranked_boxes(alloc: Global) -> Result<Vec<BoxItem>, AllocError> {
    let mut boxes = Vec::new(alloc);
    for sides in RANKED {
        boxes.push(BoxItem {
            sides: Sides::from_slice(alloc, sides.as_slice())?,
            value: 1,
        })?;
    }
    Ok(boxes)
}

#[test]
fn equal_volumes_are_ranked_by_number(rt: HostRuntime) -> Result<(), Fail> {
    let boxes = ranked_boxes(rt.alloc())?;
    let instance = made(rt.alloc(), &[10, 9], Some(&[1, 0]), boxes)??;
    assert!(rt; instance.volume() == 9 + 18 + 8 + 18 && instance.sides_fit());
    assert!(rt; instance.rank_order(rt.alloc())?.as_slice() == [1, 3, 0, 2].as_slice());
    Ok(())
}

// The same with the last side 0, and that with the greatest one.
fn copied_low(alloc: Global) -> Result<Instance, Fail> {
    Ok(copied(alloc)?.with_last_side(alloc, 0)?)
}

fn copied_high(alloc: Global) -> Result<Instance, Fail> {
    Ok(copied_low(alloc)?.with_last_side(alloc, 128_000_000)?)
}

#[test]
fn another_last_side_is_told(rt: HostRuntime) -> Result<(), Fail> {
    let low = copied_low(rt.alloc())?;
    assert!(rt; parts_of(&low, 1, 1) == Some(([2, 0, 2, 4, 6], 7)));
    Ok(())
}

#[test]
fn another_last_side_leaves_the_rest(rt: HostRuntime) -> Result<(), Fail> {
    let high = copied_high(rt.alloc())?;
    let first = [100_000, 900_000, 1_000_000, 900_000, 1_000_000];
    assert!(rt; parts_of(&high, 1, 1) == Some(([2, 128_000_000, 128_000_002, 4, 6], 7)));
    assert!(rt; parts_of(&high, 1, 0) == Some((first, 7)));
    Ok(())
}

// Whether the instance has these boxes of value 1, in the container 1000 by 1000 without kerf.
fn has_made_boxes(instance: &Instance, boxes: &[[u32; 2]]) -> bool {
    if instance.len() as usize != boxes.len() || instance.dims() != 2 {
        return false;
    }
    for v in 0..boxes.len() {
        for dim in 0..2 {
            let side = boxes[v][dim];
            let parts = parts_of(instance, v as u32, dim as u32);
            if parts != Some(([0, 1000, 1000, side, side], 1)) {
                return false;
            }
        }
    }
    true
}

// The boxes of the made instance of number 1.
const MADE_BY_1: [[u32; 2]; 7] = [
    [9, 114],
    [16, 52],
    [128, 11],
    [170, 213],
    [87, 250],
    [18, 85],
    [61, 226],
];

// Whether the instance that is made of a number has these boxes and this volume.
fn is_made(alloc: Global, number: u32, boxes: &[[u32; 2]], volume: u128) -> Result<bool, NoMemory> {
    let instance = make(alloc, number)?;
    Ok(has_made_boxes(&instance, boxes) && instance.volume() == volume)
}

#[test]
fn instances_are_made(rt: HostRuntime) -> Result<(), Fail> {
    assert!(rt; is_made(rt.alloc(), 0, &[[219, 239]], 52_341)?);
    assert!(rt; is_made(rt.alloc(), 1, &MADE_BY_1, 76_542)?);
    Ok(())
}
