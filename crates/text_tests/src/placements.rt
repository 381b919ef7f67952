//! Tests of placements: each verdict is the first that fails.
use box_instances::{BoxItem, Instance, Sides};
use placement_check::{PlaceVerdict, check_places};
use std::alloc::Global;
use std::test::Fail;

const GOOD: PlaceVerdict = PlaceVerdict::Good;

// A container, kerfs, the sides of the boxes, the places, and the verdict.
type Case = (
    &'static [u32],
    &'static [u32],
    &'static [&'static [u32]],
    &'static [u32],
    PlaceVerdict,
);

const VERDICTS: [Case; 12] = [
    // Touching is allowed without a kerf, and the last unit of the container may be filled.
    (&[10, 10], &[0, 0], &[&[6, 4], &[6, 6]], &[0, 0, 0, 4], GOOD),
    (
        &[10, 10],
        &[0, 0],
        &[&[6, 4], &[6, 6]],
        &[0, 0, 0, 3],
        OVERLAPS,
    ),
    (
        &[10, 10],
        &[0, 0],
        &[&[6, 4], &[6, 6]],
        &[0, 0, 0, 5],
        SECOND_LEAVES,
    ),
    // The first dimension comes first, and so does the first box.
    (
        &[10, 10],
        &[0, 0],
        &[&[6, 4], &[6, 6]],
        &[0, 7, 5, 5],
        PlaceVerdict::Outside { box_no: 0, dim: 1 },
    ),
    (
        &[10, 10],
        &[0, 0],
        &[&[6, 4], &[6, 6]],
        &[0, 0, 5, 5],
        PlaceVerdict::Outside { box_no: 1, dim: 0 },
    ),
    // A box that leaves comes before two that overlap.
    (
        &[5, 5],
        &[0, 0],
        &[&[2, 2], &[2, 2], &[2, 2]],
        &[0, 0, 0, 0, 4, 0],
        PlaceVerdict::Outside { box_no: 2, dim: 0 },
    ),
    // Pairs by their first box, and then by their second.
    (
        &[5, 5],
        &[0, 0],
        &[&[2, 2], &[2, 2], &[2, 2]],
        &[0, 0, 3, 3, 1, 1],
        PlaceVerdict::Overlap {
            first: 0,
            second: 2,
        },
    ),
    (
        &[5, 5],
        &[0, 0],
        &[&[2, 2], &[2, 2], &[2, 2]],
        &[0, 0, 3, 3, 3, 2],
        PlaceVerdict::Overlap {
            first: 1,
            second: 2,
        },
    ),
    // The gap is the kerf at least; the container's end wants none.
    (
        &[10, 10],
        &[2, 0],
        &[&[4, 10], &[4, 10]],
        &[0, 0, 6, 0],
        GOOD,
    ),
    (
        &[10, 10],
        &[2, 0],
        &[&[4, 10], &[4, 10]],
        &[0, 0, 5, 0],
        OVERLAPS,
    ),
    (
        &[10, 10],
        &[2, 0],
        &[&[4, 10], &[4, 10]],
        &[5, 0, 0, 0],
        OVERLAPS,
    ),
    // Coordinates up to the greatest.
    (
        &[2, 2, 2],
        &[0, 0, 0],
        &[&[2, 2, 1], &[2, 2, 1]],
        &[0, 0, 0, 0, 4_294_967_295, 1],
        PlaceVerdict::Outside { box_no: 1, dim: 1 },
    ),
];

const OVERLAPS: PlaceVerdict = PlaceVerdict::Overlap {
    first: 0,
    second: 1,
};

const SECOND_LEAVES: PlaceVerdict = PlaceVerdict::Outside { box_no: 1, dim: 1 };

fn instance_of(
    alloc: Global,
    container: &[u32],
    kerf: &[u32],
    boxes: &[&[u32]],
) -> Result<Instance, Fail> {
    let mut items = Vec::new(alloc);
    for sides in boxes {
        items.push(BoxItem {
            sides: Sides::from_slice(alloc, sides)?,
            value: 1,
        })?;
    }
    let container = Sides::from_slice(alloc, container)?;
    let kerf = Sides::from_slice(alloc, kerf)?;
    Ok(Instance::with_kerf(container, kerf, items)?)
}

// The verdict of places, where there is one coordinate for each box and dimension.
fn verdict_of(instance: &Instance, places: &[u32]) -> Option<PlaceVerdict> {
    if places.len() != instance.len() as usize * instance.dims() as usize {
        return None;
    }
    Some(check_places(instance, places))
}

fn is_told(alloc: Global, case: &Case) -> Result<bool, Fail> {
    let (container, kerf, boxes, places, verdict) = *case;
    let instance = instance_of(alloc, container, kerf, boxes)?;
    Ok(verdict_of(&instance, places) == Some(verdict))
}

#[test]
fn each_verdict_is_the_first_that_fails(rt: HostRuntime) -> Result<(), Fail> {
    for case in &VERDICTS {
        assert!(rt; is_told(rt.alloc(), case)?);
    }
    Ok(())
}
