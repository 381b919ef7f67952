//! What swaps and beams propose.
use crate::instances::{instance_of, is_packing};
use box_instances::Instance;
use proposals::{propose_height, propose_packing};
use std::alloc::Global;
use std::test::Fail;
use std::thread::Threads;

// Whether a packing is proposed, and the same by one worker and by two.
fn is_placed<R: Threads + Sync>(rt: &R, alloc: Global, instance: &Instance) -> Result<bool, Fail> {
    let alone = propose_packing(rt, alloc, instance, 2, 1)?;
    let together = propose_packing(rt, alloc, instance, 2, 2)?;
    match (alone, together) {
        (Some(places), Some(same)) => {
            Ok(is_packing(instance, &places) && places.as_slice() == same.as_slice())
        }
        _ => Ok(false),
    }
}

// Whether this height is proposed, from 1 to 1,000, with a packing.
fn is_low<R: Threads + Sync>(
    rt: &R,
    alloc: Global,
    instance: &Instance,
    batches: u64,
    height: u32,
) -> Result<bool, Fail> {
    let Some(proposed) = propose_height(rt, alloc, instance, batches, height, 2)? else {
        return Ok(false);
    };
    if proposed.height != height || height == 0 || height > 1000 {
        return Ok(false);
    }
    let tall = instance.with_last_side(alloc, height)?;
    Ok(is_packing(&tall, &proposed.places))
}

#[test]
fn swaps_pack_a_square(rt: HostRuntime) -> Result<(), Fail> {
    let boxes: &[&[u32]] = &[&[5, 2], &[2, 3], &[2, 1], &[3, 2], &[1, 1]];
    let instance = instance_of(rt.alloc(), &[5, 5], boxes)?;
    assert!(rt; is_placed(&rt, rt.alloc(), &instance)?);
    Ok(())
}

#[test]
fn swaps_pack_blocks(rt: HostRuntime) -> Result<(), Fail> {
    let boxes: &[&[u32]] = &[&[2, 1, 1], &[2, 2, 1], &[1, 1, 1], &[1, 1, 1]];
    let instance = instance_of(rt.alloc(), &[2, 2, 2], boxes)?;
    assert!(rt; is_placed(&rt, rt.alloc(), &instance)?);
    Ok(())
}

// The boxes have more volume than the container.
#[test]
fn boxes_with_too_much_volume_have_no_packing(rt: HostRuntime) -> Result<(), Fail> {
    let instance = instance_of(rt.alloc(), &[2, 2], &[&[2, 2], &[1, 1]])?;
    assert!(rt; !is_placed(&rt, rt.alloc(), &instance)?);
    Ok(())
}

// The pinwheel has no waste at height 5, whatever the last side says.
#[test]
fn a_pinwheel_is_packed_as_low_as_its_area(rt: HostRuntime) -> Result<(), Fail> {
    let boxes: &[&[u32]] = &[&[1, 1], &[3, 2], &[2, 3], &[3, 2], &[2, 3]];
    let instance = instance_of(rt.alloc(), &[5, 1], boxes)?;
    assert!(rt; is_low(&rt, rt.alloc(), &instance, 2, 5)?);
    Ok(())
}

// Three boxes of 3 by 6 beside each other, and the fourth above: plain fills find it.
#[test]
fn plain_fills_stack_rows(rt: HostRuntime) -> Result<(), Fail> {
    let boxes: &[&[u32]] = &[&[3, 6], &[3, 6], &[3, 6], &[3, 6]];
    let instance = instance_of(rt.alloc(), &[10, 1], boxes)?;
    assert!(rt; is_low(&rt, rt.alloc(), &instance, 0, 12)?);
    Ok(())
}
