//! Optima by proposals first.
use crate::instances::{at_roots, instance_of, is_packing, pinwheel};
use box_instances::Instance;
use proposed_answers::{Strip, is_refutation, least_height_proposed};
use std::alloc::Global;
use std::sync::Wait;
use std::test::Fail;
use std::thread::Threads;
use strip_solver::least_height;
use work_share::NoGate;

// Whether places are a packing at a height, from 1 to 1,000.
fn is_packed_at(
    alloc: Global,
    instance: &Instance,
    height: u32,
    places: &[u32],
) -> Result<bool, Fail> {
    if height == 0 || height > 1000 {
        return Ok(false);
    }
    Ok(is_packing(&instance.with_last_side(alloc, height)?, places))
}

// Whether the answer is this least height, with a packing in it and a refutation of the one below.
fn is_least(alloc: Global, instance: &Instance, least: u32, strip: &Strip) -> Result<bool, Fail> {
    let Strip::Least {
        height,
        places,
        tokens,
    } = strip
    else {
        return Ok(false);
    };
    if *height != least || !is_packed_at(alloc, instance, least, places)? {
        return Ok(false);
    }
    if least == 0 || least > 1000 {
        return Ok(false);
    }
    let tokens = tokens.tokens(alloc)?;
    Ok(is_refutation(alloc, &instance.with_last_side(alloc, least - 1)?, &tokens)?)
}

// Whether proposals come to this least height at the roots alone.
fn proposes<R: Threads + Wait + Sync>(
    rt: &R,
    alloc: Global,
    instance: &Instance,
    workers: u32,
    least: u32,
) -> Result<bool, Fail> {
    let strip = least_height_proposed(rt, alloc, instance, &at_roots(workers), &NoGate)?;
    is_least(alloc, instance, least, &strip)
}

// Whether a run without proposals is spent at the roots.
fn is_spent<R: Threads + Wait + Sync>(
    rt: &R,
    alloc: Global,
    instance: &Instance,
) -> Result<bool, Fail> {
    let strip = least_height(rt, alloc, instance, &at_roots(1), &NoGate)?;
    Ok(matches!(&strip, Strip::Between { .. }))
}

// Whether one worker and two come to height 5 at the roots, where a run without proposals is spent.
fn is_closed<R: Threads + Wait + Sync>(
    rt: &R,
    alloc: Global,
    instance: &Instance,
) -> Result<bool, Fail> {
    let alone = proposes(rt, alloc, instance, 1, 5)?;
    let shared = proposes(rt, alloc, instance, 2, 5)?;
    Ok(alone && shared && is_spent(rt, alloc, instance)?)
}

// The pinwheel has no waste at height 5. Its trees have branchings.
#[test]
fn proposals_prove_the_least_height(rt: HostRuntime) -> Result<(), Fail> {
    let instance = pinwheel(rt.alloc())?;
    assert!(rt; is_closed(&rt, rt.alloc(), &instance)?);
    Ok(())
}

// Three boxes of 3 by 6 beside each other, and the fourth above: scales alone don't refute 11.
#[test]
fn a_height_is_refuted_by_proposals(rt: HostRuntime) -> Result<(), Fail> {
    let boxes: &[&[u32]] = &[&[3, 6], &[3, 6], &[3, 6], &[3, 6]];
    let instance = instance_of(rt.alloc(), &[10, 1], boxes)?;
    assert!(rt; proposes(&rt, rt.alloc(), &instance, 1, 12)?);
    Ok(())
}

// Whether the answer is that the second box is too wide.
fn is_too_wide<R: Threads + Wait + Sync>(
    rt: &R,
    alloc: Global,
    instance: &Instance,
) -> Result<bool, Fail> {
    let strip = least_height_proposed(rt, alloc, instance, &at_roots(1), &NoGate)?;
    Ok(matches!(&strip, Strip::NoneFits { box_no: 1, dim: 0 }))
}

#[test]
fn a_box_that_is_too_wide_is_named(rt: HostRuntime) -> Result<(), Fail> {
    let instance = instance_of(rt.alloc(), &[4, 4], &[&[2, 9], &[5, 1]])?;
    assert!(rt; is_too_wide(&rt, rt.alloc(), &instance)?);
    Ok(())
}
