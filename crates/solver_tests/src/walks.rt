//! Walks along a front, with one worker and with two.
use crate::instances::pair;
use box_instances::Instance;
use size_front::{Corner, Point, least_sizes};
use std::alloc::Global;
use std::sync::Wait;
use std::test::Fail;
use std::thread::Threads;
use work_share::{NoGate, Settings};

fn settings(workers: u32, budget: u64) -> Settings {
    Settings {
        workers,
        budget,
        scales: true,
    }
}

// Whether the corner has this size.
fn is_corner(corner: &Corner, width: u32, height: u32) -> bool {
    corner.width == width && corner.height == height && corner.tokens.len() == 1
}

// Whether the point has this size and these places.
fn is_point(point: &Point, width: u32, height: u32, places: &[u32]) -> bool {
    point.width == width && point.height == height && point.places.as_slice() == places
}

// Whether these are the corners before the two points.
fn are_corners(corners: &[Corner]) -> bool {
    corners.len() == 2 && is_corner(&corners[0], 1, 4) && is_corner(&corners[1], 3, 1)
}

// Whether these are the two points.
fn are_points(points: &[Point]) -> bool {
    points.len() == 2
        && is_point(&points[0], 2, 2, &[0, 0, 0, 1])
        && is_point(&points[1], 4, 1, &[0, 0, 2, 0])
}

// Whether `workers` workers come to both points, with the corners before them.
fn is_whole<R: Threads + Wait + Sync>(
    rt: &R,
    alloc: Global,
    pair: &Instance,
    workers: u32,
) -> Result<bool, Fail> {
    if pair.dims() != 2 {
        return Ok(false);
    }
    let front = least_sizes(rt, alloc, pair, &settings(workers, 2), &NoGate)?;
    Ok(front.complete && are_corners(&front.corners) && are_points(&front.points))
}

#[test]
fn a_pair_has_two_least_sizes(rt: HostRuntime) -> Result<(), Fail> {
    let pair = pair(rt.alloc())?;
    assert!(rt; is_whole(&rt, rt.alloc(), &pair, 1)?);
    assert!(rt; is_whole(&rt, rt.alloc(), &pair, 2)?);
    Ok(())
}

// Whether `workers` workers come to nothing. The whole container takes two branchings.
fn is_spent<R: Threads + Wait + Sync>(
    rt: &R,
    alloc: Global,
    pair: &Instance,
    workers: u32,
) -> Result<bool, Fail> {
    if pair.dims() != 2 {
        return Ok(false);
    }
    let front = least_sizes(rt, alloc, pair, &settings(workers, 1), &NoGate)?;
    Ok(!front.complete && front.points.is_empty() && front.corners.is_empty())
}

#[test]
fn a_budget_that_is_spent_ends_the_walk(rt: HostRuntime) -> Result<(), Fail> {
    let pair = pair(rt.alloc())?;
    assert!(rt; is_spent(&rt, rt.alloc(), &pair, 1)?);
    assert!(rt; is_spent(&rt, rt.alloc(), &pair, 2)?);
    Ok(())
}
