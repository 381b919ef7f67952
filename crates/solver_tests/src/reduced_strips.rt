//! Least heights from the symmetry facts on, on strips worked out by hand.
use box_instances::{BoxItem, Instance, NoMemory, Sides};
use proof_tree::Token;
use std::alloc::Global;
use std::sync::Wait;
use std::test::Fail;
use std::thread::Threads;
use strip_solver::{Strip, least_height_reduced};
use work_share::{NoGate, Settings};

// The instance of boxes with two sides, in a strip of this width.
fn strip(alloc: Global, width: u32, sides: &[[u32; 2]]) -> Result<Instance, Fail> {
    let mut boxes = Vec::new(alloc);
    for pair in sides {
        boxes.push(BoxItem {
            sides: Sides::from_slice(alloc, pair.as_slice())?,
            value: 1,
        })?;
    }
    Ok(Instance::new(Sides::from_slice(alloc, &[width, 1])?, boxes)?)
}

// What is found within this budget, by `workers` workers.
fn found<R: Threads + Wait + Sync>(
    rt: &R,
    alloc: Global,
    row: &Row,
    budget: u64,
    workers: u32,
) -> Result<Strip, Fail> {
    let (width, sides, _height) = row;
    let instance = strip(alloc, *width, sides)?;
    let settings = Settings {
        workers,
        budget,
        scales: false,
    };
    Ok(least_height_reduced(rt, alloc, &instance, &settings, &NoGate)?)
}

// The width of a strip, its boxes, and their least height.
type Row = (u32, &'static [[u32; 2]], u32);

// In each, the boxes of the height below would stand in one row that is too long.
const ROWS: [Row; 3] = [
    (10, &[[3, 6], [3, 6], [3, 6], [3, 6]], 12),
    (10, &[[3, 6], [3, 6], [3, 6], [3, 6], [3, 6]], 12),
    (4, HALVES, 2),
];

const HALVES: &[[u32; 2]] = &[[2, 1], [2, 1], [2, 1]];

// Whether the least height is this one, and the rules alone refute the height below.
fn is_least(alloc: Global, strip: &Strip, least: u32) -> Result<bool, NoMemory> {
    Ok(match strip {
        Strip::Least { height, tokens, .. } => {
            let tokens = tokens.tokens(alloc)?;
            *height == least && matches!(tokens.as_slice(), [Token::Rules])
        }
        _ => false,
    })
}

#[test]
fn rows_of_equal_boxes_have_their_least_height(rt: HostRuntime) -> Result<(), Fail> {
    for row in &ROWS {
        for workers in [1, 2] {
            let strip = found(&rt, rt.alloc(), row, 1_000, workers)?;
            assert!(rt; is_least(rt.alloc(), &strip, row.2)?);
        }
    }
    Ok(())
}

// Whether the least height lies between these two.
fn is_between(strip: &Strip, low: u32, high: u32) -> bool {
    match strip {
        Strip::Between {
            refuted,
            height,
            ..
        } => *refuted == low && *height == high,
        _ => false,
    }
}

#[test]
fn a_budget_that_is_spent_leaves_two_heights(rt: HostRuntime) -> Result<(), Fail> {
    for workers in [1, 2] {
        let strip = found(&rt, rt.alloc(), &(4, HALVES, 2), 0, workers)?;
        assert!(rt; is_between(&strip, 1, 3));
    }
    Ok(())
}

#[test]
fn a_box_that_is_too_wide_is_named(rt: HostRuntime) -> Result<(), Fail> {
    let strip = found(&rt, rt.alloc(), &(3, &[[2, 1], [4, 1]], 0), 0, 1)?;
    assert!(rt; matches!(&strip, Strip::NoneFits { box_no: 1, dim: 0 }));
    Ok(())
}
