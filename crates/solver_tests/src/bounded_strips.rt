//! The least height with families of boxes side by side.
use bounded_answers::{BoundedStrip, HeightProof, least_height_bounded};
use box_instances::{BoxItem, Instance, Sides};
use std::alloc::Global;
use std::sync::Wait;
use std::test::Fail;
use std::thread::Threads;
use work_share::{NoGate, Settings};

// Boxes 6 2 in a strip of this width.
fn boards(alloc: Global, width: u32, count: u32) -> Result<Instance, Fail> {
    let mut items = Vec::new(alloc);
    for _ in 0..count {
        items.push(BoxItem {
            sides: Sides::from_slice(alloc, &[6, 2])?,
            value: 1,
        })?;
    }
    Ok(Instance::new(Sides::from_slice(alloc, [width, 9].as_slice())?, items)?)
}

// What a run comes to: the refuted and the placed height, and whether a family refutes the first;
// or none where a box is too wide.
type Wanted = Option<(u32, u32, bool)>;

fn came(strip: &BoundedStrip) -> Wanted {
    match strip {
        BoundedStrip::Levels(levels) => {
            let by_family = matches!(&levels.proof, HeightProof::Families(_));
            Some((levels.refuted, levels.placed, by_family))
        }
        BoundedStrip::NoneFits { .. } => None,
    }
}

// A width, a number of boxes, a budget, whether there are scale functions and proposals, and what
// comes. Of four boards no two stand side by side in a width of 10. The rule TRIPLE refutes height
// 4 at the root and the class tree height 7; with no branching a family does. Two boards stand side
// by side in a width of 12; at height 3 no two lie one above the other, so all four stand side by
// side.
const RUNS: [(u32, u32, u64, bool, bool, Wanted); 7] = [
    (10, 4, 0, false, false, Some((7, 8, true))),
    (10, 4, 0, true, false, Some((7, 8, false))),
    (10, 4, 1_000_000, false, false, Some((7, 8, false))),
    (10, 4, 1_000_000, false, true, Some((7, 8, false))),
    (10, 20, 0, false, false, Some((39, 40, true))),
    (12, 4, 0, false, false, Some((3, 8, true))),
    (5, 4, 0, false, false, None),
];

fn each_is_wanted<R: Threads + Wait + Sync>(rt: &R, alloc: Global) -> Result<bool, Fail> {
    for (width, count, budget, scales, proposals, wanted) in RUNS {
        let instance = boards(alloc, width, count)?;
        let run = Settings {
            workers: 1,
            budget,
            scales,
        };
        let strip = least_height_bounded(rt, alloc, &instance, &run, proposals, &NoGate)?;
        if came(&strip) != wanted {
            return Ok(false);
        }
    }
    Ok(true)
}

#[test]
fn families_close_the_gap_of_a_small_budget(rt: HostRuntime) -> Result<(), Fail> {
    assert!(rt; each_is_wanted(&rt, rt.alloc())?);
    Ok(())
}
