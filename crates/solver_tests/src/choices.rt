//! The greatest value with priced leaves.
use crate::instances::squares;
use bounded_answers::{ValueLevels, ValueProof, greatest_value_bounded};
use box_instances::Instance;
use std::alloc::Global;
use std::sync::Wait;
use std::test::Fail;
use std::thread::Threads;
use work_share::{NoGate, Settings};

// Settings with this budget, and scale functions or not.
fn settings(budget: u64, scales: bool) -> Settings {
    Settings {
        workers: 1,
        budget,
        scales,
    }
}

// What a run comes to: the placed and the refuted value, and whether leaves are priced.
type Wanted = (u64, u64, bool);

fn has_priced(levels: &ValueLevels) -> bool {
    match &levels.proof {
        ValueProof::Plain(_) => false,
        ValueProof::Priced(_) => true,
    }
}

fn is_wanted<R: Threads + Wait + Sync>(
    rt: &R,
    alloc: Global,
    instance: &Instance,
    run: &Settings,
    proposals: bool,
    wanted: Wanted,
) -> Result<bool, Fail> {
    let levels = greatest_value_bounded(rt, alloc, instance, run, proposals, &NoGate)?;
    let came = (levels.placed, levels.refuted, has_priced(&levels));
    Ok(came == wanted)
}

// Of three squares of 6 and value 5 one fits, and a square of 3 and value 2 beside it. At the roots
// alone the choice trees place no box and refute 18.
const BOXES: [(u32, u64); 4] = [(6, 5), (6, 5), (6, 5), (3, 2)];

// A budget, whether there are scale functions and proposals, and what comes. With ample budget the
// choice trees close the gap themselves. Without scale functions no leaf is priced.
const RUNS: [(u64, bool, bool, Wanted); 6] = [
    (0, true, false, (7, 8, true)),
    (0, true, true, (7, 8, true)),
    (1_000_000, true, false, (7, 8, false)),
    (1_000_000, true, true, (7, 8, true)),
    (1_000_000, false, false, (7, 8, false)),
    (1_000_000, false, true, (7, 8, false)),
];

fn each_is_wanted<R: Threads + Wait + Sync>(rt: &R, alloc: Global) -> Result<bool, Fail> {
    let instance = squares(alloc, &BOXES)?;
    for (budget, scales, proposals, wanted) in RUNS {
        let run = settings(budget, scales);
        if !is_wanted(rt, alloc, &instance, &run, proposals, wanted)? {
            return Ok(false);
        }
    }
    Ok(true)
}

#[test]
fn priced_leaves_close_the_gap_of_a_small_budget(rt: HostRuntime) -> Result<(), Fail> {
    assert!(rt; each_is_wanted(&rt, rt.alloc())?);
    Ok(())
}
