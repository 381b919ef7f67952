//! Bins by proposals first.
use crate::instances::{at_roots, instance_of, settings};
use bin_knapsack::least_bins;
use box_instances::Instance;
use proposals::propose_bins;
use proposed_answers::{Bins, are_bin_numbers, least_bins_proposed};
use std::alloc::Global;
use std::sync::Wait;
use std::test::Fail;
use std::thread::Threads;
use work_share::{NoGate, Settings};

// Four boxes of 3 by 6, of which a bin of 10 by 6 holds three. The trees have branchings.
fn four_in_two(alloc: Global) -> Result<Instance, Fail> {
    instance_of(alloc, &[10, 6], &[&[3, 6], &[3, 6], &[3, 6], &[3, 6]])
}

// Four boxes around a hole of 2 by 2, and one that doesn't go in there: neither volume nor scales
// refute one bin, and its tree has branchings.
fn around_a_hole(alloc: Global) -> Result<Instance, Fail> {
    instance_of(
        alloc,
        &[10, 10],
        &[&[6, 4], &[4, 6], &[6, 4], &[4, 6], &[1, 3]],
    )
}

// What a run comes to: the least number, a refuted and a placed one, or the box that is too large
// and its dimension.
#[derive(Clone, Copy)]
enum Told {
    Least(u32),
    Between(u32, u32),
    NoneFits(u32, u32),
}

fn is_told(found: &Bins, told: Told) -> bool {
    match (found, told) {
        (Bins::Least { bins, .. }, Told::Least(count)) => *bins == count,
        (Bins::Between { refuted, bins, .. }, Told::Between(low, high)) => {
            *refuted == low && *bins == high
        }
        (Bins::NoneFits { box_no, dim }, Told::NoneFits(first, along)) => {
            *box_no == first && *dim == along
        }
        _ => false,
    }
}

// Whether a run by proposals comes to that.
fn proposes<R: Threads + Wait + Sync>(
    rt: &R,
    alloc: Global,
    instance: &Instance,
    settings: &Settings,
    told: Told,
) -> Result<bool, Fail> {
    let found = least_bins_proposed(rt, alloc, instance, settings, &NoGate)?;
    Ok(is_told(&found, told))
}

// Whether a run without proposals is spent at the roots.
fn is_spent<R: Threads + Wait + Sync>(
    rt: &R,
    alloc: Global,
    instance: &Instance,
) -> Result<bool, Fail> {
    let found = least_bins(rt, alloc, instance, &at_roots(1), &NoGate)?;
    Ok(matches!(&found, Bins::Between { .. }))
}

// Whether one worker and two come to two bins at the roots, where a run without proposals is spent.
fn is_closed<R: Threads + Wait + Sync>(
    rt: &R,
    alloc: Global,
    instance: &Instance,
) -> Result<bool, Fail> {
    let alone = proposes(rt, alloc, instance, &at_roots(1), Told::Least(2))?;
    let shared = proposes(rt, alloc, instance, &at_roots(2), Told::Least(2))?;
    Ok(alone && shared && is_spent(rt, alloc, instance)?)
}

#[test]
fn bins_are_closed_by_proposals(rt: HostRuntime) -> Result<(), Fail> {
    let instance = four_in_two(rt.alloc())?;
    assert!(rt; is_closed(&rt, rt.alloc(), &instance)?);
    Ok(())
}

// Whether the answer is between no bin and two at the roots, and two under an ample budget.
fn is_open_at_the_roots<R: Threads + Wait + Sync>(
    rt: &R,
    alloc: Global,
    instance: &Instance,
) -> Result<bool, Fail> {
    let few = proposes(rt, alloc, instance, &at_roots(1), Told::Between(0, 2))?;
    let ample = proposes(rt, alloc, instance, &settings(1, 100_000), Told::Least(2))?;
    Ok(few && ample)
}

#[test]
fn bins_beside_a_tree_past_the_budget_are_two(rt: HostRuntime) -> Result<(), Fail> {
    let instance = around_a_hole(rt.alloc())?;
    assert!(rt; is_open_at_the_roots(&rt, rt.alloc(), &instance)?);
    Ok(())
}

#[test]
fn a_box_that_is_too_large_is_named(rt: HostRuntime) -> Result<(), Fail> {
    let alloc = rt.alloc();
    let instance = instance_of(alloc, &[4, 4], &[&[2, 4], &[1, 5]])?;
    assert!(rt; proposes(&rt, alloc, &instance, &at_roots(1), Told::NoneFits(1, 1))?);
    Ok(())
}

// Whether what is proposed for the four boxes, two bins and twelve numbers, is a packing in `count`
// bins once these numbers stand in their places.
fn passes_with(
    alloc: Global,
    instance: &Instance,
    count: u32,
    faults: &[(usize, u32)],
) -> Result<Option<bool>, Fail> {
    let Some(mut bins) = propose_bins(alloc, instance, 1, 10_000)? else {
        return Ok(None);
    };
    if bins.count != 2 || bins.numbers.len() != 12 || instance.len() != 4 || instance.dims() != 2 {
        return Ok(None);
    }
    for (place, number) in faults {
        if *place < bins.numbers.len() {
            bins.numbers[*place] = *number;
        }
    }
    if bins.numbers.len() != 12 {
        return Ok(None);
    }
    Ok(Some(are_bin_numbers(alloc, instance, count, &bins.numbers)?))
}

// A bin that isn't there is none; a coordinate that is one too high leaves the container; and four
// boxes in one bin overlap.
const FAULTS: [(u32, &[(usize, u32)], bool); 4] = [
    (2, &[], true),
    (1, &[], false),
    (2, &[(2, 1)], false),
    (2, &[(0, 0), (3, 0), (6, 0), (9, 0)], false),
];

fn each_is_told(alloc: Global, instance: &Instance) -> Result<bool, Fail> {
    for (count, faults, is_good) in FAULTS {
        if passes_with(alloc, instance, count, faults)? != Some(is_good) {
            return Ok(false);
        }
    }
    Ok(true)
}

#[test]
fn proposed_bins_pass_their_test_and_with_a_fault_are_refused(rt: HostRuntime) -> Result<(), Fail> {
    let instance = four_in_two(rt.alloc())?;
    assert!(rt; each_is_told(rt.alloc(), &instance)?);
    Ok(())
}
