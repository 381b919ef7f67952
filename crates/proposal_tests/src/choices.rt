//! The greatest value by proposals first.
use crate::instances::{at_roots, instance_of, settings};
use bin_knapsack::greatest_value;
use box_instances::Instance;
use proposals::propose_choice;
use proposed_answers::{Choice, greatest_value_proposed, is_choice};
use std::alloc::Global;
use std::sync::Wait;
use std::test::Fail;
use std::thread::Threads;
use work_share::{NoGate, Settings};

// Three boxes of 3 by 6, each worth 1, which a container of 10 by 6 holds.
fn three_in_ten(alloc: Global) -> Result<Instance, Fail> {
    instance_of(alloc, &[10, 6], &[&[3, 6], &[3, 6], &[3, 6]])
}

// Four of them, of which it holds three.
fn four_in_ten(alloc: Global) -> Result<Instance, Fail> {
    instance_of(alloc, &[10, 6], &[&[3, 6], &[3, 6], &[3, 6], &[3, 6]])
}

// Four boxes around a hole of 2 by 2, and one of 1 by 3, which has no room beside them.
fn around_a_hole(alloc: Global) -> Result<Instance, Fail> {
    instance_of(
        alloc,
        &[10, 10],
        &[&[6, 4], &[4, 6], &[6, 4], &[4, 6], &[1, 3]],
    )
}

// What a run comes to: the greatest value, or a placed and a refuted one.
#[derive(Clone, Copy)]
enum Told {
    Greatest(u64),
    Between(u64, u64),
}

fn is_told(found: &Choice, told: Told) -> bool {
    match (found, told) {
        (Choice::Greatest { value, .. }, Told::Greatest(worth)) => *value == worth,
        (
            Choice::Between {
                placed,
                refuted,
                ..
            },
            Told::Between(low, high),
        ) => *placed == low && *refuted == high,
        _ => false,
    }
}

// Whether a run by proposals comes to that.
fn proposes<R: Threads + Wait + Sync>(
    rt: &R,
    alloc: Global,
    instance: &Instance,
    settings: &Settings,
    told: Told,
) -> Result<bool, Fail> {
    let found = greatest_value_proposed(rt, alloc, instance, settings, &NoGate)?;
    Ok(is_told(&found, told))
}

// Whether a run without proposals, at the roots alone, comes to that.
fn decides<R: Threads + Wait + Sync>(
    rt: &R,
    alloc: Global,
    instance: &Instance,
    told: Told,
) -> Result<bool, Fail> {
    let found = greatest_value(rt, alloc, instance, &at_roots(1), &NoGate)?;
    Ok(is_told(&found, told))
}

// Whether one worker and two come to 3 at the roots. The trees between 0 and 4 have branchings, so
// the run without proposals is spent.
fn is_closed<R: Threads + Wait + Sync>(
    rt: &R,
    alloc: Global,
    instance: &Instance,
) -> Result<bool, Fail> {
    let alone = proposes(rt, alloc, instance, &at_roots(1), Told::Greatest(3))?;
    let shared = proposes(rt, alloc, instance, &at_roots(2), Told::Greatest(3))?;
    Ok(alone && shared && decides(rt, alloc, instance, Told::Between(0, 4))?)
}

#[test]
fn values_are_closed_by_proposals(rt: HostRuntime) -> Result<(), Fail> {
    let instance = three_in_ten(rt.alloc())?;
    assert!(rt; is_closed(&rt, rt.alloc(), &instance)?);
    Ok(())
}

// Whether one worker and two find the greatest value 3 with a budget of 0: a proposed tree refutes
// value 4 by the areas of the boxes. Without scales no tree is proposed, and value 4 stays open.
fn is_closed_by_areas<R: Threads + Wait + Sync>(
    rt: &R,
    alloc: Global,
    instance: &Instance,
) -> Result<bool, Fail> {
    let alone = proposes(rt, alloc, instance, &at_roots(1), Told::Greatest(3))?;
    let shared = proposes(rt, alloc, instance, &at_roots(2), Told::Greatest(3))?;
    let plain = proposes(rt, alloc, instance, &settings(1, 0), Told::Between(3, 5))?;
    Ok(alone && shared && plain)
}

#[test]
fn values_are_refuted_by_a_proposed_tree(rt: HostRuntime) -> Result<(), Fail> {
    let instance = four_in_ten(rt.alloc())?;
    assert!(rt; is_closed_by_areas(&rt, rt.alloc(), &instance)?);
    Ok(())
}

// Whether the answer is between two values with a budget of 0, and the greatest value under an
// ample one. No single token refutes the set of all boxes, only a tree with branchings: with a
// budget of 0 value 5 stays open between 4 and 6.
fn is_open_at_the_roots<R: Threads + Wait + Sync>(
    rt: &R,
    alloc: Global,
    instance: &Instance,
) -> Result<bool, Fail> {
    let few = proposes(rt, alloc, instance, &at_roots(1), Told::Between(4, 6))?;
    let ample = proposes(
        rt,
        alloc,
        instance,
        &settings(1, 100_000),
        Told::Greatest(4),
    )?;
    Ok(few && ample)
}

#[test]
fn values_beside_a_tree_past_the_budget_are_two(rt: HostRuntime) -> Result<(), Fail> {
    let instance = around_a_hole(rt.alloc())?;
    assert!(rt; is_open_at_the_roots(&rt, rt.alloc(), &instance)?);
    Ok(())
}

// Whether nothing is proposed, and nothing is worth more than nothing.
fn is_worth_nothing<R: Threads + Wait + Sync>(
    rt: &R,
    alloc: Global,
    instance: &Instance,
) -> Result<bool, Fail> {
    let is_none = propose_choice(rt, alloc, instance, 1, 1)?.is_none();
    let ample = settings(1, 100_000);
    Ok(is_none && proposes(rt, alloc, instance, &ample, Told::Greatest(0))?)
}

#[test]
fn where_no_box_fits_nothing_is_worth_more(rt: HostRuntime) -> Result<(), Fail> {
    let instance = instance_of(rt.alloc(), &[4, 4], &[&[2, 5], &[1, 5]])?;
    assert!(rt; is_worth_nothing(&rt, rt.alloc(), &instance)?);
    Ok(())
}

// Whether what is proposed for the four boxes, three of them and six coordinates, is a choice.
fn passes<R: Threads + Sync>(rt: &R, alloc: Global, instance: &Instance) -> Result<bool, Fail> {
    let Some(choice) = propose_choice(rt, alloc, instance, 1, 1)? else {
        return Ok(false);
    };
    if choice.taken.len() != 3 || choice.places.len() != 6 {
        return Ok(false);
    }
    Ok(is_choice(alloc, instance, &choice.taken, &choice.places)?)
}

// Boxes, their coordinates, and whether they are a choice. A coordinate that is one too high leaves
// the container; the numbers don't rise; a box isn't there; a coordinate is too many; and no box
// needs no coordinate.
const CHOICES: [(&[u32], &[u32], bool); 7] = [
    (&[0, 1, 2], &[0, 0, 3, 0, 6, 0], true),
    (&[0, 1, 2], &[0, 1, 3, 0, 6, 0], false),
    (&[0, 1, 1], &[0, 0, 3, 0, 6, 0], false),
    (&[0, 1, 4], &[0, 0, 3, 0, 6, 0], false),
    (&[0, 1, 2], &[0, 0, 3, 0, 6, 0, 0], false),
    (&[], &[0, 0, 3, 0, 6, 0, 0], false),
    (&[], &[], true),
];

fn each_is_told(alloc: Global, instance: &Instance) -> Result<bool, Fail> {
    for (taken, places, is_good) in CHOICES {
        if is_choice(alloc, instance, taken, places)? != is_good {
            return Ok(false);
        }
    }
    Ok(true)
}

#[test]
fn a_proposed_choice_passes_its_test(rt: HostRuntime) -> Result<(), Fail> {
    let instance = four_in_ten(rt.alloc())?;
    assert!(rt; passes(&rt, rt.alloc(), &instance)?);
    Ok(())
}

#[test]
fn choices_with_a_fault_are_refused(rt: HostRuntime) -> Result<(), Fail> {
    let instance = four_in_ten(rt.alloc())?;
    assert!(rt; each_is_told(rt.alloc(), &instance)?);
    Ok(())
}
