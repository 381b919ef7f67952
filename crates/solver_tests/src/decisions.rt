//! Symmetry facts and the decisions that begin with them, on instances worked out by hand.
use box_instances::{BoxItem, Instance, NoMemory, Sides};
use packing_terms::{Exclusion, Rel};
use proof_tree::{Outcome, Token};
use std::alloc::Global;
use std::sync::Wait;
use std::test::Fail;
use std::thread::Threads;
use symmetry_facts::{decide_reduced, facts};
use work_share::{NoGate, Settings};

// The instance of boxes with two sides.
fn flat(alloc: Global, container: [u32; 2], sides: &[[u32; 2]]) -> Result<Instance, Fail> {
    let mut boxes = Vec::new(alloc);
    for pair in sides {
        boxes.push(BoxItem {
            sides: Sides::from_slice(alloc, pair.as_slice())?,
            value: 1,
        })?;
    }
    Ok(Instance::new(Sides::from_slice(alloc, container.as_slice())?, boxes)?)
}

// Whether the exclusion is the fact of this dimension and pair.
fn is_fact(e: &Exclusion, place: &[u32; 3]) -> bool {
    let [dim, u, v] = *place;
    e.dim == dim && e.u == u && e.v == v && e.rel == Rel::After
}

// Whether these are the facts, in this order.
fn are_facts(found: &[Exclusion], places: &[[u32; 3]]) -> bool {
    if found.len() != places.len() {
        return false;
    }
    for (e, place) in found.iter().zip(places) {
        if !is_fact(e, place) {
            return false;
        }
    }
    true
}

// A container, its boxes, and their facts by dimension and pair.
type Case = ([u32; 2], &'static [[u32; 2]], &'static [[u32; 3]]);

const CASES: [Case; 3] = [
    (
        [10, 10],
        FOUR_TWINS,
        &[
            [0, 0, 1],
            [0, 0, 2],
            [0, 0, 3],
            [0, 1, 2],
            [0, 1, 3],
            [0, 2, 3],
            [1, 0, 1],
        ],
    ),
    (
        [10, 10],
        &[[2, 2], [3, 6], [6, 3], [3, 6]],
        &[[0, 1, 3], [0, 0, 2], [1, 1, 2]],
    ),
    ([1, 1], &[[1, 1]], &[]),
];

const FOUR_TWINS: &[[u32; 2]] = &[[3, 6], [3, 6], [3, 6], [3, 6]];

fn has_facts(alloc: Global, case: &Case) -> Result<bool, Fail> {
    let (container, sides, places) = case;
    let instance = flat(alloc, *container, sides)?;
    Ok(are_facts(facts(alloc, &instance)?.as_slice(), places))
}

#[test]
fn facts_stand_in_their_order(rt: HostRuntime) -> Result<(), Fail> {
    for case in &CASES {
        assert!(rt; has_facts(rt.alloc(), case)?);
    }
    Ok(())
}

fn settings(workers: u32, scales: bool) -> Settings {
    Settings {
        workers,
        budget: 0,
        scales,
    }
}

// Whether the outcome is a no by the facts alone.
fn is_no_at_once(alloc: Global, outcome: &Outcome) -> Result<bool, NoMemory> {
    Ok(match outcome {
        Outcome::No { tokens, count } => {
            let tokens = tokens.tokens(alloc)?;
            *count == 0 && matches!(tokens.as_slice(), [Token::Rules])
        }
        _ => false,
    })
}

// Whether the instance is refuted by its facts alone, by `workers` workers.
fn is_refuted<R: Threads + Wait + Sync>(
    rt: &R,
    alloc: Global,
    container: [u32; 2],
    sides: &[[u32; 2]],
    workers: u32,
) -> Result<bool, Fail> {
    let instance = flat(alloc, container, sides)?;
    let outcome = decide_reduced(rt, alloc, &instance, &settings(workers, false), &NoGate)?;
    Ok(is_no_at_once(alloc, &outcome)?)
}

// Whether the outcome is a yes with these places, without a branching.
fn is_yes(outcome: &Outcome, places: &[u32]) -> bool {
    match outcome {
        Outcome::Yes { numbers, count } => *count == 0 && numbers.as_slice() == places,
        _ => false,
    }
}

// Whether two boxes that stand on one another are placed, by `workers` workers.
fn is_placed<R: Threads + Wait + Sync>(rt: &R, alloc: Global, workers: u32) -> Result<bool, Fail> {
    let two = flat(alloc, [10, 10], &[[6, 4], [6, 6]])?;
    let outcome = decide_reduced(rt, alloc, &two, &settings(workers, true), &NoGate)?;
    Ok(is_yes(&outcome, &[0, 0, 0, 4]))
}

#[test]
fn twins_in_a_row_are_refuted_at_once(rt: HostRuntime) -> Result<(), Fail> {
    for workers in [1, 2] {
        assert!(rt; is_refuted(&rt, rt.alloc(), [10, 10], FOUR_TWINS, workers)?);
        assert!(rt; is_refuted(&rt, rt.alloc(), [23, 10], &[[3, 6]; 8], workers)?);
        assert!(rt; is_placed(&rt, rt.alloc(), workers)?);
    }
    Ok(())
}

// Whether the budget is spent on two equal boxes in a container of twice their width, by `workers`
// workers: the facts alone settle nothing.
fn is_past<R: Threads + Wait + Sync>(rt: &R, alloc: Global, workers: u32) -> Result<bool, Fail> {
    let crossing = flat(alloc, [4, 4], &[[2, 1], [2, 1]])?;
    let outcome = decide_reduced(rt, alloc, &crossing, &settings(workers, true), &NoGate)?;
    Ok(matches!(&outcome, Outcome::Past))
}

#[test]
fn a_budget_that_is_spent_is_told(rt: HostRuntime) -> Result<(), Fail> {
    for workers in [1, 2] {
        assert!(rt; is_past(&rt, rt.alloc(), workers)?);
    }
    Ok(())
}
