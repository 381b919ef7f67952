//! Decisions by proposals first.
use crate::instances::{are_same, four_in_a_row, is_packing, pinwheel, settings, two_small};
use box_instances::Instance;
use class_search::decide;
use proof_tree::Outcome;
use proposed_answers::{Proposal, decide_proposed, decide_with_proposal, is_refutation};
use std::alloc::Global;
use std::sync::Wait;
use std::test::Fail;
use std::thread::Threads;
use work_share::{NoGate, Settings};

// Whether a packing is proposed, so that the budget of 0 is enough.
fn is_placed_by<R: Threads + Wait + Sync>(
    rt: &R,
    alloc: Global,
    instance: &Instance,
    workers: u32,
) -> Result<bool, Fail> {
    match decide_proposed(rt, alloc, instance, &settings(workers, 0), &NoGate)? {
        Outcome::Yes { numbers, count } => Ok(count == 0 && is_packing(instance, &numbers)),
        _ => Ok(false),
    }
}

// Whether one is for one worker and for two.
fn is_placed<R: Threads + Wait + Sync>(
    rt: &R,
    alloc: Global,
    instance: &Instance,
) -> Result<bool, Fail> {
    Ok(is_placed_by(rt, alloc, instance, 1)? && is_placed_by(rt, alloc, instance, 2)?)
}

// The tree of the pinwheel has more than no branching, so this is decided by a proposal.
#[test]
fn a_yes_is_proposed(rt: HostRuntime) -> Result<(), Fail> {
    let instance = pinwheel(rt.alloc())?;
    assert!(rt; is_placed(&rt, rt.alloc(), &instance)?);
    Ok(())
}

// Whether a refutation is proposed. A tree has one leaf more than splits.
fn is_refuted_by<R: Threads + Wait + Sync>(
    rt: &R,
    alloc: Global,
    instance: &Instance,
    workers: u32,
) -> Result<bool, Fail> {
    match decide_proposed(rt, alloc, instance, &settings(workers, 0), &NoGate)? {
        Outcome::No { tokens, count } => {
            let is_tree = tokens.len() % 2 == 1 && tokens.len() as u64 / 2 == count;
            let tokens = tokens.tokens(alloc)?;
            Ok(is_tree && is_refutation(alloc, instance, &tokens)?)
        }
        _ => Ok(false),
    }
}

// Whether one is for one worker and for two.
fn is_refuted<R: Threads + Wait + Sync>(
    rt: &R,
    alloc: Global,
    instance: &Instance,
) -> Result<bool, Fail> {
    Ok(is_refuted_by(rt, alloc, instance, 1)? && is_refuted_by(rt, alloc, instance, 2)?)
}

#[test]
fn a_no_is_proposed(rt: HostRuntime) -> Result<(), Fail> {
    let instance = four_in_a_row(rt.alloc())?;
    assert!(rt; is_refuted(&rt, rt.alloc(), &instance)?);
    Ok(())
}

// What the tree answers where nothing was proposed.
fn behind<R: Threads + Wait + Sync>(
    rt: &R,
    alloc: Global,
    instance: &Instance,
    settings: &Settings,
) -> Result<Outcome, Fail> {
    Ok(decide_with_proposal(rt, alloc, instance, Proposal::Nothing, settings, &NoGate)?)
}

// Whether the budget of 0 is spent.
fn is_past_by<R: Threads + Wait + Sync>(
    rt: &R,
    alloc: Global,
    instance: &Instance,
    workers: u32,
) -> Result<bool, Fail> {
    let outcome = behind(rt, alloc, instance, &settings(workers, 0))?;
    Ok(matches!(&outcome, Outcome::Past))
}

// Whether under an ample budget the answer is that of the described tree.
fn is_told_by<R: Threads + Wait + Sync>(
    rt: &R,
    alloc: Global,
    instance: &Instance,
    workers: u32,
) -> Result<bool, Fail> {
    let enough = settings(workers, 1000);
    let outcome = behind(rt, alloc, instance, &enough)?;
    Ok(are_same(&outcome, &decide(rt, alloc, instance, &enough, &NoGate)?))
}

// Whether it is by one worker and by two.
fn is_past<R: Threads + Wait + Sync>(
    rt: &R,
    alloc: Global,
    instance: &Instance,
) -> Result<bool, Fail> {
    Ok(is_past_by(rt, alloc, instance, 1)? && is_past_by(rt, alloc, instance, 2)?)
}

#[test]
fn no_proposal_and_small_budget_is_undecided(rt: HostRuntime) -> Result<(), Fail> {
    let two = two_small(rt.alloc())?;
    assert!(rt; is_past(&rt, rt.alloc(), &two)?);
    Ok(())
}

// Whether it is by one worker and by two.
fn is_told<R: Threads + Wait + Sync>(
    rt: &R,
    alloc: Global,
    instance: &Instance,
) -> Result<bool, Fail> {
    Ok(is_told_by(rt, alloc, instance, 1)? && is_told_by(rt, alloc, instance, 2)?)
}

#[test]
fn without_a_proposal_the_tree_decides(rt: HostRuntime) -> Result<(), Fail> {
    let two = two_small(rt.alloc())?;
    assert!(rt; is_told(&rt, rt.alloc(), &two)?);
    Ok(())
}
