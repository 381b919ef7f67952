//! A tree in which memory is short at one node: several workers end with want of memory, and one
//! worker, who explores from the root, with the whole outcome.
use crate::board_rows::{EIGHT, instance_of};
use crate::compare::is_same;
use box_instances::NoMemory;
use class_search::ClassTree;
use proof_tree::Outcome;
use std::alloc::Global;
use std::sync::Wait;
use std::test::Fail;
use std::thread::Threads;
use work_share::{NoGate, Settings, ShortTree, Tree, solve_shared};

// The budget where no words say another.
const BUDGET: u64 = 1_000_000;

// What `workers` workers give of the tree of eight boxes in a row, where memory is short at the
// first child of the root.
fn share_short<R: Threads + Wait + Sync>(
    rt: &R,
    alloc: Global,
    tree: &ClassTree<'_>,
    workers: u32,
) -> Result<Outcome, NoMemory> {
    let Ok(path) = Vec::from_slice(alloc, &[0]) else {
        return Err(NoMemory);
    };
    let short = ShortTree::new(tree, path);
    let settings = Settings {
        workers,
        budget: BUDGET,
        scales: false,
    };
    solve_shared(rt, alloc, &short, &settings, &NoGate)
}

#[test]
fn a_worker_that_is_short_ends_the_search(rt: HostRuntime) -> Result<(), Fail> {
    let instance = instance_of(rt.alloc(), &EIGHT)?;
    let tree = ClassTree::new(rt.alloc(), &instance, false)?;
    let is_short = share_short(&rt, rt.alloc(), &tree, 2).is_err();
    assert!(rt; is_short);
    Ok(())
}

// Whether one worker gives what the tree gives, a refutation of 5,039 branchings.
fn is_whole_alone<R: Threads + Wait + Sync>(
    rt: &R,
    alloc: Global,
    tree: &ClassTree<'_>,
) -> Result<bool, NoMemory> {
    let shared = share_short(rt, alloc, tree, 1)?;
    let is_no = matches!(&shared, Outcome::No { count: 5039, .. });
    Ok(is_no && is_same(alloc, &shared, &tree.explore(alloc, &[], BUDGET)?)?)
}

#[test]
fn one_worker_meets_no_task_that_is_short(rt: HostRuntime) -> Result<(), Fail> {
    let instance = instance_of(rt.alloc(), &EIGHT)?;
    let tree = ClassTree::new(rt.alloc(), &instance, false)?;
    assert!(rt; is_whole_alone(&rt, rt.alloc(), &tree)?);
    Ok(())
}
