//! Tests of class trees: decisions under a budget, by one worker and by several, nodes by their
//! paths, and equal trees.
use box_instances::{BoxItem, Instance, NoMemory, Sides};
use class_search::{ClassTree, Exclusion, decide, decide_alone};
use packing_terms::Rel;
use proof_tree::{Outcome, Token};
use std::alloc::Global;
use std::sync::Wait;
use std::test::Fail;
use std::thread::Threads;
use work_share::{NoGate, Node, Settings, Tree};

// Two boxes, 6 by 4 and 6 by this side, in 10 by 10.
fn two_boxes(alloc: Global, side: u32) -> Result<Instance, Fail> {
    let mut boxes = Vec::new(alloc);
    for last in [4, side] {
        boxes.push(BoxItem {
            sides: Sides::from_slice(alloc, [6, last].as_slice())?,
            value: 1,
        })?;
    }
    Ok(Instance::new(Sides::from_slice(alloc, &[10, 10])?, boxes)?)
}

// Whether the outcome is a yes with these places and this count.
fn is_yes(outcome: &Outcome, places: &[u32], branchings: u64) -> bool {
    match outcome {
        Outcome::Yes { numbers, count } => *count == branchings && numbers.as_slice() == places,
        _ => false,
    }
}

// Whether the outcome is the one of two boxes 6 by 4 and 6 by 6 where that is within the cap, and
// past it else.
fn is_told(outcome: &Outcome, is_within: bool) -> bool {
    if is_within {
        is_yes(outcome, &[0, 0, 0, 4], 1)
    } else {
        matches!(outcome, Outcome::Past)
    }
}

fn explores_well(
    alloc: Global,
    tree: &ClassTree<'_>,
    cap: u64,
    is_within: bool,
) -> Result<bool, NoMemory> {
    Ok(is_told(&tree.explore(alloc, &[], cap)?, is_within))
}

fn decides_well(
    alloc: Global,
    instance: &Instance,
    cap: u64,
    is_within: bool,
) -> Result<bool, NoMemory> {
    Ok(is_told(&decide_alone(alloc, instance, cap, true)?, is_within))
}

fn decides_well_by_workers<R: Threads + Wait + Sync>(
    rt: &R,
    alloc: Global,
    instance: &Instance,
    budget: u64,
    is_within: bool,
) -> Result<bool, NoMemory> {
    for workers in [1, 2, 8] {
        let settings = Settings {
            workers,
            budget,
            scales: true,
        };
        let outcome = decide(rt, alloc, instance, &settings, &NoGate)?;
        if !is_told(&outcome, is_within) {
            return Ok(false);
        }
    }
    Ok(true)
}

// Caps, each with whether one branching is within it.
const CAPS: [(u64, bool); 2] = [(0, false), (1, true)];

fn tree_explores_well(alloc: Global, instance: &Instance) -> Result<bool, NoMemory> {
    let tree = ClassTree::new(alloc, instance, true)?;
    Ok(explores_well(alloc, &tree, 0, false)? && explores_well(alloc, &tree, 1, true)?)
}

// Whether one worker and several decide well at each cap.
fn workers_decide_well<R: Threads + Wait + Sync>(
    rt: &R,
    alloc: Global,
    instance: &Instance,
) -> Result<bool, NoMemory> {
    for (cap, is_within) in CAPS {
        if !decides_well(alloc, instance, cap, is_within)? {
            return Ok(false);
        }
        if !decides_well_by_workers(rt, alloc, instance, cap, is_within)? {
            return Ok(false);
        }
    }
    Ok(true)
}

#[test]
fn a_pair_is_decided_by_one_branching(rt: HostRuntime) -> Result<(), Fail> {
    let instance = two_boxes(rt.alloc(), 6)?;
    assert!(rt; tree_explores_well(rt.alloc(), &instance)?);
    assert!(rt; workers_decide_well(&rt, rt.alloc(), &instance)?);
    Ok(())
}

// Whether the root is split by the order of the second dimension, its second child is a leaf, and
// what is below gives the places of that order.
fn second_child_is_a_leaf(alloc: Global, tree: &ClassTree<'_>) -> Result<bool, NoMemory> {
    match tree.node(alloc, &[])? {
        Node::Split {
            token: Token::Order { dim: 2, u: 1, v: 2 },
            own: 1,
            children: 2,
        } => {
            let is_leaf = matches!(tree.node(alloc, &[1])?, Node::Leaf);
            Ok(is_leaf && is_yes(&tree.explore(alloc, &[1], 0)?, &[0, 6, 0, 0], 0))
        }
        _ => Ok(false),
    }
}

// The same of the tree of an instance.
fn tree_is_followed(alloc: Global, instance: &Instance) -> Result<bool, NoMemory> {
    second_child_is_a_leaf(alloc, &ClassTree::new(alloc, instance, true)?)
}

#[test]
fn a_path_is_followed(rt: HostRuntime) -> Result<(), Fail> {
    let instance = two_boxes(rt.alloc(), 6)?;
    assert!(rt; tree_is_followed(rt.alloc(), &instance)?);
    Ok(())
}

// The tree that starts with this relation excluded in the second dimension, of the second box to
// the first, explored.
fn starts_well(
    alloc: Global,
    instance: &Instance,
    rel: Rel,
    places: &[u32],
) -> Result<bool, NoMemory> {
    if instance.dims() != 2 || instance.len() != 2 {
        return Ok(false);
    }
    let start = [Exclusion {
        dim: 1,
        u: 1,
        v: 0,
        rel,
    }];
    let tree = ClassTree::starting(alloc, instance, &start, true)?;
    Ok(is_yes(&tree.explore(alloc, &[], 0)?, places, 0))
}

#[test]
fn starting_exclusions_are_kept(rt: HostRuntime) -> Result<(), Fail> {
    let instance = two_boxes(rt.alloc(), 6)?;
    assert!(rt; starts_well(rt.alloc(), &instance, Rel::After, &[0, 6, 0, 0])?);
    assert!(rt; starts_well(rt.alloc(), &instance, Rel::Before, &[0, 0, 0, 4])?);
    Ok(())
}

// Whether a tree is the same as the one of two boxes, the second 6 by this side.
fn is_same(alloc: Global, tree: &ClassTree<'_>, side: u32, scales: bool) -> Result<bool, Fail> {
    let other = two_boxes(alloc, side)?;
    Ok(tree.same(&ClassTree::new(alloc, &other, scales)?))
}

// Sides of the second box of another tree, whether it has scales, and whether its parts are those
// of the first tree.
const OTHERS: [(u32, bool, bool); 3] = [(6, true, true), (6, false, false), (5, true, false)];

// Whether each of them is so.
fn are_told_apart(alloc: Global, tree: &ClassTree<'_>) -> Result<bool, Fail> {
    for (side, scales, wanted) in OTHERS {
        if is_same(alloc, tree, side, scales)? != wanted {
            return Ok(false);
        }
    }
    Ok(true)
}

// The same for their tree with scales.
fn first_is_told_apart(alloc: Global, instance: &Instance) -> Result<bool, Fail> {
    are_told_apart(alloc, &ClassTree::new(alloc, instance, true)?)
}

#[test]
fn class_trees_of_equal_parts_are_the_same(rt: HostRuntime) -> Result<(), Fail> {
    let instance = two_boxes(rt.alloc(), 6)?;
    assert!(rt; first_is_told_apart(rt.alloc(), &instance)?);
    Ok(())
}
