//! Tests of choice trees: what they give under a budget, and which of them are the same.
use crate::cases::{BLOCKS, BOARDS, Case, PLANKS, THREE, Wanted, instance_of, is_wanted};
use bin_knapsack::ChoiceTree;
use box_instances::{Instance, NoMemory};
use proof_tree::Outcome;
use std::alloc::Global;
use std::test::Fail;
use work_share::Tree;

const BOTH: Case = Case {
    container: &[10, 10],
    kerf: &[0, 0],
    boxes: &[(&[4, 4], 2), (&[4, 4], 3)],
};

// A case, a value, whether there are scales, a cap, and what the tree gives.
type Row = (Case, u64, bool, u64, Wanted);

const ROWS: [Row; 16] = [
    (THREE, 9, true, 4, NINE),
    (THREE, 9, true, 3, Wanted::Past),
    (THREE, 8, true, 6, Wanted::Yes(&[0, 0, 0, 2, 6, 0], 6)),
    (THREE, 8, true, 5, Wanted::Past),
    (THREE, 0, true, 0, Wanted::Yes(&[], 0)),
    (THREE, 13, true, 0, Wanted::No(&[[4, 0]], 0)),
    (BOTH, 6, true, 0, Wanted::No(&[[4, 0]], 0)),
    (BOTH, 5, true, 4, Wanted::Yes(&[0, 0, 0, 1, 4, 0], 4)),
    (BOTH, 5, true, 3, Wanted::Past),
    (PLANKS, 0, false, 0, Wanted::Yes(&[], 0)),
    (PLANKS, 1, false, 0, Wanted::No(&[[4, 0]], 0)),
    (BOARDS, 2, false, 3, Wanted::Yes(&[0, 0, 0, 1, 0, 5], 3)),
    (BLOCKS, 9, true, 4, NINE_OF_BLOCKS),
    (BLOCKS, 9, true, 3, Wanted::Past),
    (BLOCKS, 8, true, 6, Wanted::Past),
    (
        BLOCKS,
        8,
        true,
        7,
        Wanted::Yes(&[0, 0, 0, 0, 2, 0, 0, 2], 7),
    ),
];

const NINE: Wanted = Wanted::No(&[[1, 1], [1, 2], [2, 0], [3, 0], [4, 0], [4, 0]], 4);

const NINE_OF_BLOCKS: Wanted = Wanted::No(&[[1, 2], [1, 1], [2, 0], [3, 0], [4, 0], [4, 0]], 4);

// What a tree gives.
fn explored(
    alloc: Global,
    instance: &Instance,
    value: u64,
    scales: bool,
    cap: u64,
) -> Result<Outcome, NoMemory> {
    ChoiceTree::new(alloc, instance, value, scales)?.explore(alloc, &[], cap)
}

fn gives(alloc: Global, row: &Row) -> Result<bool, Fail> {
    let (case, value, scales, cap, wanted) = row;
    let instance = instance_of(alloc, case)?;
    Ok(is_wanted(
        alloc,
        &explored(alloc, &instance, *value, *scales, *cap)?,
        wanted,
    )?)
}

#[test]
fn values_are_reached_or_refuted(rt: HostRuntime) -> Result<(), Fail> {
    for row in &ROWS {
        assert!(rt; gives(rt.alloc(), row)?);
    }
    Ok(())
}

// Values and choices of scales of another tree, and whether its parts are those of the first.
const OTHERS: [(u64, bool, bool); 3] = [(8, true, true), (9, true, false), (8, false, false)];

// Whether a tree is the same as the one of these boxes.
fn is_same_as(
    alloc: Global,
    tree: &ChoiceTree<'_>,
    instance: &Instance,
    value: u64,
    scales: bool,
) -> Result<bool, NoMemory> {
    Ok(tree.same(&ChoiceTree::new(alloc, instance, value, scales)?))
}

// Whether the comparison of each of `OTHERS` with a tree of the three boxes is as listed.
fn are_told_apart(alloc: Global, tree: &ChoiceTree<'_>) -> Result<bool, Fail> {
    let instance = instance_of(alloc, &THREE)?;
    for (value, scales, wanted) in OTHERS {
        if is_same_as(alloc, tree, &instance, value, scales)? != wanted {
            return Ok(false);
        }
    }
    Ok(true)
}

// The same for their tree for the value 8.
fn first_is_told_apart(alloc: Global, instance: &Instance) -> Result<bool, Fail> {
    are_told_apart(alloc, &ChoiceTree::new(alloc, instance, 8, true)?)
}

#[test]
fn choice_trees_of_equal_parts_are_the_same(rt: HostRuntime) -> Result<(), Fail> {
    let instance = instance_of(rt.alloc(), &THREE)?;
    assert!(rt; first_is_told_apart(rt.alloc(), &instance)?);
    Ok(())
}
