//! Tests of bin trees: what they give under a budget, and which of them are the same.
use crate::cases::{BLOCKS, BOARDS, Case, PLANKS, Wanted, instance_of, is_wanted};
use bin_knapsack::BinTree;
use box_instances::{Instance, NoMemory};
use proof_tree::Outcome;
use std::alloc::Global;
use std::test::Fail;
use work_share::Tree;

const LARGE: Case = Case {
    container: &[10, 10],
    kerf: &[0, 0],
    boxes: &[(&[6, 6], 0), (&[6, 6], 0)],
};

// A case, a number of bins, whether there are scales, a cap, and what the tree gives.
type Row = (Case, u32, bool, u64, Wanted);

const ROWS: [Row; 14] = [
    (PLANKS, 1, true, 0, Wanted::No(&[[6, 0]], 0)),
    (
        PLANKS,
        2,
        true,
        5,
        Wanted::Yes(&[0, 0, 0, 0, 0, 5, 1, 0, 0], 5),
    ),
    (PLANKS, 2, true, 4, Wanted::Past),
    (PLANKS, 0, true, 0, Wanted::No(&[[6, 0]], 0)),
    (PLANKS, 0, false, 0, Wanted::No(&[[5, 1]], 0)),
    (LARGE, 2, true, 3, Wanted::Yes(&[0, 0, 0, 1, 0, 0], 3)),
    (LARGE, 2, true, 2, Wanted::Past),
    (LARGE, 1, true, 0, Wanted::No(&[[6, 0]], 0)),
    (
        LARGE,
        1,
        false,
        2,
        Wanted::No(&[[5, 1], [5, 2], [2, 1], [3, 0]], 2),
    ),
    (LARGE, 1, false, 1, Wanted::Past),
    (BOARDS, 1, false, 4, BOARDS_IN_ONE),
    (BOARDS, 1, false, 3, Wanted::Past),
    (
        BOARDS,
        2,
        false,
        5,
        Wanted::Yes(&[0, 0, 0, 0, 0, 5, 1, 0, 0], 5),
    ),
    (BLOCKS, 2, true, 10, BLOCKS_IN_TWO),
];

const BOARDS_IN_ONE: Wanted = Wanted::No(&[[5, 1], [5, 2], [5, 3], [2, 1], [3, 0]], 4);

const BLOCKS_IN_TWO: Wanted = Wanted::Yes(&[1, 0, 0, 0, 0, 0, 0, 0, 1, 0, 0, 2, 1, 0, 2, 2], 10);

// What a tree gives.
fn explored(
    alloc: Global,
    instance: &Instance,
    bins: u32,
    scales: bool,
    cap: u64,
) -> Result<Outcome, NoMemory> {
    if !instance.sides_fit() || bins > instance.len() {
        return Err(NoMemory);
    }
    BinTree::new(alloc, instance, bins, scales)?.explore(alloc, &[], cap)
}

fn gives(alloc: Global, row: &Row) -> Result<bool, Fail> {
    let (case, bins, scales, cap, wanted) = row;
    let instance = instance_of(alloc, case)?;
    Ok(is_wanted(
        alloc,
        &explored(alloc, &instance, *bins, *scales, *cap)?,
        wanted,
    )?)
}

#[test]
fn bins_are_found_or_refuted(rt: HostRuntime) -> Result<(), Fail> {
    for row in &ROWS {
        assert!(rt; gives(rt.alloc(), row)?);
    }
    Ok(())
}

// Numbers of bins and choices of scales of another tree, and whether its parts are those of the
// first.
const OTHERS: [(u32, bool, bool); 3] = [(2, true, true), (1, true, false), (2, false, false)];

// Whether a tree is the same as the one of these boxes.
fn is_same_as(
    alloc: Global,
    tree: &BinTree<'_>,
    instance: &Instance,
    bins: u32,
    scales: bool,
) -> Result<bool, NoMemory> {
    if !instance.sides_fit() || bins > instance.len() {
        return Err(NoMemory);
    }
    Ok(tree.same(&BinTree::new(alloc, instance, bins, scales)?))
}

// Whether the comparison of each of `OTHERS` with a tree of the planks is as listed.
fn are_told_apart(alloc: Global, tree: &BinTree<'_>) -> Result<bool, Fail> {
    let instance = instance_of(alloc, &PLANKS)?;
    for (bins, scales, wanted) in OTHERS {
        if is_same_as(alloc, tree, &instance, bins, scales)? != wanted {
            return Ok(false);
        }
    }
    Ok(true)
}

// The same for their tree for two bins.
fn first_is_told_apart(alloc: Global, instance: &Instance) -> Result<bool, Fail> {
    if !instance.sides_fit() || 2 > instance.len() {
        return Ok(false);
    }
    are_told_apart(alloc, &BinTree::new(alloc, instance, 2, true)?)
}

#[test]
fn bin_trees_of_equal_parts_are_the_same(rt: HostRuntime) -> Result<(), Fail> {
    let instance = instance_of(rt.alloc(), &PLANKS)?;
    assert!(rt; first_is_told_apart(rt.alloc(), &instance)?);
    Ok(())
}
