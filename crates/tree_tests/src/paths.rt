//! Tests of nodes of both outer trees by their paths.
use crate::cases::{PLANKS, THREE, Wanted, instance_of, is_wanted};
use bin_knapsack::{BinTree, ChoiceTree};
use box_instances::{Instance, NoMemory};
use proof_tree::Token;
use std::alloc::Global;
use std::test::Fail;
use work_share::{Node, Tree};

// What each child of the root gives: the first is split again, and the second falls short.
const INSIDE: Wanted = Wanted::No(&[[1, 2], [2, 0], [3, 0], [4, 0]], 3);

const OUTSIDE: Wanted = Wanted::No(&[[4, 0]], 1);

// Whether the root is split by the first box, and its children give what they are to give.
fn choices_go_down(alloc: Global, tree: &ChoiceTree<'_>) -> Result<bool, NoMemory> {
    match tree.node(alloc, &[])? {
        Node::Split {
            token: Token::Choose { box_no: 1 },
            own: 0,
            children: 2,
        } => {
            let inside = tree.explore(alloc, &[0], 3)?;
            let spent = tree.explore(alloc, &[0], 2)?;
            let outside = tree.explore(alloc, &[1], 1)?;
            let none = tree.explore(alloc, &[1], 0)?;
            let is_leaf = matches!(tree.node(alloc, &[1])?, Node::Leaf);
            Ok(
                is_leaf
                    && is_wanted(alloc, &inside, &INSIDE)?
                    && is_wanted(alloc, &spent, &Wanted::Past)?
                    && is_wanted(alloc, &outside, &OUTSIDE)?
                    && is_wanted(alloc, &none, &Wanted::Past)?,
            )
        }
        _ => Ok(false),
    }
}

// The same of the tree of an instance for the value 9.
fn choice_tree_goes_down(alloc: Global, instance: &Instance) -> Result<bool, NoMemory> {
    choices_go_down(alloc, &ChoiceTree::new(alloc, instance, 9, true)?)
}

#[test]
fn choices_are_explored_at_paths(rt: HostRuntime) -> Result<(), Fail> {
    let instance = instance_of(rt.alloc(), &THREE)?;
    assert!(rt; choice_tree_goes_down(rt.alloc(), &instance)?);
    Ok(())
}

const PLACED: Wanted = Wanted::Yes(&[0, 0, 0, 0, 0, 5, 1, 0, 0], 5);

// Whether the root has one child, which gives what it is to give.
fn bins_go_down(alloc: Global, tree: &BinTree<'_>) -> Result<bool, NoMemory> {
    match tree.node(alloc, &[])? {
        Node::Split {
            token: Token::Assign { box_no: 1 },
            own: 0,
            children: 1,
        } => {
            let placed = tree.explore(alloc, &[0], 5)?;
            let spent = tree.explore(alloc, &[0], 4)?;
            let is_split = matches!(
                tree.node(alloc, &[0])?,
                Node::Split {
                    token: Token::Assign { box_no: 2 },
                    own: 1,
                    children: 2
                }
            );
            Ok(
                is_split
                    && is_wanted(alloc, &placed, &PLACED)?
                    && is_wanted(alloc, &spent, &Wanted::Past)?,
            )
        }
        _ => Ok(false),
    }
}

// The same of the tree of an instance for two bins.
fn bin_tree_goes_down(alloc: Global, instance: &Instance) -> Result<bool, NoMemory> {
    if !instance.sides_fit() || 2 > instance.len() {
        return Ok(false);
    }
    bins_go_down(alloc, &BinTree::new(alloc, instance, 2, true)?)
}

#[test]
fn bins_are_explored_at_paths(rt: HostRuntime) -> Result<(), Fail> {
    let instance = instance_of(rt.alloc(), &PLANKS)?;
    assert!(rt; bin_tree_goes_down(rt.alloc(), &instance)?);
    Ok(())
}
