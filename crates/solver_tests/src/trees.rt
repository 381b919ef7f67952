//! Proposed trees with priced leaves, and the check of them.
use crate::instances::squares;
use bounded_proposals::{BoundedEffort, TreeLimits, ValueProposal, ValueRefuter};
use bounded_tokens::BoundedToken;
use box_instances::Instance;
use outer_check::{Goal, OuterRefuter};
use std::alloc::Global;
use std::test::Fail;

// What comes of a goal.
#[derive(Clone, Copy, Debug, PartialEq, Eq)]
enum Came {
    // A tree that the checker accepts whole.
    Refuted,
    // A tree that it doesn't.
    Wrong,
    // Boxes: their number.
    Placed(usize),
    // Nothing.
    Nothing,
}

// Whether the checker accepts the tokens as a refutation of the value.
fn is_accepted(
    alloc: Global,
    instance: &Instance,
    goal: u64,
    tokens: &[BoundedToken],
) -> Result<bool, Fail> {
    let mut refuter = OuterRefuter::new(alloc, instance, Goal::Value(goal))?;
    for token in tokens {
        refuter.feed_bounded(token);
    }
    Ok(refuter.whole())
}

// What is proposed of a goal with `steps` steps.
fn came_of(
    alloc: Global,
    instance: &Instance,
    refuter: &mut ValueRefuter,
    goal: u64,
    steps: u64,
) -> Result<Came, Fail> {
    let effort = BoundedEffort {
        tree: TreeLimits {
            steps,
            tokens: 1000,
        },
        grown_splits: 60,
        reached_splits: 1000,
    };
    match refuter.refute(alloc, instance, goal, effort)? {
        ValueProposal::Refuted(tokens) => {
            if is_accepted(alloc, instance, goal, &tokens)? {
                Ok(Came::Refuted)
            } else {
                Ok(Came::Wrong)
            }
        }
        ValueProposal::Placed { taken, .. } => Ok(Came::Placed(taken.len())),
        ValueProposal::Undecided { .. } | ValueProposal::Spent => Ok(Came::Nothing),
    }
}

// Of three squares of 6 one fits, so they are worth 5 and not 6; one of 3 and value 2 fits beside
// each: 7 and not 8.
fn squares_are_bounded(alloc: Global) -> Result<bool, Fail> {
    let instance = squares(alloc, &[(6, 5), (6, 5), (6, 5), (3, 2)])?;
    let mut refuter = ValueRefuter::new(alloc, &instance)?;
    let refuted = came_of(alloc, &instance, &mut refuter, 8, 100_000)?;
    let placed = came_of(alloc, &instance, &mut refuter, 7, 100_000)?;
    Ok(refuted == Came::Refuted && placed == Came::Placed(2))
}

#[test]
fn a_tree_with_priced_leaves_refutes_one_more_than_the_greatest_value(
    rt: HostRuntime,
) -> Result<(), Fail> {
    assert!(rt; squares_are_bounded(rt.alloc())?);
    Ok(())
}

// One priced leaf refutes the value of the root, and without a step there is none.
fn root_is_priced(alloc: Global) -> Result<bool, Fail> {
    let instance = squares(alloc, &[(6, 5), (6, 5), (6, 5)])?;
    let mut refuter = ValueRefuter::new(alloc, &instance)?;
    let goal = refuter.root_goal();
    let whole = came_of(alloc, &instance, &mut refuter, goal, 100_000)?;
    let none = came_of(alloc, &instance, &mut refuter, goal, 0)?;
    Ok(goal == 6 && whole == Came::Refuted && none == Came::Nothing)
}

#[test]
fn a_priced_root_refutes_the_bound_of_its_tuple(rt: HostRuntime) -> Result<(), Fail> {
    assert!(rt; root_is_priced(rt.alloc())?);
    Ok(())
}
