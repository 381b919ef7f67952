//! Proposed trees that refute a value, and their test.
use box_instances::{BoxItem, Instance, Sides};
use outer_proposals::propose_value_refutation;
use proof_tree::Token;
use proposed_answers::is_value_refutation;
use std::alloc::Global;
use std::test::Fail;

// Squares with these sides and values in a square of 10.
fn squares(alloc: Global, boxes: &[(u32, u64)]) -> Result<Instance, Fail> {
    let mut items = Vec::new(alloc);
    for (side, value) in boxes {
        items.push(BoxItem {
            sides: Sides::from_slice(alloc, [*side, *side].as_slice())?,
            value: *value,
        })?;
    }
    Ok(Instance::new(Sides::from_slice(alloc, &[10, 10])?, items)?)
}

// What comes of a goal and a number of tokens: no tree, or one of this many tokens that passes its
// test.
type Wanted = Option<usize>;

fn is_wanted(
    alloc: Global,
    instance: &Instance,
    goal: u64,
    most: u64,
    wanted: Wanted,
) -> Result<bool, Fail> {
    let Some(tokens) = propose_value_refutation(alloc, instance, goal, most)? else {
        return Ok(wanted.is_none());
    };
    Ok(wanted == Some(tokens.len()) && is_value_refutation(alloc, instance, goal, &tokens)?)
}

// Goals for squares of 6, 6 and 4 with the values 5, 4 and 3, of which the first and the last fit
// together: the most tokens, and what comes. For 9 the two large ones are a pair, and what is left
// beside either is too little: `c 1`, `c 2`, `s`, `x`, `w`, `w`. Six tokens are no tree of five.
const GOALS: [(u64, u64, Wanted); 6] = [
    (13, 1, Some(1)),
    (9, 100, Some(6)),
    (9, 6, Some(6)),
    (9, 5, None),
    (9, 0, None),
    (8, 100, None),
];

fn each_is_wanted(alloc: Global, instance: &Instance) -> Result<bool, Fail> {
    for (goal, most, wanted) in GOALS {
        if !is_wanted(alloc, instance, goal, most, wanted)? {
            return Ok(false);
        }
    }
    Ok(true)
}

#[test]
fn a_tree_refutes_one_more_than_the_greatest_value(rt: HostRuntime) -> Result<(), Fail> {
    let instance = squares(rt.alloc(), &[(6, 5), (6, 4), (4, 3)])?;
    assert!(rt; each_is_wanted(rt.alloc(), &instance)?);
    Ok(())
}

// Five squares of 5, of which four fit: their areas exceed.
fn refutes_by_areas(alloc: Global) -> Result<bool, Fail> {
    let instance = squares(alloc, &[(5, 1), (5, 1), (5, 1), (5, 1), (5, 1)])?;
    is_wanted(alloc, &instance, 5, 100, Some(12))
}

#[test]
fn a_tree_closes_a_set_by_scale_functions(rt: HostRuntime) -> Result<(), Fail> {
    assert!(rt; refutes_by_areas(rt.alloc())?);
    Ok(())
}

// A box that is longer than the container is alone in its set, and is decided first: `c 2`, `s`,
// `t 1 1`, `w`.
fn refutes_a_long_box(alloc: Global) -> Result<bool, Fail> {
    let instance = squares(alloc, &[(4, 3), (11, 5)])?;
    is_wanted(alloc, &instance, 4, 100, Some(4))
}

#[test]
fn a_tree_closes_a_set_with_a_long_box(rt: HostRuntime) -> Result<(), Fail> {
    assert!(rt; refutes_a_long_box(rt.alloc())?);
    Ok(())
}

// Whether the tree for a goal refutes neither a lower one, which some boxes reach, nor without its
// last token.
fn faults_are_refused(alloc: Global, instance: &Instance) -> Result<bool, Fail> {
    let Some(tokens) = propose_value_refutation(alloc, instance, 9, 100)? else {
        return Ok(false);
    };
    if is_value_refutation(alloc, instance, 8, &tokens)? || tokens.is_empty() {
        return Ok(false);
    }
    let short: &[Token] = &tokens[..tokens.len() - 1];
    Ok(!is_value_refutation(alloc, instance, 9, short)?)
}

#[test]
fn trees_with_a_fault_are_refused(rt: HostRuntime) -> Result<(), Fail> {
    let instance = squares(rt.alloc(), &[(6, 5), (6, 4), (4, 3)])?;
    assert!(rt; faults_are_refused(rt.alloc(), &instance)?);
    Ok(())
}
