//! What the searches propose.
use crate::instances::{four_in_a_row, instance_of, is_packing, pinwheel, two_small};
use box_instances::Instance;
use conflict_search::{Proposal, propose_refutation};
use proof_tree::Token;
use proposals::propose_places;
use proposed_answers::is_refutation;
use std::alloc::Global;
use std::test::Fail;

// Whether a packing is proposed.
fn is_placed(alloc: Global, instance: &Instance) -> Result<bool, Fail> {
    match propose_places(alloc, instance, 4000)? {
        Some(places) => Ok(is_packing(instance, &places)),
        None => Ok(false),
    }
}

#[test]
fn the_lowest_gap_finds_a_pinwheel(rt: HostRuntime) -> Result<(), Fail> {
    let instance = pinwheel(rt.alloc())?;
    assert!(rt; is_placed(rt.alloc(), &instance)?);
    Ok(())
}

#[test]
fn the_lowest_corner_finds_blocks(rt: HostRuntime) -> Result<(), Fail> {
    let boxes: &[&[u32]] = &[&[2, 2, 1], &[2, 1, 1], &[2, 1, 1]];
    let instance = instance_of(rt.alloc(), &[2, 2, 2], boxes)?;
    assert!(rt; is_placed(rt.alloc(), &instance)?);
    Ok(())
}

// What the search for refutations answers within a given number of splits.
#[derive(Clone, Copy)]
enum Answer {
    Nothing,
    TooLarge(u32, u32),
    Scales,
    Tree,
    Packing,
    Other,
}

fn found(alloc: Global, instance: &Instance, scales: bool, splits: u64) -> Result<Answer, Fail> {
    Ok(match propose_refutation(alloc, instance, scales, splits)? {
        Proposal::Nothing => Answer::Nothing,
        Proposal::Places(places) => placed(instance, &places),
        Proposal::Tokens(tokens) => told(alloc, instance, &tokens)?,
    })
}

fn placed(instance: &Instance, places: &[u32]) -> Answer {
    if is_packing(instance, places) {
        Answer::Packing
    } else {
        Answer::Other
    }
}

// A tree has one leaf more than splits.
fn told(alloc: Global, instance: &Instance, tokens: &[Token]) -> Result<Answer, Fail> {
    if tokens.len() != 1 {
        let is_tree = tokens.len() % 2 == 1 && is_refutation(alloc, instance, tokens)?;
        return Ok(if is_tree { Answer::Tree } else { Answer::Other });
    }
    Ok(match &tokens[0] {
        Token::TooLarge { box_no, dim } => Answer::TooLarge(*box_no, *dim),
        Token::Scales(_) => Answer::Scales,
        _ => Answer::Other,
    })
}

// Whether neither search proposes anything without a step.
fn is_nothing(alloc: Global, instance: &Instance) -> Result<bool, Fail> {
    let is_none = propose_places(alloc, instance, 0)?.is_none();
    Ok(is_none && matches!(found(alloc, instance, true, 0)?, Answer::Nothing))
}

#[test]
fn nothing_is_found_without_steps(rt: HostRuntime) -> Result<(), Fail> {
    let instance = pinwheel(rt.alloc())?;
    assert!(rt; is_nothing(rt.alloc(), &instance)?);
    Ok(())
}

#[test]
fn a_box_that_is_too_large_is_told_first(rt: HostRuntime) -> Result<(), Fail> {
    let instance = instance_of(rt.alloc(), &[3, 3], &[&[1, 3], &[1, 4]])?;
    assert!(rt;
        matches!(
            found(rt.alloc(), &instance, true, 0)?,
            Answer::TooLarge(2, 2)
        )
    );
    Ok(())
}

#[test]
fn scales_are_tried_before_the_tree(rt: HostRuntime) -> Result<(), Fail> {
    let row = four_in_a_row(rt.alloc())?;
    assert!(rt; matches!(found(rt.alloc(), &row, true, 0)?, Answer::Scales));
    Ok(())
}

#[test]
fn the_tree_refutes_four_in_a_row(rt: HostRuntime) -> Result<(), Fail> {
    let row = four_in_a_row(rt.alloc())?;
    assert!(rt; matches!(found(rt.alloc(), &row, false, 1000)?, Answer::Tree));
    Ok(())
}

#[test]
fn the_tree_meets_a_packing(rt: HostRuntime) -> Result<(), Fail> {
    let two = two_small(rt.alloc())?;
    assert!(rt; matches!(found(rt.alloc(), &two, false, 1000)?, Answer::Packing));
    Ok(())
}
