//! Proposals with a fault: each leads to the answer of the described tree.
use crate::instances::{are_same, four_in_a_row, pinwheel, settings};
use box_instances::Instance;
use class_search::decide;
use conflict_search::propose_refutation;
use proof_tree::{Outcome, Token};
use proposals::propose_places;
use proposed_answers::{Proposal, decide_with_proposal};
use std::alloc::Global;
use std::sync::Wait;
use std::test::Fail;
use std::thread::Threads;
use work_share::NoGate;

const BUDGET: u64 = 100_000;

// What the described tree answers.
fn told<R: Threads + Wait + Sync>(
    rt: &R,
    alloc: Global,
    instance: &Instance,
) -> Result<Outcome, Fail> {
    Ok(decide(rt, alloc, instance, &settings(1, BUDGET), &NoGate)?)
}

// What is answered behind these tokens.
fn behind<R: Threads + Wait + Sync>(
    rt: &R,
    alloc: Global,
    instance: &Instance,
    tokens: Vec<Token>,
) -> Result<Outcome, Fail> {
    let proposal = Proposal::Tokens(tokens);
    Ok(decide_with_proposal(rt, alloc, instance, proposal, &settings(1, BUDGET), &NoGate)?)
}

// Whether the described tree, which refutes the instance, answers behind these tokens.
fn falls_back<R: Threads + Wait + Sync>(
    rt: &R,
    alloc: Global,
    instance: &Instance,
    tokens: Vec<Token>,
) -> Result<bool, Fail> {
    let found = behind(rt, alloc, instance, tokens)?;
    let is_no = matches!(&found, Outcome::No { .. });
    Ok(is_no && are_same(&found, &told(rt, alloc, instance)?))
}

// The tokens that are proposed for an instance that doesn't fit.
fn proposed(alloc: Global, instance: &Instance) -> Result<Vec<Token>, Fail> {
    match propose_refutation(alloc, instance, false, 1000)? {
        Proposal::Tokens(tokens) => Ok(tokens),
        _ => Err("no tokens".into()),
    }
}

// What is answered behind the proposed places of an instance, where one of them is one too high.
fn behind_places<R: Threads + Wait + Sync>(
    rt: &R,
    alloc: Global,
    instance: &Instance,
) -> Result<Option<Outcome>, Fail> {
    let Some(mut places) = propose_places(alloc, instance, 4000)? else {
        return Ok(None);
    };
    if places.len() < 4 {
        return Ok(None);
    }
    places[3] = places[3].wrapping_add(1);
    let proposal = Proposal::Places(places);
    let found = decide_with_proposal(rt, alloc, instance, proposal, &settings(1, BUDGET), &NoGate)?;
    Ok(Some(found))
}

// Whether that is what the described tree answers, a yes.
fn is_placed_by_the_tree<R: Threads + Wait + Sync>(
    rt: &R,
    alloc: Global,
    instance: &Instance,
) -> Result<bool, Fail> {
    let Some(found) = behind_places(rt, alloc, instance)? else {
        return Ok(false);
    };
    let is_yes = matches!(&found, Outcome::Yes { .. });
    Ok(is_yes && are_same(&found, &told(rt, alloc, instance)?))
}

#[test]
fn a_wrong_coordinate_is_refused(rt: HostRuntime) -> Result<(), Fail> {
    let instance = pinwheel(rt.alloc())?;
    assert!(rt; is_placed_by_the_tree(&rt, rt.alloc(), &instance)?);
    Ok(())
}

// The proposed tokens with another one in the place of the first.
fn with_another_first(alloc: Global, instance: &Instance) -> Result<Vec<Token>, Fail> {
    let mut tokens = proposed(alloc, instance)?;
    if !tokens.is_empty() {
        tokens[0] = Token::Rules;
    }
    Ok(tokens)
}

// Whether the described tree answers behind these.
fn falls_back_at_the_first<R: Threads + Wait + Sync>(
    rt: &R,
    alloc: Global,
    instance: &Instance,
) -> Result<bool, Fail> {
    falls_back(rt, alloc, instance, with_another_first(alloc, instance)?)
}

#[test]
fn a_wrong_token_is_refused(rt: HostRuntime) -> Result<(), Fail> {
    let instance = four_in_a_row(rt.alloc())?;
    assert!(rt; falls_back_at_the_first(&rt, rt.alloc(), &instance)?);
    Ok(())
}

// The proposed tokens, and one more behind them.
fn with_one_more(alloc: Global, instance: &Instance) -> Result<Vec<Token>, Fail> {
    let mut tokens = proposed(alloc, instance)?;
    tokens.push(Token::Rules)?;
    Ok(tokens)
}

// Whether the described tree answers behind these.
fn falls_back_behind_the_last<R: Threads + Wait + Sync>(
    rt: &R,
    alloc: Global,
    instance: &Instance,
) -> Result<bool, Fail> {
    falls_back(rt, alloc, instance, with_one_more(alloc, instance)?)
}

#[test]
fn a_token_too_many_is_refused(rt: HostRuntime) -> Result<(), Fail> {
    let instance = four_in_a_row(rt.alloc())?;
    assert!(rt; falls_back_behind_the_last(&rt, rt.alloc(), &instance)?);
    Ok(())
}
