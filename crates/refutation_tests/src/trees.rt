//! Trees that the search found, and trees that it wouldn't write.
use crate::instances::{drawn_instance, instance_of, is_refuted};
use box_instances::{Instance, NoMemory};
use class_search::decide_alone;
use proof_tree::{Outcome, Token};
use refutation_check::{FeedVerdict, RefuseCode, Refuter};
use std::alloc::Global;
use std::test::Fail;

// Whether the refutation of the search is accepted, with at least `least` tokens. `None` means that
// none was found.
fn is_checked(
    alloc: Global,
    instance: &Instance,
    scales: bool,
    least: usize,
) -> Result<Option<bool>, Fail> {
    match decide_alone(alloc, instance, 20_000, scales)? {
        Outcome::No { tokens, .. } => {
            let mut refuter = Refuter::new(alloc, instance)?;
            let is_whole = is_refuted(&mut refuter, tokens.tokens(alloc)?.as_slice());
            Ok(Some(is_whole && tokens.len() >= least))
        }
        _ => Ok(None),
    }
}

// The same for an instance that is drawn.
fn drawn_is_checked(alloc: Global, random: &mut u32, round: u32) -> Result<Option<bool>, Fail> {
    let instance = drawn_instance(alloc, random, 2 + round % 3, 4 + round % 5, 9, 10)?;
    is_checked(alloc, &instance, round % 2 == 0, 1)
}

#[test]
fn checker_accepts_refutations_of_the_search(rt: HostRuntime) -> Result<(), Fail> {
    let mut random = 7;
    let mut found = 0u32;
    for round in 0..120u32 {
        if let Some(is_accepted) = drawn_is_checked(rt.alloc(), &mut random, round)? {
            assert!(rt; is_accepted);
            found = found.saturating_add(1);
        }
    }
    assert!(rt; found > 20);
    Ok(())
}

#[test]
fn a_tree_of_ten_thousand_tokens_is_accepted(rt: HostRuntime) -> Result<(), Fail> {
    let alloc = rt.alloc();
    let row = instance_of(alloc, &[23, 10], &[(&[3, 6], 8)])?;
    assert!(rt; is_checked(alloc, &row, false, 10_079)? == Some(true));
    Ok(())
}

// As many boxes as there may be.
#[test]
fn a_tree_of_128_boxes_in_four_dimensions_is_accepted(rt: HostRuntime) -> Result<(), Fail> {
    let large = instance_of(rt.alloc(), &[10, 10, 10, 10], &[(&[6, 6, 6, 6], 128)])?;
    assert!(rt; is_checked(rt.alloc(), &large, false, 1)? == Some(true));
    Ok(())
}

#[test]
fn a_tree_of_128_boxes_with_scales_is_accepted(rt: HostRuntime) -> Result<(), Fail> {
    let small = instance_of(rt.alloc(), &[127, 10], &[(&[1, 6], 128)])?;
    assert!(rt; is_checked(rt.alloc(), &small, true, 1)? == Some(true));
    Ok(())
}

// The token of a kind: 0 a leaf, 1 a split by order, else one by apart or joined.
fn token_of(kind: u32, dim: u32, u: u32, v: u32) -> Token {
    match kind {
        0 => Token::Rules,
        1 => Token::Order { dim, u, v },
        _ => Token::Apart { dim, u, v },
    }
}

// What the last of these tokens is answered.
fn last_answer(
    alloc: Global,
    instance: &Instance,
    tokens: &[(u32, u32, u32, u32)],
) -> Result<FeedVerdict, Fail> {
    let mut refuter = Refuter::new(alloc, instance)?;
    let mut answer = FeedVerdict::More;
    for (kind, dim, u, v) in tokens {
        answer = refuter.feed(&token_of(*kind, *dim, *u, *v));
    }
    Ok(answer)
}

// Leaves before splits, and the pairs from the last one on: the search splits the first pairs
// first.
fn candidates(alloc: Global, dims: u32, boxes: u32) -> Result<Vec<(u32, u32, u32, u32)>, Fail> {
    let mut list = Vec::new(alloc);
    list.push((0, 1, 1, 2))?;
    for dim in 1..=dims {
        for last in 1..=boxes {
            for first in 1..last {
                let v = boxes.saturating_sub(first.saturating_sub(1));
                let u = boxes.saturating_sub(last.saturating_sub(1));
                list.push((1, dim, u, v))?;
                list.push((2, dim, u, v))?;
            }
        }
    }
    Ok(list)
}

// Adds the first candidate that is accepted, and says what it was answered.
fn extend(
    alloc: Global,
    instance: &Instance,
    tokens: &mut Vec<(u32, u32, u32, u32)>,
    list: &[(u32, u32, u32, u32)],
) -> Result<Option<FeedVerdict>, Fail> {
    for token in list {
        tokens.push(*token)?;
        let answer = last_answer(alloc, instance, tokens.as_slice())?;
        if answer == FeedVerdict::More || answer == FeedVerdict::Done {
            return Ok(Some(answer));
        }
        tokens.pop();
    }
    Ok(None)
}

// How many tokens a whole tree of accepted candidates has, where one comes of them.
fn extended(
    alloc: Global,
    instance: &Instance,
    list: &[(u32, u32, u32, u32)],
) -> Result<Option<usize>, Fail> {
    let mut tokens = Vec::new(alloc);
    for _ in 0..100u32 {
        match extend(alloc, instance, &mut tokens, list)? {
            Some(FeedVerdict::More) => {}
            Some(FeedVerdict::Done) => return Ok(Some(tokens.len())),
            _ => return Ok(None),
        }
    }
    Ok(None)
}

#[test]
fn other_trees_than_those_of_the_search_are_accepted(rt: HostRuntime) -> Result<(), Fail> {
    let row = instance_of(rt.alloc(), &[11, 10], &[(&[3, 6], 4)])?;
    let list = candidates(rt.alloc(), 2, 4)?;
    let count = extended(rt.alloc(), &row, list.as_slice())?;
    assert!(rt; count.is_some_and(|tokens| tokens > 10));
    Ok(())
}

const AFTER: FeedVerdict = FeedVerdict::Refused {
    code: RefuseCode::After,
};

// Whether a leaf makes the tree whole, and nothing is taken behind it.
fn ends_at_its_leaf(alloc: Global, instance: &Instance) -> Result<bool, NoMemory> {
    let mut refuter = Refuter::new(alloc, instance)?;
    let is_open = !refuter.whole();
    let is_taken = refuter.feed(&Token::Rules) == FeedVerdict::Done && refuter.whole();
    let is_after = refuter.feed(&Token::Rules) == AFTER && !refuter.whole();
    let stays = refuter.feed(&Token::Rules) == AFTER && !refuter.whole();
    Ok(is_open && is_taken && is_after && stays)
}

#[test]
fn nothing_is_taken_behind_a_whole_tree(rt: HostRuntime) -> Result<(), Fail> {
    let boxes = instance_of(rt.alloc(), &[10, 10], &[(&[6, 4], 3)])?;
    assert!(rt; ends_at_its_leaf(rt.alloc(), &boxes)?);
    Ok(())
}

const RANGE: FeedVerdict = FeedVerdict::Refused {
    code: RefuseCode::Range,
};

// Whether a token that is out of range is refused, and what comes behind it for the same cause.
fn stays_refused(alloc: Global, instance: &Instance) -> Result<bool, NoMemory> {
    let mut refuter = Refuter::new(alloc, instance)?;
    let is_refused = refuter.feed(&Token::Order { dim: 9, u: 1, v: 2 }) == RANGE;
    Ok(is_refused && refuter.feed(&Token::Rules) == RANGE && !refuter.whole())
}

#[test]
fn a_refusal_stays(rt: HostRuntime) -> Result<(), Fail> {
    let boxes = instance_of(rt.alloc(), &[10, 10], &[(&[6, 4], 3)])?;
    assert!(rt; stays_refused(rt.alloc(), &boxes)?);
    Ok(())
}
